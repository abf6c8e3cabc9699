// What the walk over a tree notes of each node: the load that enters it, and its neighbour towards the sink. This crate alone knows how they
// stand in a table of notes, of three parts of 256 numbers: rates, bursts and neighbours.
//
// No public function has a `requires`: a number from 256 on is no node's, and has no notes.
#![tactic(auto)]

ghost use Rattle.std.specs.Prelude.{◌≡◌, cond, ◌<◌, ltb, length};
ghost use Rattle.tree_plan_model.specs.Inner.{load_noted, towards_noted, note_set};

use links::Load;
use measure::{FrameSymbols, Rate};

// Where the parts of a table of notes begin, behind the rates.
const BURST: usize = 256;

const TOWARDS: usize = 512;

// The load that enters node v; none where v is no node's number.
#[tactic(auto, unfolding(tree_plan_model::specs::Inner::load_noted, tree_plan_model::specs::Inner::load_in))]
pub fn load_at(notes: &[u64; 768], v: usize) -> Load
    ensures { result ≡ load_noted notes.now v }
{
    if v < BURST {
        Load {
            rate: Rate(notes[v]),
            burst: FrameSymbols(notes[BURST + v]),
        }
    } else {
        Load {
            rate: Rate(0),
            burst: FrameSymbols(0),
        }
    }
}

// The neighbour of node v towards the sink: 0 at the sink, and where v is no node's number.
#[tactic(auto, unfolding(tree_plan_model::specs::Inner::towards_noted, tree_plan_model::specs::Inner::towards_in))]
pub fn towards_at(notes: &[u64; 768], v: usize) -> usize
    ensures { result ≡ towards_noted notes.now v }
{
    if v < BURST {
        notes[TOWARDS + v] as usize
    } else {
        0
    }
}

// The router in whose superframe the link of node v lies, the parent of its two ends: v itself where its neighbour towards the sink has a
// larger number and so is its child, else its own parent.
pub fn superframe_at(notes: &[u64; 768], parent: u8, v: usize) -> usize
    ensures { result ≡ cond (ltb v (towards_noted notes.now v)) v parent }
{
    if v < towards_at(notes, v) {
        v
    } else {
        usize::from(parent)
    }
}

// Notes both of node v; nothing where v is no node's number.
#[tactic(auto, unfolding(tree_plan_model::specs::Inner::note_set))]
pub fn note(notes: &mut [u64; 768], v: usize, load: Load, towards: usize)
    ensures notes_after { notes.new ≡ note_set notes.old v load towards }
    ensures notes_len { v < 256 → length notes.old ≡ 768 }
{
    if v < BURST {
        notes[v] = load.rate.0;
        notes[BURST + v] = load.burst.0;
        notes[TOWARDS + v] = towards as u64;
    }
}
