// Bytes put into lent memory one behind another, as far as there is room.
//
// No public function has a `requires`: what would lie behind the lent memory's end is left out. Each answers every argument, as
// equations say.
#![tactic(auto)]

ghost use Rattle.std.specs.Prelude.{◌≡◌, ◌+◌, length, set};
ghost use Rattle.std.proofs.lemmas.List.Edits.{sets};

use octets::copy;

// Puts a byte k places behind a position, where there is room.
pub fn put_byte(out: &mut [u8], at: usize, k: usize, b: u8)
    ensures { out.new ≡ set out.old (at + k) b }
{
    if at < out.len() && k < out.len() - at {
        out[at + k] = b;
    }
}

// Puts bytes at a position, as far as there is room, and answers how many they are. They are copied at once, which is faster than byte by
// byte.
#[tactic(auto, using(crate::proofs::Putting::put_at_once))]
pub fn put_bytes(out: &mut [u8], at: usize, text: &[u8]) -> usize
    ensures value { result ≡ length text.now }
    ensures out_after { out.new ≡ sets out.old at text.now }
{
    if at < out.len() {
        copy(text, &mut out[at..]);
    }
    text.len()
}
