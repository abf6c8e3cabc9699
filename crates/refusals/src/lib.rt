// Document 01's table of refusals ('Rows of settings'), 1 to 9, with the column LOSS (document 02, E5), and those of surveyed trees (E3):
// every reason for which something is refused, in one place. docs/CHANGING.md says what a new one touches.
//
// No public function has a `requires`: each answers every argument, as an equation with a definition of specs/ says.
#![tactic(auto)]

ghost use Rattle.std.specs.Prelude.{◌≡◌};
ghost use Rattle.refusals.specs.Refusals.{number_of, place_of};

use crate::cases::facts_of;
use crate::table::number_at;
use measure::Slots;

pub mod table; // the table's numbers and places
pub mod cases; // the sort, the place and the values of each refusal

// Why something is refused, with the values concerned. Columns count from 1.
#[derive(Clone, Copy)]
pub enum Refusal {
    // 1: the name line differs or is missing.
    Names,
    // 2: the value of a column is unreadable or missing.
    Unreadable {
        column: u32,
    },
    // 2: text after the last value, where this column would be.
    TextAfter {
        column: u32,
    },
    // 3: the value of a column is outside its range.
    OutOfRange {
        column: u32,
        value: u64,
    },
    // 4: values at odds with each other.
    AtOdds(Conflict),
    // 5: NE + NR > 7 reservations.
    Reservations {
        ne: u64,
        nr: u64,
    },
    // 6: more routers than superframes fit the beacon interval, 2^(BO − SO).
    Superframes {
        routers: u64,
        superframes: u64,
    },
    // 7: the slots used exceed L, the reservable ones, at the first such depth.
    SlotsUsed {
        depth: u32,
        used: Slots,
        reservable: Slots,
    },
    // 8: the lent buffer is shorter than the text to be written. In the library only.
    LentTooShort,
    // 9: a program's input is over 65,536 bytes. In programs only, where it comes before all others.
    InputTooLong,
    // 10, and 5 and 7 router by router: a surveyed tree.
    InTree(TreeRefusal),
}

// Which values are at odds with each other, and what they are.
#[derive(Clone, Copy)]
pub enum Conflict {
    // SO > BO.
    Orders { so: u64, bo: u64 },
    // NR = 0 with H > 0, or NR > 0 with H = 0.
    Routers { nr: u64, h: u64 },
    // NE = OWN = 0.
    Sensors { ne: u64, own: u64 },
    // SINK > H.
    SinkDepth { sink: u64, h: u64 },
    // SINK > 0 with NR < 2.
    SinkBranches { sink: u64, nr: u64 },
    // HEAD + DATA > 127.
    FrameLength { head: u64, payload: u64 },
    // LOSS > 0 with ACK 0 (document 02, E5).
    Unacknowledged { loss: u64, ack: u64 },
}

// Why a surveyed tree is refused, with the values concerned.
#[derive(Clone, Copy)]
pub enum TreeRefusal {
    // 10: the line of names of the node list differs or is missing.
    NodeNames,
    // 10: a line of the node list breaks a rule, or is missing. Node 1's is line 1.
    NodeLine {
        line: u32,
    },
    // 10: the sink is no router of the tree.
    SinkNode,
    // 5: more than 7 reservations in the superframe of this router.
    RouterReservations {
        router: u32,
        reservations: u64,
    },
    // 7: the slots used in the superframe of this router exceed L, its reservable ones.
    RouterSlots {
        router: u32,
        used: Slots,
        reservable: Slots,
    },
}

// What is told of a refusal: the position of its sort in the table, its place, and the values concerned, of which the sort's phrase takes
// none, one or both. Stays as it is: `sort` is a position and no enum, since the table's numbers, places and phrases are got by it.
#[derive(Clone, Copy)]
pub struct Facts {
    pub sort: usize,
    pub place: u32,
    pub first: u64,
    pub second: u64,
}

impl Refusal {
    // The number that the papers give it.
    #[tactic(auto, unfolding(crate::specs::Refusals::number_of))]
    pub fn number(self) -> u32
        ensures { result ≡ number_of self }
    {
        number_at(facts_of(self).sort)
    }

    // The place that they give it.
    #[tactic(auto, unfolding(crate::specs::Refusals::place_of))]
    pub fn place(self) -> u32
        ensures { result ≡ place_of self }
    {
        facts_of(self).place
    }
}
