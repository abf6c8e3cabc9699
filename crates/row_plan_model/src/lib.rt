// What the functions of rows presume of one another: definitions and laws, and no function. Crates row_check, row_loads,
// row_slots and row_decide answer them.
#![tactic(auto)]

use links::{Load, Reservation};
use measure::{FrameSymbols, Frames, Rate, Slots, Symbols};
use refusals::Refusal;
use settings_model::Settings;

// How many numbers of a table are filled, and the sum of their lines' delays.
// Stays as it is: a struct with the lent table in it would owe in each contract that it still lends the same memory, which is no plainer.
#[derive(Clone, Copy)]
pub struct Filled {
    pub end: usize,
    pub delay: Symbols,
}

// The load that enters a link, and its reservation.
#[derive(Clone, Copy)]
pub struct Link {
    pub load: Load,
    pub reservation: Reservation,
}

// No load.
pub const NO_LOAD: Load = Load {
    rate: Rate(0),
    burst: FrameSymbols(0),
};

// No link: no load enters it, and nothing is reserved.
pub const NO_LINK: Link = Link {
    load: NO_LOAD,
    reservation: Reservation {
        slots: Slots(0),
        frames: Frames(0),
        latency: Symbols(0),
    },
};

// The depths that a row can have, 0 to 12: a table of links has one for each.
pub const DEPTHS: usize = 13;

// A row's links, beside two tables of them: BI, the end nodes' link, and the load that comes to the sink.
#[derive(Clone, Copy)]
pub struct Links {
    pub interval: Symbols,
    pub end: Link,
    pub arriving: Load,
}

// Why a row has no plan: the first refusal, and the row's links where only its slots refuse it (7).
#[derive(Clone, Copy)]
pub struct RefusedRow {
    pub refusal: Refusal,
    pub links: Option<Links>,
}

// A row with its links: those beside the tables, and the tables of the upward and the downward ones.
#[derive(Clone, Copy)]
pub struct Row<'a> {
    pub s: Settings,
    pub links: Links,
    pub up: &'a [Link; DEPTHS],
    pub down: &'a [Link; DEPTHS],
}
