// The measures of document 01: symbols, slots, frames, frame-symbols and rates. None adds to another; what leads from one to another
// has a name below. A sum or product that passes 64 bits is answered by the largest number of 64 bits.
//
// No public function has a `requires`: each answers every argument, as an equation with a definition of specs/ says.
#![tactic(auto)]

ghost use Rattle.std.specs.Prelude.{◌≡◌, ◌+◌, ◌*◌};
ghost use Rattle.measure.specs.Measures.{up_to_64, burst, arrivals, whole_frames, service_time};

use crate::number::{product, rounded_up, sum};

pub mod number; // sums, products and quotients of bare numbers that cannot wrap

// Time: one symbol is 16 microseconds.
#[derive(Clone, Copy)]
pub struct Symbols(pub u64);

// Slots of a superframe.
#[derive(Clone, Copy)]
pub struct Slots(pub u64);

// Frames: all of a network are alike.
#[derive(Clone, Copy)]
pub struct Frames(pub u64);

// Bursts: frames times the symbols of a beacon interval.
#[derive(Clone, Copy)]
pub struct FrameSymbols(pub u64);

// Rates: frames in each beacon interval.
#[derive(Clone, Copy)]
pub struct Rate(pub u64);

// Stays as it is: one trait for these sums and products would need a ghost member that names a measure's number, and its two methods
// would be no shorter than these bodies of one line; a macro writes no contracts.
impl Symbols {
    pub fn plus(self, more: Symbols) -> Symbols
        ensures { result.0 ≡ up_to_64 (self.0 + more.0) }
    {
        Symbols(sum(self.0, more.0))
    }
}

impl Slots {
    pub fn plus(self, more: Slots) -> Slots
        ensures { result.0 ≡ up_to_64 (self.0 + more.0) }
    {
        Slots(sum(self.0, more.0))
    }

    pub fn times(self, n: u64) -> Slots
        ensures { result.0 ≡ up_to_64 (self.0 * n) }
    {
        Slots(product(self.0, n))
    }
}

impl Rate {
    pub fn plus(self, more: Rate) -> Rate
        ensures { result.0 ≡ up_to_64 (self.0 + more.0) }
    {
        Rate(sum(self.0, more.0))
    }

    pub fn times(self, n: u64) -> Rate
        ensures { result.0 ≡ up_to_64 (self.0 * n) }
    {
        Rate(product(self.0, n))
    }
}

impl FrameSymbols {
    pub fn plus(self, more: FrameSymbols) -> FrameSymbols
        ensures { result.0 ≡ up_to_64 (self.0 + more.0) }
    {
        FrameSymbols(sum(self.0, more.0))
    }

    pub fn times(self, n: u64) -> FrameSymbols
        ensures { result.0 ≡ up_to_64 (self.0 * n) }
    {
        FrameSymbols(product(self.0, n))
    }
}

// The burst of n frames at once.
#[tactic(auto, unfolding(crate::specs::Measures::burst))]
pub fn burst_of(n: Frames, interval: Symbols) -> FrameSymbols
    ensures { result.0 ≡ up_to_64 (burst n interval).0 }
{
    FrameSymbols(product(n.0, interval.0))
}

// What a rate brings in t symbols.
#[tactic(auto, unfolding(crate::specs::Measures::arrivals))]
pub fn arrivals_in(rate: Rate, t: Symbols) -> FrameSymbols
    ensures { result.0 ≡ up_to_64 (arrivals rate t).0 }
{
    FrameSymbols(product(rate.0, t.0))
}

// A burst in whole frames, rounded up. No interval, no frames.
#[tactic(auto, unfolding(crate::specs::Measures::whole_frames))]
pub fn whole_frames(b: FrameSymbols, interval: Symbols) -> Frames
    ensures { result ≡ whole_frames b interval }
{
    Frames(rounded_up(b.0, interval.0))
}

// The symbols, rounded up, in which a service rate takes a burst up. No rate, no symbols.
#[tactic(auto, unfolding(crate::specs::Measures::service_time))]
pub fn service_time(b: FrameSymbols, rate: Rate) -> Symbols
    ensures { result ≡ service_time b rate }
{
    Symbols(rounded_up(b.0, rate.0))
}
