// The links of a tree: what a load is, the reservation that a rate needs, and what a load leaves behind a link (document 01, 'The tree
// and its loads'). Nothing here knows a tree's shape.
//
// No public function has a `requires`: each answers every argument, as an equation with a definition of specs/ says. Where a number
// passes 64 bits, the contract names the answer.
#![tactic(auto)]

ghost use Rattle.std.specs.Prelude.{◌≡◌};
ghost use Rattle.links.specs.Link.{plus, times, load_up_to_64, after_link};
ghost use Rattle.links.specs.Answers.{reservation_answered, figures_answered};

use measure::{FrameSymbols, Frames, Rate, Slots, Symbols};

// The times on which every link of a network goes: BI, S and X.
#[derive(Clone, Copy)]
pub struct Timing {
    pub interval: Symbols,
    pub slot: Symbols,
    pub exchange: Symbols,
}

// What enters a node: a rate and a burst (the arrival curve).
#[derive(Clone, Copy)]
pub struct Load {
    pub rate: Rate,
    pub burst: FrameSymbols,
}

// The reservation of a link: k, m and T.
#[derive(Clone, Copy)]
pub struct Reservation {
    pub slots: Slots,
    pub frames: Frames,
    pub latency: Symbols,
}

// The figures of a link's line: the load that enters, the reservation, the queue's size and the delay.
#[derive(Clone, Copy)]
pub struct Figures {
    pub rate: Rate,
    pub burst: FrameSymbols,
    pub slots: Slots,
    pub frames: Frames,
    pub latency: Symbols,
    pub buffer: Frames,
    pub delay: Symbols,
}

impl Load {
    pub fn plus(self, more: Load) -> Load
        ensures { result ≡ load_up_to_64 (plus self more) }
    {
        Load {
            rate: self.rate.plus(more.rate),
            burst: self.burst.plus(more.burst),
        }
    }

    pub fn times(self, n: u64) -> Load
        ensures { result ≡ load_up_to_64 (times n self) }
    {
        Load {
            rate: self.rate.times(n),
            burst: self.burst.times(n),
        }
    }

    // The load that has left the link which this one entered.
    #[tactic(auto, unfolding(crate::specs::Link::after_link))]
    pub fn after(self, link: Reservation) -> Load
        ensures { result ≡ load_up_to_64 (after_link self link) }
    {
        let grown = measure::arrivals_in(self.rate, link.latency);
        Load {
            rate: self.rate,
            burst: self.burst.plus(grown),
        }
    }
}

// The reservation that a rate needs.
#[tactic(auto, unfolding(crate::specs::Answers::reservation_answered, crate::specs::Answers::slots_answered, crate::specs::Answers::frames_answered, crate::specs::Answers::latency_answered, crate::specs::Link::slots_of))]
pub fn reservation_for(t: Timing, rate: Rate) -> Reservation
    ensures { result ≡ reservation_answered t rate }
{
    let slots = superframe_reservation::slots_for(rate, t.slot, t.exchange);
    let frames = superframe_reservation::frames_in(slots, t.slot, t.exchange);
    let latency = superframe_reservation::latency_of(t.interval, frames, t.exchange);
    Reservation {
        slots,
        frames,
        latency,
    }
}

// The figures of a link, from the load that enters it and its reservation.
#[tactic(auto, unfolding(crate::specs::Answers::figures_answered, crate::specs::Link::delay))]
pub fn figures_of(interval: Symbols, load: Load, link: Reservation) -> Figures
    ensures { result ≡ figures_answered interval load link }
{
    let Load { rate, burst } = load;
    let Reservation {
        slots,
        frames,
        latency,
    } = link;
    let left = load.after(link);
    let service = superframe_reservation::rate_of(frames);
    Figures {
        rate,
        burst,
        slots,
        frames,
        latency,
        buffer: measure::whole_frames(left.burst, interval),
        delay: measure::service_time(burst, service).plus(latency),
    }
}
