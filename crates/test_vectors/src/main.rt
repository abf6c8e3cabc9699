// Runs the compiled functions of superframe and writes what they answer, one line a case. The file `stdout` beside src/ has what
// document 01 and IEEE 802.15.4-2006 state, worked out apart from this code; the check compares the two.
#![tactic(auto)]

use measure::Rate;
use std::io;
use superframe::exchange::exchange_time;
use superframe::loss::lossy_exchange_time;
use superframe::orders::{
    beacon_interval, beacon_length, contention_slots, reservable_slots, slot_length,
    superframe_duration,
};
use superframe_reservation::{frames_in, latency_of, slots_for};

fn main(rt: HostRuntime) -> io::Result<()> {
    // Each order of document 01, and one above: BI, SD, S.
    for o in 0u64..16 {
        println!(rt;
            "order {o} {} {} {}",
            beacon_interval(o).0,
            superframe_duration(o).0,
            slot_length(o).0
        )?;
    }
    // The reservations of a router that the standard allows, and one more: how long its beacon is.
    for g in 0u64..9 {
        println!(rt; "beacon {g} {}", beacon_length(g).0)?;
    }
    // Superframes without reservations, with 1 to 7, with more than the standard allows, and with more than they can hold, at each order of
    // document 01, and one above: contention slots, L.
    for g in [0, 1, 7, 11, 70, 71, u64::MAX] {
        for o in 0u64..16 {
            println!(rt;
                "contention {o} {g} {} {}",
                contention_slots(o, g).0,
                reservable_slots(o, g).0
            )?;
        }
    }
    // Each count of octets of document 01, and one on either side: X without and with acknowledgement.
    for m in 5u64..129 {
        println!(rt;
            "exchange {m} {} {}",
            exchange_time(m, false).0,
            exchange_time(m, true).0
        )?;
    }
    // The same octets with each LOSS of document 02, and one above, acknowledged; without acknowledgement, which no row asks for, with LOSS 1.
    for m in 5u64..129 {
        print!(rt; "loss {m}")?;
        for loss in 0u64..9 {
            print!(rt; " {}", lossy_exchange_time(m, true, loss).0)?;
        }
        println!(rt; " {}", lossy_exchange_time(m, false, 1).0)?;
    }
    // Rows of document 01's worked plans: P1, P3, P5, P6; then slots that hold nothing, and rates that no slots hold.
    reservation(&rt, 8, 4, 26, 1)?;
    reservation(&rt, 0, 0, 26, 1)?;
    reservation(&rt, 4, 0, 18, 1)?;
    reservation(&rt, 4, 0, 18, 2)?;
    reservation(&rt, 4, 0, 18, 0)?;
    reservation(&rt, 14, 14, 127, 4095)?;
    reservation(&rt, 14, 0, 127, u64::MAX)
}

// For orders, octets and a rate: k, m, T.
fn reservation(rt: &impl Print, bo: u64, so: u64, octets: u64, rate: u64) -> io::Result<()> {
    let s = slot_length(so);
    let x = exchange_time(octets, false);
    let k = slots_for(Rate(rate), s, x);
    let m = frames_in(k, s, x);
    let t = latency_of(beacon_interval(bo), m, x);
    println!(rt;
        "reservation {bo} {so} {octets} {rate} {} {} {}",
        k.0, m.0, t.0
    )
}
