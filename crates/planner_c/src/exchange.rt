// The entry for C that hands out the table of exchange times (document 02, E4).
ghost use Rattle.std.specs.Prelude.{◌≡◌, ◌≤◌};
ghost use Rattle.calls_model.specs.Exchanges.{exchange_asked};

// X of a frame of that many octets, 6 to 127, without acknowledgement (ACK 0) or with (1). For any other: 0, which no exchange lasts.
#[unsafe(no_mangle)]
pub extern "C" fn planner_exchange_time(octets: u32, ack: u32) -> u32
    ensures value { result ≡ exchange_asked octets ack }
    ensures upper_bound { result ≤ 340 }
{
    calls::exchange_time(octets, ack)
}
