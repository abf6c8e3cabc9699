// Writes the table of exchange times (document 02, E4), to be held against the radio maker's print line by line: M, X and X acknowledged, for
// each M from 6 to 127. The file `stdout` beside src/ has what document 01's formula gives, worked out apart from this code.
#![tactic(auto)]

use std::io;
use superframe::exchange::table_entry;

fn main(rt: HostRuntime) -> io::Result<()> {
    // The two entries of 6 octets and as many more.
    for pair in 0u64..122 {
        println!(rt;
            "{} {} {}",
            6 + pair,
            table_entry(2 * pair).0,
            table_entry(2 * pair + 1).0
        )?;
    }
    Ok(())
}
