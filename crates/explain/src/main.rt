// The program: rows of settings from standard input, and for each one line of English to standard output, that it is planned or why it
// is refused (document 02, E1). What is printed, and how it is read and written, is decided in `row_program`.
#![tactic(auto)]

use row_program::run;
use row_program_model::Style;
use std::io;

fn main(rt: HostRuntime) -> io::Result<()> {
    run(Style::Reasons, &mut rt.stdin(), &mut rt.stdout())
}
