// The program: rows of settings from standard input, plans and refusals to standard output (document 01, 'The printed plan'). What is
// printed, and how it is read and written, is decided in `row_program`.
#![tactic(auto)]

use row_program::run;
use row_program_model::Style;
use std::io;

fn main(rt: HostRuntime) -> io::Result<()> {
    run(Style::Plans, &mut rt.stdin(), &mut rt.stdout())
}
