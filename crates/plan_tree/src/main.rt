// The program: `plan_tree BO SO HEAD DATA ACK SINK [LOSS]`, a node list from standard input, its plan or a refusal to standard output
// (document 02, E3 and E5). What is printed, and how it is read and written, is decided in `tree_program`; here the arguments are read.
#![tactic(auto)]

use decimal::read_number;
use std::env::FillError;
use std::io;
use std::rt::Env;
use tree_program::run;
use tree_program_model::Arguments;

fn main(rt: HostRuntime) -> io::Result<()> {
    run(arguments(&rt), &mut rt.stdin(), &mut rt.stdout())
}

// The arguments behind the program's name.
fn arguments(rt: &impl Env) -> Arguments {
    Arguments {
        bo: argument(rt, 1),
        so: argument(rt, 2),
        head: argument(rt, 3),
        payload: argument(rt, 4),
        ack: argument(rt, 5),
        sink: argument(rt, 6),
        loss: argument(rt, 7),
        count: argument_count(rt),
    }
}

// How many arguments stand behind the program's name.
fn argument_count(rt: &impl Env) -> usize {
    let mut space = [0u8; 8];
    for i in 1..usize::MAX {
        if let Err(FillError::NotPresent) = rt.arg(i, &mut space) {
            return i - 1;
        }
    }
    usize::MAX - 1
}

// The number that an argument spells, which may be any bytes; none where it is missing, or longer than any number.
fn argument(rt: &impl Env, i: usize) -> Option<u64> {
    let mut space = [0u8; 8];
    let n = rt.arg(i, &mut space).ok()?;
    read_number(&space[..n])
}
