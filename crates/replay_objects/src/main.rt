// Replays recorded calls on one object registry: reads records from standard input, makes each record's
// call on an area that starts as zeros, compares the answer with the record, and writes how many calls
// there were and how many of them differ. specs/Record.antt says what a record holds.
#![tactic(auto)]

mod record;
mod replay;

use replay::Registry;
use replay_records::replay_all;
use std::io;

fn main(rt: HostRuntime) -> io::Result<()> {
    let mut registry = Registry {
        area: [0; carv_objects::BYTES],
    };
    let run = replay_all(&mut rt.stdin(), &mut registry);
    println!(rt; "{}", run.tally)
}
