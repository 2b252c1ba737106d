// Replays recorded calls on one board: reads records from standard input, makes each record's call on an
// area that starts as zeros, compares the answer with the record, and writes which calls differ, and at
// the end how many calls there were and how many of them differ. specs/Record.antt says what a record holds.
#![tactic(auto)]

mod record;
mod replay;

use carv_scheduler::BYTES;
use replay::Board;
use replay_records::replay_all;
use std::io;

fn main(rt: HostRuntime) -> io::Result<()> {
    let mut board = Board {
        area: [0; BYTES],
        rt: &rt,
    };
    let run = replay_all(&mut rt.stdin(), &mut board);
    println!(rt; "{}", run.tally)
}
