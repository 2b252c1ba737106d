// Replays recorded calls on budget accounts: reads records from standard input, makes each record's
// call, compares what it answers and leaves with the record, and writes how many calls there were
// and how many of them differ. specs/Record.antt says what a record holds.
#![tactic(auto)]

ghost use Rattle.std.specs.Prelude.{◌≡◌};
ghost use Rattle.std.proofs.Common.{rules};
ghost use Rattle.replay_accounts.specs.Record.{call, reply};
ghost use Rattle.replay_accounts.specs.Replay.{agrees};

mod record;
mod replay;

use record::{RECORD_BYTES, call_of, reply_of};
use replay::matches;
use replay_records::{Replay, replay_all};
use std::io;

// A call on accounts brings them along, so nothing is kept from record to record.
#[derive(Clone, Copy, Debug, PartialEq, Eq)]
struct Accounts;

impl Replay<RECORD_BYTES> for Accounts {
    ghost replays = { λ bytes before right after. right ≡ agrees (call bytes 0) (reply bytes 0) };

    fn replay(&mut self, bytes: &[u8; RECORD_BYTES]) -> bool {
        matches(call_of(bytes), reply_of(bytes))
    }

    ghost size_fits = { Prim.search rules };
}

fn main(rt: HostRuntime) -> io::Result<()> {
    let run = replay_all(&mut rt.stdin(), &mut Accounts);
    println!(rt; "{}", run.tally)
}
