// Making a record's call through the functions for C, and comparing what it answers with the record.
ghost use Rattle.std.specs.Prelude.{◌≡◌};
ghost use Rattle.std.proofs.Common.{rules};
ghost use Rattle.replay_board.specs.Record.{code};
ghost use Rattle.replay_board.specs.Replay.{NewThread, Made, Agrees, replays_record};

use crate::record::{ANSWER_WORDS, Call, Op, RECORD_BYTES, UNWRITTEN, call_of, is_recorded};
use carv_area::get;
use carv_scheduler::BYTES;
use replay_records::Replay;

// A new thread, whose register image is not in the records.
fn create_user_thread(area: &mut [u8], id: u64, budget: u64, stack: bool, out: &mut [u64]) -> u64
    ensures { NewThread id budget stack area.old out.old result area.new out.new }
{
    // Of fixed size, here and below: no heap.
    let mut image = [0u8; carv_register_image::BYTES];
    carv::carv_create_user_thread(area, id, budget, stack, &mut image, out)
}

// The number that the call answers. Its values stand in the first words of out.
fn make(area: &mut [u8], op: Op, call: Call, out: &mut [u64]) -> u64
    requires { call.op ≡ code op }
    ensures { Made call area.old out.old result area.new out.new }
{
    let Call {
        first,
        second,
        third,
        fourth,
        fifth,
        sixth,
        seventh,
        eighth,
        ninth,
        tenth,
        eleventh,
        ..
    } = call;
    // One arm a call: each takes other arguments of the record.
    match op {
        Op::Open => carv::carv_open(area, first, second, out),
        Op::Create => carv::carv_create(area, first, second, third == 1, out),
        Op::Insert => carv::carv_insert(area, first, second, third, out),
        Op::CreateBudget => carv::carv_create_budget(area, first, second, third, fourth, out),
        Op::ChargeMore => carv::carv_charge_more(area, first, second, out),
        Op::Uncharge => carv::carv_uncharge(area, first, second, out),
        Op::Remove => carv::carv_remove(area, first, second, out),
        Op::Refill => carv::carv_refill(area, first, second, out),
        Op::ChargeCpu => carv::carv_charge_cpu(area, first, second, third, out),
        Op::PaysForAnything => carv::carv_pays_for_anything(area, first, out),
        Op::Account => carv::carv_account(area, first, out),
        Op::ChargeOf => carv::carv_charge_of(area, first, out),
        Op::CreateUserThread => create_user_thread(area, first, second, third == 1, out),
        Op::Start => carv::carv_start(
            area, first, second, third, fourth, fifth, sixth, seventh, eighth, ninth, tenth,
            eleventh, out,
        ),
        Op::BlockCurrent => carv::carv_block_current(area, first, second, out),
        Op::Wake => carv::carv_wake(area, first, second, third, fourth, out),
        Op::IsBlockedOn => carv::carv_is_blocked_on(area, first, second, third, out),
        Op::Kill => carv::carv_kill(area, first, second, out),
        Op::Tick => carv::carv_tick(area, first, out),
        Op::Plan => carv::carv_plan(area, first, out),
        Op::ReadThread => carv::carv_read_thread(area, first, out),
        Op::Current => carv::carv_current(area, out),
        Op::Switches => carv::carv_switches(area, out),
        Op::ExitOf => carv::carv_exit_of(area, first, out),
        Op::Totals => carv::carv_totals(area, first, out),
    }
}

// Does the call of the record answer what the record says? One with an op that is not listed is not made and does not. Beside the other
// programs' `matches`: see replay_objects.
fn matches(area: &mut [u8], bytes: &[u8; RECORD_BYTES]) -> bool
    ensures { Agrees bytes.now 0 area.old result area.new }
{
    let call = call_of(bytes);
    let Ok(op) = Op::try_from(call.op) else {
        return false;
    };
    let mut out = [UNWRITTEN; ANSWER_WORDS];
    let number = make(area, op, call, &mut out);
    is_recorded(bytes, number, &out)
}

// The board that the calls are made on. It tells on rt which differ; where that can't be written, the count goes on all the same. Nothing
// prints, compares or copies it.
#[derive(Drop)]
pub struct Board<'a, P> {
    pub area: [u8; BYTES],
    pub rt: &'a P,
}

impl<'a, P: Print> Replay<RECORD_BYTES> for Board<'a, P> {
    ghost replays = { λ bytes before right after. replays_record bytes before.area right after.area };

    fn replay(&mut self, bytes: &[u8; RECORD_BYTES]) -> bool {
        matches(&mut self.area, bytes)
    }

    fn tell(&self, number: u64, bytes: &[u8; RECORD_BYTES]) {
        let op = get(bytes, 0);
        let _ = println!(self.rt; "record {number} differs: call {op}");
    }

    fn tell_cut(&self) {
        let _ = println!(self.rt; "the last record is cut short");
    }

    ghost size_fits = { Prim.search rules };
}
