// Making a record's call, and comparing what it answers with the record.
ghost use Rattle.std.specs.Prelude.{◌≡◌, Option};
ghost use Rattle.std.proofs.Common.{rules};
ghost use Rattle.carv_objects_spec.specs.Reply.{Value};
ghost use Rattle.carv_objects.specs.Answer as answer;
ghost use Rattle.replay_objects.specs.Record.{code};
ghost use Rattle.replay_objects.specs.Replay.{numbered, told, replied, Made, Agrees, replays_record};

use crate::record::{Call, Op, RECORD_BYTES, Reply, call_of, reply_of};
use carv_budget::Account;
use carv_objects::{Charge, Refusal};
use carv_objects_spec::Totals;
use replay_records::Replay;

// A number with at most two values.
fn short(number: u64, first: u64, second: u64) -> Reply
    ensures { result ≡ numbered number first second }
{
    Reply {
        number,
        first,
        second,
        ..Reply::default()
    }
}

// What an accepted call answers. Beside carv's `Reported`, since this program is below carv: it compares what carv_objects answers, in
// records of its own.
trait Told {
    // The value that it tells.
    ghost tells: { Self → Option Value };

    // An accepted call's reply.
    fn reply(self) -> Reply
        ensures { result ≡ told 0 (tells self) };
}

impl Told for () {
    ghost tells = { answer.nothing };

    fn reply(self) -> Reply {
        short(0, 0, 0)
    }
}

impl Told for u64 {
    ghost tells = { answer.id_of };

    fn reply(self) -> Reply {
        short(0, self, 0)
    }
}

// Yes or no. Whether a renewal was due and whether an object pays are told by the same words.
impl Told for bool {
    ghost tells = { answer.renewed_of };

    fn reply(self) -> Reply {
        short(0, u64::from(self), 0)
    }
}

impl Told for Account {
    ghost tells = { answer.account_of };

    // By field: `words` would first be taken apart into seven names.
    fn reply(self) -> Reply {
        Reply {
            number: 0,
            first: self.cpu_allowance,
            second: self.memory_limit,
            third: self.period_start,
            fourth: self.cpu_left,
            fifth: self.cpu_reserved,
            sixth: self.memory_used,
            seventh: self.memory_reserved,
        }
    }
}

impl Told for Charge {
    ghost tells = { answer.charge_of };

    fn reply(self) -> Reply {
        short(0, self.payer, self.bytes)
    }
}

impl Told for Totals {
    ghost tells = { answer.totals_of };

    fn reply(self) -> Reply {
        Reply {
            third: self.cpu_left,
            ..short(0, self.memory_used, self.memory_free)
        }
    }
}

// The number of a refusal is read off here, and not by `number_of`: this program is not built on carv, and carv_budget's is of another error.
impl<T: Told> From<Result<T, Refusal>> for Reply {
    ghost from_gives = { λ answer reply. reply ≡ replied T.tells answer };

    fn from(answer: Result<T, Refusal>) -> Reply {
        match answer {
            Ok(value) => value.reply(),
            Err(refusal) => short(refusal.number(), 0, 0),
        }
    }
}

// Makes the call.
fn make(area: &mut [u8], op: Op, call: Call) -> Reply
    requires { call.op ≡ code op }
    ensures { Made call area.old result area.new }
{
    let Call {
        first,
        second,
        third,
        fourth,
        ..
    } = call;
    // One arm a call: each takes other arguments of the record.
    match op {
        Op::Open => carv_objects::open(area, first, second).into(),
        Op::Create => carv_objects::create(area, first, second, third == 1).into(),
        Op::Insert => carv_objects::insert(area, first, second, third).into(),
        Op::CreateBudget => carv_objects::create_budget(area, first, second, third, fourth).into(),
        Op::ChargeMore => carv_objects::charge_more(area, first, second).into(),
        Op::Uncharge => carv_objects::uncharge(area, first, second).into(),
        Op::Remove => carv_objects::remove(area, first, second).into(),
        Op::Refill => carv_objects::refill(area, first, second).into(),
        Op::ChargeCpu => carv_objects::charge_cpu(area, first, second, third).into(),
        Op::PaysForAnything => carv_objects::pays_for_anything(area, first).into(),
        Op::Account => carv_objects::account(area, first).into(),
        Op::ChargeOf => carv_objects::charge_of(area, first).into(),
        Op::Totals => carv_objects::totals(area, first).into(),
    }
}

// Whether the call answers the reply. A call whose op is not listed is not made, and answers none. The `matches` of the three programs share
// the question whether the op is listed alone: what is called and compared differs.
fn matches(area: &mut [u8], call: Call, reply: Reply) -> bool
    ensures { Agrees call reply area.old result area.new }
{
    let Ok(op) = Op::try_from(call.op) else {
        return false;
    };
    make(area, op, call) == reply
}

// The registry that the calls are made on. Nothing prints, compares or copies it.
#[derive(Drop)]
pub struct Registry {
    pub area: [u8; carv_objects::BYTES],
}

impl Replay<RECORD_BYTES> for Registry {
    ghost replays = { replays_record };

    fn replay(&mut self, bytes: &[u8; RECORD_BYTES]) -> bool {
        matches(&mut self.area, call_of(bytes), reply_of(bytes))
    }

    ghost size_fits = { Prim.search rules };
}
