// Reading a record: 16 words of 8 bytes each, the least byte first.
ghost use Rattle.std.specs.Prelude.{◌≡◌};
ghost use Rattle.replay_objects.specs.Record.{Decodes, call, reply};

use carv_area::get;
use replay_records::UnlistedOp;

pub const RECORD_BYTES: usize = 128;

// The calls.
#[derive(Clone, Copy, Debug, PartialEq, Eq)]
pub enum Op {
    Open,
    Create,
    Insert,
    CreateBudget,
    ChargeMore,
    Uncharge,
    Remove,
    Refill,
    ChargeCpu,
    PaysForAnything,
    Account,
    ChargeOf,
    Totals,
}

impl TryFrom<u64> for Op {
    type Error = UnlistedOp;

    ghost try_from_gives = { Decodes };

    fn try_from(number: u64) -> Result<Op, UnlistedOp> {
        match number {
            1 => Ok(Op::Open),
            2 => Ok(Op::Create),
            3 => Ok(Op::Insert),
            4 => Ok(Op::CreateBudget),
            5 => Ok(Op::ChargeMore),
            6 => Ok(Op::Uncharge),
            7 => Ok(Op::Remove),
            8 => Ok(Op::Refill),
            9 => Ok(Op::ChargeCpu),
            10 => Ok(Op::PaysForAnything),
            11 => Ok(Op::Account),
            12 => Ok(Op::ChargeOf),
            13 => Ok(Op::Totals),
            _ => Err(UnlistedOp(number)),
        }
    }
}

// The call that a record tells of. Beside `Call` of replay_board: each has the words that its program's records have. Its op is the number
// as it was read. Its arguments are fields, since specs/Replay.antt says them by name, `c.first`, in each case of `Made`; an
// array would be read by number there.
#[derive(Clone, Copy, Debug, PartialEq, Eq)]
pub struct Call {
    pub op: u64,
    pub first: u64,
    pub second: u64,
    pub third: u64,
    pub fourth: u64,
}

// An answer: its number, as it was recorded or as `Refusal` has it, and its values, as many as it has, the rest 0. These are fields, since
// `told` in specs/Replay.antt and the comparison there say them by name.
#[derive(Clone, Copy, Debug, PartialEq, Eq, Default)]
pub struct Reply {
    pub number: u64,
    pub first: u64,
    pub second: u64,
    pub third: u64,
    pub fourth: u64,
    pub fifth: u64,
    pub sixth: u64,
    pub seventh: u64,
}

// The call of a record.
#[tactic(auto, unfolding(crate::specs::Record::call))]
pub fn call_of(bytes: &[u8; RECORD_BYTES]) -> Call
    ensures { result ≡ call bytes.now 0 }
{
    Call {
        op: get(bytes, 0),
        first: get(bytes, 1),
        second: get(bytes, 2),
        third: get(bytes, 3),
        fourth: get(bytes, 4),
    }
}

// The answer that it expects.
#[tactic(auto, unfolding(crate::specs::Record::reply))]
pub fn reply_of(bytes: &[u8; RECORD_BYTES]) -> Reply
    ensures { result ≡ reply bytes.now 0 }
{
    Reply {
        number: get(bytes, 5),
        first: get(bytes, 6),
        second: get(bytes, 7),
        third: get(bytes, 8),
        fourth: get(bytes, 9),
        fifth: get(bytes, 10),
        sixth: get(bytes, 11),
        seventh: get(bytes, 12),
    }
}
