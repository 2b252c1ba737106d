// Reading a record: 34 words of 8 bytes each, the least byte first.
ghost use Rattle.std.specs.Prelude.{◌≡◌, ◌+◌, ◌<◌};
ghost use Rattle.replay_records.specs.Word.{word};
ghost use Rattle.replay_board.specs.Record.{Decodes, call, recorded_word, recorded, Tells};

use carv_area::get;
use replay_records::UnlistedOp;

pub const RECORD_BYTES: usize = 272;

// The words that a call answers in.
pub const ANSWER_WORDS: usize = carv::WORDS;

// What each answer word holds before a call.
pub const UNWRITTEN: u64 = 6_148_914_691_236_517_205;

// The calls. Those of the registry have the same numbers in the records of replay_objects, but for Totals, which is 13 there.
#[derive(Clone, Copy, Debug, PartialEq, Eq)]
pub enum Op {
    Open,
    Create,
    Insert,
    CreateBudget,
    ChargeMore,
    Uncharge,
    Remove,
    Refill,
    ChargeCpu,
    PaysForAnything,
    Account,
    ChargeOf,
    CreateUserThread,
    Start,
    BlockCurrent,
    Wake,
    IsBlockedOn,
    Kill,
    Tick,
    Plan,
    ReadThread,
    Current,
    Switches,
    ExitOf,
    Totals,
}

impl TryFrom<u64> for Op {
    type Error = UnlistedOp;

    ghost try_from_gives = { Decodes };

    fn try_from(number: u64) -> Result<Op, UnlistedOp> {
        match number {
            1 => Ok(Op::Open),
            2 => Ok(Op::Create),
            3 => Ok(Op::Insert),
            4 => Ok(Op::CreateBudget),
            5 => Ok(Op::ChargeMore),
            6 => Ok(Op::Uncharge),
            7 => Ok(Op::Remove),
            8 => Ok(Op::Refill),
            9 => Ok(Op::ChargeCpu),
            10 => Ok(Op::PaysForAnything),
            11 => Ok(Op::Account),
            12 => Ok(Op::ChargeOf),
            13 => Ok(Op::CreateUserThread),
            14 => Ok(Op::Start),
            15 => Ok(Op::BlockCurrent),
            16 => Ok(Op::Wake),
            17 => Ok(Op::IsBlockedOn),
            18 => Ok(Op::Kill),
            19 => Ok(Op::Tick),
            20 => Ok(Op::Plan),
            21 => Ok(Op::ReadThread),
            22 => Ok(Op::Current),
            23 => Ok(Op::Switches),
            24 => Ok(Op::ExitOf),
            25 => Ok(Op::Totals),
            _ => Err(UnlistedOp(number)),
        }
    }
}

// The call that a record tells of. Beside `Call` of replay_objects: each has the words that its program's
// records have. Its op is the number as it was read. Its arguments are fields, since specs/Replay.antt says them by name, `c.first`, in each
// case of `Made`; an array would be read by number there.
#[derive(Clone, Copy, Debug, PartialEq, Eq)]
pub struct Call {
    pub op: u64,
    pub first: u64,
    pub second: u64,
    pub third: u64,
    pub fourth: u64,
    pub fifth: u64,
    pub sixth: u64,
    pub seventh: u64,
    pub eighth: u64,
    pub ninth: u64,
    pub tenth: u64,
    pub eleventh: u64,
}

// The call of a record.
#[tactic(auto, unfolding(crate::specs::Record::call))]
pub fn call_of(bytes: &[u8; RECORD_BYTES]) -> Call
    ensures { result ≡ call bytes.now 0 }
{
    Call {
        op: get(bytes, 0),
        first: get(bytes, 1),
        second: get(bytes, 2),
        third: get(bytes, 3),
        fourth: get(bytes, 4),
        fifth: get(bytes, 5),
        sixth: get(bytes, 6),
        seventh: get(bytes, 7),
        eighth: get(bytes, 8),
        ninth: get(bytes, 9),
        tenth: get(bytes, 10),
        eleventh: get(bytes, 11),
    }
}

// What it says of answer word i.
fn recorded_word(bytes: &[u8; RECORD_BYTES], i: usize) -> u64
    requires { i < ANSWER_WORDS }
    ensures { result ≡ recorded_word bytes.now 0 i }
{
    if (i as u64) < get(bytes, 13) {
        return get(bytes, 14 + i);
    }
    UNWRITTEN
}

// Does it have this number and these answer words?
pub fn is_recorded(bytes: &[u8; RECORD_BYTES], number: u64, out: &[u64; ANSWER_WORDS]) -> bool
    ensures { Tells result ((number ≡ word bytes.now 12) × (out.now ≡ recorded bytes.now 0)) }
{
    number == get(bytes, 12) && (0..ANSWER_WORDS).all(|i| out[i] == recorded_word(bytes, i))
}
