// Reading a record: 34 words of 8 bytes each, the least byte first.
ghost use Rattle.std.specs.Prelude.{◌≡◌, ◌+◌, ◌≤◌};
ghost use Rattle.replay_accounts.specs.Record.{account, call, reply};
ghost use Rattle.replay_accounts.specs.Op.{Decodes};

use carv_area::get;
use carv_budget::Account;
use replay_records::UnlistedOp;

pub const RECORD_BYTES: usize = 272;

// Which call a record tells of.
#[derive(Clone, Copy, Debug, PartialEq, Eq)]
pub enum Op {
    OpenAccount,
    Refill,
    ChargeCpu,
    ChargeMemory,
    ReleaseMemory,
    CarveOut,
    ReleaseChild,
}

impl TryFrom<u64> for Op {
    type Error = UnlistedOp;

    ghost try_from_gives = { Decodes };

    fn try_from(number: u64) -> Result<Op, UnlistedOp> {
        match number {
            1 => Ok(Op::OpenAccount),
            2 => Ok(Op::Refill),
            3 => Ok(Op::ChargeCpu),
            4 => Ok(Op::ChargeMemory),
            5 => Ok(Op::ReleaseMemory),
            6 => Ok(Op::CarveOut),
            7 => Ok(Op::ReleaseChild),
            _ => Err(UnlistedOp(number)),
        }
    }
}

// The call that a record tells of. Its op is the number as it was read. Its arguments are fields, since specs/Replay.antt
// says them by name, `c.first`, in what each op gives; an array would be read by number there.
#[derive(Clone, Copy, Debug, PartialEq, Eq)]
pub struct Call {
    pub op: u64,
    pub account: Account,
    pub child: Account,
    pub first: u64,
    pub second: u64,
    pub time: u64,
}

// What a call answers and leaves. Its number is as it was recorded, or as `BudgetError` has it.
#[derive(Clone, Copy, Debug, PartialEq, Eq)]
pub struct Reply {
    pub number: u64,
    pub value: u64,
    pub account: Account,
    pub child: Account,
}

// The account in the seven words from word number k on. By field, as `rows::read_account` of carv_objects, which reads a table.
#[tactic(auto, unfolding(crate::specs::Record::account))]
fn account_at(bytes: &[u8; RECORD_BYTES], k: usize) -> Account
    requires { k + 7 ≤ 34 }
    ensures { result ≡ account bytes.now k }
{
    Account {
        cpu_allowance: get(bytes, k),
        memory_limit: get(bytes, k + 1),
        period_start: get(bytes, k + 2),
        cpu_left: get(bytes, k + 3),
        cpu_reserved: get(bytes, k + 4),
        memory_used: get(bytes, k + 5),
        memory_reserved: get(bytes, k + 6),
    }
}

// The call of a record.
#[tactic(auto, unfolding(crate::specs::Record::call))]
pub fn call_of(bytes: &[u8; RECORD_BYTES]) -> Call
    ensures { result ≡ call bytes.now 0 }
{
    Call {
        op: get(bytes, 0),
        account: account_at(bytes, 1),
        child: account_at(bytes, 8),
        first: get(bytes, 15),
        second: get(bytes, 16),
        time: get(bytes, 17),
    }
}

// The answer that it expects.
#[tactic(auto, unfolding(crate::specs::Record::reply))]
pub fn reply_of(bytes: &[u8; RECORD_BYTES]) -> Reply
    ensures { result ≡ reply bytes.now 0 }
{
    Reply {
        number: get(bytes, 18),
        value: get(bytes, 19),
        account: account_at(bytes, 20),
        child: account_at(bytes, 27),
    }
}
