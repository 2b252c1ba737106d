// Making a record's call, and comparing what it gives with the record's reply.
ghost use Rattle.std.specs.Prelude.{◌≡◌};
ghost use Rattle.replay_accounts.specs.Replay.{replied, opened, refilled, cpu_charged, memory_charged, memory_released, carved, returned, made, agrees};

use crate::record::{Call, Op, Reply};
use carv_budget::{Account, Outcome, number_of};

// An outcome as a reply, beside its value and the child that the call leaves.
fn told<T: Copy>(done: Outcome<T>, value: u64, child: Account) -> Reply
    ensures { result ≡ replied done value child }
{
    Reply {
        number: done.number(),
        value,
        account: done.account,
        child,
    }
}

// The calls, by their op.

#[tactic(auto, unfolding(crate::specs::Replay::opened))]
fn open_account(call: Call) -> Reply
    ensures { result ≡ opened call }
{
    let answer = Account::new(call.first, call.second, call.time);
    Reply {
        number: number_of(answer),
        value: 0,
        account: answer.unwrap_or(Account::BLANK),
        child: Account::BLANK,
    }
}

// The reply's value is 1 where a renewal was due.
#[tactic(auto, unfolding(crate::specs::Replay::refilled))]
fn refill(call: Call) -> Reply
    ensures { result ≡ refilled call }
{
    let done = call.account.refill(call.time);
    let due = done.answer.unwrap_or(false);
    told(done, u64::from(due), Account::BLANK)
}

#[tactic(auto, unfolding(crate::specs::Replay::cpu_charged))]
fn charge_cpu(call: Call) -> Reply
    ensures { result ≡ cpu_charged call }
{
    let done = call.account.charge_cpu(call.first, call.time);
    told(done, 0, Account::BLANK)
}

#[tactic(auto, unfolding(crate::specs::Replay::memory_charged))]
fn charge_memory(call: Call) -> Reply
    ensures { result ≡ memory_charged call }
{
    let done = call.account.charge_memory(call.first);
    told(done, 0, Account::BLANK)
}

#[tactic(auto, unfolding(crate::specs::Replay::memory_released))]
fn release_memory(call: Call) -> Reply
    ensures { result ≡ memory_released call }
{
    let done = call.account.release_memory(call.first);
    told(done, 0, Account::BLANK)
}

#[tactic(auto, unfolding(crate::specs::Replay::carved))]
fn carve_out(call: Call) -> Reply
    ensures { result ≡ carved call }
{
    let done = call.account.carve_out(call.first, call.second, call.time);
    let child = done.answer.unwrap_or(Account::BLANK);
    told(done, 0, child)
}

// The child stays as it is where the call is refused.
#[tactic(auto, unfolding(crate::specs::Replay::returned))]
fn release_child(call: Call) -> Reply
    ensures { result ≡ returned call }
{
    let done = call.account.release_child(call.child);
    if done.answer.is_ok() {
        return told(done, 0, Account::BLANK);
    }
    told(done, 0, call.child)
}

// The reply that the call gets.
fn make(op: Op, call: Call) -> Reply
    ensures { result ≡ made op call }
{
    // One arm a call: each asks another method of the account, with other arguments of the record.
    match op {
        Op::OpenAccount => open_account(call),
        Op::Refill => refill(call),
        Op::ChargeCpu => charge_cpu(call),
        Op::ChargeMemory => charge_memory(call),
        Op::ReleaseMemory => release_memory(call),
        Op::CarveOut => carve_out(call),
        Op::ReleaseChild => release_child(call),
    }
}

// Whether the call gives the reply. One with an op that is not listed gives none. Beside the other programs' `matches`: see replay_objects.
pub fn matches(call: Call, reply: Reply) -> bool
    ensures { result ≡ agrees call reply }
{
    let Ok(op) = Op::try_from(call.op) else {
        return false;
    };
    let given = make(op, call);
    given == reply
}
