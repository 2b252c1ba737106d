// The operations of carv_budget's accounts, as the registry uses them: on sound accounts.
// That they are is a clause: a type of sound accounts would be put on and off at each call, with the same proof.
ghost use Rattle.std.specs.Prelude.{◌≡◌, true, ◌≤◌, min, leb, is_ok};
ghost use Rattle.carv_budget.specs.Account.{period, sound, renew, free, spend, charge, credit, return, returnable, fresh};
ghost use Rattle.carv_objects.specs.Laws.Booked.{Books, Carves};

use carv_budget::{Account, Outcome};

// The account with the operation booked, or none where it is refused.
fn booking(outcome: Outcome<()>) -> Option<Account>
    ensures { Books (is_ok outcome.answer) outcome.account result }
{
    outcome.answer.is_ok().then_some(outcome.account)
}

// A new account, if its share is at most the period.
pub fn opened(cpu: u64, memory: u64) -> Option<Account>
    ensures { Books (leb cpu period) (fresh cpu memory 0) result }
{
    Account::new(cpu, memory, 0).ok()
}

// Memory charged, if it can be covered.
pub fn charge(a: Account, bytes: u64) -> Option<Account>
    requires { sound a ≡ true }
    ensures { Books (leb bytes (free a)) (charge a bytes) result }
{
    booking(a.charge_memory(bytes))
}

// Memory credited.
pub fn credit(a: Account, bytes: u64) -> Account
    requires { (sound a ≡ true) × (bytes ≤ a.memory_used) }
    ensures { result ≡ credit a bytes }
{
    a.release_memory(bytes).account
}

pub fn renew(a: Account, time: u64) -> Account
    requires { sound a ≡ true }
    ensures { result ≡ renew a time }
{
    a.refill(time).account
}

// CPU time taken from a renewed account, if there is as much left.
#[tactic(auto, unfolding(carv_budget::specs::Account::spent))]
pub fn spend(a: Account, ns: u64, time: u64) -> Option<Account>
    requires { sound a ≡ true }
    ensures { Books (leb ns (renew a time).cpu_left) (spend (renew a time) ns) result }
{
    booking(a.charge_cpu(ns, time))
}

// CPU time taken from a renewed account, or all that is left if that is less.
#[tactic(auto, using(carv_budget::proofs::Laws::Account::renew_sound, carv_budget::proofs::Laws::Account::renew_twice), unfolding(carv_budget::specs::Account::spent))]
pub fn spend_most(a: Account, ns: u64, time: u64) -> Account
    requires { sound a ≡ true }
    ensures { result ≡ spend (renew a time) (min ns (renew a time).cpu_left) }
{
    let renewed = renew(a, time);
    let amount = ns.min(renewed.cpu_left);
    renewed.charge_cpu(amount, time).account
}

// A child returned to the renewed account.
#[tactic(auto, using(carv_budget::proofs::Laws::Account::renew_sound, carv_budget::proofs::Laws::Account::returnable_renewed))]
pub fn give_back(a: Account, child: Account, time: u64) -> Account
    requires { (sound a ≡ true) × (sound child ≡ true) × (returnable a child ≡ true) }
    ensures { result ≡ return (renew a time) child }
{
    renew(a, time).release_child(child).account
}

// The parent and the child carved out of the renewed account, if its share is left.
#[tactic(auto, unfolding(carv_budget::specs::Account::carved))]
pub fn carve(a: Account, cpu: u64, memory: u64, time: u64) -> Option<(Account, Account)>
    requires { sound a ≡ true }
    ensures { Carves a cpu memory time result }
{
    let done = a.carve_out(cpu, memory, time);
    let child = done.answer.ok()?;
    Some((done.account, child))
}
