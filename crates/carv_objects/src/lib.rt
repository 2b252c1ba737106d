// The object registry: objects under rising ids, each paid for by a budget, and the budgets' accounts.
// After kernel/src/objects.rs and the kinds of carv-abi.
#![tactic(auto, using(crate::proofs::Rules::entry))]

mod accounts;
mod area;
pub mod calls;
pub mod cpu;
mod opening;
mod refusal;
mod rows;
mod sound;
mod subtree;

ghost use Rattle.carv_objects_spec.specs.Registry.{create, insert, create_budget, charge_more, uncharge, remove, refill, charge_cpu, pays_for_anything, read_account, charge_of};
ghost use Rattle.carv_objects_spec.specs.Totals.{read_totals};
ghost use Rattle.carv_objects.specs.Answer as answer;
ghost use Rattle.carv_objects.specs.Area.{Answered};

pub use area::BYTES;
use carv_budget::Account;
pub use carv_objects_spec::Kind;
use carv_objects_spec::Totals;
pub use opening::open;
pub use refusal::Refusal;
use sound::ask_sound;
pub use sound::is_sound;

// Who pays for an object, and the bytes that it is charged.
#[derive(Clone, Copy, Debug, PartialEq, Eq)]
pub struct Charge {
    pub payer: u64,
    pub bytes: u64,
}

// The calls, each with question 1 in front, and so with kinds as codes: question 4 stands behind it.

// A new object of this kind.
pub fn create(area: &mut [u8], kind: u64, payer: u64, backing: bool) -> Result<u64, Refusal>
    ensures { Answered (create kind payer backing) answer.id_of area.old result area.new }
{
    ask_sound(area)?;
    calls::create(area, kind, payer, backing)
}

// An object of this kind that takes this many bytes.
pub fn insert(area: &mut [u8], kind: u64, payer: u64, bytes: u64) -> Result<u64, Refusal>
    ensures { Answered (insert kind payer bytes) answer.id_of area.old result area.new }
{
    ask_sound(area)?;
    calls::insert(area, kind, payer, bytes)
}

// A budget carved out of its parent.
pub fn create_budget(
    area: &mut [u8],
    parent: u64,
    cpu: u64,
    memory: u64,
    time: u64,
) -> Result<u64, Refusal>
    ensures { Answered (create_budget parent cpu memory time) answer.id_of area.old result area.new }
{
    ask_sound(area)?;
    calls::create_budget(area, parent, cpu, memory, time)
}

// More bytes charged for an object.
pub fn charge_more(area: &mut [u8], id: u64, bytes: u64) -> Result<(), Refusal>
    ensures { Answered (charge_more id bytes) answer.nothing area.old result area.new }
{
    ask_sound(area)?;
    calls::charge_more(area, id, bytes)
}

// Bytes of an object credited.
pub fn uncharge(area: &mut [u8], id: u64, bytes: u64) -> Result<(), Refusal>
    ensures { Answered (uncharge id bytes) answer.nothing area.old result area.new }
{
    ask_sound(area)?;
    calls::uncharge(area, id, bytes)
}

// An object taken out; a removed budget's payer is renewed at this time, before the child is returned.
pub fn remove(area: &mut [u8], id: u64, time: u64) -> Result<(), Refusal>
    ensures { Answered (remove id time) answer.nothing area.old result area.new }
{
    ask_sound(area)?;
    calls::remove(area, id, time)
}

// The renewal of a budget.
pub fn refill(area: &mut [u8], id: u64, time: u64) -> Result<bool, Refusal>
    ensures { Answered (refill id time) answer.renewed_of area.old result area.new }
{
    ask_sound(area)?;
    calls::refill(area, id, time)
}

// CPU time charged to a budget.
pub fn charge_cpu(area: &mut [u8], id: u64, ns: u64, time: u64) -> Result<(), Refusal>
    ensures { Answered (charge_cpu id ns time) answer.nothing area.old result area.new }
{
    ask_sound(area)?;
    calls::charge_cpu(area, id, ns, time)
}

// Does another object have this payer?
pub fn pays_for_anything(area: &[u8], id: u64) -> Result<bool, Refusal>
    ensures { Answered (pays_for_anything id) answer.pays_of area.now result area.now }
{
    ask_sound(area)?;
    calls::pays_for_anything(area, id)
}

// The account of a budget.
pub fn account(area: &[u8], id: u64) -> Result<Account, Refusal>
    ensures { Answered (read_account id) answer.account_of area.now result area.now }
{
    ask_sound(area)?;
    calls::account(area, id)
}

// The payer and the charge of an object.
pub fn charge_of(area: &[u8], id: u64) -> Result<Charge, Refusal>
    ensures { Answered (charge_of id) answer.charge_of area.now result area.now }
{
    ask_sound(area)?;
    calls::charge_of(area, id)
}

// A budget with all below it, summed.
pub fn totals(area: &[u8], id: u64) -> Result<Totals, Refusal>
    ensures { Answered (read_totals id) answer.totals_of area.now result area.now }
{
    ask_sound(area)?;
    calls::totals(area, id)
}
