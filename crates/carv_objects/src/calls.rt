// The calls on a sound area: document 01's questions in their order, then the step. lib.rt asks question 1 in front of each.
// That the area is sound is a clause of each, here, in cpu.rt and in subtree.rt, and no type's invariant. A reader `Sound<'a>` over `&'a
// [u8]` was tried for `account` and `charge_of`: it proves, but the writers would still have the clause. A writer `SoundMut<'a>` over `&'a
// mut [u8]` was tried for `charge_more`: by value the borrow checker doesn't cover the writer; by `&mut self` it has a clause that `bytes`
// keeps its reference for the one saved, and its caller in carv_scheduler, which lends a part of an area, isn't told what the part becomes.
// Kinds come as codes, listed or not: question 4 stands behind question 1, so that the code is asked here. An id and its place are no struct:
// see `area::set_account`.
ghost use Rattle.std.specs.Prelude.{◌≡◌, true, not, ◌&&◌, ◌||◌, ◌<◌, eqb, length, get_or};
ghost use Rattle.carv_area.specs.Rows.{remove_at};
ghost use Rattle.carv_area.specs.Lookup.{Here};
ghost use Rattle.carv_budget.specs.Account.{sound, renew};
ghost use Rattle.carv_objects_spec.specs.Registry.{has, object, pays_for, has_place, has_next, budget, add, plain, create, insert, create_budget, charge_more, uncharge, remove, refill, charge_cpu, pays_for_anything, read_account, charge_of};
ghost use Rattle.carv_objects_spec.specs.Totals.{read_totals};
ghost use Rattle.carv_objects_spec.specs.Kinds.{needs_backing};
ghost use Rattle.carv_objects.specs.Answer as answer;
ghost use Rattle.carv_objects.specs.Area.{decode, sound_area, Serves};
ghost use Rattle.carv_objects.specs.Laws.Rows.{no_row};
ghost use Rattle.carv_objects.specs.Laws.Formed.{WellFormed, Leaves};
ghost use Rattle.carv_objects.specs.Laws.AreaSteps.{with_rows};

// For a caller that knows a budget's place.
pub use crate::area::account_at;
use crate::{Charge, Kind, Refusal, accounts, area, subtree};
use carv_budget::Account;
use carv_objects_spec::{Entry, Totals};

// An object that is no budget.
fn plain(kind: Kind, payer: u64, charge: u64) -> Entry
    ensures { result ≡ plain kind payer charge }
{
    Entry {
        kind,
        payer,
        charge,
        account: Account::BLANK,
    }
}

// Is the backing there, or none needed?
fn has_backing(kind: Kind, backing: bool) -> bool
    ensures { result ≡ (not (needs_backing kind) || backing) }
{
    !kind.needs_backing() || backing
}

// The budget payer, which stands at place i, gets this account, and a new object stands under the next id.
fn store(a: &mut [u8], i: usize, payer: u64, account: Account, e: Entry) -> u64
    requires well_formed { WellFormed a.old }
    requires here { Here no_row (decode a.old).rows payer i }
    requires a_value { (has_place (decode a.old) && has_next (decode a.old)) ≡ true }
    ensures { (result ≡ (decode a.old).next) × Leaves a.new (add e (budget payer (λ _. account) (decode a.old))) }
{
    area::set_account(a, i, payer, account);
    area::add(a, e)
}

pub fn insert(a: &mut [u8], code: u64, payer: u64, bytes: u64) -> Result<u64, Refusal>
    requires { sound_area a.old ≡ true }
    ensures { Serves (insert code payer bytes) answer.id_of a.old result a.new }
{
    let kind = Kind::from_code(code).ok_or(Refusal::Code)?;
    if kind.is_budget() {
        return Err(Refusal::Code);
    }
    if !area::has_room(a) {
        return Err(Refusal::Full);
    }
    let i = area::find_budget(a, payer).ok_or(Refusal::Missing)?;
    let account = area::account_at(a, i);
    let paid = accounts::charge(account, bytes).ok_or(Refusal::Limit)?;
    Ok(store(a, i, payer, paid, plain(kind, payer, bytes)))
}

// As `insert`, but that the kind and its backing are asked last. Questions 6, 7 and 12 are no function of both: it would answer which of the
// three fails, and its contract would say them in their order once more.
pub fn create(a: &mut [u8], code: u64, payer: u64, backing: bool) -> Result<u64, Refusal>
    requires { sound_area a.old ≡ true }
    ensures { Serves (create code payer backing) answer.id_of a.old result a.new }
{
    let kind = Kind::from_code(code).ok_or(Refusal::Code)?;
    if !area::has_room(a) {
        return Err(Refusal::Full);
    }
    let i = area::find_budget(a, payer).ok_or(Refusal::Missing)?;
    let account = area::account_at(a, i);
    let bytes = kind.bytes();
    let paid = accounts::charge(account, bytes).ok_or(Refusal::Limit)?;
    if !kind.is_creatable() {
        return Err(Refusal::Kind);
    }
    if !has_backing(kind, backing) {
        return Err(Refusal::Backing);
    }
    Ok(store(a, i, payer, paid, plain(kind, payer, bytes)))
}

// The budget id, which stands at place i and has this account, is renewed. The account comes from the caller, who has read it.
fn renew(a: &mut [u8], i: usize, id: u64, account: Account, time: u64)
    requires well_formed { WellFormed a.old }
    requires here { Here no_row (decode a.old).rows id i }
    requires account_value { (sound account ≡ true) × (account ≡ (get_or (decode a.old).rows i no_row).it.account) }
    ensures { Leaves a.new (budget id (λ x. renew x time) (decode a.old)) }
{
    let renewed = accounts::renew(account, time);
    area::set_account(a, i, id, renewed);
}

pub fn create_budget(
    a: &mut [u8],
    parent: u64,
    cpu: u64,
    memory: u64,
    time: u64,
) -> Result<u64, Refusal>
    requires { sound_area a.old ≡ true }
    ensures { Serves (create_budget parent cpu memory time) answer.id_of a.old result a.new }
{
    if !area::has_room(a) {
        return Err(Refusal::Full);
    }
    let i = area::find_budget(a, parent).ok_or(Refusal::Missing)?;
    let account = area::account_at(a, i);
    let paid = accounts::charge(account, Kind::BUDGET_BYTES).ok_or(Refusal::Limit)?;
    let Some((rest, child)) = accounts::carve(paid, cpu, memory, time) else {
        renew(a, i, parent, account, time);
        return Err(Refusal::Limit);
    };
    let e = Entry {
        kind: Kind::Budget,
        payer: parent,
        charge: Kind::BUDGET_BYTES,
        account: child,
    };
    Ok(store(a, i, parent, rest, e))
}

pub fn refill(a: &mut [u8], id: u64, time: u64) -> Result<bool, Refusal>
    requires { sound_area a.old ≡ true }
    ensures { Serves (refill id time) answer.renewed_of a.old result a.new }
{
    let i = area::find_budget(a, id).ok_or(Refusal::Missing)?;
    let account = area::account_at(a, i);
    let done = account.refill(time);
    area::set_account(a, i, id, done.account);
    // The account is sound, so the renewal isn't refused.
    Ok(done.answer.unwrap_or(false))
}

pub fn charge_cpu(a: &mut [u8], id: u64, ns: u64, time: u64) -> Result<(), Refusal>
    requires { sound_area a.old ≡ true }
    ensures { Serves (charge_cpu id ns time) answer.nothing a.old result a.new }
{
    let i = area::find_budget(a, id).ok_or(Refusal::Missing)?;
    let account = area::account_at(a, i);
    let Some(rest) = accounts::spend(account, ns, time) else {
        renew(a, i, id, account, time);
        return Err(Refusal::Limit);
    };
    area::set_account(a, i, id, rest);
    Ok(())
}

// The account of a budget.
pub fn account(a: &[u8], id: u64) -> Result<Account, Refusal>
    requires { sound_area a.now ≡ true }
    ensures { Serves (read_account id) answer.account_of a.now result a.now }
{
    let i = area::find_budget(a, id).ok_or(Refusal::Missing)?;
    Ok(area::account_at(a, i))
}

// The payer and the charge of an object.
pub fn charge_of(a: &[u8], id: u64) -> Result<Charge, Refusal>
    requires { sound_area a.now ≡ true }
    ensures { Serves (charge_of id) answer.charge_of a.now result a.now }
{
    let i = area::find(a, id).ok_or(Refusal::Missing)?;
    let Entry {
        payer,
        charge: bytes,
        ..
    } = area::entry_at(a, i);
    Ok(Charge { payer, bytes })
}

// A budget with all below it, summed.
pub fn totals(a: &[u8], id: u64) -> Result<Totals, Refusal>
    requires { sound_area a.now ≡ true }
    ensures { Serves (read_totals id) answer.totals_of a.now result a.now }
{
    let i = area::find_budget(a, id).ok_or(Refusal::Missing)?;
    Ok(subtree::sums(a, id, i))
}

// The place of an object that is there. Not `subtree::place`, which has a guess to try first: here is none.
fn payer_place(a: &[u8], payer: u64) -> usize
    requires well_formed { WellFormed a.now }
    requires payer_value { has (decode a.now) payer ≡ true }
    ensures { Here no_row (decode a.now).rows payer result }
{
    area::find(a, payer).unwrap()
}

// The budget payer, which stands at place j, gets this account, and then the object id, at place i, this charge.
fn book(a: &mut [u8], j: usize, payer: u64, account: Account, i: usize, id: u64, charge: u64)
    requires well_formed { WellFormed a.old }
    requires here { Here no_row (decode a.old).rows payer j }
    requires here_2 { Here no_row (decode a.old).rows id i }
    ensures { Leaves a.new (object id (λ _. charge) (budget payer (λ _. account) (decode a.old))) }
{
    area::set_account(a, j, payer, account);
    area::set_charge(a, i, id, charge);
}

pub fn charge_more(a: &mut [u8], id: u64, bytes: u64) -> Result<(), Refusal>
    requires { sound_area a.old ≡ true }
    ensures { Serves (charge_more id bytes) answer.nothing a.old result a.new }
{
    let i = area::find(a, id).ok_or(Refusal::Missing)?;
    let e = area::entry_at(a, i);
    let j = payer_place(a, e.payer);
    let account = area::account_at(a, j);
    let paid = accounts::charge(account, bytes).ok_or(Refusal::Limit)?;
    book(a, j, e.payer, paid, i, id, e.charge + bytes);
    Ok(())
}

pub fn uncharge(a: &mut [u8], id: u64, bytes: u64) -> Result<(), Refusal>
    requires { sound_area a.old ≡ true }
    ensures { Serves (uncharge id bytes) answer.nothing a.old result a.new }
{
    let i = area::find(a, id).ok_or(Refusal::Missing)?;
    let e = area::entry_at(a, i);
    if bytes > e.charge {
        return Err(Refusal::Charge);
    }
    let j = payer_place(a, e.payer);
    let account = area::account_at(a, j);
    let paid = accounts::credit(account, bytes);
    book(a, j, e.payer, paid, i, id, e.charge - bytes);
    Ok(())
}

// Is the object at place i another one, which id pays for?
fn pays_at(a: &[u8], i: usize, id: u64) -> bool
    requires well_formed { WellFormed a.now }
    requires i_in_bounds { i < length (decode a.now).rows }
    ensures { result ≡ (not (eqb (get_or (decode a.now).rows i no_row).id id) && eqb (get_or (decode a.now).rows i no_row).it.payer id) }
{
    area::id_at(a, i) != id && area::payer_at(a, i) == id
}

// Does id pay for any other object?
fn pays(a: &[u8], id: u64) -> bool
    requires { WellFormed a.now }
    ensures { result ≡ pays_for (decode a.now) id }
{
    (0..area::count(a)).any(|i| pays_at(a, i, id))
}

// The budget payer, which stands at place j, gets this account, and the object at place i is taken out.
fn release(a: &mut [u8], j: usize, payer: u64, account: Account, i: usize)
    requires well_formed { WellFormed a.old }
    requires here { Here no_row (decode a.old).rows payer j }
    requires i_in_bounds { i < length (decode a.old).rows }
    ensures { Leaves a.new (with_rows (remove_at (budget payer (λ _. account) (decode a.old)).rows i) (decode a.old)) }
{
    area::set_account(a, j, payer, account);
    area::take_out(a, i);
}

// A removed budget's payer is renewed, and then gets the child back. On a sound area a budget that pays for nothing can be returned.
pub fn remove(a: &mut [u8], id: u64, time: u64) -> Result<(), Refusal>
    requires { sound_area a.old ≡ true }
    ensures { Serves (remove id time) answer.nothing a.old result a.new }
{
    let i = area::find(a, id).ok_or(Refusal::Missing)?;
    if id == area::ROOT {
        return Err(Refusal::Root);
    }
    let e = area::entry_at(a, i);
    let j = payer_place(a, e.payer);
    let account = area::account_at(a, j);
    if !e.kind.is_budget() {
        let paid = accounts::credit(account, e.charge);
        release(a, j, e.payer, paid, i);
        return Ok(());
    }
    if pays(a, id) {
        return Err(Refusal::Pays);
    }
    let returned = accounts::give_back(account, e.account, time);
    let paid = accounts::credit(returned, e.charge);
    release(a, j, e.payer, paid, i);
    Ok(())
}

pub fn pays_for_anything(a: &[u8], id: u64) -> Result<bool, Refusal>
    requires { sound_area a.now ≡ true }
    ensures { Serves (pays_for_anything id) answer.pays_of a.now result a.now }
{
    Ok(pays(a, id))
}
