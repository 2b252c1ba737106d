// The registry's area: its parts, each lent to one function of the table. docs/LAYOUT.md has the layout.
// That it is well formed, or laid out, is asked in each contract, and is no type's invariant. `Registry<'a> { bytes: &'a mut [u8], ghost
// formed: { WellFormed bytes.now } }` with a method `set_account` was tried: each `&mut` method has a clause that `bytes` keeps its
// reference, one for the one that the field saves, and a ghost field must be a proposition, and `WellFormed`, as it is stated, is none. A
// reader over `&'a [u8]` was tried in calls.rt: the writers would still have the clause, and would make a reader at each reading. That a
// place is one of the table's is a clause, too: it is a number, which stays when rows move.
ghost use Rattle.std.specs.Prelude.{◌≡◌, true, ◌&&◌, [], ◌∷◌, ◌++◌, ◌+◌, ◌*◌, ◌≤◌, ◌<◌, length, get_or};
ghost use Rattle.carv_area.specs.Table.{Rising};
ghost use Rattle.carv_area.specs.Rows.{remove_at};
ghost use Rattle.carv_area.specs.Lookup.{Located, Here};
ghost use Rattle.carv_objects_spec.specs.Registry.{has_place, has_next, budget, object, add};
ghost use Rattle.carv_objects.specs.Area.{table, decode, LaidOut};
ghost use Rattle.carv_objects.specs.Laws.Rows.{row, no_row};
ghost use Rattle.carv_objects.specs.Laws.Formed.{WellFormed, Leaves};
ghost use Rattle.carv_objects.specs.Laws.AreaSteps.{with_rows, BudgetAt};

use crate::rows::{self, ROW};
use carv_area::Table;
use carv_budget::Account;
use carv_objects_spec::{Entry, Kind};

// Where the table starts, and the length of the area.
pub const TABLE: usize = 8;

pub const BYTES: usize = 45_072;

// How many objects there can be, and the first id that is never given.
pub const PLACES: usize = 512;

const LAST_ID: u64 = u64::MAX;

// A walk over the rows notes where an id stands under its remainder by this prime.
const GUESSES: u64 = 509;

// The id of the root budget.
pub const ROOT: u64 = 1;

// Where a walk notes the place of an id. What is noted is a guess, tried first: no clause asks that it is right.
pub fn note(id: u64) -> usize
    ensures { result < 512 }
{
    (id % GUESSES) as usize
}

// The id that the next object gets. Here and below the length alone is asked: question 1 and the opening come before the area is well formed.
pub fn next_id(a: &[u8]) -> u64
    requires { 8 ≤ length a.now }
    ensures { result ≡ (decode a.now).next }
{
    carv_area::get(&a[0..TABLE], 0)
}

pub fn set_next(a: &mut [u8], n: u64)
    requires { length a.old ≡ 45_072 }
    ensures { ((decode a.new).next ≡ n) × (table a.new ≡ table a.old) }
{
    carv_area::put(&mut a[0..TABLE], 0, n)
}

// How many objects there are.
pub fn count(a: &[u8]) -> usize
    requires { WellFormed a.now }
    ensures { result ≡ length (decode a.now).rows }
{
    carv_area::get(&a[TABLE..BYTES], 0) as usize
}

// The objects as a table, whose ids rise.
fn objects(a: &[u8]) -> Table<'_, ROW>
    requires { WellFormed a.now }
    ensures { result.bytes.now ≡ table a.now }
{
    let bytes = &a[TABLE..BYTES];
    Table { bytes }
}

// The place of the object with this id.
pub fn find(a: &[u8], id: u64) -> Option<usize>
    requires { WellFormed a.now }
    ensures { Located no_row (decode a.now).rows id result }
{
    objects(a).find(id)
}

// The same, where the place guess is tried first.
pub fn find_near(a: &[u8], id: u64, guess: usize) -> Option<usize>
    requires { WellFormed a.now }
    ensures { Located no_row (decode a.now).rows id result }
{
    objects(a).find_near(id, guess)
}

// The id at place i.
pub fn id_at(a: &[u8], i: usize) -> u64
    requires well_formed { WellFormed a.now }
    requires i_in_bounds { i < length (decode a.now).rows }
    ensures { result ≡ (get_or (decode a.now).rows i no_row).id }
{
    carv_area::get(&a[TABLE..BYTES], i * rows::ROW + rows::ID)
}

// The payer of the object at place i.
pub fn payer_at(a: &[u8], i: usize) -> u64
    requires well_formed { WellFormed a.now }
    requires i_in_bounds { i < length (decode a.now).rows }
    ensures { result ≡ (get_or (decode a.now).rows i no_row).it.payer }
{
    carv_area::get(&a[TABLE..BYTES], i * rows::ROW + rows::PAYER)
}

// The entry at place i.
pub fn entry_at(a: &[u8], i: usize) -> Entry
    requires well_formed { WellFormed a.now }
    requires i_in_bounds { i < length (decode a.now).rows }
    ensures { result ≡ (get_or (decode a.now).rows i no_row).it }
{
    rows::read_entry(&a[TABLE..BYTES], i)
}

// The kind of the object at place i.
fn kind_at(a: &[u8], i: usize) -> Kind
    requires well_formed { WellFormed a.now }
    requires i_in_bounds { i < length (decode a.now).rows }
    ensures { result ≡ (get_or (decode a.now).rows i no_row).it.kind }
{
    Kind::of_code(carv_area::get(&a[TABLE..BYTES], i * rows::ROW + rows::KIND))
}

// The account of the object at place i, whatever the word of its kind.
pub fn account_at(a: &[u8], i: usize) -> Account
    requires laid_out { LaidOut a.now }
    requires i_in_bounds { i < length (decode a.now).rows }
    ensures { result ≡ (get_or (decode a.now).rows i no_row).it.account }
{
    rows::read_account(&a[TABLE..BYTES], i)
}

// An object with the entry e behind the others.
pub fn append(a: &mut [u8], id: u64, e: Entry)
    requires well_formed { WellFormed a.old }
    requires a_len_bound { (length (decode a.old).rows < 512) × Rising 1 (decode a.old).next ((decode a.old).rows ++ (row id e ∷ [])) }
    ensures { Leaves a.new (with_rows ((decode a.old).rows ++ (row id e ∷ [])) (decode a.old)) }
{
    rows::append_entry(&mut a[TABLE..BYTES], id, e)
}

// The object at place i is taken out.
pub fn take_out(a: &mut [u8], i: usize)
    requires well_formed { WellFormed a.old }
    requires i_in_bounds { i < length (decode a.old).rows }
    ensures { Leaves a.new (with_rows (remove_at (decode a.old).rows i) (decode a.old)) }
{
    carv_area::remove_row(&mut a[TABLE..BYTES], rows::ROW, i)
}

// Is there a place, and an id to give?
pub fn has_room(a: &[u8]) -> bool
    requires { WellFormed a.now }
    ensures { result ≡ (has_place (decode a.now) && has_next (decode a.now)) }
{
    count(a) < PLACES && next_id(a) < LAST_ID
}

// The place of the budget with this id.
pub fn find_budget(a: &[u8], id: u64) -> Option<usize>
    requires { WellFormed a.now }
    ensures { BudgetAt (decode a.now) id result }
{
    let i = find(a, id)?;
    kind_at(a, i).is_budget().then_some(i)
}

// The object id, which stands at place i, has this account. An id and its place are no struct, as `Chosen` is one in carv_scheduler: each
// function here would make one of what it has just found, for one clause saved.
pub fn set_account(a: &mut [u8], i: usize, id: u64, account: Account)
    requires well_formed { WellFormed a.old }
    requires here { Here no_row (decode a.old).rows id i }
    ensures { Leaves a.new (budget id (λ _. account) (decode a.old)) }
{
    rows::write_account(&mut a[TABLE..BYTES], i, account)
}

// The object id, which stands at place i, has this charge.
pub fn set_charge(a: &mut [u8], i: usize, id: u64, charge: u64)
    requires well_formed { WellFormed a.old }
    requires here { Here no_row (decode a.old).rows id i }
    ensures { Leaves a.new (object id (λ _. charge) (decode a.old)) }
{
    carv_area::put(&mut a[TABLE..BYTES], i * rows::ROW + rows::CHARGE, charge)
}

// A new object with the entry e, under the next id.
pub fn add(a: &mut [u8], e: Entry) -> u64
    requires well_formed { WellFormed a.old }
    requires a_value { (has_place (decode a.old) && has_next (decode a.old)) ≡ true }
    ensures { (result ≡ (decode a.old).next) × Leaves a.new (add e (decode a.old)) }
{
    let id = next_id(a);
    set_next(a, id + 1);
    append(a, id, e);
    id
}
