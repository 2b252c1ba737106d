// The registry's table: one object in each row of 11 words. That a row lies within is a clause: a place is a number, and the table a lent slice.
ghost use Rattle.std.specs.Prelude.{◌≡◌, [], ◌∷◌, ◌++◌, ◌+◌, ◌*◌, ◌≤◌, ◌<◌, length, get_or};
ghost use Rattle.carv_area.specs.Words.{words};
ghost use Rattle.carv_area.specs.Stored.{Stored};
ghost use Rattle.carv_objects.specs.Area.{fields, row_at, rows_in};
ghost use Rattle.carv_objects.specs.Laws.Rows.{row, set_account};

use carv_budget::Account;
use carv_objects_spec::{Entry, Kind};

// How many words a row has, and which of them is what, counted from the word before the row.
pub const ROW: usize = 11;

pub const ID: usize = 1;

pub const KIND: usize = 2;

pub const PAYER: usize = 3;

pub const CHARGE: usize = 4;

const CPU_ALLOWANCE: usize = 5;

const MEMORY_LIMIT: usize = 6;

const PERIOD_START: usize = 7;

const CPU_LEFT: usize = 8;

const CPU_RESERVED: usize = 9;

const MEMORY_USED: usize = 10;

const MEMORY_RESERVED: usize = 11;

// The account of the entry at place i of the table t. By field: an array of words to make it of would have to be filled word by word.
pub fn read_account(t: &[u8], i: usize) -> Account
    requires { (i * 11 + 11) * 8 + 8 ≤ length t.now }
    ensures { result ≡ (row_at (words t.now) i).it.account }
{
    let o = i * ROW;
    Account {
        cpu_allowance: carv_area::get(t, o + CPU_ALLOWANCE),
        memory_limit: carv_area::get(t, o + MEMORY_LIMIT),
        period_start: carv_area::get(t, o + PERIOD_START),
        cpu_left: carv_area::get(t, o + CPU_LEFT),
        cpu_reserved: carv_area::get(t, o + CPU_RESERVED),
        memory_used: carv_area::get(t, o + MEMORY_USED),
        memory_reserved: carv_area::get(t, o + MEMORY_RESERVED),
    }
}

// The entry at place i of the table t.
pub fn read_entry(t: &[u8], i: usize) -> Entry
    requires { (i * 11 + 11) * 8 + 8 ≤ length t.now }
    ensures { result ≡ (row_at (words t.now) i).it }
{
    let o = i * ROW;
    Entry {
        kind: Kind::of_code(carv_area::get(t, o + KIND)),
        payer: carv_area::get(t, o + PAYER),
        charge: carv_area::get(t, o + CHARGE),
        account: read_account(t, i),
    }
}

// The entry at place i of the table t gets this account.
pub fn write_account(t: &mut [u8], i: usize, a: Account)
    requires { (i * 11 + 11) * 8 + 8 ≤ length t.old }
    ensures { words t.new ≡ set_account (words t.old) i a }
{
    carv_area::put_words(t, i * ROW + CPU_ALLOWANCE, &a.words())
}

// The entry e under the id behind the others of the table t, which has room.
pub fn append_entry(t: &mut [u8], id: u64, e: Entry)
    requires stored { Stored fields 11 t.old (rows_in (words t.old)) }
    requires t_in_bounds { (length (rows_in (words t.old)) * 11 + 11) * 8 + 8 ≤ length t.old }
    ensures { Stored fields 11 t.new (rows_in (words t.old) ++ (row id e ∷ [])) }
{
    // By name: without a heap an array of eleven is not joined of two.
    let [
        cpu_allowance,
        memory_limit,
        period_start,
        cpu_left,
        cpu_reserved,
        memory_used,
        memory_reserved,
    ] = e.account.words();
    carv_area::append_row(
        t,
        &[
            id,
            e.kind.code(),
            e.payer,
            e.charge,
            cpu_allowance,
            memory_limit,
            period_start,
            cpu_left,
            cpu_reserved,
            memory_used,
            memory_reserved,
        ],
    )
}
