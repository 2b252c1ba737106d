// Question 1: is a lent area of its length, and is the registry in it sound? Any bytes may be asked.
// One walk over the rows: each row is tested by itself and against the rows before it, and what it takes is taken off its
// payer's figures. These count down from the stored figure, so that no sum can wrap, and must end at 0.
// specs/Laws/SoundWalk.antt says what the walk knows at each row, and specs/Laws/SoundBridge.antt that this is question 1.
// That row i lies within is a clause: a place is a number, and the rows that there may be are as many as a word says.
ghost use Rattle.std.specs.Prelude.{◌≡◌, ◌+◌, ◌*◌, ◌≤◌, ◌<◌, length, get_or};
ghost use Rattle.std.specs.List.{list_all};
ghost use Rattle.carv_area.specs.Words.{words};
ghost use Rattle.carv_objects.specs.Area.{sound_area};
ghost use Rattle.carv_objects.specs.Laws.Entry.{asked_sound};
ghost use Rattle.carv_objects.specs.Laws.SoundWalk.{Tells, Plain, Rise, Place, Owner, Front, Walk, Whole, Turned, Lessened, ReservedFor, SoundTable, spent};

use crate::{Refusal, area, rows};
use carv_objects_spec::{Entry, Kind};

// The bytes of the table.
const TABLE_BYTES: usize = area::BYTES - area::TABLE;

// What is left of the figures of a row's account that are sums. Nothing prints it, and `are_spent` compares it figure by figure.
#[derive(Clone, Copy, Default)]
struct Figures {
    used: u64,
    memory: u64,
    cpu: u64,
}

impl Figures {
    // What is left where these are taken off, if they can be.
    fn checked_sub(self, taken: Figures) -> Option<Figures>
        ensures { Lessened self taken result }
    {
        Some(Figures {
            used: self.used.checked_sub(taken.used)?,
            memory: self.memory.checked_sub(taken.memory)?,
            cpu: self.cpu.checked_sub(taken.cpu)?,
        })
    }
}

// Is an entry in order by itself, whose kind is stored as this code? The code comes beside it, since an unlisted one reads as the last kind.
// A sound account with the three figures at 0 has the other four at 0.
fn is_plain(code: u64, e: Entry) -> bool
    ensures { Tells result (Plain code e) }
{
    let a = e.account;
    Kind::is_listed(code)
        && a.is_sound()
        && (e.kind.is_budget()
            || (a.cpu_allowance == 0 && a.memory_limit == 0 && a.period_start == 0))
}

// The place below i whose id is p. guess is tried first.
// By hand: carv_area::Table::find asks that all rows' ids rise, where only the first i are known to. `partition_point` over these rows
// as chunks was tried: it proves, with 47 lines more, and question 1 ran 0.05 % more instructions in `replay_objects`.
fn place(t: &[u8], i: usize, p: u64, guess: usize) -> Option<usize>
    requires i_in_bounds { i * 88 + 8 ≤ length t.now }
    requires rise { Rise (words t.now) i }
    ensures { Place (words t.now) i p result }
{
    if guess < i && carv_area::get(t, guess * rows::ROW + rows::ID) == p {
        return Some(guess);
    }
    let mut lo = 0;
    let mut len = i;
    while 1 < len {
        let half = len / 2;
        let x = carv_area::get(t, (lo + half) * rows::ROW + rows::ID);
        if x <= p {
            lo += half;
        }
        len -= half;
    }
    (lo < i && carv_area::get(t, lo * rows::ROW + rows::ID) == p).then_some(lo)
}

// The place of row i's payer, if row i fits the rows before it. The parameters are no struct: they are the walk's, which `whole` has at hand.
fn owner(t: &[u8], i: usize, next: u64, guess: usize) -> Option<usize>
    requires i_in_bounds { i * 88 + 96 ≤ length t.now }
    requires front { Front (words t.now) next i }
    ensures { Owner (words t.now) next i result }
{
    let o = i * rows::ROW;
    let id = carv_area::get(t, o + rows::ID);
    let payer = carv_area::get(t, o + rows::PAYER);
    if id >= next {
        return None;
    }
    if i == 0 {
        let kind = Kind::of_code(carv_area::get(t, o + rows::KIND));
        return (id == area::ROOT && payer == area::ROOT && kind.is_budget()).then_some(i);
    }
    let before = carv_area::get(t, (i - 1) * rows::ROW + rows::ID);
    if id <= before {
        return None;
    }
    let j = place(t, i, payer, guess)?;
    let kind = Kind::of_code(carv_area::get(t, j * rows::ROW + rows::KIND));
    kind.is_budget().then_some(j)
}

// What row i's payer reserves for row i, whose limit is x: the root is not its own child.
fn reserved_for(i: usize, x: u64) -> u64
    ensures { ReservedFor i x result }
{
    if i == 0 { 0 } else { x }
}

// Row i: is it in order, and can what it takes be taken off its payer's figures?
fn turn(t: &[u8], i: usize, next: u64, figures: &mut [Figures; area::PLACES], guess: usize) -> bool
    requires i_in_bounds { i * 88 + 96 ≤ length t.now }
    requires i_bound { i < 512 }
    requires i_bound_2 { i < get_or (words t.now) 0 0 }
    requires walk { Walk (words t.now) next i figures.old }
    ensures { Turned (words t.now) next i result figures.new }
{
    let code = carv_area::get(t, i * rows::ROW + rows::KIND);
    let e = rows::read_entry(t, i);
    if !is_plain(code, e) {
        return false;
    }
    let Some(j) = owner(t, i, next, guess) else {
        return false;
    };
    let a = e.account;
    // An account's figures under other names, in this one place: so no `From`.
    figures[i] = Figures {
        used: a.memory_used,
        memory: a.memory_reserved,
        cpu: a.cpu_reserved,
    };
    let taken = Figures {
        used: e.charge,
        memory: reserved_for(i, a.memory_limit),
        cpu: reserved_for(i, a.cpu_allowance),
    };
    let Some(left) = figures[j].checked_sub(taken) else {
        return false;
    };
    figures[j] = left;
    true
}

// Is nothing left?
fn are_spent(figures: &[Figures]) -> bool
    ensures { result ≡ list_all spent figures.now }
{
    // A fold, since question 1 is measured: `all` stops early and is a branch a row.
    figures.iter().fold(true, |spent, f| {
        spent & (f.used == 0) & (f.memory == 0) & (f.cpu == 0)
    })
}

// Are the n rows in order, and each budget's figures the sums? The place of a payer is guessed from its id: `places` goes by the
// remainder of an id, and `figures` by row, so that they are no two columns of one array.
fn whole(t: &[u8; TABLE_BYTES], n: usize, next: u64) -> bool
    requires n_value { n ≡ get_or (words t.now) 0 0 }
    requires n_bound { n ≤ 512 }
    ensures { Tells result (Whole (words t.now) next) }
{
    if n == 0 {
        return false;
    }
    let mut figures = [Figures::default(); area::PLACES];
    let mut places = [0usize; area::PLACES];
    // A `for` that returns early: the closure of `all` would change both arrays, and a proof knows nothing of what it left.
    for i in 0..n {
        let from = area::note(carv_area::get(t, i * rows::ROW + rows::PAYER));
        if !turn(t, i, next, &mut figures, places[from]) {
            return false;
        }
        let to = area::note(carv_area::get(t, i * rows::ROW + rows::ID));
        places[to] = i;
    }
    are_spent(&figures)
}

// Question 1 of the table t.
fn table_is_sound(t: &[u8; TABLE_BYTES], next: u64) -> bool
    ensures { Tells result (SoundTable (words t.now) next) }
{
    let n = carv_area::get(t, 0) as usize;
    n <= area::PLACES && carv_area::zero_from(t, n * rows::ROW + rows::ID) && whole(t, n, next)
}

// Question 1.
pub fn is_sound(area: &[u8]) -> bool
    ensures { result ≡ sound_area area.now }
{
    area.len() == area::BYTES
        && table_is_sound(
            area[area::TABLE..area::BYTES].as_array().unwrap(),
            area::next_id(area),
        )
}

// The same in front of a call: no is a refusal.
pub fn ask_sound(area: &[u8]) -> Result<(), Refusal>
    ensures { result ≡ asked_sound (sound_area area.now) }
{
    is_sound(area).then_some(()).ok_or(Refusal::Unsound)
}
