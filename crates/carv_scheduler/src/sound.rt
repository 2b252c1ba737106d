// Question 1: is a lent area of its length, and is the board in it sound? Any bytes may be asked.
// carv_objects asks it of the registry's part. Then four walks: over the threads' ids, which must rise; over the queue, which
// marks the place of each id; over the threads, each of which is tested by itself and by its mark; and over the exits' causes.
// specs/Laws/SoundWalk.antt says what the walks know, and specs/Laws/SoundBridge.antt that this is question 1.
// Stored words are tested here, listed or not: so states, kinds, causes and whether there is a budget or a space are numbers.
// That row i lies within is a clause: a place is a number, and the rows that there may be are as many as a word says.
ghost use Rattle.std.specs.Prelude.{◌≡◌, ◌+◌, ◌*◌, ◌<◌, ◌≤◌, length, slice_index};
ghost use Rattle.carv_area.specs.Words.{words};
ghost use Rattle.carv_objects.specs.Laws.SoundWalk.{Tells};
ghost use Rattle.carv_scheduler_spec.specs.Sound.{unpaid};
ghost use Rattle.carv_scheduler.specs.Area.{sound_area};
ghost use Rattle.carv_scheduler.specs.Laws.SoundWalk.{wait_fits, budget_fits, space_fits, state_fits, Ordered, Fits, Fit, Current, Idle, Walk, Turned, Walked, SoundThreads, SoundTables, SoundExits, SoundParts};

use crate::numbers::{FIRST, IDLE};
use crate::rows::{self, ROW};
use crate::{area, exits};
use carv_area::Table;
use carv_scheduler_spec::{Cause, State, Wait};

// Where an id stands is noted under its remainder by this prime, and how many notes there can be.
const GUESSES: u64 = 251;

const NOTES: usize = 256;

// The bytes of the threads, the queue and the exits.
const THREADS_BYTES: usize = area::QUEUE - area::THREADS;

const QUEUE_BYTES: usize = area::EXITS - area::QUEUE;

const EXITS_BYTES: usize = area::BYTES - area::EXITS;

// Where a walk notes the place of an id. As `area::note` of carv_objects, by a prime and to a bound of this crate's own.
fn note(id: u64) -> usize
    ensures { result < 256 }
{
    (id % GUESSES) as usize
}

// Has a thread in this state this wait?
fn wait_fits(state: u64, kind: u64, number: u64) -> bool
    ensures { result ≡ wait_fits state kind number }
{
    if state == State::BLOCKED {
        Wait::is_listed(kind)
    } else {
        kind == 0 && number == 0
    }
}

// Has the thread id no budget?
fn is_unpaid(id: u64) -> bool
    ensures { result ≡ unpaid id }
{
    id == FIRST || id == IDLE
}

// Has the thread id this budget?
fn budget_fits(id: u64, is: u64, budget: u64) -> bool
    ensures { result ≡ budget_fits id is budget }
{
    match is {
        0 => budget == 0 && is_unpaid(id),
        1 => !is_unpaid(id),
        _ => false,
    }
}

// Is this a space, or none?
fn space_fits(is: u64, space: u64, cspace: u64, root: u64) -> bool
    ensures { result ≡ space_fits is space cspace root }
{
    match is {
        0 => space == 0 && cspace == 0 && root == 0,
        1 => true,
        _ => false,
    }
}

// May the thread id, in the queue or not, be in this state?
fn state_fits(state: u64, id: u64, current: u64, queued: bool) -> bool
    ensures { result ≡ state_fits queued current id state }
{
    match state {
        State::INACTIVE | State::BLOCKED => true,
        State::READY => id == IDLE || queued,
        State::RUNNING => id == IDLE || id == current,
        State::DEAD => id == current,
        _ => false,
    }
}

// Is the thread at place i, in the queue or not, in order?
fn thread_fits(t: &[u8], i: usize, current: u64, queued: bool) -> bool
    requires { i * 168 + 176 ≤ length t.now }
    ensures { Tells result (Fits (words t.now) current i queued) }
{
    let o = i * ROW;
    let id = carv_area::get(t, o + rows::ID);
    let state = carv_area::get(t, o + rows::STATE);
    let kind = carv_area::get(t, o + rows::WAIT);
    let number = carv_area::get(t, o + rows::WAIT_NUMBER);
    let is = carv_area::get(t, o + rows::BUDGET);
    let budget = carv_area::get(t, o + rows::BUDGET_ID);
    let is_space = carv_area::get(t, o + rows::SPACES);
    let space = carv_area::get(t, o + rows::SPACE);
    let cspace = carv_area::get(t, o + rows::CSPACE);
    let root = carv_area::get(t, o + rows::ROOT);
    state_fits(state, id, current, queued)
        && wait_fits(state, kind, number)
        && budget_fits(id, is, budget)
        && space_fits(is_space, space, cspace, root)
}

// Are the n threads in order, where those in the queue are marked?
fn threads_fit(
    t: &[u8; THREADS_BYTES],
    n: usize,
    current: u64,
    marks: &[bool; area::PLACES],
) -> bool
    requires n_bound { n ≤ 128 }
    ensures { Tells result (Fit (words t.now) current n marks.now) }
{
    (0..n).all(|i| thread_fits(t, i, current, marks[i]))
}

// Do the ids of the n threads rise? Each place is noted under its id's remainder.
// A loop, and no iterator: each id is compared with the one before it, and its place is noted.
fn ids_rise(t: &[u8; THREADS_BYTES], n: usize, places: &mut [usize; NOTES]) -> bool
    requires n_value { n ≡ slice_index (words t.now) 0 }
    requires n_bound { n ≤ 128 }
    ensures { Tells result (Ordered (words t.now)) }
{
    if n == 0 {
        return true;
    }
    let mut before = carv_area::get(t, rows::ID);
    places[note(before)] = 0;
    for i in 1..n {
        let id = carv_area::get(t, i * ROW + rows::ID);
        if id <= before {
            return false;
        }
        before = id;
        places[note(id)] = i;
    }
    true
}

// Is the current thread there, and not Inactive?
fn current_fits(table: Table<'_, ROW>, current: u64) -> bool
    ensures { Tells result (Current (words table.entry.bytes.now) current) }
{
    // `is_some_and` was tried: the check didn't find that the place that it passes on lies within.
    let Some(i) = table.find(current) else {
        return false;
    };
    carv_area::get(table.bytes, i * ROW + rows::STATE) != State::INACTIVE
}

// Is idle there, Running, or Ready if it is not current?
fn idle_fits(table: Table<'_, ROW>, current: u64) -> bool
    ensures { Tells result (Idle (words table.entry.bytes.now) current) }
{
    let Some(i) = table.find(IDLE) else {
        return false;
    };
    match carv_area::get(table.bytes, i * ROW + rows::STATE) {
        State::RUNNING => true,
        State::READY => current != IDLE,
        _ => false,
    }
}

// Is the id at place j of the queue a Ready thread's, other than idle, and not yet marked? Then its place is marked.
// The parameters are no struct: `marks` alone changes, and a struct of all would lend each of them for change.
fn turn(
    table: Table<'_, ROW>,
    q: &[u8; QUEUE_BYTES],
    j: usize,
    places: &[usize; NOTES],
    marks: &mut [bool; area::PLACES],
) -> bool
    requires t_bound { slice_index (words table.bytes.now) 0 ≤ 128 }
    requires j_bound { (j < slice_index (words q.now) 0) × (j < 127) }
    requires walk { Walk (words table.bytes.now) (words q.now) j marks.old }
    ensures { Turned (words table.entry.bytes.now) (words q.now) j result marks.new }
{
    let id = carv_area::get(q, j + 1);
    if id == IDLE {
        return false;
    }
    let guess = places[note(id)];
    let Some(i) = table.find_near(id, guess) else {
        return false;
    };
    if carv_area::get(table.bytes, i * ROW + rows::STATE) != State::READY {
        return false;
    }
    if marks[i] {
        return false;
    }
    marks[i] = true;
    true
}

// Are the m ids of the queue those of Ready threads other than idle, each once? The places of these are marked.
fn queue_fits(
    table: Table<'_, ROW>,
    q: &[u8; QUEUE_BYTES],
    m: usize,
    places: &[usize; NOTES],
    marks: &mut [bool; area::PLACES],
) -> bool
    requires t_bound { slice_index (words table.bytes.now) 0 ≤ 128 }
    requires m_value { (m ≡ slice_index (words q.now) 0) × (m ≤ 127) }
    requires walk { Walk (words table.bytes.now) (words q.now) 0 marks.old }
    ensures { Walked (words table.entry.bytes.now) (words q.now) result marks.new }
{
    // A `for` that returns early: the closure of `all` would change the marks, and a proof knows nothing of what it left.
    for j in 0..m {
        if !turn(table, q, j, places, marks) {
            return false;
        }
    }
    true
}

// Are the n threads and the m ids of the queue in order?
fn threads_are_sound(
    t: &[u8; THREADS_BYTES],
    q: &[u8; QUEUE_BYTES],
    n: usize,
    m: usize,
    current: u64,
) -> bool
    requires n_value { (n ≡ slice_index (words t.now) 0) × (n ≤ 128) }
    requires m_value { (m ≡ slice_index (words q.now) 0) × (m ≤ 127) }
    ensures { Tells result (SoundThreads (words t.now) (words q.now) current) }
{
    // `places` goes by the remainder of an id, and `marks` by row, so that they are no two columns of one array.
    let mut places = [0usize; NOTES];
    if !ids_rise(t, n, &mut places) {
        return false;
    }
    let table = Table { bytes: t };
    let mut marks = [false; area::PLACES];
    current_fits(table, current)
        && idle_fits(table, current)
        && queue_fits(table, q, m, &places, &mut marks)
        && threads_fit(t, n, current, &marks)
}

// Are the threads t and the queue q in order, with zeros behind them?
fn tables_are_sound(t: &[u8; THREADS_BYTES], q: &[u8; QUEUE_BYTES], current: u64) -> bool
    ensures { Tells result (SoundTables (words t.now) (words q.now) current) }
{
    let n = carv_area::get(t, 0) as usize;
    let m = carv_area::get(q, 0) as usize;
    n <= area::PLACES
        && m <= area::QUEUE_PLACES
        && carv_area::zero_from(t, n * ROW + rows::ID)
        && carv_area::zero_from(q, m + 1)
        && threads_are_sound(t, q, n, m, current)
}

// Are the exits in order, with zeros behind them?
fn exits_are_sound(x: &[u8; EXITS_BYTES]) -> bool
    ensures { Tells result (SoundExits (words x.now)) }
{
    let n = carv_area::get(x, 0) as usize;
    n <= exits::PLACES
        && carv_area::zero_from(x, n * exits::ROW + exits::THREAD)
        && (0..n).all(|i| Cause::is_listed(carv_area::get(x, i * exits::ROW + exits::CAUSE)))
}

// Are the threads, the queue and the exits in order?
fn parts_are_sound(area: &[u8; area::BYTES]) -> bool
    ensures { Tells result (SoundParts area.now) }
{
    let t = area[area::THREADS..area::QUEUE].as_array().unwrap();
    let q = area[area::QUEUE..area::EXITS].as_array().unwrap();
    let x = area[area::EXITS..area::BYTES].as_array().unwrap();
    tables_are_sound(t, q, area::current(area)) && exits_are_sound(x)
}

// Question 1.
pub fn is_sound(area: &[u8]) -> bool
    ensures { result ≡ sound_area area.now }
{
    let Some(area) = area.as_array() else {
        return false;
    };
    carv_objects::is_sound(&area[0..area::HEAD]) && parts_are_sound(area)
}
