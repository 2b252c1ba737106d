// The thread table: one thread record in each row of 21 words; and the two words of the head. That a row, or a part of it, lies within is a
// clause: a place is a number, and the table a lent slice.
ghost use Rattle.std.specs.Prelude.{◌≡◌, ◌+◌, ◌*◌, ◌%◌, ◌^◌, ◌≤◌, length, slice_index, slice_set};
ghost use Rattle.carv_area.specs.Words.{words};
ghost use Rattle.carv_area.specs.Moves.{open_row};
ghost use Rattle.carv_scheduler_spec.specs.Scheduler.{fresh};
ghost use Rattle.carv_scheduler.specs.Area.{wait_at, state_at, budget_at, spaces_at, root_at, context_at, results_at, thread_at};
ghost use Rattle.carv_scheduler.specs.Laws.Rows.{row, set_state, set_results, set_ticks, set_woken, set_thread};

use carv_scheduler_spec::{Context, Results, Spaces, State, Thread, Wait};

// How many words a row has, and which of them is what, counted from the word before the row. The first word of a part bears its name.
pub const ROW: usize = 21;

pub const ID: usize = 1;

pub const STATE: usize = 2;

pub const WAIT: usize = 3;

pub const WAIT_NUMBER: usize = WAIT + 1;

pub const BUDGET: usize = 5;

pub const BUDGET_ID: usize = BUDGET + 1;

pub const SPACES: usize = 7;

pub const SPACE: usize = SPACES + 1;

pub const CSPACE: usize = SPACES + 2;

pub const ROOT: usize = SPACES + 3;

const CONTEXT: usize = 11;

const RESULTS: usize = 18;

const TICKS: usize = 21;

// The words of the head.
pub const CURRENT: usize = 0;

pub const SWITCHES: usize = 1;

// The flags of a new thread, with interrupts on.
const FRESH_RFLAGS: u64 = 0x202;

// The record of a new thread.
pub fn fresh_thread(state: State, budget: Option<u64>) -> Thread
    ensures { result ≡ fresh state budget }
{
    Thread {
        state,
        budget,
        spaces: None,
        context: Context {
            rflags: FRESH_RFLAGS,
            ..Context::default()
        },
        results: Results::default(),
        ticks: 0,
    }
}

pub fn read_wait(t: &[u8], o: usize) -> Wait
    requires { o * 8 + 16 ≤ length t.now }
    ensures { result ≡ wait_at (words t.now) o }
{
    Wait::of_code(carv_area::get(t, o), carv_area::get(t, o + 1))
}

// The state at word o, by its code, and by its wait where it is Blocked. Of a word that is no code, Dead.
pub fn read_state(t: &[u8], o: usize) -> State
    requires { o * 8 + 24 ≤ length t.now }
    ensures { result ≡ state_at (words t.now) o }
{
    match carv_area::get(t, o) {
        State::INACTIVE => State::Inactive,
        State::READY => State::Ready,
        State::RUNNING => State::Running,
        State::BLOCKED => State::Blocked(read_wait(t, o + 1)),
        _ => State::Dead,
    }
}

pub fn read_budget(t: &[u8], o: usize) -> Option<u64>
    requires { o * 8 + 16 ≤ length t.now }
    ensures { result ≡ budget_at (words t.now) o }
{
    (carv_area::get(t, o) != 0).then(|| carv_area::get(t, o + 1))
}

pub fn read_spaces(t: &[u8], o: usize) -> Option<Spaces>
    requires { o * 8 + 32 ≤ length t.now }
    ensures { result ≡ spaces_at (words t.now) o }
{
    (carv_area::get(t, o) != 0).then(|| Spaces {
        space: carv_area::get(t, o + 1),
        cspace: carv_area::get(t, o + 2),
        root: carv_area::get(t, o + 3),
    })
}

// The page-table root of the space at word o alone.
pub fn read_root(t: &[u8], o: usize) -> Option<u64>
    requires { o * 8 + 32 ≤ length t.now }
    ensures { result ≡ root_at (words t.now) o }
{
    (carv_area::get(t, o) != 0).then(|| carv_area::get(t, o + 3))
}

fn read_context(t: &[u8], o: usize) -> Context
    requires { o * 8 + 56 ≤ length t.now }
    ensures { result ≡ context_at (words t.now) o }
{
    Context {
        rip: carv_area::get(t, o),
        rsp: carv_area::get(t, o + 1),
        rflags: carv_area::get(t, o + 2),
        rdi: carv_area::get(t, o + 3),
        rsi: carv_area::get(t, o + 4),
        cs: carv_area::get(t, o + 5),
        ss: carv_area::get(t, o + 6),
    }
}

fn read_results(t: &[u8], o: usize) -> Results
    requires { o * 8 + 24 ≤ length t.now }
    ensures { result ≡ results_at (words t.now) o }
{
    Results {
        first: carv_area::get(t, o),
        second: carv_area::get(t, o + 1),
        third: carv_area::get(t, o + 2),
    }
}

// The record at place i of the table t.
pub fn read_thread(t: &[u8], i: usize) -> Thread
    requires { (i * 21 + 21) * 8 + 8 ≤ length t.now }
    ensures { result ≡ (thread_at (words t.now) i).it }
{
    let o = i * ROW;
    Thread {
        state: read_state(t, o + STATE),
        budget: read_budget(t, o + BUDGET),
        spaces: read_spaces(t, o + SPACES),
        context: read_context(t, o + CONTEXT),
        results: read_results(t, o + RESULTS),
        ticks: carv_area::get(t, o + TICKS),
    }
}

// The state of the record at place i, with its wait.
pub fn write_state(t: &mut [u8], i: usize, state: State)
    requires { (i * 21 + 21) * 8 + 8 ≤ length t.old }
    ensures { words t.new ≡ set_state (words t.old) i state }
{
    let words = [state.code(), state.wait_kind(), state.wait_number()];
    carv_area::put_words(t, i * ROW + STATE, &words);
}

fn write_results(t: &mut [u8], i: usize, results: Results)
    requires { (i * 21 + 21) * 8 + 8 ≤ length t.old }
    ensures { words t.new ≡ set_results (words t.old) i results }
{
    let words = [results.first, results.second, results.third];
    carv_area::put_words(t, i * ROW + RESULTS, &words);
}

// The record under the id at place i of the table t.
pub fn write_thread(t: &mut [u8], i: usize, id: u64, thread: Thread)
    requires { (i * 21 + 21) * 8 + 8 ≤ length t.old }
    ensures { words t.new ≡ set_thread (words t.old) i (row id thread) }
{
    let o = i * ROW;
    carv_area::put(t, o + ID, id);
    carv_area::put_words(t, o + STATE, &thread.words());
}

// The record at place i is Ready and has these results.
pub fn write_woken(t: &mut [u8], i: usize, results: Results)
    requires { (i * 21 + 21) * 8 + 8 ≤ length t.old }
    ensures { words t.new ≡ set_woken (words t.old) i results }
{
    write_state(t, i, State::Ready);
    write_results(t, i, results);
}

// The record at place i has run a tick more.
pub fn write_ticked(t: &mut [u8], i: usize)
    requires { (i * 21 + 21) * 8 + 8 ≤ length t.old }
    ensures { words t.new ≡ set_ticks (words t.old) i ((slice_index (words t.old) (i * 21 + 21) + 1) % 2 ^ 64) }
{
    let o = i * ROW + TICKS;
    let n = carv_area::get(t, o);
    carv_area::put(t, o, n.wrapping_add(1));
}

// A row at place i of the table t, before the row that stood there, with this record.
pub fn insert_thread(t: &mut [u8], i: usize, id: u64, thread: Thread)
    requires t_in_bounds { (slice_index (words t.old) 0 * 21 + 21 + 1) * 8 ≤ length t.old }
    requires i_bound { i ≤ slice_index (words t.old) 0 }
    ensures { words t.new ≡ set_thread (open_row 21 i (slice_index (words t.old) 0) (words t.old)) i (row id thread) }
{
    carv_area::insert_row(t, ROW, i);
    write_thread(t, i, id, thread)
}

// The current thread and the switch count: the head's two words. A slice with its length: an array would be an `unwrap` more.
pub fn write_head(h: &mut [u8], current: u64, switches: u64)
    requires { length h.old ≡ 16 }
    ensures { words h.new ≡ slice_set (slice_set (words h.old) 0 current) 1 switches }
{
    carv_area::put_words(h, CURRENT, &[current, switches]);
}
