// The board's area: its parts, each lent to one function of carv_area or of the rows. docs/LAYOUT.md has the layout.
// That it is well formed is asked in each contract, and is no type's invariant, for the reasons at the head of carv_objects' area.rt;
// and so is that a place is one of its table's. The readers are as carv_objects', a line each over carv_area: what they say is of another
// `decode`, which one function for both would take as a parameter. An id and its place are no struct: see `set_account` there.
ghost use Rattle.std.specs.Prelude.{◌≡◌, ◌<◌, [], ◌∷◌, ◌++◌, length, get_or, slice_index, slice_index_or, slice_set};
ghost use Rattle.carv_area.specs.Table.{put};
ghost use Rattle.carv_area.specs.Rows.{remove_at};
ghost use Rattle.carv_area.specs.Lookup.{Located};
ghost use Rattle.carv_scheduler_spec.specs.Scheduler.{root_of, woken, ticked};
ghost use Rattle.carv_scheduler.specs.Area.{threads_part, decode};
ghost use Rattle.carv_scheduler.specs.Laws.Rows.{row, no_row};
ghost use Rattle.carv_scheduler.specs.Laws.Formed.{WellFormed, Leaves};
ghost use Rattle.carv_scheduler.specs.Laws.RowWords.{with_state};
ghost use Rattle.carv_scheduler.specs.Laws.AreaSteps.{with_head, with_threads, with_queue, Placed, New};

use crate::rows::{self, ROW};
use carv_area::Table;
use carv_scheduler_spec::{Results, State, Thread};

// Where the parts start, behind the registry, and where the last one ends.
pub const HEAD: usize = carv_objects::BYTES;

pub const THREADS: usize = 45_088;

pub const QUEUE: usize = 66_600;

pub const EXITS: usize = 67_624;

pub const BYTES: usize = 68_144;

// How many threads there can be, and how many of them in the queue, where idle never is.
pub const PLACES: usize = 128;

pub const QUEUE_PLACES: usize = PLACES - 1;

// The current thread. The length alone is asked: question 1 comes here before the area is well formed.
pub fn current(a: &[u8]) -> u64
    requires { length a.now ≡ 68_144 }
    ensures { result ≡ (decode a.now).current }
{
    carv_area::get(&a[HEAD..THREADS], rows::CURRENT)
}

// How many context switches there were.
pub fn switches(a: &[u8]) -> u64
    requires { WellFormed a.now }
    ensures { result ≡ (decode a.now).switches }
{
    carv_area::get(&a[HEAD..THREADS], rows::SWITCHES)
}

// Another current thread and switch count.
pub fn set_head(a: &mut [u8], thread: u64, count: u64)
    requires { WellFormed a.old }
    ensures { Leaves a.new (with_head thread count (decode a.old)) }
{
    rows::write_head(&mut a[HEAD..THREADS], thread, count)
}

// How many threads there are.
pub fn thread_count(a: &[u8]) -> usize
    requires { WellFormed a.now }
    ensures { result ≡ length (decode a.now).threads }
{
    carv_area::get(&a[THREADS..QUEUE], 0) as usize
}

// The threads, as a table to look in.
fn threads(a: &[u8]) -> Table<'_, ROW>
    requires { WellFormed a.now }
    ensures { result.bytes.now ≡ threads_part a.now }
{
    let bytes = &a[THREADS..QUEUE];
    Table { bytes }
}

// The place of the thread with this id.
pub fn find_thread(a: &[u8], id: u64) -> Option<usize>
    requires { WellFormed a.now }
    ensures { Located no_row (decode a.now).threads id result }
{
    threads(a).find(id)
}

// The same, where the place guess is tried first.
pub fn find_thread_near(a: &[u8], id: u64, guess: usize) -> Option<usize>
    requires { WellFormed a.now }
    ensures { Located no_row (decode a.now).threads id result }
{
    threads(a).find_near(id, guess)
}

// The id of the thread at place i.
pub fn thread_id(a: &[u8], i: usize) -> u64
    requires well_formed { WellFormed a.now }
    requires i_in_bounds { i < length (decode a.now).threads }
    ensures { result ≡ (get_or (decode a.now).threads i no_row).id }
{
    carv_area::get(&a[THREADS..QUEUE], i * rows::ROW + rows::ID)
}

// The record of the thread at place i.
pub fn thread_at(a: &[u8], i: usize) -> Thread
    requires well_formed { WellFormed a.now }
    requires i_in_bounds { i < length (decode a.now).threads }
    ensures { result ≡ (get_or (decode a.now).threads i no_row).it }
{
    rows::read_thread(&a[THREADS..QUEUE], i)
}

// The thread id, which stands at place i, has this record.
pub fn set_thread(a: &mut [u8], i: usize, id: u64, t: Thread)
    requires well_formed { WellFormed a.old }
    requires i_in_bounds { (i < length (decode a.old).threads) × ((get_or (decode a.old).threads i no_row).id ≡ id) }
    ensures { Leaves a.new (with_threads (slice_set (decode a.old).threads i (row id t)) (decode a.old)) }
{
    rows::write_thread(&mut a[THREADS..QUEUE], i, id, t)
}

// The state of the thread at place i.
pub fn state_at(a: &[u8], i: usize) -> State
    requires well_formed { WellFormed a.now }
    requires i_in_bounds { i < length (decode a.now).threads }
    ensures { result ≡ (get_or (decode a.now).threads i no_row).it.state }
{
    rows::read_state(&a[THREADS..QUEUE], i * ROW + rows::STATE)
}

// The budget of the thread at place i.
pub fn budget_at(a: &[u8], i: usize) -> Option<u64>
    requires well_formed { WellFormed a.now }
    requires i_in_bounds { i < length (decode a.now).threads }
    ensures { result ≡ (get_or (decode a.now).threads i no_row).it.budget }
{
    rows::read_budget(&a[THREADS..QUEUE], i * ROW + rows::BUDGET)
}

// The root of the page table of the thread at place i.
pub fn root_at(a: &[u8], i: usize) -> Option<u64>
    requires well_formed { WellFormed a.now }
    requires i_in_bounds { i < length (decode a.now).threads }
    ensures { result ≡ root_of (get_or (decode a.now).threads i no_row).it }
{
    rows::read_root(&a[THREADS..QUEUE], i * ROW + rows::SPACES)
}

// The thread at place i has this state.
pub fn set_state(a: &mut [u8], i: usize, state: State)
    requires well_formed { WellFormed a.old }
    requires i_in_bounds { i < length (decode a.old).threads }
    ensures { Leaves a.new (with_threads (slice_set (decode a.old).threads i (with_state state (slice_index_or (decode a.old).threads i no_row))) (decode a.old)) }
{
    rows::write_state(&mut a[THREADS..QUEUE], i, state)
}

// The thread at place i is Ready and has these results.
pub fn set_woken(a: &mut [u8], i: usize, results: Results)
    requires well_formed { WellFormed a.old }
    requires i_in_bounds { i < length (decode a.old).threads }
    ensures { Leaves a.new (with_threads (slice_set (decode a.old).threads i (row (get_or (decode a.old).threads i no_row).id (woken results (get_or (decode a.old).threads i no_row).it))) (decode a.old)) }
{
    rows::write_woken(&mut a[THREADS..QUEUE], i, results)
}

// The thread at place i has run a tick more.
pub fn add_tick(a: &mut [u8], i: usize)
    requires well_formed { WellFormed a.old }
    requires i_in_bounds { i < length (decode a.old).threads }
    ensures { Leaves a.new (with_threads (slice_set (decode a.old).threads i (row (get_or (decode a.old).threads i no_row).id (ticked (get_or (decode a.old).threads i no_row).it))) (decode a.old)) }
{
    rows::write_ticked(&mut a[THREADS..QUEUE], i)
}

// How many threads have a lower id. Not inlined: what calls it then keeps its locals above the stack pointer.
#[inline(never)]
fn thread_rank(a: &[u8], id: u64) -> usize
    requires { WellFormed a.now }
    ensures { Placed (decode a.now).threads id result }
{
    threads(a).rank(id)
}

// A new thread at place i, which is its place by its id.
fn insert_at(a: &mut [u8], i: usize, id: u64, t: Thread)
    requires well_formed { WellFormed a.old }
    requires placed { Placed (decode a.old).threads id i }
    requires new { New (decode a.old).threads id }
    ensures { Leaves a.new (with_threads (put id t (decode a.old).threads) (decode a.old)) }
{
    rows::insert_thread(&mut a[THREADS..QUEUE], i, id, t)
}

// A new thread, in its place among the rising ids.
pub fn insert_thread(a: &mut [u8], id: u64, t: Thread)
    requires well_formed { WellFormed a.old }
    requires new { New (decode a.old).threads id }
    ensures { Leaves a.new (with_threads (put id t (decode a.old).threads) (decode a.old)) }
{
    let i = thread_rank(a, id);
    insert_at(a, i, id, t)
}

// The thread at place i is taken out.
pub fn remove_thread(a: &mut [u8], i: usize)
    requires well_formed { WellFormed a.old }
    requires i_in_bounds { i < length (decode a.old).threads }
    ensures { Leaves a.new (with_threads (remove_at (decode a.old).threads i) (decode a.old)) }
{
    carv_area::remove_row(&mut a[THREADS..QUEUE], rows::ROW, i)
}

// How long the ready queue is.
pub fn queue_length(a: &[u8]) -> usize
    requires { WellFormed a.now }
    ensures { result ≡ length (decode a.now).queue }
{
    carv_area::get(&a[QUEUE..EXITS], 0) as usize
}

// The thread at place i of the ready queue.
pub fn queue_at(a: &[u8], i: usize) -> u64
    requires well_formed { WellFormed a.now }
    requires i_in_bounds { i < length (decode a.now).queue }
    ensures { result ≡ slice_index (decode a.now).queue i }
{
    carv_area::get(&a[QUEUE..EXITS], i + 1)
}

// A thread at the queue's end.
pub fn queue_push(a: &mut [u8], id: u64)
    requires well_formed { WellFormed a.old }
    requires a_len_bound { length (decode a.old).queue < 127 }
    ensures { Leaves a.new (with_queue ((decode a.old).queue ++ (id ∷ [])) (decode a.old)) }
{
    carv_area::push(&mut a[QUEUE..EXITS], id)
}

// The thread at place i leaves the queue.
pub fn queue_pull(a: &mut [u8], i: usize) -> u64
    requires well_formed { WellFormed a.old }
    requires i_in_bounds { i < length (decode a.old).queue }
    ensures { (result ≡ slice_index (decode a.old).queue i) × Leaves a.new (with_queue (remove_at (decode a.old).queue i) (decode a.old)) }
{
    carv_area::pull(&mut a[QUEUE..EXITS], i)
}
