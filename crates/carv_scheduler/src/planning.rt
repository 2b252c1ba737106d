// Planning: a running thread goes back to the queue, the first thread of the queue with time left is taken out, and it runs.
// That the area is sound or well formed is a clause: see the head of calls.rt.
ghost use Rattle.std.specs.Prelude.{◌≡◌, ◌+◌, ◌%◌, ◌^◌, ◌<◌, true, length, slice_index_or};
ghost use Rattle.carv_area.specs.Lookup.{Located};
ghost use Rattle.carv_scheduler_spec.specs.Scheduler.{is, dead, thread, root_of, plan};
ghost use Rattle.carv_scheduler.specs.Answer.{switch_of};
ghost use Rattle.carv_scheduler.specs.Area.{decode, sound_area, Serves};
ghost use Rattle.carv_scheduler.specs.Laws.Rows.{no_row};
ghost use Rattle.carv_scheduler.specs.Laws.Formed.{WellFormed, Leaves};
ghost use Rattle.carv_scheduler.specs.Laws.AreaSteps.{with_head};
ghost use Rattle.carv_scheduler.specs.Laws.Planning.{Renewing, Stands, guess_behind, Tests, Tries, Walks, Chooses, Backs, Told, Runs, Leaving, Switches};

use crate::area;
use crate::calls::current_place;
use crate::numbers::{IDLE, LAST_TICK, TICK};
use carv_objects::Refusal;
use carv_scheduler_spec::State;

// A context switch: the thread that ran, the thread that runs, and the root of its page table, or None for the kernel's.
#[derive(Clone, Copy, Debug, PartialEq, Eq)]
pub struct Switch {
    pub old: u64,
    pub new: u64,
    pub root: Option<u64>,
}

// The thread to run, out of the queue: its id, and its place in the table.
#[derive(Clone, Copy, Debug, PartialEq, Eq)]
pub struct Chosen {
    pub id: u64,
    pub at: Option<usize>,
}

impl Chosen {
    // The root of its page table.
    fn root_at(self, a: &[u8]) -> Option<u64>
        requires well_formed { WellFormed a.now }
        requires located { Stands self a.now }
        ensures { result ≡ root_of (thread (decode a.now).threads self.id) }
    {
        let i = self.at?;
        area::root_at(a, i)
    }

    // The switch to it from old, if they are two.
    fn switch_answer(self, a: &[u8], old: u64) -> Option<Switch>
        requires well_formed { WellFormed a.now }
        requires located { Stands self a.now }
        ensures { Told old self.id (decode a.now) result }
    {
        if self.id == old {
            return None;
        }
        let root = self.root_at(a);
        Some(Switch {
            old,
            new: self.id,
            root,
        })
    }

    // It runs.
    fn run(self, a: &mut [u8])
        requires well_formed { WellFormed a.old }
        requires located { Stands self a.old }
        ensures { Runs self.id a.old a.new }
    {
        if let Some(i) = self.at {
            area::set_state(a, i, State::Running)
        }
    }
}

// Renews the budget id, if it is live. Has it CPU left then? Lends the registry's part, as the functions of registry.rt.
fn renew(a: &mut [u8], id: u64, time: u64) -> bool
    requires { WellFormed a.old }
    ensures { Renewing time id a.old result a.new }
{
    carv_objects::cpu::renew_and_test(&mut a[0..area::HEAD], id, time)
}

// Renews the budget of the thread at place i. Has it time left?
fn has_time(a: &mut [u8], i: usize, time: u64) -> bool
    requires well_formed { WellFormed a.old }
    requires i_in_bounds { i < length (decode a.old).threads }
    ensures { Tests time (slice_index_or (decode a.old).threads i no_row).it.budget a.old result a.new }
{
    match area::budget_at(a, i) {
        None => true,
        Some(budget) => renew(a, budget, time),
    }
}

// Renews the budget of the thread id, which stands at this place. The place, if it is one and the thread has time left.
// The id and the place are no `Chosen`: it may yet be passed over.
fn try_thread(a: &mut [u8], id: u64, at: Option<usize>, time: u64) -> Option<usize>
    requires well_formed { WellFormed a.old }
    requires located { Located no_row (decode a.old).threads id at }
    ensures { Tries time id a.old result a.new }
{
    let i = at?;
    has_time(a, i, time).then_some(i)
}

// Where the next thread of the queue is looked for first: in most queues ids rise from one to the next.
fn guess_behind(at: Option<usize>) -> usize
    ensures { result ≡ guess_behind at }
{
    at.map_or(0, |i| i.wrapping_add(1))
}

// The first thread of the queue with time left, each tested after its budget is renewed: its places in the queue and in the table. With
// none, idle runs.
fn walk(a: &mut [u8], time: u64) -> Option<(usize, usize)>
    requires { WellFormed a.old }
    ensures { Walks time a.old result a.new }
{
    // A loop, and no `find_map`: its closure would change the area, and a proof knows nothing of what such a closure left.
    let mut guess = 0;
    for k in 0..area::queue_length(a) {
        let id = area::queue_at(a, k);
        let at = area::find_thread_near(a, id, guess);
        guess = guess_behind(at);
        if let Some(i) = try_thread(a, id, at, time) {
            return Some((k, i));
        }
    }
    None
}

// The thread to run, which leaves the queue.
fn choose(a: &mut [u8], time: u64) -> Chosen
    requires { WellFormed a.old }
    ensures { Chooses time a.old result a.new }
{
    // A `match`, since both arms use the area, which two closures can't.
    match walk(a, time) {
        Some((k, i)) => {
            let id = area::queue_pull(a, k);
            Chosen { id, at: Some(i) }
        }
        None => {
            let at = area::find_thread(a, IDLE);
            Chosen { id: IDLE, at }
        }
    }
}

// A running current thread other than idle goes to the queue's end. Is the current thread dead?
fn put_back(a: &mut [u8], old: u64) -> bool
    requires a_value { sound_area a.old ≡ true }
    requires value { old ≡ (decode a.old).current }
    ensures { Backs old a.old result a.new }
{
    let i = current_place(a);
    match area::state_at(a, i) {
        State::Running if old == IDLE => false,
        State::Running => {
            area::set_state(a, i, State::Ready);
            area::queue_push(a, old);
            false
        }
        state => state == State::Dead,
    }
}

// The thread id, if it is dead, leaves the table.
fn leave(a: &mut [u8], id: u64, killed: bool)
    requires { WellFormed a.old }
    ensures { Leaving id killed a.old a.new }
{
    if !killed {
        return;
    }
    if let Some(i) = area::find_thread(a, id) {
        area::remove_thread(a, i)
    }
}

// The thread id becomes current, by a switch.
fn set_current(a: &mut [u8], id: u64)
    requires { WellFormed a.old }
    ensures { Leaves a.new (with_head id (((decode a.old).switches + 1) % 2 ^ 64) (decode a.old)) }
{
    let count = area::switches(a);
    area::set_head(a, id, count.wrapping_add(1))
}

// The chosen thread runs, in place of old; one that is left dead goes.
fn switch_to(a: &mut [u8], old: u64, killed: bool, next: Chosen) -> Option<Switch>
    requires well_formed { WellFormed a.old }
    requires value { old ≡ (decode a.old).current }
    requires killed_value { killed ≡ is dead (thread (decode a.old).threads old) }
    requires located { Stands next a.old }
    ensures { Switches next.id a.old result a.new }
{
    let answer = next.switch_answer(a, old);
    next.run(a);
    if next.id != old {
        set_current(a, next.id);
        leave(a, old, killed);
    }
    answer
}

// Plans at tick n: the thread to run, and the switch to make.
pub fn plan(a: &mut [u8], n: u64) -> Result<Option<Switch>, Refusal>
    requires { sound_area a.old ≡ true }
    ensures { Serves (plan n) switch_of a.old result a.new }
{
    if n > LAST_TICK {
        return Err(Refusal::Tick);
    }
    let time = n * TICK;
    let old = area::current(a);
    let killed = put_back(a, old);
    let next = choose(a, time);
    Ok(switch_to(a, old, killed, next))
}
