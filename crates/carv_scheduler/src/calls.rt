// The calls on a sound area: document 01's questions in their order, then the step. lib.rt asks question 1 in front of each.
// That the area is sound is a clause of each, here and in the files beside, and no type's invariant, for the reasons at the head of
// carv_objects' calls.rt. An id and its place are no struct: see `set_account` in carv_objects' area.rt.
// Kinds of waits, and causes, come as codes, listed or not: question 4 stands behind question 1, so that the code is asked here and in
// killing.rt.
ghost use Rattle.std.specs.Prelude.{◌≡◌, ◌<◌, true, length};
ghost use Rattle.carv_area.specs.Table.{alter};
ghost use Rattle.carv_area.specs.Lookup.{Here};
ghost use Rattle.carv_scheduler_spec.specs.Scheduler.{join, with_threads, has, create_user_thread, start, block_current, is_blocked_on, read_thread, read_current, read_switches};
ghost use Rattle.carv_scheduler.specs.Area.{decode, sound_area, Serves};
ghost use Rattle.carv_scheduler.specs.Answer.{nothing, blocked_of, thread_of, word_of};
ghost use Rattle.carv_scheduler.specs.Laws.Rows.{no_row};
ghost use Rattle.carv_scheduler.specs.Laws.Formed.{WellFormed, Leaves};

use crate::numbers::{FIRST, IDLE};
use crate::{area, rows};
use carv_objects::Refusal;
use carv_scheduler_spec::{Context, Spaces, State, Thread, Wait};

// Is there a thread with this id?
fn has_thread(a: &[u8], id: u64) -> bool
    requires { WellFormed a.now }
    ensures { result ≡ has (decode a.now).threads id }
{
    area::find_thread(a, id).is_some()
}

pub fn create_user_thread(a: &mut [u8], id: u64, budget: u64, stack: bool) -> Result<(), Refusal>
    requires { sound_area a.old ≡ true }
    ensures { Serves (create_user_thread id budget stack) nothing a.old result a.new }
{
    if has_thread(a, id) || id == FIRST || id == IDLE {
        return Err(Refusal::Id);
    }
    if area::thread_count(a) >= area::PLACES {
        return Err(Refusal::Full);
    }
    if !stack {
        return Err(Refusal::Backing);
    }
    area::insert_thread(a, id, rows::fresh_thread(State::Inactive, Some(budget)));
    Ok(())
}

// The thread id, which stands at place i, gets this record and joins the queue's end.
pub fn store_and_join(a: &mut [u8], i: usize, id: u64, t: Thread)
    requires well_formed { WellFormed a.old }
    requires here { Here no_row (decode a.old).threads id i }
    requires a_len_bound { length (decode a.old).queue < 127 }
    ensures { Leaves a.new (with_threads (alter id (λ _. t) (decode a.old).threads) (join (decode a.old).queue id) (decode a.old)) }
{
    area::set_thread(a, i, id, t);
    area::queue_push(a, id);
}

// The three ids are no `Spaces`, which only a started thread has: the definition `start` and the Rust's take them one by one.
pub fn start(
    a: &mut [u8],
    id: u64,
    space: u64,
    cspace: u64,
    root: u64,
    context: Context,
) -> Result<(), Refusal>
    requires { sound_area a.old ≡ true }
    ensures { Serves (start id space cspace root context) nothing a.old result a.new }
{
    let i = area::find_thread(a, id).ok_or(Refusal::Missing)?;
    let t = area::thread_at(a, i);
    if t.state != State::Inactive {
        return Err(Refusal::State);
    }
    store_and_join(
        a,
        i,
        id,
        Thread {
            state: State::Ready,
            spaces: Some(Spaces {
                space,
                cspace,
                root,
            }),
            context,
            ..t
        },
    );
    Ok(())
}

// The place of the current thread, which is there.
pub fn current_place(a: &[u8]) -> usize
    requires { sound_area a.now ≡ true }
    ensures { Here no_row (decode a.now).threads (decode a.now).current result }
{
    area::find_thread(a, area::current(a)).unwrap()
}

pub fn block_current(a: &mut [u8], kind: u64, number: u64) -> Result<(), Refusal>
    requires { sound_area a.old ≡ true }
    ensures { Serves (block_current kind number) nothing a.old result a.new }
{
    let wait = Wait::from_code(kind, number).ok_or(Refusal::Code)?;
    let i = current_place(a);
    if area::state_at(a, i) != State::Running || area::current(a) == IDLE {
        return Err(Refusal::State);
    }
    area::set_state(a, i, State::Blocked(wait));
    Ok(())
}

pub fn is_blocked_on(a: &[u8], id: u64, kind: u64, number: u64) -> Result<bool, Refusal>
    requires { sound_area a.now ≡ true }
    ensures { Serves (is_blocked_on id kind number) blocked_of a.now result a.now }
{
    let wait = Wait::from_code(kind, number).ok_or(Refusal::Code)?;
    let Some(i) = area::find_thread(a, id) else {
        return Ok(false);
    };
    Ok(area::state_at(a, i) == State::Blocked(wait))
}

// A thread's record.
pub fn read_thread(a: &[u8], id: u64) -> Result<Thread, Refusal>
    requires { sound_area a.now ≡ true }
    ensures { Serves (read_thread id) thread_of a.now result a.now }
{
    let i = area::find_thread(a, id).ok_or(Refusal::Missing)?;
    Ok(area::thread_at(a, i))
}

pub fn current(a: &[u8]) -> Result<u64, Refusal>
    requires { sound_area a.now ≡ true }
    ensures { Serves read_current word_of a.now result a.now }
{
    Ok(area::current(a))
}

pub fn switches(a: &[u8]) -> Result<u64, Refusal>
    requires { sound_area a.now ≡ true }
    ensures { Serves read_switches word_of a.now result a.now }
{
    Ok(area::switches(a))
}
