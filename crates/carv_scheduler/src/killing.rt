// The end of a thread: it leaves the table, or stays Dead where it is current, leaves the ready queue, and its end is logged.
// The cause comes as a code: question 4 stands behind question 1. That the area is sound or well formed is a clause: see the head of
// calls.rt. An id and its place are no struct: see `set_account` in carv_objects' area.rt.
ghost use Rattle.std.specs.Prelude.{◌≡◌, true};
ghost use Rattle.carv_area.specs.Lookup.{Here};
ghost use Rattle.carv_area.specs.Keys.{find_in};
ghost use Rattle.carv_scheduler_spec.specs.Scheduler.{without, kill};
ghost use Rattle.carv_scheduler.specs.Answer.{ended_of};
ghost use Rattle.carv_scheduler_spec.specs.Sound.{distinct};
ghost use Rattle.carv_scheduler.specs.Area.{decode, sound_area, Serves};
ghost use Rattle.carv_scheduler.specs.Laws.Rows.{no_row};
ghost use Rattle.carv_scheduler.specs.Laws.Formed.{WellFormed, Leaves};
ghost use Rattle.carv_scheduler.specs.Laws.AreaSteps.{with_threads, with_queue};
ghost use Rattle.carv_scheduler_spec.specs.Killed.{killed};

use crate::numbers::IDLE;
use crate::{area, exits};
use carv_objects::Refusal;
use carv_scheduler_spec::{Cause, State, Wait};

// The place of a thread in the ready queue.
fn queue_find(a: &[u8], id: u64) -> Option<usize>
    requires { WellFormed a.now }
    ensures { result ≡ find_in (decode a.now).queue id }
{
    (0..area::queue_length(a)).find(|&i| area::queue_at(a, i) == id)
}

// A thread leaves the ready queue, if it is there.
pub fn leave_queue(a: &mut [u8], id: u64)
    requires well_formed { WellFormed a.old }
    requires a_value { distinct (decode a.old).queue ≡ true }
    ensures { Leaves a.new (with_queue (without id (decode a.old).queue) (decode a.old)) }
{
    if let Some(i) = queue_find(a, id) {
        area::queue_pull(a, i);
    }
}

// The thread at place i is Dead if it is current; any other is taken out.
fn end_thread(a: &mut [u8], i: usize, id: u64)
    requires well_formed { WellFormed a.old }
    requires here { Here no_row (decode a.old).threads id i }
    ensures { Leaves a.new (with_threads (killed id (decode a.old)) (decode a.old)) }
{
    if id == area::current(a) {
        return area::set_state(a, i, State::Dead);
    }
    area::remove_thread(a, i)
}

// The answer is the wait that the end cut off.
pub fn kill(a: &mut [u8], id: u64, cause: u64) -> Result<Option<Wait>, Refusal>
    requires { sound_area a.old ≡ true }
    ensures { Serves (kill id cause) ended_of a.old result a.new }
{
    let cause = Cause::from_code(cause).ok_or(Refusal::Code)?;
    if id == IDLE {
        return Err(Refusal::Id);
    }
    let i = area::find_thread(a, id).ok_or(Refusal::Missing)?;
    let state = area::state_at(a, i);
    end_thread(a, i, id);
    leave_queue(a, id);
    exits::log_exit(a, id, cause);
    Ok(state.wait())
}
