// `wake` and `tick`: a blocked thread wakes; the current thread runs a tick, which its budget is charged, and the sleepers that are due wake.
// That the area is sound or well formed is a clause: see the head of calls.rt. An id and its place are no struct: see `set_account` in
// carv_objects' area.rt.
ghost use Rattle.std.specs.Prelude.{◌≡◌, ◌<◌, true, length, slice_index_or};
ghost use Rattle.carv_area.specs.Table.{pick};
ghost use Rattle.carv_area.specs.Lookup.{Here};
ghost use Rattle.carv_objects_spec.specs.Registry.{charge_most};
ghost use Rattle.carv_scheduler_spec.specs.Scheduler.{blocked, is, is_due, with_registry, wake, wake_all, tick};
ghost use Rattle.carv_scheduler.specs.Answer.{nothing};
ghost use Rattle.carv_scheduler.specs.Area.{decode, sound_area, Is, Serves};
ghost use Rattle.carv_scheduler.specs.Laws.Rows.{no_row};
ghost use Rattle.carv_scheduler.specs.Laws.Formed.{WellFormed, Leaves};
ghost use Rattle.carv_scheduler.specs.Laws.Waking.{wake_place};
ghost use Rattle.carv_scheduler.specs.Laws.Ticking.{accounted};

use crate::area;
use crate::calls::current_place;
use crate::numbers::{LAST_TICK, TICK};
use carv_objects::Refusal;
use carv_scheduler_spec::{Results, State, Wait};

// The budget id, if it is live, is charged a tick, or all that is left. Lends the registry's part, as the functions of registry.rt.
fn charge(a: &mut [u8], id: u64, time: u64)
    requires { WellFormed a.old }
    ensures { Leaves a.new (with_registry (charge_most id 1_000_000 time (decode a.old).registry) (decode a.old)) }
{
    carv_objects::cpu::charge_most(&mut a[0..area::HEAD], id, TICK, time)
}

// The blocked thread id, which stands at place i, wakes.
fn wake_thread(a: &mut [u8], i: usize, id: u64, results: Results)
    requires a_value { sound_area a.old ≡ true }
    requires here { Here no_row (decode a.old).threads id i × (is blocked (slice_index_or (decode a.old).threads i no_row).it ≡ true) }
    ensures { Is a.new (wake id results (decode a.old)).after }
{
    area::set_woken(a, i, results);
    area::queue_push(a, id)
}

// Wakes the thread id with these results.
pub fn wake(a: &mut [u8], id: u64, results: Results) -> Result<(), Refusal>
    requires { sound_area a.old ≡ true }
    ensures { Serves (wake id results) nothing a.old result a.new }
{
    let i = area::find_thread(a, id).ok_or(Refusal::Missing)?;
    if !matches!(area::state_at(a, i), State::Blocked(_)) {
        return Err(Refusal::State);
    }
    wake_thread(a, i, id, results);
    Ok(())
}

// Is the thread at place i a sleeper that is due at tick n?
fn is_due(a: &[u8], i: usize, n: u64) -> bool
    requires well_formed { WellFormed a.now }
    requires i_in_bounds { i < length (decode a.now).threads }
    ensures { result ≡ is_due n (slice_index_or (decode a.now).threads i no_row).it }
{
    matches!(area::state_at(a, i), State::Blocked(Wait::Sleep(at)) if at <= n)
}

// The thread at place i wakes, if it is a sleeper that is due at tick n.
fn wake_at(a: &mut [u8], i: usize, n: u64)
    requires a_value { sound_area a.old ≡ true }
    requires i_in_bounds { i < length (decode a.old).threads }
    ensures { Is a.new (wake_place n i (decode a.old)) }
{
    if is_due(a, i, n) {
        let id = area::thread_id(a, i);
        wake_thread(a, i, id, Results::default())
    }
}

// The sleepers that are due at tick n wake, by rising id.
fn wake_sleepers(a: &mut [u8], n: u64)
    requires { sound_area a.old ≡ true }
    ensures { Is a.new (wake_all (pick (is_due n) (decode a.old).threads) (decode a.old)) }
{
    for i in 0..area::thread_count(a) {
        wake_at(a, i, n);
    }
}

// The current thread has run a tick at this time, which its budget is charged.
fn account(a: &mut [u8], time: u64)
    requires { sound_area a.old ≡ true }
    ensures { Is a.new (accounted time (decode a.old)) }
{
    let i = current_place(a);
    let payer = area::budget_at(a, i);
    area::add_tick(a, i);
    if let Some(budget) = payer {
        charge(a, budget, time)
    }
}

// Tick n.
pub fn tick(a: &mut [u8], n: u64) -> Result<(), Refusal>
    requires { sound_area a.old ≡ true }
    ensures { Serves (tick n) nothing a.old result a.new }
{
    if n > LAST_TICK {
        return Err(Refusal::Tick);
    }
    account(a, n * TICK);
    wake_sleepers(a, n);
    Ok(())
}
