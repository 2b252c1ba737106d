// Threads, the ready queue and the exit log, and the board of these and the registry. After kernel/src/scheduler.rs.
#![tactic(auto, using(crate::proofs::Rules::entry))]

mod area;
mod calls;
mod exits;
mod image;
mod killing;
mod numbers;
mod opening;
mod planning;
mod registry;
mod rows;
mod sound;
mod ticking;

ghost use Rattle.std.specs.Prelude.{◌≡◌};
ghost use Rattle.carv_objects.specs.Answer as told;
ghost use Rattle.carv_objects_spec.specs.Registry.{create, insert, create_budget, charge_more, uncharge, remove, refill, charge_cpu, pays_for_anything, read_account, charge_of};
ghost use Rattle.carv_objects_spec.specs.Totals.{read_totals};
ghost use Rattle.carv_scheduler_spec.specs.Scheduler.{by_registry, create_user_thread, start, block_current, wake, is_blocked_on, kill, tick, plan, read_thread, read_current, read_switches, exit_of};
ghost use Rattle.carv_scheduler.specs.Answer.{nothing, in_board, switch_of, ended_of, blocked_of, thread_of, word_of, cause_of};
ghost use Rattle.carv_scheduler.specs.Area.{sound_area, Answered};
ghost use Rattle.carv_scheduler.specs.Creating.{Created};
ghost use Rattle.carv_objects.specs.Laws.Entry.{asked_sound};

pub use area::BYTES;
use carv_budget::Account;
use carv_objects::{Charge, Refusal};
use carv_objects_spec::Totals;
use carv_scheduler_spec::{Cause, Context, Results, Thread, Wait};
pub use exits::exit_in;
pub use image::write_image;
pub use opening::open;
pub use planning::Switch;
pub use sound::is_sound;

// Question 1: is the area of its length, and the board in it sound? Beside `ask_sound` of carv_objects, which asks of the registry alone: what
// both share is the line from yes or no to an answer, and a function for that would be as long as either.
fn ask_sound(area: &[u8]) -> Result<(), Refusal>
    ensures { result ≡ asked_sound (sound_area area.now) }
{
    is_sound(area).then_some(()).ok_or(Refusal::Unsound)
}

// A new thread, Inactive; if it is accepted, its register image is filled.
pub fn create_user_thread(
    area: &mut [u8],
    id: u64,
    budget: u64,
    stack: bool,
    image: &mut [u8],
) -> Result<(), Refusal>
    ensures { Created (create_user_thread id budget stack) area.old image.old result area.new image.new }
{
    if image.len() != carv_register_image::BYTES {
        return Err(Refusal::Unsound);
    }
    ask_sound(area)?;
    calls::create_user_thread(area, id, budget, stack)?;
    carv_register_image::fill_image(image);
    Ok(())
}

// The calls, each with question 1 in front, and so with kinds, waits and causes as codes: question 4 stands behind it.
// Written by tools/entries.py from its list of calls; what stands below this line is replaced.

// A new object of this kind.
pub fn create(area: &mut [u8], kind: u64, payer: u64, backing: bool) -> Result<u64, Refusal>
    ensures { Answered (by_registry (create kind payer backing)) (in_board told.id_of) area.old result area.new }
{
    ask_sound(area)?;
    registry::create(area, kind, payer, backing)
}

// An object of this kind that takes this many bytes.
pub fn insert(area: &mut [u8], kind: u64, payer: u64, bytes: u64) -> Result<u64, Refusal>
    ensures { Answered (by_registry (insert kind payer bytes)) (in_board told.id_of) area.old result area.new }
{
    ask_sound(area)?;
    registry::insert(area, kind, payer, bytes)
}

// A budget carved out of its parent.
pub fn create_budget(
    area: &mut [u8],
    parent: u64,
    cpu: u64,
    memory: u64,
    time: u64,
) -> Result<u64, Refusal>
    ensures { Answered (by_registry (create_budget parent cpu memory time)) (in_board told.id_of) area.old result area.new }
{
    ask_sound(area)?;
    registry::create_budget(area, parent, cpu, memory, time)
}

// More bytes charged for an object.
pub fn charge_more(area: &mut [u8], id: u64, bytes: u64) -> Result<(), Refusal>
    ensures { Answered (by_registry (charge_more id bytes)) (in_board told.nothing) area.old result area.new }
{
    ask_sound(area)?;
    registry::charge_more(area, id, bytes)
}

// Bytes of an object credited.
pub fn uncharge(area: &mut [u8], id: u64, bytes: u64) -> Result<(), Refusal>
    ensures { Answered (by_registry (uncharge id bytes)) (in_board told.nothing) area.old result area.new }
{
    ask_sound(area)?;
    registry::uncharge(area, id, bytes)
}

// An object taken out; a removed budget's payer is renewed at this time, before the child is returned.
pub fn remove(area: &mut [u8], id: u64, time: u64) -> Result<(), Refusal>
    ensures { Answered (by_registry (remove id time)) (in_board told.nothing) area.old result area.new }
{
    ask_sound(area)?;
    registry::remove(area, id, time)
}

// The renewal of a budget.
pub fn refill(area: &mut [u8], id: u64, time: u64) -> Result<bool, Refusal>
    ensures { Answered (by_registry (refill id time)) (in_board told.renewed_of) area.old result area.new }
{
    ask_sound(area)?;
    registry::refill(area, id, time)
}

// CPU time charged to a budget.
pub fn charge_cpu(area: &mut [u8], id: u64, ns: u64, time: u64) -> Result<(), Refusal>
    ensures { Answered (by_registry (charge_cpu id ns time)) (in_board told.nothing) area.old result area.new }
{
    ask_sound(area)?;
    registry::charge_cpu(area, id, ns, time)
}

// Does another object have this payer?
pub fn pays_for_anything(area: &[u8], id: u64) -> Result<bool, Refusal>
    ensures { Answered (by_registry (pays_for_anything id)) (in_board told.pays_of) area.now result area.now }
{
    ask_sound(area)?;
    registry::pays_for_anything(area, id)
}

// The account of a budget.
pub fn account(area: &[u8], id: u64) -> Result<Account, Refusal>
    ensures { Answered (by_registry (read_account id)) (in_board told.account_of) area.now result area.now }
{
    ask_sound(area)?;
    registry::account(area, id)
}

// The payer and the charge of an object.
pub fn charge_of(area: &[u8], id: u64) -> Result<Charge, Refusal>
    ensures { Answered (by_registry (charge_of id)) (in_board told.charge_of) area.now result area.now }
{
    ask_sound(area)?;
    registry::charge_of(area, id)
}

// A budget with all below it, summed.
pub fn totals(area: &[u8], id: u64) -> Result<Totals, Refusal>
    ensures { Answered (by_registry (read_totals id)) (in_board told.totals_of) area.now result area.now }
{
    ask_sound(area)?;
    registry::totals(area, id)
}

// An Inactive thread is Ready.
pub fn start(
    area: &mut [u8],
    id: u64,
    space: u64,
    cspace: u64,
    root: u64,
    context: Context,
) -> Result<(), Refusal>
    ensures { Answered (start id space cspace root context) nothing area.old result area.new }
{
    ask_sound(area)?;
    calls::start(area, id, space, cspace, root, context)
}

// The current thread is Blocked on this wait.
pub fn block_current(area: &mut [u8], kind: u64, number: u64) -> Result<(), Refusal>
    ensures { Answered (block_current kind number) nothing area.old result area.new }
{
    ask_sound(area)?;
    calls::block_current(area, kind, number)
}

// A Blocked thread is Ready, with these results.
pub fn wake(area: &mut [u8], id: u64, results: Results) -> Result<(), Refusal>
    ensures { Answered (wake id results) nothing area.old result area.new }
{
    ask_sound(area)?;
    ticking::wake(area, id, results)
}

// Is this thread Blocked on this wait?
pub fn is_blocked_on(area: &[u8], id: u64, kind: u64, number: u64) -> Result<bool, Refusal>
    ensures { Answered (is_blocked_on id kind number) blocked_of area.now result area.now }
{
    ask_sound(area)?;
    calls::is_blocked_on(area, id, kind, number)
}

// A thread ends.
pub fn kill(area: &mut [u8], id: u64, cause: u64) -> Result<Option<Wait>, Refusal>
    ensures { Answered (kill id cause) ended_of area.old result area.new }
{
    ask_sound(area)?;
    killing::kill(area, id, cause)
}

// The timer tick n.
pub fn tick(area: &mut [u8], n: u64) -> Result<(), Refusal>
    ensures { Answered (tick n) nothing area.old result area.new }
{
    ask_sound(area)?;
    ticking::tick(area, n)
}

// The thread to run at tick n.
pub fn plan(area: &mut [u8], n: u64) -> Result<Option<Switch>, Refusal>
    ensures { Answered (plan n) switch_of area.old result area.new }
{
    ask_sound(area)?;
    planning::plan(area, n)
}

// A thread's record.
pub fn read_thread(area: &[u8], id: u64) -> Result<Thread, Refusal>
    ensures { Answered (read_thread id) thread_of area.now result area.now }
{
    ask_sound(area)?;
    calls::read_thread(area, id)
}

// The current thread.
pub fn current(area: &[u8]) -> Result<u64, Refusal>
    ensures { Answered read_current word_of area.now result area.now }
{
    ask_sound(area)?;
    calls::current(area)
}

// How many context switches there were.
pub fn switches(area: &[u8]) -> Result<u64, Refusal>
    ensures { Answered read_switches word_of area.now result area.now }
{
    ask_sound(area)?;
    calls::switches(area)
}

// Why a thread ended, by the exit log.
pub fn exit_of(area: &[u8], id: u64) -> Result<Option<Cause>, Refusal>
    ensures { Answered (exit_of id) cause_of area.now result area.now }
{
    ask_sound(area)?;
    exits::exit_of(area, id)
}
