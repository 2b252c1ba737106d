// The functions for C: the area and 20 answer words are lent, the number is returned, and the values of the answer stand in the
// first answer words. specs/C.antt says which. Kinds, waits and causes come as codes, as C passes them.
#![tactic(auto)]

mod words;

ghost use Rattle.std.specs.Prelude.{◌≡◌, true, false, eqb, length};
ghost use Rattle.carv_objects_spec.specs.Book as objects;
ghost use Rattle.carv_objects.specs.Answer.{number};
ghost use Rattle.carv_scheduler_spec.specs.Book.{on_objects, create_user_thread, start, block_current, wake, is_blocked_on, kill, tick, plan, read_thread, read_current, read_switches, exit_of};
ghost use Rattle.carv_scheduler.specs.Area.{sound_area};
ghost use Rattle.carv_scheduler.specs.Image.{Filled};
ghost use Rattle.carv.specs.C.{written, Exported, ExportedWithImage, Opens};

use carv_objects::Refusal;
use carv_scheduler_spec::{Context, Results};
use words::Reported;
pub use words::WORDS;

// The number of an accepted call.
const ACCEPTED: u64 = 0;

// Beside carv_budget's, whose error is another type: a trait for both would have two impls of a line.
fn number_of<T>(answer: &Result<T, Refusal>) -> u64
    ensures { result ≡ number answer.now }
{
    match answer {
        Ok(_) => ACCEPTED,
        Err(refusal) => refusal.number(),
    }
}

// A call's number, and its words in the answer words. With other than 20 of them the call isn't made. The call is lent, so that the caller
// knows that what the call borrows is then as it was.
fn answered<T: Reported, F: FnMut() -> Result<T, Refusal>>(out: &mut [u64], call: &mut F) -> u64
    requires { F.pre call.old }
    ensures size { eqb (length out.old) 20 ≡ false → (result ≡ 1) × (call.new ≡ call.old) × (out.new ≡ out.old) }
    ensures reports { eqb (length out.old) 20 ≡ true → (answer : _) × F.step call.old answer call.new × (result ≡ number answer) × (out.new ≡ written T.words answer out.old) }
{
    let Some(words) = out.as_mut_array::<WORDS>() else {
        return Refusal::Unsound.number();
    };
    let answer = call();
    let number = number_of(&answer);
    if let Ok(told) = answer {
        told.write(words);
    }
    number
}

pub fn carv_is_sound(area: &[u8]) -> bool
    ensures { result ≡ sound_area area.now }
{
    carv_scheduler::is_sound(area)
}

pub fn carv_image(image: &mut [u8]) -> u64
    ensures { Filled image.old result image.new }
{
    number_of(&carv_scheduler::write_image(image))
}

pub fn carv_open(area: &mut [u8], cpu: u64, memory: u64, out: &mut [u64]) -> u64
    ensures { Opens cpu memory area.old out.old result area.new out.new }
{
    answered(out, &mut || carv_scheduler::open(area, cpu, memory))
}

pub fn carv_create_user_thread(
    area: &mut [u8],
    id: u64,
    budget: u64,
    stack: bool,
    image: &mut [u8],
    out: &mut [u64],
) -> u64
    ensures { ExportedWithImage (create_user_thread id budget stack) area.old image.old out.old result area.new image.new out.new }
{
    answered(
        out,
        &mut || carv_scheduler::create_user_thread(area, id, budget, stack, image),
    )
}

// The calls.
// Written by tools/entries.py from its list of calls; what stands below this line is replaced.

pub fn carv_create(area: &mut [u8], kind: u64, payer: u64, backing: bool, out: &mut [u64]) -> u64
    ensures { Exported (on_objects (objects.create kind payer backing)) area.old out.old result area.new out.new }
{
    answered(
        out,
        &mut || carv_scheduler::create(area, kind, payer, backing),
    )
}

pub fn carv_insert(area: &mut [u8], kind: u64, payer: u64, bytes: u64, out: &mut [u64]) -> u64
    ensures { Exported (on_objects (objects.insert kind payer bytes)) area.old out.old result area.new out.new }
{
    answered(
        out,
        &mut || carv_scheduler::insert(area, kind, payer, bytes),
    )
}

pub fn carv_create_budget(
    area: &mut [u8],
    parent: u64,
    cpu: u64,
    memory: u64,
    time: u64,
    out: &mut [u64],
) -> u64
    ensures { Exported (on_objects (objects.create_budget parent cpu memory time)) area.old out.old result area.new out.new }
{
    answered(
        out,
        &mut || carv_scheduler::create_budget(area, parent, cpu, memory, time),
    )
}

pub fn carv_charge_more(area: &mut [u8], id: u64, bytes: u64, out: &mut [u64]) -> u64
    ensures { Exported (on_objects (objects.charge_more id bytes)) area.old out.old result area.new out.new }
{
    answered(out, &mut || carv_scheduler::charge_more(area, id, bytes))
}

pub fn carv_uncharge(area: &mut [u8], id: u64, bytes: u64, out: &mut [u64]) -> u64
    ensures { Exported (on_objects (objects.uncharge id bytes)) area.old out.old result area.new out.new }
{
    answered(out, &mut || carv_scheduler::uncharge(area, id, bytes))
}

pub fn carv_remove(area: &mut [u8], id: u64, time: u64, out: &mut [u64]) -> u64
    ensures { Exported (on_objects (objects.remove id time)) area.old out.old result area.new out.new }
{
    answered(out, &mut || carv_scheduler::remove(area, id, time))
}

pub fn carv_refill(area: &mut [u8], id: u64, time: u64, out: &mut [u64]) -> u64
    ensures { Exported (on_objects (objects.refill id time)) area.old out.old result area.new out.new }
{
    answered(out, &mut || carv_scheduler::refill(area, id, time))
}

pub fn carv_charge_cpu(area: &mut [u8], id: u64, ns: u64, time: u64, out: &mut [u64]) -> u64
    ensures { Exported (on_objects (objects.charge_cpu id ns time)) area.old out.old result area.new out.new }
{
    answered(out, &mut || carv_scheduler::charge_cpu(area, id, ns, time))
}

pub fn carv_pays_for_anything(area: &[u8], id: u64, out: &mut [u64]) -> u64
    ensures { Exported (on_objects (objects.pays_for_anything id)) area.now out.old result area.now out.new }
{
    answered(out, &mut || carv_scheduler::pays_for_anything(area, id))
}

pub fn carv_account(area: &[u8], id: u64, out: &mut [u64]) -> u64
    ensures { Exported (on_objects (objects.read_account id)) area.now out.old result area.now out.new }
{
    answered(out, &mut || carv_scheduler::account(area, id))
}

pub fn carv_charge_of(area: &[u8], id: u64, out: &mut [u64]) -> u64
    ensures { Exported (on_objects (objects.charge_of id)) area.now out.old result area.now out.new }
{
    answered(out, &mut || carv_scheduler::charge_of(area, id))
}

pub fn carv_totals(area: &[u8], id: u64, out: &mut [u64]) -> u64
    ensures { Exported (on_objects (objects.read_totals id)) area.now out.old result area.now out.new }
{
    answered(out, &mut || carv_scheduler::totals(area, id))
}

pub fn carv_start(
    area: &mut [u8],
    id: u64,
    space: u64,
    cspace: u64,
    root: u64,
    rip: u64,
    rsp: u64,
    rflags: u64,
    rdi: u64,
    rsi: u64,
    cs: u64,
    ss: u64,
    out: &mut [u64],
) -> u64
    ensures { Exported (start id space cspace root (record { rip = rip; rsp = rsp; rflags = rflags; rdi = rdi; rsi = rsi; cs = cs; ss = ss })) area.old out.old result area.new out.new }
{
    let context = Context {
        rip,
        rsp,
        rflags,
        rdi,
        rsi,
        cs,
        ss,
    };
    answered(
        out,
        &mut || carv_scheduler::start(area, id, space, cspace, root, context),
    )
}

pub fn carv_block_current(area: &mut [u8], kind: u64, number: u64, out: &mut [u64]) -> u64
    ensures { Exported (block_current kind number) area.old out.old result area.new out.new }
{
    answered(
        out,
        &mut || carv_scheduler::block_current(area, kind, number),
    )
}

pub fn carv_wake(
    area: &mut [u8],
    id: u64,
    first: u64,
    second: u64,
    third: u64,
    out: &mut [u64],
) -> u64
    ensures { Exported (wake id (record { first = first; second = second; third = third })) area.old out.old result area.new out.new }
{
    let results = Results {
        first,
        second,
        third,
    };
    answered(out, &mut || carv_scheduler::wake(area, id, results))
}

pub fn carv_is_blocked_on(area: &[u8], id: u64, kind: u64, number: u64, out: &mut [u64]) -> u64
    ensures { Exported (is_blocked_on id kind number) area.now out.old result area.now out.new }
{
    answered(
        out,
        &mut || carv_scheduler::is_blocked_on(area, id, kind, number),
    )
}

pub fn carv_kill(area: &mut [u8], id: u64, cause: u64, out: &mut [u64]) -> u64
    ensures { Exported (kill id cause) area.old out.old result area.new out.new }
{
    answered(out, &mut || carv_scheduler::kill(area, id, cause))
}

pub fn carv_tick(area: &mut [u8], n: u64, out: &mut [u64]) -> u64
    ensures { Exported (tick n) area.old out.old result area.new out.new }
{
    answered(out, &mut || carv_scheduler::tick(area, n))
}

pub fn carv_plan(area: &mut [u8], n: u64, out: &mut [u64]) -> u64
    ensures { Exported (plan n) area.old out.old result area.new out.new }
{
    answered(out, &mut || carv_scheduler::plan(area, n))
}

pub fn carv_read_thread(area: &[u8], id: u64, out: &mut [u64]) -> u64
    ensures { Exported (read_thread id) area.now out.old result area.now out.new }
{
    answered(out, &mut || carv_scheduler::read_thread(area, id))
}

pub fn carv_current(area: &[u8], out: &mut [u64]) -> u64
    ensures { Exported read_current area.now out.old result area.now out.new }
{
    answered(out, &mut || carv_scheduler::current(area))
}

pub fn carv_switches(area: &[u8], out: &mut [u64]) -> u64
    ensures { Exported read_switches area.now out.old result area.now out.new }
{
    answered(out, &mut || carv_scheduler::switches(area))
}

pub fn carv_exit_of(area: &[u8], id: u64, out: &mut [u64]) -> u64
    ensures { Exported (exit_of id) area.now out.old result area.now out.new }
{
    answered(out, &mut || carv_scheduler::exit_of(area, id))
}
