// The C functions as the static library that C links: each is carv's function of the same name, under the same clauses. A crate is a
// library or a static library, not both, and the demands and the programs stand on carv. The area and 20 answer words are lent, the number
// is returned, and the values of the answer stand in the first answer words. carv/specs/C.antt says which. Kinds, waits and causes come as
// codes, as C passes them.
#![tactic(auto)]

ghost use Rattle.std.specs.Prelude.{◌≡◌};
ghost use Rattle.carv_objects_spec.specs.Book as objects;
ghost use Rattle.carv_scheduler_spec.specs.Book.{on_objects, create_user_thread, start, block_current, wake, is_blocked_on, kill, tick, plan, read_thread, read_current, read_switches, exit_of};
ghost use Rattle.carv_scheduler.specs.Area.{sound_area};
ghost use Rattle.carv_scheduler.specs.Image.{Filled};
ghost use Rattle.carv.specs.C.{Exported, ExportedWithImage, Opens};

#[unsafe(no_mangle)]
pub extern "C" fn carv_is_sound(area: &[u8]) -> bool
    ensures { result ≡ sound_area area.now }
{
    carv::carv_is_sound(area)
}

#[unsafe(no_mangle)]
pub extern "C" fn carv_image(image: &mut [u8]) -> u64
    ensures { Filled image.old result image.new }
{
    carv::carv_image(image)
}

#[unsafe(no_mangle)]
pub extern "C" fn carv_open(area: &mut [u8], cpu: u64, memory: u64, out: &mut [u64]) -> u64
    ensures { Opens cpu memory area.old out.old result area.new out.new }
{
    carv::carv_open(area, cpu, memory, out)
}

#[unsafe(no_mangle)]
pub extern "C" fn carv_create_user_thread(
    area: &mut [u8],
    id: u64,
    budget: u64,
    stack: bool,
    image: &mut [u8],
    out: &mut [u64],
) -> u64
    ensures { ExportedWithImage (create_user_thread id budget stack) area.old image.old out.old result area.new image.new out.new }
{
    carv::carv_create_user_thread(area, id, budget, stack, image, out)
}

#[unsafe(no_mangle)]
pub extern "C" fn carv_create(
    area: &mut [u8],
    kind: u64,
    payer: u64,
    backing: bool,
    out: &mut [u64],
) -> u64
    ensures { Exported (on_objects (objects.create kind payer backing)) area.old out.old result area.new out.new }
{
    carv::carv_create(area, kind, payer, backing, out)
}

#[unsafe(no_mangle)]
pub extern "C" fn carv_insert(
    area: &mut [u8],
    kind: u64,
    payer: u64,
    bytes: u64,
    out: &mut [u64],
) -> u64
    ensures { Exported (on_objects (objects.insert kind payer bytes)) area.old out.old result area.new out.new }
{
    carv::carv_insert(area, kind, payer, bytes, out)
}

#[unsafe(no_mangle)]
pub extern "C" fn carv_create_budget(
    area: &mut [u8],
    parent: u64,
    cpu: u64,
    memory: u64,
    time: u64,
    out: &mut [u64],
) -> u64
    ensures { Exported (on_objects (objects.create_budget parent cpu memory time)) area.old out.old result area.new out.new }
{
    carv::carv_create_budget(area, parent, cpu, memory, time, out)
}

#[unsafe(no_mangle)]
pub extern "C" fn carv_charge_more(area: &mut [u8], id: u64, bytes: u64, out: &mut [u64]) -> u64
    ensures { Exported (on_objects (objects.charge_more id bytes)) area.old out.old result area.new out.new }
{
    carv::carv_charge_more(area, id, bytes, out)
}

#[unsafe(no_mangle)]
pub extern "C" fn carv_uncharge(area: &mut [u8], id: u64, bytes: u64, out: &mut [u64]) -> u64
    ensures { Exported (on_objects (objects.uncharge id bytes)) area.old out.old result area.new out.new }
{
    carv::carv_uncharge(area, id, bytes, out)
}

#[unsafe(no_mangle)]
pub extern "C" fn carv_remove(area: &mut [u8], id: u64, time: u64, out: &mut [u64]) -> u64
    ensures { Exported (on_objects (objects.remove id time)) area.old out.old result area.new out.new }
{
    carv::carv_remove(area, id, time, out)
}

#[unsafe(no_mangle)]
pub extern "C" fn carv_refill(area: &mut [u8], id: u64, time: u64, out: &mut [u64]) -> u64
    ensures { Exported (on_objects (objects.refill id time)) area.old out.old result area.new out.new }
{
    carv::carv_refill(area, id, time, out)
}

#[unsafe(no_mangle)]
pub extern "C" fn carv_charge_cpu(
    area: &mut [u8],
    id: u64,
    ns: u64,
    time: u64,
    out: &mut [u64],
) -> u64
    ensures { Exported (on_objects (objects.charge_cpu id ns time)) area.old out.old result area.new out.new }
{
    carv::carv_charge_cpu(area, id, ns, time, out)
}

#[unsafe(no_mangle)]
pub extern "C" fn carv_pays_for_anything(area: &[u8], id: u64, out: &mut [u64]) -> u64
    ensures { Exported (on_objects (objects.pays_for_anything id)) area.now out.old result area.now out.new }
{
    carv::carv_pays_for_anything(area, id, out)
}

#[unsafe(no_mangle)]
pub extern "C" fn carv_account(area: &[u8], id: u64, out: &mut [u64]) -> u64
    ensures { Exported (on_objects (objects.read_account id)) area.now out.old result area.now out.new }
{
    carv::carv_account(area, id, out)
}

#[unsafe(no_mangle)]
pub extern "C" fn carv_charge_of(area: &[u8], id: u64, out: &mut [u64]) -> u64
    ensures { Exported (on_objects (objects.charge_of id)) area.now out.old result area.now out.new }
{
    carv::carv_charge_of(area, id, out)
}

#[unsafe(no_mangle)]
pub extern "C" fn carv_totals(area: &[u8], id: u64, out: &mut [u64]) -> u64
    ensures { Exported (on_objects (objects.read_totals id)) area.now out.old result area.now out.new }
{
    carv::carv_totals(area, id, out)
}

#[unsafe(no_mangle)]
pub extern "C" fn carv_start(
    area: &mut [u8],
    id: u64,
    space: u64,
    cspace: u64,
    root: u64,
    rip: u64,
    rsp: u64,
    rflags: u64,
    rdi: u64,
    rsi: u64,
    cs: u64,
    ss: u64,
    out: &mut [u64],
) -> u64
    ensures { Exported (start id space cspace root (record { rip = rip; rsp = rsp; rflags = rflags; rdi = rdi; rsi = rsi; cs = cs; ss = ss })) area.old out.old result area.new out.new }
{
    carv::carv_start(
        area, id, space, cspace, root, rip, rsp, rflags, rdi, rsi, cs, ss, out,
    )
}

#[unsafe(no_mangle)]
pub extern "C" fn carv_block_current(
    area: &mut [u8],
    kind: u64,
    number: u64,
    out: &mut [u64],
) -> u64
    ensures { Exported (block_current kind number) area.old out.old result area.new out.new }
{
    carv::carv_block_current(area, kind, number, out)
}

#[unsafe(no_mangle)]
pub extern "C" fn carv_wake(
    area: &mut [u8],
    id: u64,
    first: u64,
    second: u64,
    third: u64,
    out: &mut [u64],
) -> u64
    ensures { Exported (wake id (record { first = first; second = second; third = third })) area.old out.old result area.new out.new }
{
    carv::carv_wake(area, id, first, second, third, out)
}

#[unsafe(no_mangle)]
pub extern "C" fn carv_is_blocked_on(
    area: &[u8],
    id: u64,
    kind: u64,
    number: u64,
    out: &mut [u64],
) -> u64
    ensures { Exported (is_blocked_on id kind number) area.now out.old result area.now out.new }
{
    carv::carv_is_blocked_on(area, id, kind, number, out)
}

#[unsafe(no_mangle)]
pub extern "C" fn carv_kill(area: &mut [u8], id: u64, cause: u64, out: &mut [u64]) -> u64
    ensures { Exported (kill id cause) area.old out.old result area.new out.new }
{
    carv::carv_kill(area, id, cause, out)
}

#[unsafe(no_mangle)]
pub extern "C" fn carv_tick(area: &mut [u8], n: u64, out: &mut [u64]) -> u64
    ensures { Exported (tick n) area.old out.old result area.new out.new }
{
    carv::carv_tick(area, n, out)
}

#[unsafe(no_mangle)]
pub extern "C" fn carv_plan(area: &mut [u8], n: u64, out: &mut [u64]) -> u64
    ensures { Exported (plan n) area.old out.old result area.new out.new }
{
    carv::carv_plan(area, n, out)
}

#[unsafe(no_mangle)]
pub extern "C" fn carv_read_thread(area: &[u8], id: u64, out: &mut [u64]) -> u64
    ensures { Exported (read_thread id) area.now out.old result area.now out.new }
{
    carv::carv_read_thread(area, id, out)
}

#[unsafe(no_mangle)]
pub extern "C" fn carv_current(area: &[u8], out: &mut [u64]) -> u64
    ensures { Exported read_current area.now out.old result area.now out.new }
{
    carv::carv_current(area, out)
}

#[unsafe(no_mangle)]
pub extern "C" fn carv_switches(area: &[u8], out: &mut [u64]) -> u64
    ensures { Exported read_switches area.now out.old result area.now out.new }
{
    carv::carv_switches(area, out)
}

#[unsafe(no_mangle)]
pub extern "C" fn carv_exit_of(area: &[u8], id: u64, out: &mut [u64]) -> u64
    ensures { Exported (exit_of id) area.now out.old result area.now out.new }
{
    carv::carv_exit_of(area, id, out)
}
