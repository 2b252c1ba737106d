// The exit log: ends of threads from the oldest, in rows of 2 words. That a row lies within is a clause, as in rows.rt,
// and so is that the area is sound or well formed: see the head of calls.rt.
ghost use Rattle.std.specs.Prelude.{◌≡◌, ◌+◌, ◌*◌, ◌<◌, ◌≤◌, true, [], ◌∷◌, ◌++◌, length, drop, slice_index_or};
ghost use Rattle.carv_area.specs.Words.{words};
ghost use Rattle.carv_area.specs.Stored.{Stored};
ghost use Rattle.carv_scheduler_spec.specs.Scheduler.{logged, exit_in, exit_of};
ghost use Rattle.carv_scheduler.specs.Answer.{cause_of};
ghost use Rattle.carv_scheduler.specs.Area.{exit_fields, exit_at, exits_in, decode, sound_area, Serves};
ghost use Rattle.carv_scheduler.specs.Laws.Rows.{no_exit};
ghost use Rattle.carv_scheduler.specs.Laws.Formed.{WellFormed, Leaves};
ghost use Rattle.carv_scheduler.specs.Laws.ExitSteps.{exit, with_exits, spared};

use crate::area;
use carv_objects::Refusal;
use carv_scheduler_spec::{Cause, Exit};

// How many exits the log holds.
pub const PLACES: usize = 32;

// How many words a row has, and which of them is what, counted from the word before the row.
pub const ROW: usize = 2;

pub const THREAD: usize = 1;

pub const CAUSE: usize = 2;

// The exit at place i of the log t.
fn read_exit(t: &[u8], i: usize) -> Exit<Cause>
    requires { (i * 2 + 2) * 8 + 8 ≤ length t.now }
    ensures { result ≡ exit_at (words t.now) i }
{
    let thread = carv_area::get(t, i * ROW + THREAD);
    let cause = Cause::of_code(carv_area::get(t, i * ROW + CAUSE));
    Exit { thread, cause }
}

// An exit behind the others of the log t, which has room.
fn append_exit(t: &mut [u8], thread: u64, cause: Cause)
    requires stored { Stored exit_fields 2 t.old (exits_in (words t.old)) }
    requires t_in_bounds { (length (exits_in (words t.old)) * 2 + 2) * 8 + 8 ≤ length t.old }
    ensures { Stored exit_fields 2 t.new (exits_in (words t.old) ++ (exit thread cause ∷ [])) }
{
    carv_area::append_row(t, &[thread, cause.code()])
}

// How many exits are logged.
pub fn exit_count(a: &[u8]) -> usize
    requires { WellFormed a.now }
    ensures { result ≡ length (decode a.now).exits }
{
    carv_area::get(&a[area::EXITS..area::BYTES], 0) as usize
}

// The exit at place i.
pub fn exit_at(a: &[u8], i: usize) -> Exit<Cause>
    requires well_formed { WellFormed a.now }
    requires i_in_bounds { i < length (decode a.now).exits }
    ensures { result ≡ slice_index_or (decode a.now).exits i no_exit }
{
    read_exit(&a[area::EXITS..area::BYTES], i)
}

// The oldest exit goes.
fn drop_oldest(a: &mut [u8])
    requires well_formed { WellFormed a.old }
    requires exits_nonzero { 0 < length (decode a.old).exits }
    ensures { Leaves a.new (with_exits (drop 1 (decode a.old).exits) (decode a.old)) }
{
    carv_area::remove_row(&mut a[area::EXITS..area::BYTES], ROW, 0)
}

// An exit behind the others.
fn add_exit(a: &mut [u8], thread: u64, cause: Cause)
    requires well_formed { WellFormed a.old }
    requires a_len_bound { length (decode a.old).exits < 32 }
    ensures { Leaves a.new (with_exits ((decode a.old).exits ++ (exit thread cause ∷ [])) (decode a.old)) }
{
    append_exit(&mut a[area::EXITS..area::BYTES], thread, cause)
}

// Room for one more: of 32 exits the oldest goes.
fn make_room(a: &mut [u8])
    requires { WellFormed a.old }
    ensures { Leaves a.new (with_exits (spared (decode a.old).exits) (decode a.old)) }
{
    if exit_count(a) == PLACES {
        drop_oldest(a)
    }
}

// A thread's end is logged.
pub fn log_exit(a: &mut [u8], thread: u64, cause: Cause)
    requires { WellFormed a.old }
    ensures { Leaves a.new (with_exits (logged (exit thread cause) (decode a.old).exits) (decode a.old)) }
{
    make_room(a);
    add_exit(a, thread, cause)
}

// The cause of the thread's oldest exit in the area. Not by `exit_in`: that is lent records, and here they are read out of the area.
fn oldest(a: &[u8], id: u64) -> Option<Cause>
    requires { WellFormed a.now }
    ensures { result ≡ exit_in id (decode a.now).exits }
{
    (0..exit_count(a))
        .map(|i| exit_at(a, i))
        .find(|e| e.thread == id)
        .map(|e| e.cause)
}

// The cause of the thread's oldest logged end.
pub fn exit_of(a: &[u8], id: u64) -> Result<Option<Cause>, Refusal>
    requires { sound_area a.now ≡ true }
    ensures { Serves (exit_of id) cause_of a.now result a.now }
{
    Ok(oldest(a, id))
}

// The same in a lent run of exits, from the oldest, whatever the type of their causes.
pub fn exit_in<C: Copy>(exits: &[Exit<C>], thread: u64) -> Option<C>
    ensures { result ≡ exit_in thread exits.now }
{
    exits.iter().find(|e| e.thread == thread).map(|e| e.cause)
}
