// Numbers that more than one file names. carv_objects::Refusal has those of refusals, carv_scheduler_spec those of states, waits and causes.

// The ids of the first thread and of the idle thread, which have no budget.
pub const FIRST: u64 = 0;

pub const IDLE: u64 = u64::MAX;

// A tick in nanoseconds, and the last tick whose time is a 64-bit number.
pub const TICK: u64 = 1_000_000;

pub const LAST_TICK: u64 = u64::MAX / TICK;
