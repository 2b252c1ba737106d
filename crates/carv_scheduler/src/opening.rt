// The opening: a new board over whatever the bytes held. The area's length is a clause, for the reason that carv_objects' opening.rt gives.
ghost use Rattle.std.specs.Prelude.{◌≡◌, ◌≤◌, length};
ghost use Rattle.carv_scheduler.specs.Area.{Opened};
ghost use Rattle.carv_scheduler.specs.Laws.Formed.{Leaves};
ghost use Rattle.carv_scheduler.specs.Laws.Opening.{Wiped, RegistryOpened, blank_board};

use crate::numbers::{FIRST, IDLE};
use crate::{area, rows};
use carv_budget::Account;
use carv_objects::Refusal;
use carv_scheduler_spec::State;

// How many words, of 8 bytes, stand behind the registry.
const REST: usize = (area::BYTES - area::HEAD) / 8;

fn open_registry(a: &mut [u8], cpu: u64, memory: u64)
    requires a_len { length a.old ≡ 68_144 }
    requires cpu_bound { cpu ≤ 10_000_000 }
    ensures { RegistryOpened cpu memory a.old a.new }
{
    // `open` has asked the length and the share, so that this is not refused, and what follows is of accepted openings alone.
    carv_objects::open(&mut a[0..area::HEAD], cpu, memory).unwrap();
}

// Every word behind the registry is 0.
fn clear_rest(a: &mut [u8])
    requires { length a.old ≡ 68_144 }
    ensures { Wiped 45_072 23_072 a.old a.new }
{
    carv_area::clear(&mut a[area::HEAD..area::BYTES], 0, REST)
}

// A board without threads.
fn blank(a: &mut [u8], cpu: u64, memory: u64)
    requires a_len { length a.old ≡ 68_144 }
    requires cpu_bound { cpu ≤ 10_000_000 }
    ensures { Leaves a.new (blank_board cpu memory) }
{
    open_registry(a, cpu, memory);
    clear_rest(a);
}

pub fn open(area: &mut [u8], cpu: u64, memory: u64) -> Result<(), Refusal>
    ensures { Opened cpu memory area.old result area.new }
{
    if area.len() != area::BYTES {
        return Err(Refusal::Unsound);
    }
    if cpu > Account::PERIOD {
        return Err(Refusal::Share);
    }
    blank(area, cpu, memory);
    area::insert_thread(area, FIRST, rows::fresh_thread(State::Running, None));
    area::insert_thread(area, IDLE, rows::fresh_thread(State::Ready, None));
    Ok(())
}
