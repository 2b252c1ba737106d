// What the scheduler asks of the registry in a sound area: the CPU time of a thread's budget. That it is sound is a clause: see the head of
// calls.rt.
ghost use Rattle.std.specs.Prelude.{◌≡◌, true};
ghost use Rattle.carv_objects_spec.specs.Registry.{charge_most};
ghost use Rattle.carv_objects.specs.Area.{decode, sound_area, Is, Renews};

use crate::{accounts, area};

// Renews the budget id, if it is live. Has it CPU left then?
pub fn renew_and_test(a: &mut [u8], id: u64, time: u64) -> bool
    requires { sound_area a.old ≡ true }
    ensures { Renews id time a.old result a.new }
{
    let Some(i) = area::find_budget(a, id) else {
        return false;
    };
    let account = area::account_at(a, i);
    let renewed = accounts::renew(account, time);
    area::set_account(a, i, id, renewed);
    renewed.cpu_left > 0
}

// Charges the budget id, if it is live, ns or all that is left.
pub fn charge_most(a: &mut [u8], id: u64, ns: u64, time: u64)
    requires { sound_area a.old ≡ true }
    ensures { Is a.new (charge_most id ns time (decode a.old)) }
{
    if let Some(i) = area::find_budget(a, id) {
        let account = area::account_at(a, i);
        let rest = accounts::spend_most(account, ns, time);
        area::set_account(a, i, id, rest);
    }
}
