// The registry's calls on a sound board: each is lent the registry's part of the area.
// No generic function lends it to a call as a closure: tried for `charge_more`, where the body was one line still, and each caller had to
// prove besides what the call requires of the part. Kinds come as codes, which the calls of carv_objects ask. That the area is sound is a
// clause: see the head of calls.rt.
#![tactic(auto, using(crate::proofs::Rules::lent))]

ghost use Rattle.std.specs.Prelude.{◌≡◌, true};
ghost use Rattle.carv_objects_spec.specs.Registry.{create, insert, create_budget, charge_more, uncharge, remove, refill, charge_cpu, pays_for_anything, read_account, charge_of};
ghost use Rattle.carv_objects_spec.specs.Totals.{read_totals};
ghost use Rattle.carv_objects.specs.Answer as told;
ghost use Rattle.carv_scheduler_spec.specs.Scheduler.{by_registry};
ghost use Rattle.carv_scheduler.specs.Answer.{in_board};
ghost use Rattle.carv_scheduler.specs.Area.{sound_area, Serves};

use crate::area;
use carv_budget::Account;
use carv_objects::{Charge, Refusal, calls};
use carv_objects_spec::Totals;

pub fn create(a: &mut [u8], kind: u64, payer: u64, backing: bool) -> Result<u64, Refusal>
    requires { sound_area a.old ≡ true }
    ensures { Serves (by_registry (create kind payer backing)) (in_board told.id_of) a.old result a.new }
{
    calls::create(&mut a[0..area::HEAD], kind, payer, backing)
}

pub fn insert(a: &mut [u8], kind: u64, payer: u64, bytes: u64) -> Result<u64, Refusal>
    requires { sound_area a.old ≡ true }
    ensures { Serves (by_registry (insert kind payer bytes)) (in_board told.id_of) a.old result a.new }
{
    calls::insert(&mut a[0..area::HEAD], kind, payer, bytes)
}

pub fn create_budget(
    a: &mut [u8],
    parent: u64,
    cpu: u64,
    memory: u64,
    time: u64,
) -> Result<u64, Refusal>
    requires { sound_area a.old ≡ true }
    ensures { Serves (by_registry (create_budget parent cpu memory time)) (in_board told.id_of) a.old result a.new }
{
    calls::create_budget(&mut a[0..area::HEAD], parent, cpu, memory, time)
}

pub fn charge_more(a: &mut [u8], id: u64, bytes: u64) -> Result<(), Refusal>
    requires { sound_area a.old ≡ true }
    ensures { Serves (by_registry (charge_more id bytes)) (in_board told.nothing) a.old result a.new }
{
    calls::charge_more(&mut a[0..area::HEAD], id, bytes)
}

pub fn uncharge(a: &mut [u8], id: u64, bytes: u64) -> Result<(), Refusal>
    requires { sound_area a.old ≡ true }
    ensures { Serves (by_registry (uncharge id bytes)) (in_board told.nothing) a.old result a.new }
{
    calls::uncharge(&mut a[0..area::HEAD], id, bytes)
}

pub fn remove(a: &mut [u8], id: u64, time: u64) -> Result<(), Refusal>
    requires { sound_area a.old ≡ true }
    ensures { Serves (by_registry (remove id time)) (in_board told.nothing) a.old result a.new }
{
    calls::remove(&mut a[0..area::HEAD], id, time)
}

pub fn refill(a: &mut [u8], id: u64, time: u64) -> Result<bool, Refusal>
    requires { sound_area a.old ≡ true }
    ensures { Serves (by_registry (refill id time)) (in_board told.renewed_of) a.old result a.new }
{
    calls::refill(&mut a[0..area::HEAD], id, time)
}

pub fn charge_cpu(a: &mut [u8], id: u64, ns: u64, time: u64) -> Result<(), Refusal>
    requires { sound_area a.old ≡ true }
    ensures { Serves (by_registry (charge_cpu id ns time)) (in_board told.nothing) a.old result a.new }
{
    calls::charge_cpu(&mut a[0..area::HEAD], id, ns, time)
}

pub fn pays_for_anything(a: &[u8], id: u64) -> Result<bool, Refusal>
    requires { sound_area a.now ≡ true }
    ensures { Serves (by_registry (pays_for_anything id)) (in_board told.pays_of) a.now result a.now }
{
    calls::pays_for_anything(&a[0..area::HEAD], id)
}

pub fn account(a: &[u8], id: u64) -> Result<Account, Refusal>
    requires { sound_area a.now ≡ true }
    ensures { Serves (by_registry (read_account id)) (in_board told.account_of) a.now result a.now }
{
    calls::account(&a[0..area::HEAD], id)
}

pub fn charge_of(a: &[u8], id: u64) -> Result<Charge, Refusal>
    requires { sound_area a.now ≡ true }
    ensures { Serves (by_registry (charge_of id)) (in_board told.charge_of) a.now result a.now }
{
    calls::charge_of(&a[0..area::HEAD], id)
}

pub fn totals(a: &[u8], id: u64) -> Result<Totals, Refusal>
    requires { sound_area a.now ≡ true }
    ensures { Serves (by_registry (read_totals id)) (in_board told.totals_of) a.now result a.now }
{
    calls::totals(&a[0..area::HEAD], id)
}
