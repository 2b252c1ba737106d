// An opening: one object, the root budget, in an area of the right length.
ghost use Rattle.std.specs.Prelude.{◌≡◌, [], ◌∷◌, length};
ghost use Rattle.carv_area.specs.Stored.{Stored};
ghost use Rattle.carv_objects.specs.Area.{table, fields, Opened};
ghost use Rattle.carv_objects.specs.Laws.Rows.{row};
ghost use Rattle.carv_objects.specs.Laws.Formed.{Formed};
ghost use Rattle.carv_objects.specs.Laws.Opening.{rooted};

use crate::{Refusal, accounts, area, rows};
use carv_budget::Account;
use carv_objects_spec::{Entry, Kind};

// The table t with this object alone.
fn write_only(t: &mut [u8], id: u64, e: Entry)
    requires { length t.old ≡ 45_064 }
    ensures { Stored fields 11 t.new (row id e ∷ []) }
{
    let n = t.len() / 8;
    carv_area::clear(t, 0, n);
    rows::append_entry(t, id, e);
}

// The same of the area.
fn write_table(a: &mut [u8], id: u64, e: Entry)
    requires { length a.old ≡ 45_072 }
    ensures { Stored fields 11 (table a.new) (row id e ∷ []) }
{
    write_only(&mut a[area::TABLE..area::BYTES], id, e)
}

// The registry with the root budget, which has this account. The area's length is a clause, here and above: with `&mut [u8; BYTES]` both
// were tried and prove, but `open` then lends its slice as an array, and owes at each return that the slice ends as those bytes.
fn start(a: &mut [u8], account: Account)
    requires { length a.old ≡ 45_072 }
    ensures { Formed a.new (rooted account) }
{
    write_table(
        a,
        area::ROOT,
        Entry {
            kind: Kind::Budget,
            payer: area::ROOT,
            charge: 0,
            account,
        },
    );
    area::set_next(a, area::ROOT + 1);
}

// Questions 1, of the length alone, and 2, then the root budget with this share.
pub fn open(area: &mut [u8], cpu: u64, memory: u64) -> Result<(), Refusal>
    ensures { Opened cpu memory area.old result area.new }
{
    if area.len() != area::BYTES {
        return Err(Refusal::Unsound);
    }
    let account = accounts::opened(cpu, memory).ok_or(Refusal::Share)?;
    start(area, account);
    Ok(())
}
