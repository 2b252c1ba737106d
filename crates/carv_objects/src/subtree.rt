// P1: what is within a budget, and the totals over it. Rows stand by rising id and payers have lower ids, so one pass over the rows, which
// marks each, has marked a row's payer when it comes to the row. specs/Laws/TotalSteps.antt says what the pass knows at each row.
// That the area is sound or well formed is a clause: see the head of calls.rt.
ghost use Rattle.std.specs.Prelude.{◌≡◌, true, ◌<◌, length, get_or};
ghost use Rattle.carv_area.specs.Lookup.{Here};
ghost use Rattle.carv_objects_spec.specs.Registry.{has, is_budget};
ghost use Rattle.carv_objects_spec.specs.Within.{within};
ghost use Rattle.carv_objects_spec.specs.Totals.{totals};
ghost use Rattle.carv_objects.specs.Area.{decode, sound_area};
ghost use Rattle.carv_objects.specs.Laws.Rows.{no_row};
ghost use Rattle.carv_objects.specs.Laws.Formed.{WellFormed};
ghost use Rattle.carv_objects.specs.Laws.TotalSteps.{Marked, Part};

use crate::area;
use carv_objects_spec::Totals;

// The place of an object that is there. guess is tried first.
fn place(a: &[u8], id: u64, guess: usize) -> usize
    requires well_formed { WellFormed a.now }
    requires id_value { has (decode a.now) id ≡ true }
    ensures { Here no_row (decode a.now).rows id result }
{
    area::find_near(a, id, guess).unwrap()
}

// A budget of a sound area, and which of the first `known` objects are within it. Nothing prints or compares it.
#[derive(Clone, Copy)]
pub struct Marks<'a> {
    area: &'a [u8],
    budget: u64,
    marks: &'a [bool; area::PLACES],
    known: usize,
    ghost is_sound: { sound_area area.now ≡ true },
    ghost marked: { Marked (decode area.now) budget marks.now known },
}

impl<'a> Marks<'a> {
    // Is the object id, which is there, within the budget? From payer to payer up to the root: the id falls at each call. The way ends where
    // it comes to one of the marked places; with none known it ends at the budget or the root. guess is tried first for the place of id.
    // The call in tail position hands on numbers and an address alone, and is compiled to a loop.
    pub fn is_within(&self, id: u64, guess: usize) -> bool
        requires { has (decode self.now.area.now) id ≡ true }
        ensures { result ≡ within (decode self.now.area.now) self.now.budget id }
    {
        if id == self.budget {
            return true;
        }
        if id == area::ROOT {
            return false;
        }
        let i = place(self.area, id, guess);
        if i < self.known {
            return self.marks[i];
        }
        let payer = area::payer_at(self.area, i);
        self.is_within(payer, i - 1)
    }

    // Is the object behind the marked ones within the budget? guess is tried first for the place of its payer.
    fn is_next_within(&self, guess: usize) -> bool
        requires { self.now.known < length (decode self.now.area.now).rows }
        ensures { result ≡ within (decode self.now.area.now) self.now.budget (get_or (decode self.now.area.now).rows self.now.known no_row).id }
    {
        let i = self.known;
        area::id_at(self.area, i) == self.budget
            || self.is_within(area::payer_at(self.area, i), guess)
    }
}

// The figures of the account at place i, if they count.
fn part(a: &[u8], i: usize, counts: bool) -> Totals
    requires a_value { sound_area a.now ≡ true }
    requires i_in_bounds { i < length (decode a.now).rows }
    ensures { Part (decode a.now) i counts result }
{
    if !counts {
        return Totals::default();
    }
    let c = area::account_at(a, i);
    // An account's figures under other names, in this one place: so no `From`.
    Totals {
        memory_used: c.memory_used,
        memory_free: c.free(),
        cpu_left: c.cpu_left,
    }
}

// The sums over the budget b, which stands at place j, and all below it. What is no budget has an account of zeros. The place of a
// payer is guessed from its id: `places` goes by the remainder of an id, and `marks` by row.
pub fn sums(a: &[u8], b: u64, j: usize) -> Totals
    requires a_value { sound_area a.now ≡ true }
    requires here { Here no_row (decode a.now).rows b j }
    requires b_value { is_budget (decode a.now) b ≡ true }
    ensures { result ≡ totals (decode a.now) b }
{
    let mut marks = [false; area::PLACES];
    // u16: the stack of a C function is held to 18,432 bytes, which tools/stack asks, and usize would go over it.
    let mut places = [0u16; area::PLACES];
    let mut sums = Totals::default();
    for i in 0..area::count(a) {
        let from = area::note(area::payer_at(a, i));
        let before = Marks {
            area: a,
            budget: b,
            marks: &marks,
            known: i,
        };
        let inside = before.is_next_within(usize::from(places[from]));
        marks[i] = inside;
        let to = area::note(area::id_at(a, i));
        places[to] = i as u16;
        let p = part(a, i, inside);
        // By figure: sums are made here alone, so that `Totals` has no `AddAssign`.
        sums.memory_used += p.memory_used;
        sums.memory_free += p.memory_free;
        sums.cpu_left += p.cpu_left;
    }
    sums
}
