// A row of a lent table by its key.
ghost use Rattle.std.specs.Prelude.{◌≡◌, ◌<◌, length, get_or};
ghost use Rattle.carv_area.specs.Words.{words};
ghost use Rattle.carv_area.specs.Keys.{keys, find_in};
ghost use Rattle.carv_area.specs.Search.{rank_in, Bracket};
ghost use Rattle.carv_area.specs.Stored.{Keyed};

use crate::get;

// The first word of row i of a table whose rows are w words wide.
fn key(t: &[u8], w: usize, i: usize) -> u64
    requires keyed { Keyed w t.now }
    requires is_row { i < length (keys w (words t.now)) }
    ensures { result ≡ get_or (keys w (words t.now)) i 0 }
{
    get(t, i * w + 1)
}

// How many keys are below id, by halving the count places from start on: the keys before them are below id, and those
// behind them above it. By hand: `partition_point` over rows as chunks was tried. It proves, with 67 lines more, but takes seven
// instructions more a search and one register more where it is inlined: `replay_objects` ran 0.14 % more instructions, 6.6 % more outside
// question 1.
fn halve(t: &[u8], w: usize, id: u64, start: usize, count: usize) -> usize
    requires keyed { Keyed w t.now }
    requires bracket { Bracket (keys w (words t.now)) id start count }
    ensures { result ≡ rank_in (keys w (words t.now)) id }
{
    let mut lo = start;
    let mut len = count;
    while len > 1 {
        let half = len / 2;
        if key(t, w, lo + half - 1) < id {
            lo += half;
        }
        len -= half;
    }
    if key(t, w, lo) < id { lo + 1 } else { lo }
}

// How many rows, each w words wide, have a key below id. Keys rise, so that they are at least as far apart as their places: that
// leaves as many places to look at as there are gaps between the keys. For a width that is known only where it runs, as `find` and
// `find_near`; for one that is known before, the methods of `Table`.
pub fn rank(t: &[u8], w: usize, id: u64) -> usize
    requires { Keyed w t.now }
    ensures { result ≡ rank_in (keys w (words t.now)) id }
{
    let n = get(t, 0) as usize;
    if n == 0 {
        return 0;
    }
    let first = key(t, w, 0);
    let last = key(t, w, n - 1);
    if id <= first {
        return 0;
    }
    if last < id {
        return n;
    }
    let start = (n - 1).saturating_sub((last - id) as usize);
    let end = ((id - first) as usize).min(n - 1) + 1;
    halve(t, w, id, start, end - start)
}

// The place of the row whose key is id, in a table whose rows are w words wide.
pub fn find(t: &[u8], w: usize, id: u64) -> Option<usize>
    requires { Keyed w t.now }
    ensures { result ≡ find_in (keys w (words t.now)) id }
{
    let i = rank(t, w, id);
    (i < get(t, 0) as usize && key(t, w, i) == id).then_some(i)
}

// The same, where the place guess is tried first.
pub fn find_near(t: &[u8], w: usize, id: u64, guess: usize) -> Option<usize>
    requires { Keyed w t.now }
    ensures { result ≡ find_in (keys w (words t.now)) id }
{
    if guess < get(t, 0) as usize && key(t, w, guess) == id {
        return Some(guess);
    }
    find(t, w, id)
}

// A table in lent bytes: the number of rows, and the rows, each WIDTH words wide. Their first words, the keys, rise.
// Nothing prints or compares it.
#[derive(Clone, Copy)]
pub struct Table<'a, const WIDTH: usize> {
    pub bytes: &'a [u8],
    ghost keyed: { Keyed WIDTH bytes.now },
}

impl<'a, const WIDTH: usize> Table<'a, WIDTH> {
    // How many rows have a key below id.
    pub fn rank(&self, id: u64) -> usize
        ensures { result ≡ rank_in (keys WIDTH (words self.now.bytes.now)) id }
    {
        rank(self.bytes, WIDTH, id)
    }

    // The place of the row whose key is id.
    pub fn find(&self, id: u64) -> Option<usize>
        ensures { result ≡ find_in (keys WIDTH (words self.now.bytes.now)) id }
    {
        find(self.bytes, WIDTH, id)
    }

    // The same, where the place guess is tried first.
    pub fn find_near(&self, id: u64, guess: usize) -> Option<usize>
        ensures { result ≡ find_in (keys WIDTH (words self.now.bytes.now)) id }
    {
        find_near(self.bytes, WIDTH, id, guess)
    }
}
