// 64-bit words in a lent area of bytes, the least byte first, and tables in it. A function that changes its bytes gives them all: the words,
// and that those behind the last whole word stay.
#![tactic(auto)]

ghost use Rattle.std.specs.Prelude.{◌≡◌, ◌⊎◌, [], ◌∷◌, ◌++◌, ◌+◌, ◌*◌, ◌-◌, ◌≤◌, ◌<◌, length, get_or, set, drop};
ghost use Rattle.std.proofs.lemmas.List.Edits.{sets};
ghost use Rattle.carv_area.specs.Words.{words, rest, Writes};
ghost use Rattle.carv_area.specs.Moves.{move_down, move_up, wipe, cut_row, open_row, add_row};
ghost use Rattle.carv_area.specs.Rows.{remove_at};
ghost use Rattle.carv_area.specs.Keys.{keys};
ghost use Rattle.carv_area.specs.Zero.{all_zero};
ghost use Rattle.carv_area.specs.Stored.{Queue};

mod table;

pub use table::{Table, find, find_near, rank};

// ---- words

// Word number k of a.
pub fn get(a: &[u8], k: usize) -> u64
    requires { k * 8 + 8 ≤ length a.now }
    ensures { result ≡ get_or (words a.now) k 0 }
{
    let (words, _) = a.as_chunks();
    u64::from_le_bytes(words[k])
}

// v at word number k of a.
pub fn put(a: &mut [u8], k: usize, v: u64)
    requires { k * 8 + 8 ≤ length a.old }
    ensures { Writes a.old a.new (set (words a.old) k v) }
{
    // Byte by byte: `copy_from_slice` of bytes on the stack was tried, and its test for an overlap stayed in `carv_image`, 1.2 times as slow.
    // `as_chunks_mut` says nothing of what the bytes end as; with `first_chunk_mut` the check alone didn't find the proof.
    let o = k * 8;
    let bytes = v.to_le_bytes();
    a[o] = bytes[0];
    a[o + 1] = bytes[1];
    a[o + 2] = bytes[2];
    a[o + 3] = bytes[3];
    a[o + 4] = bytes[4];
    a[o + 5] = bytes[5];
    a[o + 6] = bytes[6];
    a[o + 7] = bytes[7];
}

// These words from word o on.
pub fn put_words(t: &mut [u8], o: usize, new: &[u64])
    requires { (o + length new.now) * 8 ≤ length t.old }
    ensures { Writes t.old t.new (sets (words t.old) o new.now) }
{
    for (k, word) in new.iter().enumerate() {
        put(t, o + k, *word);
    }
}

// ---- tables

// The m words from place o + c move down to place o.
pub fn shift_down(t: &mut [u8], o: usize, c: usize, m: usize)
    requires { ((o + c) + m) * 8 ≤ length t.old }
    ensures { Writes t.old t.new (move_down o c m (words t.old)) }
{
    t.copy_within((o + c) * 8..(o + c + m) * 8, o * 8);
}

// The m words from place o move up to place o + c.
pub fn shift_up(t: &mut [u8], o: usize, c: usize, m: usize)
    requires { ((o + c) + m) * 8 ≤ length t.old }
    ensures { Writes t.old t.new (move_up o c m (words t.old)) }
{
    t.copy_within(o * 8..(o + m) * 8, (o + c) * 8);
}

// The n words from place o are 0.
pub fn clear(t: &mut [u8], o: usize, n: usize)
    requires { (o + n) * 8 ≤ length t.old }
    ensures { Writes t.old t.new (wipe o n (words t.old)) }
{
    t[o * 8..(o + n) * 8].fill(0);
}

// Row i is taken out: the rows behind it move down, the words that come free are 0, and the count falls.
// Not a method of `Table`: that lends its bytes to read, and its keys rise, which a row that is opened by `insert_row` breaks. The width is a
// number, as in `cut_row` and `open_row`.
pub fn remove_row(t: &mut [u8], w: usize, i: usize)
    requires rows_fit { (get_or (words t.old) 0 0 * w + 1) * 8 ≤ length t.old }
    requires is_row { i < get_or (words t.old) 0 0 }
    ensures { Writes t.old t.new (cut_row w i (get_or (words t.old) 0 0) (words t.old)) }
{
    let n = get(t, 0) as usize;
    let o = i * w + 1;
    let m = (n - (i + 1)) * w;
    shift_down(t, o, w, m);
    clear(t, o + m, w);
    put(t, 0, (n - 1) as u64);
}

// Room for a row at place i: the rows from there on move up, and the count rises. The words at place i stay as they were.
pub fn insert_row(t: &mut [u8], w: usize, i: usize)
    requires has_words { 1 ≤ w }
    requires one_more_fits { (get_or (words t.old) 0 0 * w + w + 1) * 8 ≤ length t.old }
    requires is_place { i ≤ get_or (words t.old) 0 0 }
    ensures { Writes t.old t.new (open_row w i (get_or (words t.old) 0 0) (words t.old)) }
{
    let n = get(t, 0) as usize;
    shift_up(t, i * w + 1, w, (n - i) * w);
    put(t, 0, (n + 1) as u64);
}

// This row behind the others, which are as wide, and the count rises.
pub fn append_row(t: &mut [u8], row: &[u64])
    requires has_words { 1 ≤ length row.now }
    requires one_more_fits { (get_or (words t.old) 0 0 * length row.now + length row.now + 1) * 8 ≤ length t.old }
    ensures { Writes t.old t.new (add_row row.now (words t.old)) }
{
    let n = get(t, 0) as usize;
    put_words(t, n * row.len() + 1, row);
    put(t, 0, (n + 1) as u64);
}

// Are all words from word k to the end 0? They are joined, and not asked one by one (`all`), so that several are read at a time.
pub fn zero_from(t: &[u8], k: usize) -> bool
    ensures { result ≡ all_zero (drop k (words t.now)) }
{
    let (words, _) = t.as_chunks();
    let behind = &words[k.min(words.len())..];
    behind
        .iter()
        .fold(0, |x, word| x | u64::from_le_bytes(*word))
        == 0
}

// ---- queues of numbers

// v behind the numbers of the queue t, which has room.
pub fn push(t: &mut [u8], v: u64)
    requires queue { Queue t.old (keys 1 (words t.old)) }
    requires one_more_fits { (length (keys 1 (words t.old)) + 1) * 8 + 8 ≤ length t.old }
    ensures pushed { Queue t.new (keys 1 (words t.old) ++ (v ∷ [])) }
    ensures rest_stays { rest t.new ≡ rest t.old }
{
    append_row(t, &[v]);
}

// The number at place i of the queue t is taken out, and those behind it move down.
pub fn pull(t: &mut [u8], i: usize) -> u64
    requires queue { Queue t.old (keys 1 (words t.old)) }
    requires is_place { i < length (keys 1 (words t.old)) }
    ensures value { result ≡ get_or (keys 1 (words t.old)) i 0 }
    ensures pulled { Queue t.new (remove_at (keys 1 (words t.old)) i) }
    ensures rest_stays { rest t.new ≡ rest t.old }
{
    let v = get(t, i + 1);
    remove_row(t, 1, i);
    v
}
