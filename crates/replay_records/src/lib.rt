// What the programs that replay recorded calls share: reading standard input in blocks of whole records, replaying each record, and
// counting what the blocks give. A program is an impl of Replay: what a record is, and what its replay says and leaves.
#![tactic(auto)]

ghost use Rattle.std.specs.Prelude.{◌≡◌, ◌+◌, ◌/◌, ◌≤◌, ◌<◌, ◌⊎◌, ◌%◌, ℕ, Bool, not, eqb, List, length, take, drop, IsFalse};
ghost use Rattle.std.specs.Io.KnownBytes.{Consumes, IsAtEnd};
ghost use Rattle.replay_records.specs.Tally.{block_bytes, cut, started, added, Room, Counted, Taken, Told, most_calls};
ghost use Rattle.replay_records.specs.Replayed.{Replays};
ghost use Rattle.replay_records.specs.declared.TheConstants.{BUFFER_BYTES};

use std::fmt;
use std::io::Read;

// The bytes of the buffer that a block is read into.
const BUFFER_BYTES: usize = 65_536;

// The most blocks that are read.
const MOST_BLOCKS: u64 = 1_000_000_000_000;

// A program that replays records of SIZE bytes one after the other.
pub trait Replay<const SIZE: usize> {
    // `replays bytes before right after`: the call of the record with these bytes, made in the state `before`, leaves `after`, and
    // `right` tells whether it answers as recorded.
    ghost replays: { List ℕ → Self → Bool → Self → Type 0 };

    // Makes the record's call and tells whether it answers as recorded.
    fn replay(&mut self, bytes: &[u8; SIZE]) -> bool
        ensures { replays bytes.now self.old result self.new };

    // Told of a record that differs, with its number, counted from 1.
    fn tell(&self, _number: u64, _bytes: &[u8; SIZE]) {}

    // Told that the input ends inside a record.
    fn tell_cut(&self) {}

    // A record has bytes, and fits the buffer.
    ghost size_fits: { (0 < SIZE) × (SIZE ≤ BUFFER_BYTES) };
}

// A number that is no op's.
#[derive(Clone, Copy, Debug, PartialEq, Eq)]
pub struct UnlistedOp(pub u64);

// What the blocks so far give, and how many more may come. A proved loop has to end, and nothing says that the input does. So the
// blocks are counted down, from a number that no run uses up. That there is room for them is a clause: it holds between blocks.
#[derive(Clone, Copy, Debug, PartialEq, Eq)]
pub struct Tally {
    pub calls: u64,
    pub differences: u64,
    pub blocks: u64,
}

impl fmt::Display for Tally {
    fn fmt<W: fmt::Write>(&self, f: &mut fmt::Formatter<W>) -> fmt::Result {
        write!(f, "{} calls, {} differences", self.calls, self.differences)
    }
}

impl Tally {
    // Before the first block.
    pub fn start() -> Tally
        ensures value { result ≡ started }
        ensures room { Room result }
    {
        Tally {
            calls: 0,
            differences: 0,
            blocks: MOST_BLOCKS,
        }
    }

    // The tally with one more block, of n bytes, in which so many records differ. A record that is cut short is a difference and no
    // call; behind a block that isn't full there is none.
    pub fn add(self, n: usize, size: usize, differences: u64) -> Tally
        requires size_nonzero { (0 < size) × (n ≤ BUFFER_BYTES) × (differences ≤ n / size) }
        requires room { Room self × (0 < self.blocks) }
        ensures { result ≡ added self n size differences }
    {
        let blocks = if n == block_bytes(size) {
            self.blocks - 1
        } else {
            0
        };
        Tally {
            calls: self.calls + (n / size) as u64,
            differences: self.differences + differences + cut_short(n, size),
            blocks,
        }
    }
}

// The bytes of a full block: as many records of `size` bytes as the buffer holds. The size is a parameter, here and in
// `Tally`: neither belongs to one program. What replays a program's records has it as a const parameter.
#[tactic(auto, unfolding(crate::specs::Tally::block_bytes))]
fn block_bytes(size: usize) -> usize
    requires { 0 < size }
    ensures { (result ≡ block_bytes size) × (result ≤ BUFFER_BYTES) }
{
    BUFFER_BYTES / size * size
}

// Do n bytes end inside a record of `size` bytes?
fn is_cut(n: usize, size: usize) -> bool
    requires { 0 < size }
    ensures { result ≡ not (eqb (n % size) 0) }
{
    n % size != 0
}

// 1 where n bytes end inside a record of `size` bytes.
pub fn cut_short(n: usize, size: usize) -> u64
    requires { 0 < size }
    ensures { (result ≡ cut n size) × (result ≤ 1) }
{
    u64::from(is_cut(n, size))
}

// What was read: how many bytes, and whether a read failed behind them. No Result: bytes that were read before a failure count.
#[derive(Clone, Copy, Debug, PartialEq, Eq)]
pub struct Reading {
    pub bytes: usize,
    pub failed: bool,
}

// Reads to the start of buf until it is full, the input ends or a read fails. On an empty buf it makes no call.
fn read_full<R: Read>(input: &mut R, buf: &mut [u8]) -> Reading
    ensures bound { result.bytes ≤ length buf.new }
    ensures bytes { Consumes (R.remaining input.old) (R.remaining input.new) (take result.bytes buf.new) }
    ensures end { result.bytes < length buf.new → IsFalse result.failed → IsAtEnd (R.remaining input.new) }
{
    let mut bytes = 0;
    let mut failed = false;
    // No `for`: how far a read gets is known only after it.
    while bytes < buf.len() {
        match input.read(&mut buf[bytes..]) {
            Ok(0) => break,
            Ok(n) => bytes += n,
            Err(_) => {
                failed = true;
                break;
            }
        }
    }
    Reading { bytes, failed }
}

// Reads a block of records of `size` bytes from the input to the start of buf. Of an input whose bytes are known, just these are taken,
// in their order, and a block that isn't full ends it, unless a read failed.
pub fn read_block<R: Read>(input: &mut R, buf: &mut [u8; BUFFER_BYTES], size: usize) -> Reading
    requires { 0 < size }
    ensures upper_bound { (result.bytes ≤ BUFFER_BYTES) × (result.bytes ≤ block_bytes size) }
    ensures buf_unchanged { drop (block_bytes size) buf.new ≡ drop (block_bytes size) buf.old }
    ensures bytes { Consumes (R.remaining input.old) (R.remaining input.new) (take result.bytes buf.new) }
    ensures end { result.bytes < block_bytes size → IsFalse result.failed → IsAtEnd (R.remaining input.new) }
{
    let most = block_bytes(size);
    read_full(input, &mut buf[..most])
}

// How many of the block's whole records differ. There were `before` records before them.
fn differences<const SIZE: usize, P: Replay<SIZE>>(
    program: &mut P,
    block: &[u8],
    before: u64,
) -> u64
    requires { before + length block.now ≤ u64.MAX }
    ensures replayed { Replays P.replays SIZE program.old program.new block.now (length block.now / SIZE) result }
    ensures few { result ≤ length block.now / SIZE }
{
    let (records, _cut) = block.as_chunks::<SIZE>();
    // A loop, and no `filter` and `count`: the closure would change the program, and a proof knows nothing of what it left.
    let mut count = 0;
    for (i, bytes) in records.iter().enumerate() {
        if !program.replay(bytes) {
            program.tell(before + i as u64 + 1, bytes);
            count += 1;
        }
    }
    count
}

// What was replayed, and whether a read failed, which counts as the end of the input. No Result: what was replayed before counts.
#[derive(Clone, Copy, Debug, PartialEq, Eq)]
pub struct Run {
    pub tally: Tally,
    pub failed: bool,
}

// Reads and replays a block more.
fn next_block<const SIZE: usize, R: Read, P: Replay<SIZE>>(
    input: &mut R,
    program: &mut P,
    tally: Tally,
) -> Run
    requires { Room tally × (0 < tally.blocks) }
    ensures counted { Counted SIZE (Replays P.replays SIZE program.old program.new) tally result.tally }
    ensures taken { Taken SIZE (Replays P.replays SIZE program.old program.new) tally result
        (R.remaining input.old) (R.remaining input.new) }
    ensures room { Room result.tally × (result.tally.blocks < tally.blocks) }
{
    // Of fixed size: no heap.
    let mut buf = [0; BUFFER_BYTES];
    let read = read_block(input, &mut buf, SIZE);
    let different = differences(program, &buf[..read.bytes], tally.calls);
    if is_cut(read.bytes, SIZE) {
        program.tell_cut();
    }
    Run {
        tally: tally.add(read.bytes, SIZE, different),
        failed: read.failed,
    }
}

// Replays the records of the input, up to its end or a read that fails.
pub fn replay_all<const SIZE: usize, R: Read, P: Replay<SIZE>>(
    input: &mut R,
    program: &mut P,
) -> Run
    ensures told { (bytes : List ℕ) × Consumes (R.remaining input.old) (R.remaining input.new) bytes
        × Told SIZE (Replays P.replays SIZE program.old program.new) bytes result.tally }
    ensures ended { IsFalse result.failed
        → IsAtEnd (R.remaining input.new) ⊎ (result.tally.calls ≡ most_calls SIZE) }
{
    let mut run = Run {
        tally: Tally::start(),
        failed: false,
    };
    // No `for`: the tally counts the blocks that may come, and a block that isn't full ends them. A range would count them once more.
    while run.tally.blocks > 0 {
        run = next_block(input, program, run.tally);
    }
    run
}
