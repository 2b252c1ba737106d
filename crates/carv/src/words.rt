// The words that an answer leaves in the answer words: specs/C.antt says which. An answer without a value leaves none.
ghost use Rattle.std.specs.Prelude.{◌≡◌, ◌≤◌, ℕ, List, [], ◌∷◌, length};
ghost use Rattle.std.proofs.lemmas.List.Edits.{sets};
ghost use Rattle.carv_scheduler.specs.Answer.{switch_of};
ghost use Rattle.carv.specs.C.{account_words, totals_words, record_words, bit, ended_words, cause_words, told_words};

use carv_budget::Account;
use carv_objects::Charge;
use carv_objects_spec::Totals;
use carv_scheduler::Switch;
use carv_scheduler_spec::{Cause, Thread, Wait};

// How many answer words there are.
pub const WORDS: usize = 20;

// These words in the first of the answer words.
fn write_words(out: &mut [u64; WORDS], words: &[u64])
    requires { length words.now ≤ 20 }
    ensures { out.new ≡ sets out.old 0 words.now }
{
    out[..words.len()].copy_from_slice(words)
}

// What an accepted answer tells, in the first of the answer words.
pub trait Reported {
    ghost words: { Self → List ℕ };

    fn write(self, out: &mut [u64; WORDS])
        ensures { out.new ≡ sets out.old 0 (words self) };
}

impl Reported for () {
    ghost words = { λ _. [] };

    fn write(self, _out: &mut [u64; WORDS]) {}
}

impl Reported for u64 {
    ghost words = { λ n. n ∷ [] };

    fn write(self, out: &mut [u64; WORDS]) {
        out[0] = self;
    }
}

// Yes is 1, no is 0.
impl Reported for bool {
    ghost words = { λ b. bit b ∷ [] };

    fn write(self, out: &mut [u64; WORDS]) {
        out[0] = u64::from(self)
    }
}

// Its limits, start and line.
impl Reported for Account {
    ghost words = { account_words };

    fn write(self, out: &mut [u64; WORDS]) {
        write_words(out, &self.words())
    }
}

impl Reported for Charge {
    ghost words = { λ c. c.payer ∷ c.bytes ∷ [] };

    fn write(self, out: &mut [u64; WORDS]) {
        write_words(out, &[self.payer, self.bytes])
    }
}

impl Reported for Totals {
    ghost words = { totals_words };

    fn write(self, out: &mut [u64; WORDS]) {
        write_words(out, &[self.memory_used, self.memory_free, self.cpu_left])
    }
}

impl Reported for Thread {
    ghost words = { record_words };

    fn write(self, out: &mut [u64; WORDS]) {
        write_words(out, &self.words())
    }
}

// A switch is 1, both ids, and 1 and the root, or 0 for the kernel's; 0 is no switch.
impl Reported for Option<Switch> {
    ghost words = { λ s. told_words (switch_of s) };

    fn write(self, out: &mut [u64; WORDS]) {
        match self {
            None => out[0] = 0,
            Some(Switch { old, new, root }) => match root {
                None => write_words(out, &[1, old, new, 0]),
                Some(root) => write_words(out, &[1, old, new, 1, root]),
            },
        }
    }
}

// The wait that was ended, or two zeros.
impl Reported for Option<Wait> {
    ghost words = { ended_words };

    fn write(self, out: &mut [u64; WORDS]) {
        match self {
            None => write_words(out, &[0, 0]),
            Some(wait) => write_words(out, &[wait.kind(), wait.number()]),
        }
    }
}

// The cause of an end, or 0.
impl Reported for Option<Cause> {
    ghost words = { cause_words };

    fn write(self, out: &mut [u64; WORDS]) {
        out[0] = self.map_or(0, Cause::code)
    }
}
