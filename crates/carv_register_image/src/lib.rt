// The register image of a new thread, in 512 lent bytes, written eight bytes a step. After FxState in kernel/src/arch/x86_64/syscall.rs.
#![tactic(auto)]

ghost use Rattle.std.specs.Prelude.{◌≡◌, ◌-◌, ◌≤◌, length, get_or};
ghost use Rattle.carv_area.specs.Words.{words};
ghost use Rattle.carv_register_image.specs.Image.{register_image, eight_written, after_step, Final};

pub const BYTES: usize = 512;

const STEPS: usize = 64;

// Word number i of the image: i is a place, and no code. The x87 control word is 0x037f; MXCSR, at byte 24, 0x1f80, and its mask, at byte 28,
// 0xffbf.
fn word_at(i: usize) -> u64
    ensures { result ≡ get_or (words register_image) i 0 }
{
    match i {
        0 => 0x037f,
        3 => 0x0000_ffbf_0000_1f80,
        _ => 0,
    }
}

// Writes the eight bytes of step k of 64, from 1, as the word that they are, and no other. Compiled alone it is one 64-bit store.
// A slice with its length, and no array as in `step`: that was tried, and the proof lacked that `put` leaves bytes in an array.
fn write_eight(image: &mut [u8], k: usize, word: u64)
    requires image_bytes { length image.old ≡ 512 }
    requires is_step { (1 ≤ k) × (k ≤ 64) }
    requires is_word { word ≡ get_or (words register_image) (k - 1) 0 }
    ensures { image.new ≡ eight_written k image.old }
{
    carv_area::put(image, k - 1, word);
}

// Step k of 64, from 1, where the bytes before its own are final.
fn step(image: &mut [u8; BYTES], k: usize)
    requires is_step { (1 ≤ k) × (k ≤ 64) }
    requires final_before { Final (k - 1) image.old }
    ensures { image.new ≡ after_step k image.old }
{
    write_eight(image, k, word_at(k - 1));
}

// Steps 1 to n of 64.
fn steps(image: &mut [u8; BYTES], n: usize)
    requires at_most_all { n ≤ 64 }
    ensures { image.new ≡ after_step n image.old }
{
    for k in 1..=n {
        step(image, k);
    }
}

// All steps. A slice, since the callers have slices.
pub fn fill_image(image: &mut [u8])
    requires { length image.old ≡ 512 }
    ensures { image.new ≡ register_image }
{
    steps(image.as_mut_array().unwrap(), STEPS);
}
