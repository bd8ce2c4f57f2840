// Wide numbers as bytes, low byte first, and the square root in this form.
#![tactic(auto)]

ghost use Rattle.std.specs.Prelude.{◌≡◌, ℕ, ◌+◌, ◌*◌, ◌≤◌, map, length};
ghost use Rattle.std.proofs.lemmas.List.Edits.{sets};
ghost use Rattle.std.specs.Float.{binary64};
ghost use Rattle.std.specs.Float.Ieee.{of_bits, to_bits};
ghost use Rattle.refusal.specs.Listed.{OneOf, root_byte_numbers};
ghost use Rattle.refusal.specs.Number.{number_of};
ghost use Rattle.byte_numbers.specs.Root.{root_number, root_bytes, RootPromised};
ghost use Rattle.byte_numbers.specs.Bytes.{bytes_of, number_at, list_of, all_bytes};

use refusal::Refusal;

// The eight bytes of a number, low byte first, from `at` on.
pub fn put_u64(out: &mut [u8], at: usize, value: u64)
    requires { at + 8 ≤ length out.old }
    ensures { out.new ≡ sets out.old at (bytes_of 8 value) }
{
    out[at..at + 8].copy_from_slice(&value.to_le_bytes());
}

// The four bytes of a word, low byte first, from `at` on.
pub fn put_u32(out: &mut [u8], at: usize, word: u32)
    requires { at + 4 ≤ length out.old }
    ensures { out.new ≡ sets out.old at (bytes_of 4 word) }
{
    out[at..at + 4].copy_from_slice(&word.to_le_bytes());
}

// The word of the four bytes from `at` on.
pub fn get_u32(bytes: &[u8], at: usize) -> u32
    requires { at + 4 ≤ length bytes.now }
    ensures { result ≡ number_at 4 bytes.now at }
{
    let mut four = [0; 4];
    four.copy_from_slice(&bytes[at..at + 4]);
    u32::from_le_bytes(four)
}

// The number of the eight bytes from `at` on.
pub fn get_u64(bytes: &[u8], at: usize) -> u64
    requires { at + 8 ≤ length bytes.now }
    ensures { result ≡ number_at 8 bytes.now at }
{
    let mut eight = [0; 8];
    eight.copy_from_slice(&bytes[at..at + 8]);
    u64::from_le_bytes(eight)
}

// The double of a pattern of bits. Every pattern of a NaN gives the one NaN that is stored.
pub fn double_of(bits: u64) -> f64
    ensures { result ≡ of_bits binary64 bits }
{
    std::num::f64_from_bits_with_nan(bits)
}

// The bits of a double; 0x7FF8000000000000 for any NaN.
pub fn bits_of(x: f64) -> u64
    ensures { result ≡ to_bits binary64 x }
{
    std::num::f64_to_bits_with_nan(x)
}

// The double whose eight bytes stand from `at` on.
pub fn get_double(bytes: &[u8], at: usize) -> f64
    requires { at + 8 ≤ length bytes.now }
    ensures { result ≡ of_bits binary64 (number_at 8 bytes.now at) }
{
    double_of(get_u64(bytes, at))
}

// The eight bytes of a double, from `at` on.
pub fn put_double(out: &mut [u8], at: usize, x: f64)
    requires { at + 8 ≤ length out.old }
    ensures { out.new ≡ sets out.old at (bytes_of 8 (to_bits binary64 x)) }
{
    put_u64(out, at, bits_of(x));
}

// A value that stands in bytes as a number, low byte first.
pub trait Wide: Copy {
    // How many bytes it takes.
    const WIDTH: usize;

    ghost WIDTH: { ℕ };

    // The value that a number stands for, and the number of a value.
    ghost of_number: { ℕ → Self };

    ghost number: { Self → ℕ };

    // The value whose bytes stand from `at` on.
    fn get(bytes: &[u8], at: usize) -> Self
        requires { at + WIDTH ≤ length bytes.now }
        ensures { result ≡ of_number (number_at WIDTH bytes.now at) };

    // The bytes of the value, from `at` on.
    fn put(self, out: &mut [u8], at: usize)
        requires { at + WIDTH ≤ length out.old }
        ensures { out.new ≡ sets out.old at (bytes_of WIDTH (number self)) };
}

impl Wide for u32 {
    const WIDTH: usize = 4;

    ghost WIDTH = { 4 };

    ghost of_number = { λ word. word };

    ghost number = { λ word. word };

    fn get(bytes: &[u8], at: usize) -> u32 {
        get_u32(bytes, at)
    }

    fn put(self, out: &mut [u8], at: usize) {
        put_u32(out, at, self);
    }
}

impl Wide for u64 {
    const WIDTH: usize = 8;

    ghost WIDTH = { 8 };

    ghost of_number = { λ value. value };

    ghost number = { λ value. value };

    fn get(bytes: &[u8], at: usize) -> u64 {
        get_u64(bytes, at)
    }

    fn put(self, out: &mut [u8], at: usize) {
        put_u64(out, at, self);
    }
}

impl Wide for f64 {
    const WIDTH: usize = 8;

    ghost WIDTH = { 8 };

    ghost of_number = { of_bits binary64 };

    ghost number = { to_bits binary64 };

    fn get(bytes: &[u8], at: usize) -> f64 {
        get_double(bytes, at)
    }

    fn put(self, out: &mut [u8], at: usize) {
        put_double(out, at, self);
    }
}

// Every value of the bytes.
pub fn read_all<T: Wide>(bytes: &[u8], out: &mut [T])
    requires { length bytes.now ≡ T.WIDTH * length out.old }
    ensures { out.new ≡ list_of (length out.old) (λ (i : ℕ). T.of_number (number_at T.WIDTH bytes.now (T.WIDTH * i))) }
{
    for i in 0..out.len() {
        out[i] = T::get(bytes, T::WIDTH * i);
    }
}

// The bytes of a list of values, one after the other.
pub fn put_all<T: Wide>(values: &[T], out: &mut [u8])
    requires { length out.old ≡ T.WIDTH * length values.now }
    ensures { out.new ≡ all_bytes T.WIDTH (map T.number values.now) }
{
    for (i, value) in values.iter().enumerate() {
        value.put(out, T::WIDTH * i);
    }
}

// The square root of x into 8 bytes. A refused call leaves the bytes as they are.
pub fn sqrt(x: f64, root: &mut [u8]) -> Result<(), Refusal>
    ensures fault { number_of result ≡ root_number x root.old }
    ensures bytes { root.new ≡ root_bytes x root.old }
    ensures ieee { RootPromised x root.old (number_of result) root.new }
    ensures number { OneOf root_byte_numbers (number_of result) }
{
    if root.len() != 8 {
        return Err(Refusal::SliceLength);
    }
    let y = square_root::sqrt(x)?;
    put_double(root, 0, y);
    Ok(())
}
