// The square root of a double, rounded once, to nearest, as IEEE 754 has it (specs/Root.antt).
// No integer is wide enough for the square of a result, so the root of a significand is found in two
// halves. A guess in floating point, of which nothing is proved, is walked to the exact whole root of
// the upper half; one division then gives the lower half.
// The library's `sqrt` is the machine's operation, whose contract is taken on trust; this root is proved.
#![tactic(auto)]

ghost use Rattle.std.specs.Prelude.{◌≡◌, ◌*◌, ◌^◌, ◌≤◌, ◌<◌};
ghost use Rattle.std.specs.Float.{binary64};
ghost use Rattle.std.specs.Float.Ieee.{of_bits};
ghost use Rattle.refusal.specs.Listed.{OneOf, root_numbers};
ghost use Rattle.refusal.specs.Number.{number_of, numbered};
ghost use Rattle.square_root.specs.Root.{Answer, root_fault, sqrt_of, root_of, square};
ghost use Rattle.square_root.specs.inner.Steps.{WholeRoot};

use refusal::Refusal;

// The root of x; a NaN and a number below zero are refused. Either zero is its own root, and so is
// infinity.
pub fn sqrt(x: f64) -> Result<f64, Refusal>
    ensures root { numbered result ≡ sqrt_of x }
    ensures fault { number_of result ≡ root_fault x }
    ensures ieee { Answer x (numbered result) }
    ensures number { OneOf root_numbers (number_of result) }
{
    if x > 0.0 {
        let bits = f64::to_bits(x);
        if bits < 0x7ff0_0000_0000_0000 {
            return Ok(positive_root(bits));
        }
        return Ok(x);
    }
    if x == 0.0 {
        return Ok(x);
    }
    Err(Refusal::NoRoot)
}

// The root of a finite double above zero, by its bits. The whole root of 2 ^ 54 significands has one
// digit more than a double, and half of it, rounded up, is the result's significand.
fn positive_root(bits: u64) -> f64
    requires { (0 < bits) × (bits < 0x7ff0_0000_0000_0000) }
    ensures { result ≡ root_of (square (of_bits binary64 bits)) }
{
    let x = float64::full_digits(bits);
    let m = x.significand;
    let h = x.exponent;
    let odd = h % 2;
    let n = m << odd;
    let q = whole_root(n, m + (1022 + odd) * 0x10_0000_0000_0000);
    f64::from_bits((h - 52) / 2 * 0x10_0000_0000_0000 + (q + 1) / 2)
}

// The whole root of n * 2 ^ 54; the double from 1 to 4 that has these bits is n / 2 ^ 52; only the guess depends on it.
// Near a power of 4 the root lies on a straight line and needs no search.
fn whole_root(n: u64, bits: u64) -> u64
    requires bound { (2 ^ 52 ≤ n) × (n < 2 ^ 54) }
    requires bits_bound { bits < 0x4010_0000_0000_0000 }
    ensures { WholeRoot (n * 2 ^ 54) result }
{
    if n == 0x10_0000_0000_0000 {
        return 0x20_0000_0000_0000;
    }
    if n <= 0x10_0000_0800_0000 {
        return n + 0xf_ffff_ffff_ffff;
    }
    if n >= 0x3f_ffff_f800_0000 {
        return 0x3f_ffff_ffff_ffff - (0x40_0000_0000_0000 - n) / 2;
    }
    extended(n, raised(n, lowered(n, guess_root(bits))))
}

// A guess at 2 ^ 26 times the root of the double from 1 to 4 that has these bits: a first guess at
// 1 / root from half of the bits, two of Newton's steps on it and a last one on the root itself. It
// was one off at most wherever it was tried; only its size is proved.
fn guess_root(bits: u64) -> u64
    requires { bits < 0x4010_0000_0000_0000 }
    ensures { result < 2 ^ 27 }
{
    let x = f64::from_bits(bits);
    let half = x * 0.5;
    let first = f64::from_bits(0x5fe6_eb50_c7b5_37a9 - bits / 2);
    let second = nearer(first, first, half);
    let third = nearer(second, second, half);
    let root = nearer(x * 67108864.0 * third, third, half);
    // the lowest digits of a whole number plus 2 ^ 52 are its own; a half less, and the sum rounds down
    let shown = root + 4503599627370495.5;
    if shown < 4503599761588224.0 {
        return f64::to_bits(shown) % 0x800_0000;
    }
    0x7ff_ffff
}

// Newton's step for the root of 2 * half: inverse is near to 1 / root, and the same factor brings
// any multiple of it nearer.
fn nearer(multiple: f64, inverse: f64, half: f64) -> f64 {
    multiple * (1.5 - half * inverse * inverse)
}

// From a guess down to a number whose square is at most n.
fn lowered(n: u64, guess: u64) -> u64
    requires { guess < 2 ^ 27 }
    ensures { (result * result ≤ n) × (result < 2 ^ 27) }
{
    let mut s = guess;
    while n < s * s {
        s -= 1;
    }
    s
}

// From a number whose square is at most n up to the whole root of n.
fn raised(n: u64, from: u64) -> u64
    requires { (n < 2 ^ 54) × (from * from ≤ n) × (from < 2 ^ 27) }
    ensures { WholeRoot n result }
{
    let mut s = from;
    while 2 * s < n - s * s {
        s += 1;
    }
    s
}

// The whole root of n * 2 ^ 54 from the whole root s of n (Zimmermann, Karatsuba Square Root): the rest of n, divided
// by 2 * s, gives the 27 digits that follow, or one more.
fn extended(n: u64, s: u64) -> u64
    requires { (2 ^ 52 ≤ n) × (n < 2 ^ 54) × WholeRoot n s }
    ensures { WholeRoot (n * 2 ^ 54) result }
{
    let rest = (n - s * s) * 0x400_0000;
    let q = rest / s;
    let root = s * 0x800_0000 + q;
    if rest % s * 0x1000_0000 < q * q {
        return root - 1;
    }
    root
}
