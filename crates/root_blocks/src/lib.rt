// Square roots in blocks of sixteen: candidates in floating point, of which nothing is proved, and one exact check of
// each in integers. Loops of constant length over local arrays, without a branch, let the compiler take several numbers
// at a time. A block with a candidate that is not the root is done again, number by number.
#![tactic(auto)]

ghost use Rattle.std.specs.Prelude.{◌≡◌, ◌+◌, ◌*◌, ◌/◌, ◌%◌, ◌^◌, ◌<◌, ◌≤◌, not, T, length, from_bits, is_nan};
ghost use Rattle.std.specs.Float.{binary64};
ghost use Rattle.std.specs.Float.Ieee.{nan_bits};
ghost use Rattle.square_root.specs.Root.{value_of, sqrt_of};
ghost use Rattle.root_blocks.specs.inner.Blocks.{BitsOf, under_root, root_bits, root_by, RootDigits};
ghost use Rattle.root_blocks.specs.inner.Blocks.{Taken, NoNans, RootsBy, Roots};

pub const BLOCK: usize = 16;

// The distance of two numbers with the same digits and exponents that differ by one.
const ONE_UP: u64 = 0x10_0000_0000_0000;

// The bits of 1.0.
const ONE: u64 = 0x3ff0_0000_0000_0000;

// The bits of a number above zero; of any other those of 1.0, whose root is never asked for.
fn bits_above_zero(x: f64) -> u64
    ensures { BitsOf x result }
{
    if x > 0.0 {
        return f64::to_bits(x);
    }
    ONE
}

// The bits of a block of numbers.
fn take_bits(numbers: &[f64], from: usize, bits: &mut [u64])
    requires { (from + 16 ≤ length numbers.now) × (length bits.old ≡ 16) }
    ensures { Taken numbers.now from bits.new 16 }
{
    for i in 0..BLOCK {
        bits[i] = bits_above_zero(numbers[from + i]);
    }
}

// The digits of a double by its bits, and whether its exponent is even: the double from 1 to 4 whose root has the same
// digits is these more than 1.0.
fn above_one(bits: u64) -> u64
    ensures { result ≡ (bits % 2 ^ 53 + 2 ^ 52) % 2 ^ 53 }
{
    (bits % 0x20_0000_0000_0000 + ONE_UP) % 0x20_0000_0000_0000
}

// The double from 1 to 4 whose root has the same digits.
fn from_one_to_four(bits: u64) -> f64 {
    f64::from_bits(ONE + above_one(bits))
}

// A first guess at 1 / root.
fn first_inverse(bits: u64) -> f64 {
    f64::from_bits(0x5fe6_eb50_c7b5_37a9 - (ONE + above_one(bits)) / 2)
}

// Near 1 / root, by two of Newton's steps, each with constants that halve its largest error.
fn inverse(bits: u64) -> f64 {
    let y = from_one_to_four(bits);
    let first = first_inverse(bits);
    let second = first * (1.50131445 - 0.50043815 * y * (first * first));
    second * (1.5000008625 - 0.5000002875 * y * (second * second))
}

// Near 1 / root of each of a block.
fn guess_inverses(bits: &[u64], inverses: &mut [f64])
    requires { (length bits.now ≡ 16) × (length inverses.old ≡ 16) }
{
    for i in 0..BLOCK {
        inverses[i] = inverse(bits[i]);
    }
}

// The root of y from 1 / root: near first, then the upper half of its digits and what y has over their square, divided
// by nearly twice the root. A little is taken off, since a root near 1 or 2 lies just below the middle of two doubles.
fn candidate(y: f64, inverse: f64) -> f64 {
    let rough = y * inverse;
    let near = rough + rough * (0.5 - rough * (inverse * 0.5));
    let upper = near + 134217728.0 - 134217728.0;
    upper + (y - upper * upper - 5e-22) / (upper + near)
}

// The largest double below 2.0, which is above no root.
const UNDER_TWO: f64 = 1.9999999999999998;

// A candidate, or the largest root in place of one that is larger or no number.
fn clipped(c: f64) -> f64
    ensures { T (not (is_nan result)) }
{
    if c < UNDER_TWO { c } else { UNDER_TWO }
}

// Candidates for the roots of a block.
fn guess_roots(bits: &[u64], inverses: &[f64], candidates: &mut [u64])
    requires bits_len { length bits.now ≡ 16 }
    requires inverses_len { (length inverses.now ≡ 16) × (length candidates.old ≡ 16) }
{
    for i in 0..BLOCK {
        candidates[i] = f64::to_bits(clipped(candidate(from_one_to_four(bits[i]), inverses[i])));
    }
}

// The whole number whose root has the digits of the root of the double with these bits, 52 of them behind the point.
fn under_root(bits: u64) -> u64
    ensures { (result ≡ under_root bits) × (result < 2 ^ 54) }
{
    let v = above_one(bits);
    if v < ONE_UP { v + ONE_UP } else { 2 * v }
}

// 0 only where the double with these bits is normal and its root has the digits p: with q = 2 * p - 1 = a * 2 ^ 27 + b,
// where n * 2 ^ 54 lies from the square of q to below that of q + 2. What is below zero or too large counts.
fn excess(bits: u64, p: u64) -> u64
    requires { (2 ^ 52 ≤ p) × (p < 2 ^ 53) }
    ensures { (result < 2 ^ 36) × RootDigits bits p result }
{
    let q = 2 * p - 1;
    let a = q / 0x800_0000;
    let b = q % 0x800_0000;
    let n = under_root(bits);
    let over = n.wrapping_sub(a * a);
    let t = (over << 26).wrapping_sub(a * b);
    let d = (t << 28).wrapping_sub(b * b);
    let left = (4 * q + 3).wrapping_sub(d);
    far(over, t) + wide(d, left) + not_normal(bits / ONE_UP)
}

// 0 only where both are below 2 ^ 30.
fn far(over: u64, t: u64) -> u64
    ensures { (result < 2 ^ 35) × (result ≡ 0 → (over < 2 ^ 30) × (t < 2 ^ 30)) }
{
    over / 0x4000_0000 + t / 0x4000_0000
}

// 0 only where both are below 2 ^ 58.
fn wide(d: u64, left: u64) -> u64
    ensures { (result < 2 ^ 7) × (result ≡ 0 → (d < 2 ^ 58) × (left < 2 ^ 58)) }
{
    d / 0x400_0000_0000_0000 + left / 0x400_0000_0000_0000
}

// 0 only for the exponent of a normal double above zero, as its bits have it.
fn not_normal(e: u64) -> u64
    requires { e < 4096 }
    ensures { (result < 4) × (result ≡ 0 → (0 < e) × (e < 2047)) }
{
    1 - (e + 4095) / 4096 + (e + 1) / 2048
}

// The double that has the digits p and half of the exponent of these bits.
fn root_with(bits: u64, p: u64) -> f64
    requires { (2 ^ 52 ≤ p) × (p < 2 ^ 53) }
    ensures { result ≡ from_bits binary64 (root_bits bits p) }
{
    f64::from_bits((bits / ONE_UP % 2048 + 1021) / 2 * ONE_UP + p)
}

// The roots of a block by their candidates: 0 only if each is the root.
fn check_roots(bits: &[u64], candidates: &[u64], roots: &mut [f64]) -> u64
    requires bits_len { length bits.now ≡ 16 }
    requires candidates_len { (length candidates.now ≡ 16) × (length roots.old ≡ 16) }
    ensures { result ≡ 0 → RootsBy bits.now roots.new 16 }
{
    let mut bad = 0;
    for i in 0..BLOCK {
        let p = candidates[i] % ONE_UP + ONE_UP;
        bad += excess(bits[i], p);
        roots[i] = root_with(bits[i], p);
    }
    bad
}

// 0 only if each of a block is near a power of 4, where `sqrt` has its root without a search.
fn off_line(bits: &[u64]) -> u64
    requires { length bits.now ≡ 16 }
{
    let mut off = 0;
    for b in bits {
        off += (above_one(*b) + 0x400_0000) % 0x20_0000_0000_0000 / 0x800_0000;
    }
    off
}

// The roots of a block, if the answer is 0.
fn try_block(bits: &[u64], roots: &mut [f64]) -> u64
    requires { (length bits.now ≡ 16) × (length roots.old ≡ 16) }
    ensures { result ≡ 0 → RootsBy bits.now roots.new 16 }
{
    if off_line(bits) == 0 {
        return 1;
    }
    let mut inverses = [0.0; BLOCK];
    let mut candidates = [0u64; BLOCK];
    guess_inverses(bits, &mut inverses);
    guess_roots(bits, &inverses, &mut candidates);
    check_roots(bits, &candidates, roots)
}

// The root of a number; a NaN where there is none.
pub fn root(x: f64) -> f64
    ensures { result ≡ value_of (sqrt_of x) }
{
    square_root::sqrt(x).unwrap_or(float64::quiet_nan())
}

// The root of the number with these bits: `y`, the root of the number before, if that one has the same bits.
fn next_root(bits: u64, last: u64, y: f64) -> f64
    requires { T (not (nan_bits binary64 bits)) × (y ≡ root_by last) }
    ensures { result ≡ root_by bits }
{
    if bits == last {
        y
    } else {
        root(f64::from_bits(bits))
    }
}

// The roots of a block, one after the other.
fn one_by_one(bits: &[u64], roots: &mut [f64])
    requires { (length bits.now ≡ 16) × (length roots.old ≡ 16) × NoNans bits.now }
    ensures { RootsBy bits.now roots.new 16 }
{
    let mut last = ONE;
    let mut y = 1.0;
    for i in 0..BLOCK {
        y = next_root(bits[i], last, y);
        last = bits[i];
        roots[i] = y;
    }
}

// The roots of those of sixteen numbers that are above zero.
pub fn roots_of(numbers: &[f64], from: usize, roots: &mut [f64])
    requires { (from + 16 ≤ length numbers.now) × (length roots.old ≡ 16) }
    ensures { Roots numbers.now from roots.new 16 }
{
    let mut bits = [0u64; BLOCK];
    take_bits(numbers, from, &mut bits);
    if try_block(&bits, roots) != 0 {
        one_by_one(&bits, roots);
    }
}
