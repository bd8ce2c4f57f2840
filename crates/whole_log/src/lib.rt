// The base-two logarithm of a double in units of 1/65,536, by integers only (specs/Log.antt). The 32 leading digits are
// squared sixteen times; each square gives one binary digit and is cut to 32 digits again.
#![tactic(auto)]

ghost use Rattle.std.specs.Prelude.{◌≡◌, ◌*◌, ◌^◌, ◌≤◌, ◌<◌};
ghost use Rattle.std.specs.Float.{binary64};
ghost use Rattle.std.specs.Float.Ieee.{of_bits};
ghost use Rattle.refusal.specs.Listed.{OneOf, log_numbers};
ghost use Rattle.refusal.specs.Number.{number_of, numbered};
ghost use Rattle.float64.specs.Number.{magnitude};
ghost use Rattle.whole_log.specs.Log.{log_fault, whole_log, Answer};
ghost use Rattle.whole_log.specs.Log.{log_of, log_from, from_units};
ghost use Rattle.whole_log.specs.Stored.{Promises};

use refusal::Refusal;

// How many binary digits of a logarithm stand behind the point.
pub const DIGITS: u32 = 16;

// The logarithm of the magnitude of x; zeros, NaNs and infinities are refused.
pub fn whole_log(x: f64) -> Result<i32, Refusal>
    ensures log { numbered result ≡ whole_log x }
    ensures fault { number_of result ≡ log_fault x }
    ensures bounds { Answer x (numbered result) }
    ensures number { OneOf log_numbers (number_of result) }
{
    if float64::is_finite(x) {
        let bits = f64::to_bits(x) % 0x8000_0000_0000_0000;
        if bits > 0 {
            return Ok(from_units(units_log(bits)));
        }
    }
    Err(Refusal::ValueNotFinite)
}

// The logarithm of x into a slice of one number. A refused call leaves the slice as it is.
pub fn store_log(x: f64, p: &mut [i32]) -> Result<(), Refusal>
    ensures { Promises x p.old (number_of result) p.new }
{
    if p.len() != 1 {
        return Err(Refusal::SliceLength);
    }
    p[0] = whole_log(x)?;
    Ok(())
}

// The logarithm of a size in units of 2 ^ -1074 as that of the number itself.
pub fn from_units(log: u64) -> i32
    requires { log < 2098 * 65536 }
    ensures { result ≡ from_units log }
{
    log as i32 - 70385664
}

// The logarithm of the size in units of a finite double above zero, by its bits.
fn units_log(bits: u64) -> u64
    requires { (0 < bits) × (bits < 0x7ff0_0000_0000_0000) }
    ensures { (result ≡ log_of (magnitude (of_bits binary64 bits))) × (result < 2098 * 65536) }
{
    let x = float64::full_digits(bits);
    log_from((x.significand >> 21) as u32, x.exponent - 1022)
}

// Sixteen more digits of a logarithm that begins with e, from the 32 leading digits of the number.
fn log_from(leading: u32, known: u64) -> u64
    requires { (2 ^ 31 ≤ leading) × (known < 2098) }
    ensures { (result ≡ log_from 16 leading known) × (result < 2098 * 65536) }
{
    let mut m = leading;
    let mut e = known;
    for _ in 0..DIGITS {
        let s = square(m);
        let digit = s >> 63;
        m = (s >> (31 + digit)) as u32;
        e = e + e + digit;
    }
    e
}

// m times m, by three products of its halves.
pub fn square(m: u32) -> u64
    ensures { result ≡ m * m }
{
    let high = (m >> 16) as u16;
    let low = (m % 0x1_0000) as u16;
    let upper = product(high, high) as u64;
    let middle = product(high, low) as u64;
    let lower = product(low, low) as u64;
    (upper << 32) + (middle << 17) + lower
}

// a times b: the only product of every logarithm, whose factors are below 65,536 by their types.
pub fn product(a: u16, b: u16) -> u32
    ensures { result ≡ a * b }
{
    a as u32 * b as u32
}
