// Small functions on doubles, each equal to its definition. The laws of doubles are in proofs/.
#![tactic(auto)]

ghost use Rattle.std.specs.Prelude.{◌≡◌, ◌*◌, ◌<◌};
ghost use Rattle.std.specs.Float.{binary64};
ghost use Rattle.std.specs.Float.Ieee.{of_bits};
ghost use Rattle.std.specs.Float.Ieee.Scale.{finite};
ghost use Rattle.float64.specs.Number.{magnitude, units_per_one};
ghost use Rattle.float64.specs.inner.Digits.{Scaling};
ghost use Rattle.float64.specs.Constants.{minus_infinity, quiet_nan};
ghost use Rattle.float64.specs.Functions.{absolute, size_of, clamp_log};

// The Rust's bound on a log factor.
pub const LOG_HUGE: f64 = 709.0;

// The library's infinity below zero.
pub fn minus_infinity() -> f64
    ensures { result ≡ minus_infinity }
{
    f64::NEG_INFINITY
}

// The NaN to store. As a constant it is compiled to 0x7FF8000000000000.
pub fn quiet_nan() -> f64
    ensures { result ≡ quiet_nan }
{
    f64::NAN
}

// x, with the one NaN that is stored in place of any other.
#[tactic(auto, using(crate::proofs::Functions::nan_is_quiet))]
pub fn canonical(x: f64) -> f64
    ensures { result ≡ x }
{
    if x.is_nan() { quiet_nan() } else { x }
}

// x or -x, whichever is not below 0.0. A zero keeps its sign, which saves a test.
#[tactic(auto, unfolding(crate::specs::Functions::size_of))]
pub fn size_of(x: f64) -> f64
    ensures { result ≡ size_of x }
{
    if x < 0.0 { -x } else { x }
}

// The library's `abs`, by the definition of the specs.
#[tactic(auto, using(crate::proofs::Functions::size_same))]
pub fn abs(x: f64) -> f64
    ensures { result ≡ absolute x }
{
    x.abs()
}

// Neither a NaN nor an infinity: the library's test, by the definition of the specs.
#[tactic(auto, using(crate::proofs::Functions::finite_same))]
pub fn is_finite(x: f64) -> bool
    ensures { result ≡ finite x }
{
    x.is_finite()
}

// x held to -709..709, as the Rust's `clamp` does; a NaN stays.
pub fn clamp_log(x: f64) -> f64
    ensures { result ≡ clamp_log x }
{
    x.clamp(-LOG_HUGE, LOG_HUGE)
}

// A double above zero as two integers, the first of 53 digits.
#[derive(Clone, Copy)]
pub struct Parts {
    pub significand: u64,
    pub exponent: u64,
}

// The digits of a finite double above zero, by its bits; those of a subnormal are shifted up to 53.
pub fn full_digits(bits: u64) -> Parts
    requires { (0 < bits) × (bits < 0x7ff0_0000_0000_0000) }
    ensures { Scaling (magnitude (of_bits binary64 bits) * units_per_one) result.significand result.exponent }
{
    if bits < 0x10_0000_0000_0000 {
        let up = (u64::leading_zeros(bits) - 11) as u64;
        return Parts {
            significand: bits << up,
            exponent: 1074 - up,
        };
    }
    Parts {
        significand: bits % 0x10_0000_0000_0000 + 0x10_0000_0000_0000,
        exponent: bits / 0x10_0000_0000_0000 + 1073,
    }
}
