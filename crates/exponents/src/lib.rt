// The exponents of a match's factors under the whole-number profile: rows from u, columns from v - cmax, each divided
// by 65,536 and rounded down.
#![tactic(auto)]

ghost use Rattle.std.specs.Prelude.{◌≡◌, ◌<◌, ℕ, List, Float, map, length};
ghost use Rattle.refusal.specs.Number.{number_of};
ghost use Rattle.exponents.specs.Exponent.{exponent_of};
ghost use Rattle.exponents.specs.Call.{duals, factors_fault, Promises};
ghost use Rattle.exponents.specs.inner.Steps.{Exponent, Gives};

use refusal::Refusal;

// 3 * 2^51. Doubles around it are whole and 1 apart, and their bits count them.
const MIDDLE: f64 = 6755399441055744.0;

// MIDDLE - 2^43, also by its bits, and MIDDLE + 2^43.
const LEAST: f64 = 6746603348033536.0;

const LEAST_BITS: u64 = 0x4337_f800_0000_0000;

const MOST: f64 = 6764195534077952.0;

// The exponent of a factor that has none: beyond the limit.
const NO_EXPONENT: i32 = 134217728;

// The exponent of a factor. A factor up to 2^43 in size is whole exactly if adding MIDDLE rounds nothing away.
fn exponent_of(factor: f64) -> i32
    ensures { Exponent factor result }
{
    let moved = factor + MIDDLE;
    if !((LEAST <= moved) & (moved <= MOST)) {
        return NO_EXPONENT;
    }
    if moved - MIDDLE != factor {
        return NO_EXPONENT;
    }
    let raised = f64::to_bits(moved) - LEAST_BITS;
    (raised >> 16) as i32 - 134217728
}

// Refuses a factor that is not whole or whose exponent is beyond the limit with 43; `factor` has those of `n` places.
fn factors_fault<F: Fn(usize) -> f64>(n: usize, factor: &F) -> Result<(), Refusal>
    requires { (i : ℕ) → i < n → F.pre factor.now i }
    ensures { (l : List Float) → length l ≡ n → Gives (F.post factor.now) l
        → number_of result ≡ factors_fault l }
{
    for i in 0..n {
        if !exponents_powers::within_limit(exponent_of(factor(i))) {
            return Err(Refusal::ExponentRange);
        }
    }
    Ok(())
}

// The exponents of the factors.
fn write_exponents<F: Fn(usize) -> f64>(factor: &F, exponents: &mut [i32])
    requires { (i : ℕ) → i < length exponents.old → F.pre factor.now i }
    ensures { (l : List Float) → length l ≡ length exponents.old → Gives (F.post factor.now) l
        → factors_fault l ≡ 0 → exponents.new ≡ map exponent_of l }
{
    for i in 0..exponents.len() {
        exponents[i] = exponent_of(factor(i));
    }
}

// The exponents of the factors of a match, or the first thing wrong.
pub fn exponents(
    n: u32,
    u: &[f64],
    v: &[f64],
    cmax: &[f64],
    row_exponents: &mut [i32],
    column_exponents: &mut [i32],
) -> Result<(), Refusal>
    ensures { let d = duals u.now v.now cmax.now in
        Promises n d row_exponents.old column_exponents.old (number_of result)
        row_exponents.new column_exponents.new }
{
    let size = n as usize;
    let lengths = (u.len() == size)
        & ((v.len() == size)
            & ((cmax.len() == size)
                & ((row_exponents.len() == size) & (column_exponents.len() == size))));
    sparse::layout::size_fault(n, 0, 0, lengths)?;
    let row = |i: usize| u[i];
    let column = |j: usize| v[j] - cmax[j];
    factors_fault(size, &row)?;
    factors_fault(size, &column)?;
    write_exponents(&row, row_exponents);
    write_exponents(&column, column_exponents);
    Ok(())
}
