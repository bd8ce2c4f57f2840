// The log factors of a small match given as bytes: sizes are tested, then each factor is made from the bytes of its
// doubles and laid down as bytes.
ghost use Rattle.std.specs.Prelude.{◌≡◌, ◌*◌, length};
ghost use Rattle.refusal.specs.Number.{number_of};
ghost use Rattle.refusal.specs.Refusal.{accepted};
ghost use Rattle.slices.specs.Outcome.{outcome_is};
ghost use Rattle.matching.specs.Match.{match_of};
ghost use Rattle.factors_mc64.specs.Factors.{symmetric_factors};
ghost use Rattle.factors_mc64.specs.inner.Steps.{Marked};
ghost use Rattle.byte_numbers.specs.Bytes.{doubles, double_bytes};
ghost use Rattle.byte_forms.specs.FactorBytes.{factor_bytes, factor_sizes, cache_read, sides_laid};
ghost use Rattle.byte_forms.specs.inner.Steps.{cache_result, Duals};

use crate::match_bytes::{COLUMNS, MAX_COLUMNS};
use limits::NONE;
use refusal::Refusal;

// Refusals 1 and 3. `others` says whether the other slices have their lengths; all but it and n are lengths.
#[tactic(auto, unfolding(crate::specs::FactorBytes::factor_sizes))]
pub fn size_fault(
    n: u32,
    u: usize,
    v: usize,
    cmax: usize,
    factors: usize,
    others: bool,
) -> Result<(), Refusal>
    ensures { number_of result ≡ factor_sizes n u v cmax factors others }
{
    if n > MAX_COLUMNS {
        return Err(Refusal::TooManyColumns);
    }
    let doubles = 8 * n as usize;
    let results = (factors == doubles) & others;
    if (u == doubles) & ((v == doubles) & ((cmax == doubles) & results)) {
        Ok(())
    } else {
        Err(Refusal::SliceLength)
    }
}

// The factors of rows and columns of the doubles that the bytes stand for.
pub fn read_sides(
    n: u32,
    u: &[u8],
    v: &[u8],
    cmax: &[u8],
    row_factors: &mut [u8],
    column_factors: &mut [u8],
)
    requires duals { Duals n (8 * n) u.now v.now cmax.now }
    requires row_factors_len { (length row_factors.old ≡ 8 * n) × (length column_factors.old ≡ 8 * n) }
    ensures { outcome_is accepted (factor_bytes row_factors.new column_factors.new)
        ≡ sides_laid n (doubles u.now n) (doubles v.now n) (doubles cmax.now n) }
{
    let size = n as usize;
    for i in 0..size {
        let at = 8 * i;
        let row = byte_numbers::get_double(u, at);
        let column = byte_numbers::get_double(v, at) - byte_numbers::get_double(cmax, at);
        byte_numbers::put_double(row_factors, at, factors_mc64::hold(row));
        byte_numbers::put_double(column_factors, at, factors_mc64::hold(column));
    }
}

// The factors of a match, from the marks of the matched rows.
fn put_factors(
    n: usize,
    perm: &[u32],
    marks: &[u32],
    u: &[u8],
    v: &[u8],
    cmax: &[u8],
    factors: &mut [u8],
)
    requires duals { Duals n (8 * n) u.now v.now cmax.now }
    requires perm_len { (length perm.now ≡ n) × (length factors.old ≡ 8 * n) }
    requires marked { Marked n perm.now n marks.now }
    ensures { let m = match_of perm.now (doubles u.now n) (doubles v.now n)
        (doubles cmax.now n) in
        factors.new ≡ double_bytes (symmetric_factors n m) }
{
    for i in 0..n {
        let at = 8 * i;
        let both = (perm[i] != NONE) & (marks[i] == 1);
        let row = byte_numbers::get_double(u, at);
        let column = byte_numbers::get_double(v, at);
        let largest = byte_numbers::get_double(cmax, at);
        let factor = factors_mc64::log_factor(both, row, column, largest);
        byte_numbers::put_double(factors, at, factor);
    }
}

// The factors of the match that the bytes stand for.
pub fn read_factors(
    n: u32,
    matched: u32,
    perm: &[u8],
    u: &[u8],
    v: &[u8],
    cmax: &[u8],
    factors: &mut [u8],
    unmatched: &mut [u8],
) -> Result<(), Refusal>
    requires duals { Duals n (8 * n) u.now v.now cmax.now }
    requires perm_len { length perm.now ≡ 4 * n }
    requires factors_len { (length factors.old ≡ 8 * n) × (length unmatched.old ≡ 4) }
    ensures { outcome_is (number_of result) (factor_bytes factors.new unmatched.new)
        ≡ cache_result n matched (cache_read n perm.now u.now v.now cmax.now)
        factors.old unmatched.old }
{
    let size = n as usize;
    let mut rows_of = [0u32; COLUMNS];
    byte_numbers::read_all(perm, &mut rows_of[..size]);
    factors_mc64::matching_fault(n, matched, &rows_of[..size])?;
    let mut marks = [0u32; COLUMNS];
    factors_mc64::mark_rows(size, &rows_of[..size], &mut marks[..size]);
    put_factors(size, &rows_of[..size], &marks[..size], u, v, cmax, factors);
    byte_numbers::put_u32(unmatched, 0, n - matched);
    Ok(())
}
