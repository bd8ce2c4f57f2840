// The log factors over the C interface: at the limits of SPECIFICATION 3.2 with native slices, and for comparison as
// bytes.
ghost use Rattle.refusal.specs.Listed.{log_factor_numbers, unsymmetric_numbers};
ghost use Rattle.slices.specs.Outcome.{outcome_is};
ghost use Rattle.matching.specs.Match.{match_of};
ghost use Rattle.factors_mc64.specs.Calls.{slices, UnsymmetricPromises};
ghost use Rattle.suontarvi.specs.Factors.{lent, FactorsPromises, FactorBytesPromises};
ghost use Rattle.byte_forms.specs.FactorBytes.{factor_bytes, log_factors_bytes, unsymmetric_bytes};

use byte_forms::factor_bytes;
use factors_mc64::Scaled;

// Symmetric: one log factor of each row and its column. Answers 0, and `unmatched` has the count of unmatched
// columns, or
// the number of the refusal.
#[unsafe(no_mangle)]
pub extern "C" fn suontarvi_log_factors(
    n: u32,
    matched: u32,
    perm: &[u32],
    u: &[f64],
    v: &[f64],
    cmax: &[f64],
    factors: &mut [f64],
    work: &mut [u32],
    unmatched: &mut [u32],
) -> u32
    ensures { let c = match_of perm.now u.now v.now cmax.now in
        let before = slices factors.old work.old in
        let after = slices factors.new work.new in
        let left = outcome_is result (lent after unmatched.new) in
        FactorsPromises n matched c before unmatched.old left }
{
    if unmatched.len() != 1 {
        return u32::from(sparse::layout::length_fault(n, 0, 0));
    }
    match factors_mc64::log_factors(n, matched, perm, u, v, cmax, factors, work) {
        Ok(Scaled::Applied) => {
            unmatched[0] = 0;
            refusal::ACCEPTED
        }
        Ok(Scaled::PartialSingular(count)) => {
            unmatched[0] = count;
            refusal::ACCEPTED
        }
        Err(refusal) => u32::from(refusal),
    }
}

// Unsymmetric: a log factor for each row and one for each column. Answers 0 or the number of the refusal.
#[unsafe(no_mangle)]
pub extern "C" fn suontarvi_unsymmetric_factors(
    n: u32,
    u: &[f64],
    v: &[f64],
    cmax: &[f64],
    row_factors: &mut [f64],
    column_factors: &mut [f64],
) -> u32
    ensures { UnsymmetricPromises n u.now v.now cmax.now
        row_factors.old column_factors.old result
        row_factors.new column_factors.new }
{
    refusal::answer(factors_mc64::unsymmetric_factors(n, u, v, cmax, row_factors, column_factors))
}

// The symmetric factors of a small match for comparison: wide slices as bytes, low byte first. Answers 0,
// or the number of the refusal with no byte changed.
#[unsafe(no_mangle)]
pub extern "C" fn suontarvi_log_factors_bytes(
    n: u32,
    matched: u32,
    perm: &[u8],
    u: &[u8],
    v: &[u8],
    cmax: &[u8],
    factors: &mut [u8],
    unmatched: &mut [u8],
) -> u32
    ensures { let does = log_factors_bytes n matched perm.now u.now v.now cmax.now
        factors.old unmatched.old in
        let left = outcome_is result (factor_bytes factors.new unmatched.new) in
        FactorBytesPromises log_factor_numbers does left }
{
    let others = (perm.len() == 4 * n as usize) & (unmatched.len() == 4);
    let sizes = factor_bytes::size_fault(n, u.len(), v.len(), cmax.len(), factors.len(), others);
    if let Err(refusal) = sizes {
        return u32::from(refusal);
    }
    refusal::answer(factor_bytes::read_factors(n, matched, perm, u, v, cmax, factors, unmatched))
}

// The same for the unsymmetric factors of a small match.
#[unsafe(no_mangle)]
pub extern "C" fn suontarvi_unsymmetric_factors_bytes(
    n: u32,
    u: &[u8],
    v: &[u8],
    cmax: &[u8],
    row_factors: &mut [u8],
    column_factors: &mut [u8],
) -> u32
    ensures { let does = unsymmetric_bytes n u.now v.now cmax.now
        row_factors.old column_factors.old in
        let left = outcome_is result (factor_bytes row_factors.new column_factors.new) in
        FactorBytesPromises unsymmetric_numbers does left }
{
    let others = column_factors.len() == 8 * n as usize;
    let sizes = factor_bytes::size_fault(
        n,
        u.len(),
        v.len(),
        cmax.len(),
        row_factors.len(),
        others,
    );
    if let Err(refusal) = sizes {
        return u32::from(refusal);
    }
    factor_bytes::read_sides(n, u, v, cmax, row_factors, column_factors);
    refusal::ACCEPTED
}
