// Identity factors: the matrix is tested, and every factor is 1.0.
#![tactic(auto)]

ghost use Rattle.std.specs.Prelude.{◌≡◌};
ghost use Rattle.refusal.specs.Number.{number_of};
ghost use Rattle.slices.specs.Outcome.{outcome_is};
ghost use Rattle.sparse.specs.Matrix.{matrix};
ghost use Rattle.factors_identity.specs.Identity.{identity_factors};

use refusal::Refusal;

// Factors of 1.0, or the first thing wrong.
pub fn identity_factors(
    n: u32,
    col_ptr: &[u32],
    row_idx: &[u32],
    values: &[f64],
    factors: &mut [f64],
) -> Result<(), Refusal>
    ensures { let m = matrix n col_ptr.now row_idx.now values.now in
        outcome_is (number_of result) factors.new ≡ identity_factors m factors.old }
{
    let lengths = infnorm::lengths_fit(n as usize, col_ptr, row_idx, values, factors);
    infnorm::input_fault(n, col_ptr, row_idx, values, lengths)?;
    slices::fill(factors, 1.0);
    Ok(())
}
