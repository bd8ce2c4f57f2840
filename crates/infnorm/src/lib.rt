// Inf-norm factors of a symmetric matrix, iterated and one-pass: the two calls and their tests.
#![tactic(auto)]

ghost use Rattle.std.specs.Prelude.{◌≡◌, ◌^◌, ◌<◌};
ghost use Rattle.sparse.specs.Matrix.{matrix};
ghost use Rattle.refusal.specs.Number.{number_of};
ghost use Rattle.infnorm.specs.Call.{lengths_fit, input_fault, InfnormPromises, OnepassPromises};

use refusal::Refusal;
use sparse::{csc, layout};

// Whether the matrix and the factors have their lengths.
pub fn lengths_fit(
    n: usize,
    col_ptr: &[u32],
    row_idx: &[u32],
    values: &[f64],
    factors: &[f64],
) -> bool
    requires { n < 2 ^ 32 }
    ensures { result
        ≡ lengths_fit (matrix n col_ptr.now row_idx.now values.now)
        factors.now }
{
    (col_ptr.len() == n + 1) & ((values.len() == row_idx.len()) & (factors.len() == n))
}

// Refuses the first thing wrong; `lengths` says whether every slice has its length.
pub fn input_fault(
    n: u32,
    col_ptr: &[u32],
    row_idx: &[u32],
    values: &[f64],
    lengths: bool,
) -> Result<(), Refusal>
    ensures { number_of result
        ≡ input_fault (matrix n col_ptr.now row_idx.now values.now) lengths }
{
    layout::size_fault(n, limits::MAX_SYMMETRIC, row_idx.len(), lengths)?;
    csc::validate(n, col_ptr, row_idx, values)
}

// Iterated: factors that bring the largest entry of each row near 1, or the first thing wrong.
pub fn compute_infnorm(
    n: u32,
    col_ptr: &[u32],
    row_idx: &[u32],
    values: &[f64],
    factors: &mut [f64],
    work: &mut [f64],
) -> Result<(), Refusal>
    ensures { let m = matrix n col_ptr.now row_idx.now values.now in
        InfnormPromises m factors.old work.old (number_of result) factors.new work.new }
{
    let size = n as usize;
    let lengths = lengths_fit(size, col_ptr, row_idx, values, factors);
    input_fault(n, col_ptr, row_idx, values, lengths & (work.len() == size))?;
    slices::fill(factors, 1.0);
    infnorm_rounds::iterate(size, col_ptr, row_idx, values, factors, work);
    slices::fill(work, 0.0);
    Ok(())
}

// One-pass: 1 over the root of the largest entry of each row, or the first thing wrong.
pub fn compute_onepass(
    n: u32,
    col_ptr: &[u32],
    row_idx: &[u32],
    values: &[f64],
    factors: &mut [f64],
) -> Result<(), Refusal>
    ensures { let m = matrix n col_ptr.now row_idx.now values.now in
        OnepassPromises m factors.old (number_of result) factors.new }
{
    let size = n as usize;
    let lengths = lengths_fit(size, col_ptr, row_idx, values, factors);
    input_fault(n, col_ptr, row_idx, values, lengths)?;
    infnorm_maxima::value_maxima(size, col_ptr, row_idx, values, factors);
    infnorm_blocks::scale_rows(factors);
    Ok(())
}
