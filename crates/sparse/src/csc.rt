// A symmetric matrix, stored as its lower triangle.
ghost use Rattle.std.specs.Prelude.{◌≡◌, true, ◌+◌, ◌≤◌, length};
ghost use Rattle.refusal.specs.Listed.{OneOf, symmetric_numbers, symmetric_triplet_numbers};
ghost use Rattle.refusal.specs.Number.{number_of, numbered};
ghost use Rattle.slices.specs.Outcome.{outcome_is};
ghost use Rattle.sparse.specs.Matrix.{matrix};
ghost use Rattle.sparse.specs.Validate.{lower_column, rising_column, symmetric_column, symmetric_columns};
ghost use Rattle.sparse.specs.Validate.{symmetric_fault};
ghost use Rattle.sparse.specs.Columns.{Pointers};
ghost use Rattle.triplets.specs.Built.{triplets, slices, kept_count};
ghost use Rattle.sparse.specs.Assemble.{AnswersBy, symmetric_triplet_fault, symmetric_assembly};

use crate::{general, layout};
use refusal::Refusal;

// Refusals 5 and 6 of column j, whose entries are those from `from` up to `to`: none where `from` is above `to`, so the
// loop takes no slice.
pub fn lower_fault(
    n: usize,
    row_idx: &[u32],
    j: usize,
    from: usize,
    to: usize,
) -> Result<(), Refusal>
    requires { to ≤ length row_idx.now }
    ensures { number_of result ≡ lower_column n row_idx.now j from to }
{
    for k in from..to {
        let row = row_idx[k] as usize;
        if row >= n {
            return Err(Refusal::IndexRange);
        }
        if row < j {
            return Err(Refusal::UpperTriangle);
        }
    }
    Ok(())
}

// Refusal 7 of one column.
pub fn rising_fault(row_idx: &[u32], from: usize, to: usize) -> Result<(), Refusal>
    requires from_le_to { from ≤ to }
    requires to_in_bounds { to ≤ length row_idx.now }
    ensures { number_of result ≡ rising_column row_idx.now from to }
{
    for k in from + 1..to {
        if row_idx[k] <= row_idx[k - 1] {
            return Err(Refusal::RowsNotRising);
        }
    }
    Ok(())
}

// Whether a column rises from a row not above the diagonal to one below n.
fn column_fine(n: usize, row_idx: &[u32], j: usize, from: usize, to: usize) -> bool
    requires fact_1 { from ≤ to }
    requires fact_2 { to ≤ length row_idx.now }
    ensures { result ≡ true → symmetric_column n row_idx.now j from to ≡ 0 }
{
    from == to || (row_idx[from] as usize >= j && general::column_rises(n, row_idx, from, to))
}

// Refusals 5, 6 and 7 of column j.
fn column_fault(n: usize, row_idx: &[u32], j: usize, from: usize, to: usize) -> Result<(), Refusal>
    requires fact_1 { from ≤ to }
    requires fact_2 { to ≤ length row_idx.now }
    ensures { number_of result ≡ symmetric_column n row_idx.now j from to }
{
    if column_fine(n, row_idx, j, from, to) {
        return Ok(());
    }
    lower_fault(n, row_idx, j, from, to)?;
    rising_fault(row_idx, from, to)
}

// Refusals 5, 6 and 7 of all columns.
pub fn columns_fault(n: usize, col_ptr: &[u32], row_idx: &[u32]) -> Result<(), Refusal>
    requires col_ptr_len { length col_ptr.now ≡ n + 1 }
    requires pointers { Pointers n col_ptr.now (length row_idx.now) }
    ensures { number_of result ≡ symmetric_columns n col_ptr.now row_idx.now }
{
    for j in 0..n {
        column_fault(n, row_idx, j, col_ptr[j] as usize, col_ptr[j + 1] as usize)?;
    }
    Ok(())
}

// Tests a matrix: the first thing wrong refuses it. What this and `general::validate` share is the order of two calls;
// a function for both would be lent the limit and the test of the columns, and be as long as either.
pub fn validate(n: u32, col_ptr: &[u32], row_idx: &[u32], values: &[f64]) -> Result<(), Refusal>
    ensures answer { number_of result ≡ symmetric_fault (matrix n col_ptr.now row_idx.now values.now) }
    ensures number { OneOf symmetric_numbers (number_of result) }
{
    layout::frame_fault(limits::MAX_SYMMETRIC, n, col_ptr, row_idx, values)?;
    columns_fault(n as usize, col_ptr, row_idx)
}

// The matrix of the triplets, those of one position summed in input order.
pub fn from_triplets(
    n: u32,
    rows: &[u32],
    cols: &[u32],
    vals: &[f64],
    col_ptr: &mut [u32],
    row_idx: &mut [u32],
    values: &mut [f64],
    work: &mut [u32],
) -> Result<u32, Refusal>
    ensures outcome { let t = triplets rows.now cols.now vals.now in
        let before = slices col_ptr.old row_idx.old values.old work.old in
        let after = slices col_ptr.new row_idx.new values.new work.new in
        outcome_is (numbered result) after ≡ symmetric_assembly n t before }
    ensures answered { let t = triplets rows.now cols.now vals.now in
        let before = slices col_ptr.old row_idx.old values.old work.old in
        AnswersBy (symmetric_triplet_fault n t before) (kept_count n t) (numbered result) }
    ensures number { OneOf symmetric_triplet_numbers (number_of result) }
{
    layout::from_triplets::<true>(n, rows, cols, vals, col_ptr, row_idx, values, work)
}
