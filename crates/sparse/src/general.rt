// A general matrix: every entry is stored.
ghost use Rattle.std.specs.Prelude.{◌≡◌, true, ◌+◌, ◌≤◌, eqb, length};
ghost use Rattle.refusal.specs.Listed.{OneOf, general_numbers, general_triplet_numbers};
ghost use Rattle.refusal.specs.Number.{number_of, numbered};
ghost use Rattle.slices.specs.Outcome.{outcome_is};
ghost use Rattle.sparse.specs.Pattern.{pattern};
ghost use Rattle.sparse.specs.Matrix.{matrix};
ghost use Rattle.sparse.specs.Validate.{general_column, general_columns, pattern_fault, general_fault};
ghost use Rattle.sparse.specs.Columns.{Pointers};
ghost use Rattle.triplets.specs.Built.{triplets, slices, kept_count};
ghost use Rattle.sparse.specs.Assemble.{AnswersBy, general_triplet_fault, general_assembly};

use crate::layout;
use refusal::Refusal;

// Whether a column has no fault: it rises to a row below n. The loop has no early exit, so that it can test several
// entries at a time.
pub fn column_rises(n: usize, row_idx: &[u32], from: usize, to: usize) -> bool
    requires fact_1 { from ≤ to }
    requires fact_2 { to ≤ length row_idx.now }
    ensures { result ≡ eqb (general_column n row_idx.now from to) 0 }
{
    if from == to {
        return true;
    }
    let mut fine = true;
    for k in from + 1..to {
        fine &= row_idx[k - 1] < row_idx[k];
    }
    fine & ((row_idx[to - 1] as usize) < n)
}

// The first of refusals 5 and 7 in a column. `least` is the least row that an entry may have.
fn first_fault(n: usize, row_idx: &[u32], from: usize, to: usize) -> Result<(), Refusal>
    requires from_le_to { from ≤ to }
    requires to_in_bounds { to ≤ length row_idx.now }
    ensures { number_of result ≡ general_column n row_idx.now from to }
{
    let mut least: usize = 0;
    for &row in &row_idx[from..to] {
        let row = row as usize;
        if row >= n {
            return Err(Refusal::IndexRange);
        }
        if row < least {
            return Err(Refusal::RowsNotRising);
        }
        least = row + 1;
    }
    Ok(())
}

// Refusals 5 and 7 of one column, whose entries are those from `from` up to `to`.
fn column_fault(n: usize, row_idx: &[u32], from: usize, to: usize) -> Result<(), Refusal>
    requires fact_1 { from ≤ to }
    requires fact_2 { to ≤ length row_idx.now }
    ensures { number_of result ≡ general_column n row_idx.now from to }
{
    if column_rises(n, row_idx, from, to) {
        return Ok(());
    }
    first_fault(n, row_idx, from, to)
}

// Refusals 5 and 7 of all columns. A function for this and for `csc::columns_fault`, lent the test of a column, would
// be longer than the two loops.
pub fn columns_fault(n: usize, col_ptr: &[u32], row_idx: &[u32]) -> Result<(), Refusal>
    requires col_ptr_len { length col_ptr.now ≡ n + 1 }
    requires pointers { Pointers n col_ptr.now (length row_idx.now) }
    ensures { number_of result ≡ general_columns n col_ptr.now row_idx.now }
{
    for j in 0..n {
        column_fault(n, row_idx, col_ptr[j] as usize, col_ptr[j + 1] as usize)?;
    }
    Ok(())
}

// Refusals 1 to 5 and 7 of a pattern. `lengths` says whether every slice of the call has its length.
pub fn pattern_fault(n: u32, col_ptr: &[u32], row_idx: &[u32], lengths: bool) -> Result<(), Refusal>
    requires { lengths ≡ true → length col_ptr.now ≡ n + 1 }
    ensures { number_of result ≡ pattern_fault (pattern n col_ptr.now row_idx.now) lengths }
{
    let count = row_idx.len();
    layout::size_fault(n, limits::MAX_GENERAL, count, lengths)?;
    layout::pointer_fault(n as usize, col_ptr, count)?;
    columns_fault(n as usize, col_ptr, row_idx)
}

// Tests a matrix: the first thing wrong refuses it.
pub fn validate(n: u32, col_ptr: &[u32], row_idx: &[u32], values: &[f64]) -> Result<(), Refusal>
    ensures answer { number_of result ≡ general_fault (matrix n col_ptr.now row_idx.now values.now) }
    ensures number { OneOf general_numbers (number_of result) }
{
    layout::frame_fault(limits::MAX_GENERAL, n, col_ptr, row_idx, values)?;
    columns_fault(n as usize, col_ptr, row_idx)
}

// The matrix of the triplets, those of one position summed in input order.
pub fn from_triplets(
    n: u32,
    rows: &[u32],
    cols: &[u32],
    vals: &[f64],
    col_ptr: &mut [u32],
    row_idx: &mut [u32],
    values: &mut [f64],
    work: &mut [u32],
) -> Result<u32, Refusal>
    ensures outcome { let t = triplets rows.now cols.now vals.now in
        let before = slices col_ptr.old row_idx.old values.old work.old in
        let after = slices col_ptr.new row_idx.new values.new work.new in
        outcome_is (numbered result) after ≡ general_assembly n t before }
    ensures answered { let t = triplets rows.now cols.now vals.now in
        let before = slices col_ptr.old row_idx.old values.old work.old in
        AnswersBy (general_triplet_fault n t before) (kept_count n t) (numbered result) }
    ensures number { OneOf general_triplet_numbers (number_of result) }
{
    layout::from_triplets::<false>(n, rows, cols, vals, col_ptr, row_idx, values, work)
}
