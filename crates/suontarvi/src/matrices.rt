// Sparse matrices over the C interface, with native slices.
ghost use Rattle.refusal.specs.Listed.{symmetric_numbers, general_numbers};
ghost use Rattle.refusal.specs.Listed.{symmetric_triplet_numbers, general_triplet_numbers};
ghost use Rattle.sparse.specs.Matrix.{matrix};
ghost use Rattle.sparse.specs.Validate.{symmetric_fault, general_fault};
ghost use Rattle.triplets.specs.Built.{triplets, slices};
ghost use Rattle.sparse.specs.Assemble.{symmetric_assembly, general_assembly};
ghost use Rattle.suontarvi.specs.Matrices.{ValidatePromises};
ghost use Rattle.suontarvi.specs.Numbered.{Promises as TripletPromises};

use crate::told;

// Tests a symmetric matrix, stored as its lower triangle. Answers 0 or the number of the refusal.
#[unsafe(no_mangle)]
pub extern "C" fn suontarvi_validate_symmetric(
    n: u32,
    col_ptr: &[u32],
    row_idx: &[u32],
    values: &[f64],
) -> u32
    ensures { ValidatePromises symmetric_numbers
        (symmetric_fault (matrix n col_ptr.now row_idx.now values.now)) result }
{
    refusal::answer(sparse::csc::validate(n, col_ptr, row_idx, values))
}

// Tests a general matrix.
#[unsafe(no_mangle)]
pub extern "C" fn suontarvi_validate_general(
    n: u32,
    col_ptr: &[u32],
    row_idx: &[u32],
    values: &[f64],
) -> u32
    ensures { ValidatePromises general_numbers
        (general_fault (matrix n col_ptr.now row_idx.now values.now)) result }
{
    refusal::answer(sparse::general::validate(n, col_ptr, row_idx, values))
}

// The symmetric matrix of the triplets. Answers 0, and the last pointer is then the kept count, or the number of the
// refusal.
#[unsafe(no_mangle)]
pub extern "C" fn suontarvi_triplets_symmetric(
    n: u32,
    rows: &[u32],
    cols: &[u32],
    vals: &[f64],
    col_ptr: &mut [u32],
    row_idx: &mut [u32],
    values: &mut [f64],
    work: &mut [u32],
) -> u32
    ensures { let t = triplets rows.now cols.now vals.now in
        let before = slices col_ptr.old row_idx.old values.old
        work.old in
        let after = slices col_ptr.new row_idx.new values.new work.new in
        TripletPromises symmetric_triplet_numbers (symmetric_assembly n t before) result after }
{
    told(sparse::csc::from_triplets(n, rows, cols, vals, col_ptr, row_idx, values, work))
}

// The same for a general matrix.
#[unsafe(no_mangle)]
pub extern "C" fn suontarvi_triplets_general(
    n: u32,
    rows: &[u32],
    cols: &[u32],
    vals: &[f64],
    col_ptr: &mut [u32],
    row_idx: &mut [u32],
    values: &mut [f64],
    work: &mut [u32],
) -> u32
    ensures { let t = triplets rows.now cols.now vals.now in
        let before = slices col_ptr.old row_idx.old values.old
        work.old in
        let after = slices col_ptr.new row_idx.new values.new work.new in
        TripletPromises general_triplet_numbers (general_assembly n t before) result after }
{
    told(sparse::general::from_triplets(n, rows, cols, vals, col_ptr, row_idx, values, work))
}
