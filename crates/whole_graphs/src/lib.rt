// Cost graphs from whole-number logarithms of the values: the builders' own passes, with the values lent for logs.
#![tactic(auto)]

ghost use Rattle.std.specs.Prelude.{◌≡◌};
ghost use Rattle.refusal.specs.Number.{number_of, numbered};
ghost use Rattle.sparse.specs.Matrix.{matrix};
ghost use Rattle.mc64_columns.specs.Graphs.{slices};
ghost use Rattle.whole_graphs.specs.Graphs.{finite_fault, symmetric_input_fault, general_input_fault};
ghost use Rattle.whole_graphs.specs.Graphs.{SymmetricPromises, GeneralPromises};

use mc64_columns::LogSource;
use refusal::Refusal;
use sparse::{csc, general, layout};

// Refusal 9. The loop has no early exit, so that it can test several values at a time.
fn values_fault(values: &[f64]) -> Result<(), Refusal>
    ensures { number_of result ≡ finite_fault values.now }
{
    let mut fine = true;
    for &value in values {
        fine &= float64::is_finite(value);
    }
    if fine {
        Ok(())
    } else {
        Err(Refusal::ValueNotFinite)
    }
}

// The first thing wrong with a symmetric matrix; `lengths` says whether every slice has its length.
fn symmetric_fault(
    n: u32,
    col_ptr: &[u32],
    row_idx: &[u32],
    values: &[f64],
    lengths: bool,
) -> Result<(), Refusal>
    ensures { let m = matrix n col_ptr.now row_idx.now values.now in
        number_of result ≡ symmetric_input_fault m lengths }
{
    layout::size_fault(n, limits::MAX_SYMMETRIC, row_idx.len(), lengths)?;
    csc::validate(n, col_ptr, row_idx, values)?;
    values_fault(values)
}

// The same of a general matrix.
fn general_fault(
    n: u32,
    col_ptr: &[u32],
    row_idx: &[u32],
    values: &[f64],
    lengths: bool,
) -> Result<(), Refusal>
    ensures { let m = matrix n col_ptr.now row_idx.now values.now in
        number_of result ≡ general_input_fault m lengths }
{
    layout::size_fault(n, limits::MAX_GENERAL, row_idx.len(), lengths)?;
    general::validate(n, col_ptr, row_idx, values)?;
    values_fault(values)
}

// The cost graph of a symmetric matrix; how many entries it has.
pub fn whole_symmetric_graph(
    n: u32,
    col_ptr: &[u32],
    row_idx: &[u32],
    values: &[f64],
    graph_ptr: &mut [u32],
    graph_rows: &mut [u32],
    cost: &mut [f64],
    cmax: &mut [f64],
    work: &mut [u32],
) -> Result<u32, Refusal>
    ensures { let m = matrix n col_ptr.now row_idx.now values.now in
        let before = slices graph_ptr.old graph_rows.old cost.old
        cmax.old
        work.old in
        let after = slices graph_ptr.new graph_rows.new cost.new cmax.new
        work.new in
        SymmetricPromises m before (numbered result) after }
{
    let size = n as usize;
    let fit = mc64_symmetric::lengths_fit(
        size, col_ptr, row_idx, values, values, graph_ptr, graph_rows, cost, cmax, work,
    );
    symmetric_fault(n, col_ptr, row_idx, values, fit)?;
    let kept = mc64_symmetric::build(
        size,
        col_ptr,
        row_idx,
        values,
        values,
        graph_ptr,
        graph_rows,
        cost,
        cmax,
        work,
        LogSource::Own,
    );
    Ok(kept)
}

// The cost graph of a general matrix; how many entries it has.
pub fn whole_general_graph(
    n: u32,
    col_ptr: &[u32],
    row_idx: &[u32],
    values: &[f64],
    graph_ptr: &mut [u32],
    graph_rows: &mut [u32],
    cost: &mut [f64],
    cmax: &mut [f64],
    work: &mut [u32],
) -> Result<u32, Refusal>
    ensures { let m = matrix n col_ptr.now row_idx.now values.now in
        let before = slices graph_ptr.old graph_rows.old cost.old
        cmax.old
        work.old in
        let after = slices graph_ptr.new graph_rows.new cost.new cmax.new
        work.new in
        GeneralPromises m before (numbered result) after }
{
    let size = n as usize;
    let fit = mc64_general::lengths_fit(
        size, col_ptr, row_idx, values, values, graph_ptr, graph_rows, cost, cmax, work,
    );
    general_fault(n, col_ptr, row_idx, values, fit)?;
    mc64_columns::put_words(LogSource::Own, values, 0, work);
    let count = mc64_general::build(
        size,
        col_ptr,
        row_idx,
        values,
        values,
        work,
        graph_ptr,
        graph_rows,
        cost,
        cmax,
        LogSource::Own,
    );
    slices::fill(work, 0);
    Ok(count)
}
