// Whole-number logarithms, and cost graphs from them, over the C interface.
ghost use Rattle.refusal.specs.Listed.{whole_symmetric_numbers, whole_general_numbers};
ghost use Rattle.sparse.specs.Matrix.{matrix};
ghost use Rattle.mc64_columns.specs.Graphs.{slices};
ghost use Rattle.whole_log.specs.Stored.{Promises};
ghost use Rattle.whole_graphs.specs.Graphs.{whole_symmetric_graph, whole_general_graph};
ghost use Rattle.suontarvi.specs.Graphs.{WholeGraphPromises};

use crate::told;

// The base-two logarithm of the magnitude of x, in units of 1/65,536, into one number. Answers 0 or the number of the
// refusal; a refused call leaves the number as it is.
#[unsafe(no_mangle)]
pub extern "C" fn suontarvi_whole_log(x: f64, p: &mut [i32]) -> u32
    ensures { Promises x p.old result p.new }
{
    refusal::answer(whole_log::store_log(x, p))
}

// The cost graph of a symmetric matrix from logarithms of its values. Answers 0, and the last pointer is then the kept
// count, or the number of the refusal.
#[unsafe(no_mangle)]
pub extern "C" fn suontarvi_whole_symmetric_graph(
    n: u32,
    col_ptr: &[u32],
    row_idx: &[u32],
    values: &[f64],
    graph_ptr: &mut [u32],
    graph_rows: &mut [u32],
    cost: &mut [f64],
    cmax: &mut [f64],
    work: &mut [u32],
) -> u32
    ensures { let m = matrix n col_ptr.now row_idx.now values.now in
        let before = slices graph_ptr.old graph_rows.old cost.old
        cmax.old
        work.old in
        let after = slices graph_ptr.new graph_rows.new cost.new cmax.new
        work.new in
        WholeGraphPromises whole_symmetric_numbers n (whole_symmetric_graph m before) result after }
{
    told(whole_graphs::whole_symmetric_graph(
        n, col_ptr, row_idx, values, graph_ptr, graph_rows, cost, cmax, work,
    ))
}

// The same for a general matrix.
#[unsafe(no_mangle)]
pub extern "C" fn suontarvi_whole_general_graph(
    n: u32,
    col_ptr: &[u32],
    row_idx: &[u32],
    values: &[f64],
    graph_ptr: &mut [u32],
    graph_rows: &mut [u32],
    cost: &mut [f64],
    cmax: &mut [f64],
    work: &mut [u32],
) -> u32
    ensures { let m = matrix n col_ptr.now row_idx.now values.now in
        let before = slices graph_ptr.old graph_rows.old cost.old
        cmax.old
        work.old in
        let after = slices graph_ptr.new graph_rows.new cost.new cmax.new
        work.new in
        WholeGraphPromises whole_general_numbers n (whole_general_graph m before) result after }
{
    told(whole_graphs::whole_general_graph(
        n, col_ptr, row_idx, values, graph_ptr, graph_rows, cost, cmax, work,
    ))
}
