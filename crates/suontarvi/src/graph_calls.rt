// Cost graphs over the C interface, with native slices.
ghost use Rattle.std.specs.Prelude.{◌≡◌};
ghost use Rattle.refusal.specs.Listed.{symmetric_graph_numbers, graph_numbers};
ghost use Rattle.sparse.specs.Matrix.{matrix};
ghost use Rattle.mc64_columns.specs.Graphs.{slices};
ghost use Rattle.mc64_symmetric.specs.Call.{cost_graph};
ghost use Rattle.mc64_general.specs.Call.{general_graph};
ghost use Rattle.suontarvi.specs.Numbered.{Promises as GraphPromises};

use crate::told;

// The cost graph of a symmetric matrix. Answers 0, and the last pointer is then the kept count, or the number of the
// refusal.
#[unsafe(no_mangle)]
pub extern "C" fn suontarvi_symmetric_graph(
    n: u32,
    col_ptr: &[u32],
    row_idx: &[u32],
    values: &[f64],
    logs: &[f64],
    graph_ptr: &mut [u32],
    graph_rows: &mut [u32],
    cost: &mut [f64],
    cmax: &mut [f64],
    work: &mut [u32],
) -> u32
    ensures { let m = matrix n col_ptr.now row_idx.now values.now in
        let before = slices graph_ptr.old graph_rows.old cost.old
        cmax.old
        work.old in
        let after = slices graph_ptr.new graph_rows.new cost.new cmax.new
        work.new in
        GraphPromises symmetric_graph_numbers (cost_graph m logs.now before) result after }
{
    told(mc64_symmetric::build_cost_graph(
        n, col_ptr, row_idx, values, logs, graph_ptr, graph_rows, cost, cmax, work,
    ))
}

// The same for a general matrix.
#[unsafe(no_mangle)]
pub extern "C" fn suontarvi_general_graph(
    n: u32,
    col_ptr: &[u32],
    row_idx: &[u32],
    values: &[f64],
    logs: &[f64],
    graph_ptr: &mut [u32],
    graph_rows: &mut [u32],
    cost: &mut [f64],
    cmax: &mut [f64],
    work: &mut [u32],
) -> u32
    ensures { let m = matrix n col_ptr.now row_idx.now values.now in
        let before = slices graph_ptr.old graph_rows.old cost.old
        cmax.old
        work.old in
        let after = slices graph_ptr.new graph_rows.new cost.new cmax.new
        work.new in
        GraphPromises graph_numbers (general_graph m logs.now before) result after }
{
    told(mc64_general::build_general_graph(
        n, col_ptr, row_idx, values, logs, graph_ptr, graph_rows, cost, cmax, work,
    ))
}
