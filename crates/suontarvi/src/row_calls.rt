// The row index over the C interface, with native slices.
ghost use Rattle.hungarian.specs.Graph.{graph_of};
ghost use Rattle.row_index.specs.Call.{slices, Promises};

// For each row of a cost graph its columns, rising, and the place of each entry. Answers 0 or the refusal.
#[unsafe(no_mangle)]
pub extern "C" fn suontarvi_row_index(
    n: u32,
    col_ptr: &[u32],
    row_idx: &[u32],
    cost: &[f64],
    row_ptr: &mut [u32],
    cols: &mut [u32],
    places: &mut [u32],
    work: &mut [u32],
) -> u32
    ensures { let g = graph_of n col_ptr.now row_idx.now cost.now in
        let before = slices row_ptr.old cols.old places.old work.old in
        let after = slices row_ptr.new cols.new places.new work.new in
        Promises g before result after }
{
    refusal::answer(row_index::row_index(n, col_ptr, row_idx, cost, row_ptr, cols, places, work))
}
