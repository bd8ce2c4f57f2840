// The cost graph of a symmetric file's entries.
#![tactic(auto)]

ghost use Rattle.std.specs.Prelude.{◌≡◌, length};
ghost use Rattle.triplets.specs.Built.{triplets};
ghost use Rattle.triplets.specs.inner.Steps.{Sized, Roomy};
ghost use Rattle.text_symmetric_graph.specs.Graph.{SymmetricValues};
ghost use Rattle.text_symmetric_graph.specs.inner.Steps.{GraphRoom, Answers, graph_slices, graph_left};

use mc64_columns::LogSource;

// The most columns and entries of a file.
pub const COLUMNS: usize = 64;

pub const ENTRIES: usize = 512;

// Pointers of the columns, and where the last one ends.
pub const POINTERS: usize = COLUMNS + 1;

// What the assembly needs: two words for each pointer and one for each entry.
pub const ASSEMBLY_WORDS: usize = 2 * POINTERS + ENTRIES;

// The graph of entries with slices for their matrix: how many entries it has, or none if a pair occurs twice. A repeated
// pair leaves fewer than were given.
fn mirror_matrix(
    n: usize,
    rows: &[u32],
    cols: &[u32],
    values: &[f64],
    col_ptr: &mut [u32],
    row_idx: &mut [u32],
    stored: &mut [f64],
    work: &mut [u32],
    graph_ptr: &mut [u32],
    graph_rows: &mut [u32],
    cost: &mut [f64],
    cmax: &mut [f64],
) -> Option<u32>
    requires symmetric_values { SymmetricValues n rows.now cols.now values.now }
    requires sized { Sized n rows.now cols.now col_ptr.old work.old }
    requires roomy { Roomy n rows.now cols.now values.now row_idx.old stored.old work.old }
    requires graph_room { GraphRoom n (length rows.now) graph_ptr.old graph_rows.old cost.old }
    requires cmax_len { length cmax.old ≡ n }
    ensures answer { let t = triplets rows.now cols.now values.now in
        Answers n t graph_ptr.new graph_rows.new cost.new result }
    ensures slices { let t = triplets rows.now cols.now values.now in
        let before = graph_slices graph_ptr.old graph_rows.old cost.old in
        let after = graph_slices graph_ptr.new graph_rows.new cost.new in
        after ≡ graph_left n t before result }
{
    let kept = triplets::assemble(n, rows, cols, values, col_ptr, row_idx, stored, work);
    if kept as usize != rows.len() {
        return None;
    }
    Some(mc64_symmetric::build(
        n,
        col_ptr,
        row_idx,
        stored,
        stored,
        graph_ptr,
        graph_rows,
        cost,
        cmax,
        work,
        LogSource::Own,
    ))
}

// The graph of entries, with local arrays for their matrix. The work on these is a function of its own: the time to
// check a body grows faster than its number of slices, and here are twelve.
pub fn symmetric_graph(
    n: u32,
    rows: &[u32],
    cols: &[u32],
    values: &[f64],
    graph_ptr: &mut [u32],
    graph_rows: &mut [u32],
    cost: &mut [f64],
) -> Option<u32>
    requires symmetric_values { SymmetricValues n rows.now cols.now values.now }
    requires graph_room { GraphRoom n (length rows.now) graph_ptr.old graph_rows.old cost.old }
    ensures answer { let t = triplets rows.now cols.now values.now in
        Answers n t graph_ptr.new graph_rows.new cost.new result }
    ensures slices { let t = triplets rows.now cols.now values.now in
        let before = graph_slices graph_ptr.old graph_rows.old cost.old in
        let after = graph_slices graph_ptr.new graph_rows.new cost.new in
        after ≡ graph_left n t before result }
{
    let size = n as usize;
    let len = rows.len();
    let mut col_ptr = [0u32; POINTERS];
    let mut row_idx = [0u32; ENTRIES];
    let mut stored = [0.0f64; ENTRIES];
    let mut work = [0u32; ASSEMBLY_WORDS];
    let mut cmax = [0.0f64; COLUMNS];
    mirror_matrix(
        size,
        rows,
        cols,
        values,
        &mut col_ptr[..size + 1],
        &mut row_idx[..len],
        &mut stored[..len],
        &mut work[..2 * size + 2 + len],
        graph_ptr,
        graph_rows,
        cost,
        &mut cmax[..size],
    )
}
