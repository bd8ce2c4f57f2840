// The call of the match: it tests the graph, runs the phases and the searches, and finishes perm, u and v.
#![tactic(auto)]

ghost use Rattle.std.specs.Prelude.{◌≡◌, ◌+◌, ◌*◌, ◌^◌, ◌<◌, length};
ghost use Rattle.refusal.specs.Number.{numbered};
ghost use Rattle.hungarian.specs.Graph.{graph_of};
ghost use Rattle.hungarian_init.specs.inner.Steps.{Startable};
ghost use Rattle.hungarian_match.specs.inner.Steps.{PairedUp, Solvable, Solved};
ghost use Rattle.hungarian_match.specs.Call.{slices, counts_of, answer_length, match_lengths, Promises};

use hungarian::Counts;
use refusal::Refusal;

mod finish;
pub mod graph_test;

// The length of the answer: the matched count and the seven counts.
pub const ANSWER_LENGTH: usize = 8;

// The matched count and the seven counts, in this order.
pub fn put_counts(answer: &mut [u64], found: Counts)
    requires { length answer.old ≡ answer_length }
    ensures { answer.new ≡ counts_of found }
{
    let stats = found.stats;
    answer.copy_from_slice(&[
        found.matched as u64,
        stats.heap_init_slots,
        stats.augment_searches,
        stats.touched_total,
        stats.phase3_inner_iters,
        stats.main_loop_edge_scans,
        stats.popped_total,
        stats.largest_heap,
    ]);
}

// Whether every slice has its length.
fn lengths_fit(
    n: usize,
    col_ptr: &[u32],
    row_idx: &[u32],
    cost: &[f64],
    perm: &[u32],
    u: &[f64],
    v: &[f64],
    work: &[u32],
    fwork: &[f64],
) -> bool
    requires { n < 2 ^ 32 }
    ensures { let g = graph_of n col_ptr.now row_idx.now cost.now in
        let s = slices perm.now u.now v.now work.now fwork.now in
        result ≡ match_lengths g s }
{
    let graph = (col_ptr.len() == n + 1) & (cost.len() == row_idx.len());
    let room = (work.len() == 12 * n + 1) & (fwork.len() == 2 * n);
    graph & ((perm.len() == n) & ((u.len() == n) & ((v.len() == n) & room)))
}

// The pairs of phases 1 to 3, and of a search from each column that is then still free. The searches use `perm` for the
// places of rows in their heap and v for its keys.
fn pair_up(
    n: usize,
    col_ptr: &[u32],
    row_idx: &[u32],
    cost: &[f64],
    perm: &mut [u32],
    u: &mut [f64],
    v: &mut [f64],
    work: &mut [u32],
    fwork: &mut [f64],
) -> Counts
    requires fact_1 { Startable n col_ptr.now row_idx.now cost.now u.old work.old fwork.old }
    requires fact_2 { length perm.old ≡ n }
    requires fact_3 { length v.old ≡ n }
    ensures { let g = graph_of n col_ptr.now row_idx.now cost.now in
        PairedUp g u.new work.new result }
{
    let started = hungarian_init::start(n, col_ptr, row_idx, cost, u, work, fwork);
    let num = started.matched;
    let stats = started.stats;
    if num == n {
        return started;
    }
    hungarian_search::run(
        n, col_ptr, row_idx, cost, u, work, perm, v, fwork, num, stats,
    )
}

// The match of a graph that is known to be accepted: the pairs, then perm, u and v, and cleared work.
pub fn solve(
    n: usize,
    col_ptr: &[u32],
    row_idx: &[u32],
    cost: &[f64],
    perm: &mut [u32],
    u: &mut [f64],
    v: &mut [f64],
    work: &mut [u32],
    fwork: &mut [f64],
) -> Counts
    requires { let g = graph_of n col_ptr.now row_idx.now cost.now in
        let before = slices perm.old u.old v.old work.old fwork.old in
        Solvable g before }
    ensures { let g = graph_of n col_ptr.now row_idx.now cost.now in
        let before =
        slices perm.old u.old v.old work.old fwork.old in
        let after = slices perm.new u.new v.new work.new fwork.new in
        Solved g before after result }
{
    let found = pair_up(n, col_ptr, row_idx, cost, perm, u, v, work, fwork);
    finish::finish_columns(n, row_idx, cost, u, work, perm, v);
    finish::finish_rows(n, work, u);
    slices::fill(work, 0);
    slices::fill(fwork, 0.0);
    found
}

// The match of a cost graph by columns: its counts, or the refusal. perm gets the row of each column, u and v the duals
// of rows and columns.
pub fn hungarian_match(
    n: u32,
    col_ptr: &[u32],
    row_idx: &[u32],
    cost: &[f64],
    perm: &mut [u32],
    u: &mut [f64],
    v: &mut [f64],
    work: &mut [u32],
    fwork: &mut [f64],
) -> Result<Counts, Refusal>
    ensures { let g = graph_of n col_ptr.now row_idx.now cost.now in
        let before =
        slices perm.old u.old v.old work.old fwork.old in
        let after = slices perm.new u.new v.new work.new fwork.new in
        Promises g before (numbered result) after }
{
    let size = n as usize;
    let lengths = lengths_fit(size, col_ptr, row_idx, cost, perm, u, v, work, fwork);
    graph_test::graph_fault(n, col_ptr, row_idx, cost, lengths)?;
    Ok(solve(size, col_ptr, row_idx, cost, perm, u, v, work, fwork))
}
