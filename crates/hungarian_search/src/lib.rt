// The shortest-path searches of the match, one from each free column: what the answer of one (hungarian_path) does to
// the pairs and the duals, and the turns of all columns. `work`, `pos`, `keys` and d are as in hungarian_path.
#![tactic(auto)]

ghost use Rattle.std.specs.Prelude.{◌≡◌, ℕ, ◌+◌, ◌*◌, ◌≤◌, ◌<◌, length, get_or, take};
ghost use Rattle.hungarian.specs.inner.Layout.{region, popped_at};
ghost use Rattle.hungarian.specs.Graph.{graph_of};
ghost use Rattle.hungarian.specs.Search.{raise};
ghost use Rattle.hungarian_path.specs.inner.Views.{pairs_of};
ghost use Rattle.hungarian_path.specs.inner.StepsSearch.{found_of, SearchReady};
ghost use Rattle.hungarian_search.specs.inner.Steps.{ApplyReady, Applies, Augments, Standing, Started, Searched};

use hungarian::{Counts, HungarianStats, POPPED};
use hungarian_path::Path;
use limits::NONE;

// The duals of the popped rows gain their distance minus the path's cost.
fn raise(n: usize, u: &mut [f64], work: &[u32], d: &[f64], popped: usize, csp: f64)
    requires fact_1 { length work.now ≡ 12 * n + 1 }
    requires fact_2 { popped ≤ n }
    requires fact_3 { ((p : ℕ) → p < popped
        → (get_or work.now (7 * n + p) 0 < length u.old) × (get_or work.now (7 * n + p) 0 < length d.now)) }
    ensures { u.new
        ≡ raise d.now csp (take popped (region popped_at n work.now)) u.old }
{
    let from = POPPED * n;
    for row in &work[from..from + popped] {
        let i = *row as usize;
        u[i] += d[i] - csp;
    }
}

// With a path the pairs are flipped along it and the duals of popped rows are raised; without one both stay. The answer
// is the number of pairs.
fn apply_path(
    n: usize,
    row_idx: &[u32],
    u: &mut [f64],
    work: &mut [u32],
    d: &[f64],
    end: Option<Path>,
    popped: usize,
    num: usize,
) -> usize
    requires { ApplyReady n row_idx.now u.old work.old d.now (found_of end) popped num }
    ensures { Applies n row_idx.now u.old u.new work.old work.new
        d.now (found_of end) popped num result }
{
    let Some(path) = end else {
        return num;
    };
    hungarian_path::flip(n, row_idx, work, path.entry, path.column, num);
    raise(n, u, work, d, popped, path.cost);
    num + 1
}

// The turn of the free column j.
fn augment(
    n: usize,
    col_ptr: &[u32],
    row_idx: &[u32],
    cost: &[f64],
    u: &mut [f64],
    work: &mut [u32],
    pos: &mut [u32],
    keys: &mut [f64],
    d: &mut [f64],
    j: usize,
    sofar: Counts,
) -> Counts
    requires fact_1 { let g = graph_of n col_ptr.now row_idx.now cost.now in
        SearchReady g u.old work.old pos.old keys.old d.old sofar.stats j }
    requires fact_2 { let g = graph_of n col_ptr.now row_idx.now cost.now in
        sofar.matched ≡ (pairs_of n work.old).num }
    ensures { let g = graph_of n col_ptr.now row_idx.now cost.now in
        Augments g u.old u.new work.old work.new pos.old
        pos.new d.old d.new j sofar.stats result }
{
    let stats = sofar.stats;
    let done = hungarian_path::search(n, col_ptr, row_idx, cost, u, work, pos, keys, d, j, stats);
    let end = done.end;
    let num = apply_path(n, row_idx, u, work, d, end, done.popped, sofar.matched);
    let touched = done.touched;
    hungarian_path::reset(n, work, pos, d, touched);
    let counted = done.stats;
    let popped = counted
        .search_ended(touched as u64)
        .rows_popped(done.popped as u64);
    Counts {
        matched: num,
        stats: popped.heap_seen(done.peak),
    }
}

// All columns have their turn, upward: a search from each that is free.
fn columns(
    n: usize,
    col_ptr: &[u32],
    row_idx: &[u32],
    cost: &[f64],
    u: &mut [f64],
    work: &mut [u32],
    pos: &mut [u32],
    keys: &mut [f64],
    d: &mut [f64],
    first: Counts,
) -> Counts
    requires { Standing (graph_of n col_ptr.now row_idx.now cost.now) u.old work.old pos.old
        keys.old d.old first 0 }
    ensures { let g = graph_of n col_ptr.now row_idx.now cost.now in
        Standing g u.new work.new pos.new keys.new d.new result n }
{
    let mut s = first;
    for j in 0..n {
        // region 1 has the entry of each column
        let free = work[n + j] == NONE;
        if free {
            s = augment(n, col_ptr, row_idx, cost, u, work, pos, keys, d, j, s);
        }
    }
    s
}

// The searches of the match, after phases 1 to 3: the pairs are regions 0 and 1 of `work`, u has the row duals. All
// other words, `pos`, `keys` and `fwork` are scratch; the first n doubles of `fwork` are the distances.
pub fn run(
    n: usize,
    col_ptr: &[u32],
    row_idx: &[u32],
    cost: &[f64],
    u: &mut [f64],
    work: &mut [u32],
    pos: &mut [u32],
    keys: &mut [f64],
    fwork: &mut [f64],
    num: usize,
    stats: HungarianStats,
) -> Counts
    requires fact_1 { let g = graph_of n col_ptr.now row_idx.now cost.now in
        Started g u.old work.old num stats }
    requires fact_2 { let g = graph_of n col_ptr.now row_idx.now cost.now in
        length pos.old ≡ n }
    requires fact_3 { let g = graph_of n col_ptr.now row_idx.now cost.now in
        length keys.old ≡ n }
    requires fact_4 { let g = graph_of n col_ptr.now row_idx.now cost.now in
        length fwork.old ≡ 2 * n }
    ensures { let g = graph_of n col_ptr.now row_idx.now cost.now in
        Searched g u.new work.new result }
{
    let d = &mut fwork[..n];
    hungarian_path::prepare(n, work, pos, d);
    let made = stats.heap_made(n as u64);
    columns(
        n,
        col_ptr,
        row_idx,
        cost,
        u,
        work,
        pos,
        keys,
        d,
        Counts {
            matched: num,
            stats: made,
        },
    )
}
