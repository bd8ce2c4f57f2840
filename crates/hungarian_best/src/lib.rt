// Two steps of phase 3 of the match: the best entry of a column, and a row and a column paired by an entry. The work
// slice is cut into regions of n words (hungarian's Layout), as hungarian_init has them.
#![tactic(auto)]

ghost use Rattle.std.specs.Prelude.{◌+◌, ◌<◌, get_or};
ghost use Rattle.limits.specs.Limits.{max_general};
ghost use Rattle.hungarian.specs.inner.Layout.{region, iperm_at, Workspace};
ghost use Rattle.hungarian.specs.Graph.{graph_of};
ghost use Rattle.hungarian_claim.specs.inner.Memory.{Ready};
ghost use Rattle.hungarian_best.specs.inner.Steps.{Linked, BestEntry};

use hungarian::{FROM, RINF};
use limits::NONE;

// The best entry so far of a column: its cost minus u, its row and its place.
#[derive(Clone, Copy)]
pub struct Best {
    pub value: f64,
    pub row: usize,
    pub place: usize,
}

// The entry of column j with the least cost minus u; of equal ones the later counts only if its row is free and that of
// the kept one is not, or if both are RINF. Which entry is equal is unpredictable, so there is only one test.
pub fn best_of(
    n: usize,
    col_ptr: &[u32],
    row_idx: &[u32],
    cost: &[f64],
    u: &[f64],
    work: &[u32],
    j: usize,
) -> Best
    requires fact_1 { let g = graph_of n col_ptr.now row_idx.now cost.now in
        Ready g u.now work.now }
    requires fact_2 { let g = graph_of n col_ptr.now row_idx.now cost.now in
        j < n }
    requires fact_3 { let g = graph_of n col_ptr.now row_idx.now cost.now in
        get_or col_ptr.now j 0 < get_or col_ptr.now (j + 1) 0 }
    ensures { let g = graph_of n col_ptr.now row_idx.now cost.now in
        BestEntry g u.now (region iperm_at n work.now) j result }
{
    let start = col_ptr[j] as usize;
    let end = col_ptr[j + 1] as usize;
    let first = row_idx[start] as usize;
    let least = cost[start] - u[first];
    let mut best = Best {
        value: least,
        row: first,
        place: start,
    };
    let mut kept_free = work[first] == NONE;
    let mut at_limit = least == RINF;
    for k in start + 1..end {
        let row = row_idx[k] as usize;
        let value = cost[k] - u[row];
        let free = work[row] == NONE;
        let replaces = at_limit | (free & !kept_free);
        if !(best.value <= value) | (!(best.value < value) & replaces) {
            best = Best {
                value,
                row,
                place: k,
            };
            kept_free = free;
            at_limit = value == RINF;
        }
    }
    best
}

// Row i and column j are paired by entry k, and j is searched from the next place on.
pub fn pair_and_advance(n: usize, work: &mut [u32], i: usize, j: usize, k: usize)
    requires fact_1 { Workspace n work.old }
    requires fact_2 { i < n }
    requires fact_3 { j < n }
    requires fact_4 { k < max_general }
    ensures { Linked n work.old i j k work.new }
{
    work[i] = j as u32;
    work[n + j] = k as u32;
    work[FROM * n + j] = (k + 1) as u32;
}
