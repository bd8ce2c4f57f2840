// Phases 1 and 2 of the match, the first part of the Rust's hungarian_init_heuristic, as in the definition. The work
// slice is cut into regions of n words (hungarian's Layout): each row's column from 0, each column's entry from n, each
// row's least entry from 2 n.
#![tactic(auto)]

ghost use Rattle.std.specs.Prelude.{◌≤◌, ◌<◌, ◌≡◌, cond, length};
ghost use Rattle.std.specs.Float.Ieee.{le};
ghost use Rattle.hungarian.specs.inner.Layout.{Workspace};
ghost use Rattle.hungarian.specs.Graph.{graph_of};
ghost use Rattle.hungarian_claim.specs.inner.Memory.{Ready};
ghost use Rattle.hungarian_claim.specs.inner.Steps.{Cleared, Lowered, Minimal, Claimable, ClaimedRow};
ghost use Rattle.hungarian_claim.specs.inner.Steps.{ClaimedRows};

use hungarian::{LEAST, RINF};
use limits::NONE;

// No row has a cost, a column or an entry yet, and no column has an entry.
fn clear(n: usize, u: &mut [f64], work: &mut [u32])
    requires fact_1 { Workspace n work.old }
    requires fact_2 { length u.old ≡ n }
    ensures { Cleared n u.new work.new }
{
    slices::fill(u, RINF);
    slices::fill(&mut work[..(LEAST + 1) * n], NONE);
}

// The smaller of two costs; the first of equal ones, since a zero has two signs.
fn lower(x: f64, y: f64) -> f64
    ensures { result ≡ cond (le x y) x y }
{
    if x <= y { x } else { y }
}

// The first number if it is taken, else the second.
fn picked(taken: bool, x: u32, y: u32) -> u32
    ensures { result ≡ cond taken x y }
{
    if taken { x } else { y }
}

// Phase 1 at column j: of equal costs of a row the last counts. Every entry writes, either the old or the new value,
// since which one is unpredictable. `cost[k] <= lowest` equals `cost[k] <= u[i]` before, in a form that compiles
// without a branch.
fn lower_column(
    n: usize,
    col_ptr: &[u32],
    row_idx: &[u32],
    cost: &[f64],
    u: &mut [f64],
    work: &mut [u32],
    j: usize,
)
    requires fact_1 { Ready (graph_of n col_ptr.now row_idx.now cost.now) u.old work.old }
    requires fact_2 { j < n }
    ensures { let g = graph_of n col_ptr.now row_idx.now cost.now in
        Lowered g j u.old work.old u.new work.new }
{
    let least = LEAST * n;
    let start = col_ptr[j] as usize;
    let end = col_ptr[j + 1] as usize;
    for k in start..end {
        let i = row_idx[k] as usize;
        let column = work[i];
        let entry = work[least + i];
        let lowest = lower(cost[k], u[i]);
        let taken = cost[k] <= lowest;
        u[i] = lowest;
        work[i] = picked(taken, j as u32, column);
        work[least + i] = picked(taken, k as u32, entry);
    }
}

// Phase 1: u of a row is its smallest cost; the row's column and entry are kept for phase 2.
pub fn row_minima(
    n: usize,
    col_ptr: &[u32],
    row_idx: &[u32],
    cost: &[f64],
    u: &mut [f64],
    work: &mut [u32],
)
    requires { Ready (graph_of n col_ptr.now row_idx.now cost.now) u.old work.old }
    ensures { let g = graph_of n col_ptr.now row_idx.now cost.now in
        Minimal g u.new work.new }
{
    clear(n, u, work);
    for j in 0..n {
        lower_column(n, col_ptr, row_idx, cost, u, work, j);
    }
}

// Phase 2 at row i: it claims the column of its smallest cost, if that is free and not dense. The answer is the
// matched count.
fn claim(n: usize, col_ptr: &[u32], work: &mut [u32], i: usize, num: usize) -> usize
    requires fact_1 { Claimable n col_ptr.now work.old }
    requires fact_2 { i < n }
    requires fact_3 { num ≤ n }
    ensures { ClaimedRow n col_ptr.now work.old i num work.new result }
{
    let column = work[i];
    if column == NONE {
        return num;
    }
    let j = column as usize;
    work[i] = NONE;
    if work[n + j] != NONE {
        return num;
    }
    let col_len = (col_ptr[j + 1] - col_ptr[j]) as usize;
    if (col_len > n / 10) & (n > 50) {
        return num;
    }
    work[i] = column;
    work[n + j] = work[LEAST * n + i];
    num + 1
}

// Phase 2: rows upward.
pub fn claim_columns(n: usize, col_ptr: &[u32], work: &mut [u32]) -> usize
    requires { Claimable n col_ptr.now work.old }
    ensures { ClaimedRows n col_ptr.now work.old work.new result }
{
    let mut num: usize = 0;
    for i in 0..n {
        num = claim(n, col_ptr, work, i, num);
    }
    num
}
