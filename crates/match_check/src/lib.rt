// The check of a match that others made: a pairing with whole duals against its graph, without a search. The loops of
// the tests have no early exit.
#![tactic(auto)]

ghost use Rattle.std.specs.Prelude.{◌≡◌, Bool, ◌+◌, ◌-◌, ◌^◌, ◌≤◌, ◌<◌, T, eqb, length, get_or, replicate, Float};
ghost use Rattle.std.specs.Float.{nan, binary64};
ghost use Rattle.std.specs.Float.Ieee.{add};
ghost use Rattle.refusal.specs.Number.{number_of};
ghost use Rattle.limits.specs.Limits.{max_columns};
ghost use Rattle.sparse.specs.Pattern.{pattern};
ghost use Rattle.hungarian.specs.Graph.{graph_of};
ghost use Rattle.match_check.specs.Check.{every_of, has_row, rows_below, rows_once, pairs_stand, pairing_fits};
ghost use Rattle.match_check.specs.Check.{small_whole, small_wholes, duals_hold, claim};
ghost use Rattle.match_check.specs.Check.{check_lengths, claim_fault};
ghost use Rattle.match_check.specs.Call.{Promises};
ghost use Rattle.match_check.specs.inner.Steps.{AcceptedPattern, Stretch, Checkable, sums_hold};

use hungarian_match::graph_test;
use refusal::Refusal;

// 2^50, the largest size of a dual.
const DUAL_LIMIT: f64 = 1125899906842624.0;

// 3 · 2^51: a sum with it has no digits left for a fraction.
const SHIFT: f64 = 6755399441055744.0;

// Whether every slice has its length.
pub fn lengths_fit(
    n: usize,
    col_ptr: &[u32],
    row_idx: &[u32],
    cost: &[f64],
    perm: &[u32],
    u: &[f64],
    v: &[f64],
) -> bool
    requires { n < 2 ^ 32 }
    ensures { let g = graph_of n col_ptr.now row_idx.now cost.now in
        let s = claim perm.now u.now v.now in
        result ≡ check_lengths g s }
{
    let graph = (col_ptr.len() == n + 1) & (cost.len() == row_idx.len());
    graph & ((perm.len() == n) & ((u.len() == n) & (v.len() == n)))
}

// Whether x is whole and at most 2^50 in size.
fn small_whole(x: f64) -> bool
    ensures { result ≡ small_whole x }
{
    ((x >= -DUAL_LIMIT) & (x <= DUAL_LIMIT)) & ((x + SHIFT) - SHIFT == x)
}

// Whether each dual is whole and at most 2^50 in size.
fn small_wholes(list: &[f64]) -> bool
    ensures { result ≡ small_wholes list.now }
{
    let mut fine = true;
    for &x in list {
        fine &= small_whole(x);
    }
    fine
}

// Whether each row is below n.
fn rows_below(n: u32, perm: &[u32]) -> bool
    requires { length perm.now ≡ n }
    ensures { result ≡ rows_below n perm.now }
{
    let mut fine = true;
    for &row in perm {
        fine &= row < n;
    }
    fine
}

// Whether no row occurs twice. Rows seen are marked.
fn rows_once(perm: &[u32], seen: &mut [u8]) -> bool
    requires t { T (rows_below (length perm.now) perm.now) }
    requires perm_len_bound { (length perm.now ≤ max_columns) × (seen.old ≡ replicate max_columns 0) }
    ensures { result ≡ rows_once (length perm.now) perm.now }
{
    let mut fine = true;
    for &row in perm {
        fine &= seen[row as usize] == 0;
        seen[row as usize] = 1;
    }
    fine
}

// Whether one of the entries is in this row.
pub fn has_row(row: u32, row_idx: &[u32], from: usize, to: usize) -> bool
    requires { (from ≤ to) × (to ≤ length row_idx.now) }
    ensures { result ≡ has_row row_idx.now row from to }
{
    let mut found = false;
    for &entry in &row_idx[from..to] {
        found |= entry == row;
    }
    found
}

// Whether each column has an entry in its row.
fn pairs_stand(n: usize, col_ptr: &[u32], row_idx: &[u32], perm: &[u32]) -> bool
    requires fact_1 { AcceptedPattern n col_ptr.now row_idx.now }
    requires fact_2 { length perm.now ≡ n }
    ensures { let p = pattern n col_ptr.now row_idx.now in
        result ≡ pairs_stand p perm.now }
{
    let mut fine = true;
    for j in 0..n {
        fine &= has_row(
            perm[j],
            row_idx,
            col_ptr[j] as usize,
            col_ptr[j + 1] as usize,
        );
    }
    fine
}

// Whether the pairs are a complete matching.
pub fn pairing_fits(n: u32, col_ptr: &[u32], row_idx: &[u32], perm: &[u32]) -> bool
    requires fact_1 { AcceptedPattern n col_ptr.now row_idx.now }
    requires fact_2 { length perm.now ≡ n }
    ensures { let p = pattern n col_ptr.now row_idx.now in
        result ≡ pairing_fits p perm.now }
{
    if !rows_below(n, perm) {
        return false;
    }
    let mut seen = [0u8; limits::COLUMN_ROOM];
    if !rows_once(perm, &mut seen) {
        return false;
    }
    pairs_stand(n as usize, col_ptr, row_idx, perm)
}

// Whether a test holds of each entry of a column: of whether it is the column's pair, its sum of duals, and its cost.
fn column_holds<F: Fn(bool, f64, f64) -> bool>(
    pair: u32,
    row_idx: &[u32],
    cost: &[f64],
    u: &[f64],
    dual: f64,
    from: usize,
    to: usize,
    test: &F,
) -> bool
    ghost holds: { Bool → Float → Float → Bool }
    requires stretch { Stretch from to row_idx.now cost.now u.now }
    requires callable { F.IsAlwaysCallable test.now }
    requires gives { (paired : Bool) (sum entry : Float) (r : Bool) → F.post test.now paired sum entry r
        → r ≡ holds paired sum entry }
    ensures { result ≡ every_of (to - from)
        (λ k. holds (eqb (get_or row_idx.now k 0) pair) (add binary64 (get_or u.now (get_or row_idx.now k 0) nan) dual)
        (get_or cost.now k nan)) from }
{
    let mut fine = true;
    for k in from..to {
        let row = row_idx[k];
        fine &= test(row == pair, u[row as usize] + dual, cost[k]);
    }
    fine
}

// Whether it holds of each entry of the graph.
fn sums_hold<F: Fn(bool, f64, f64) -> bool>(
    n: usize,
    col_ptr: &[u32],
    row_idx: &[u32],
    cost: &[f64],
    perm: &[u32],
    u: &[f64],
    v: &[f64],
    test: F,
) -> bool
    ghost holds: { Bool → Float → Float → Bool }
    requires lists { Checkable n col_ptr.now row_idx.now cost.now (claim perm.now u.now v.now) }
    requires callable { F.IsAlwaysCallable test }
    requires gives { (paired : Bool) (sum entry : Float) (r : Bool) → F.post test paired sum entry r
        → r ≡ holds paired sum entry }
    ensures { let g = graph_of n col_ptr.now row_idx.now cost.now in
        result ≡ sums_hold holds g (claim perm.now u.now v.now) }
{
    let mut fine = true;
    for j in 0..n {
        let end = col_ptr[j + 1] as usize;
        fine &= column_holds(
            perm[j],
            row_idx,
            cost,
            u,
            v[j],
            col_ptr[j] as usize,
            end,
            &test,
        );
    }
    fine
}

// Whether the duals are whole and small, and no sum is above a cost.
fn duals_hold(
    n: usize,
    col_ptr: &[u32],
    row_idx: &[u32],
    cost: &[f64],
    perm: &[u32],
    u: &[f64],
    v: &[f64],
) -> bool
    requires { Checkable n col_ptr.now row_idx.now cost.now (claim perm.now u.now v.now) }
    ensures { let g = graph_of n col_ptr.now row_idx.now cost.now in
        result ≡ duals_hold g (claim perm.now u.now v.now) }
{
    let rows = small_wholes(u);
    let columns = small_wholes(v);
    let sums = sums_hold(
        n,
        col_ptr,
        row_idx,
        cost,
        perm,
        u,
        v,
        |_, sum, entry| sum <= entry,
    );
    rows & (columns & sums)
}

// 30, 31 or 32: the first fault of a claim on an accepted graph.
fn claim_fault(
    n: u32,
    col_ptr: &[u32],
    row_idx: &[u32],
    cost: &[f64],
    perm: &[u32],
    u: &[f64],
    v: &[f64],
) -> Result<(), Refusal>
    requires { Checkable n col_ptr.now row_idx.now cost.now (claim perm.now u.now v.now) }
    ensures { let g = graph_of n col_ptr.now row_idx.now cost.now in
        number_of result ≡ claim_fault g (claim perm.now u.now v.now) }
{
    let size = n as usize;
    if !pairing_fits(n, col_ptr, row_idx, perm) {
        return Err(Refusal::IncompleteMatching);
    }
    if !duals_hold(size, col_ptr, row_idx, cost, perm, u, v) {
        return Err(Refusal::InfeasibleDuals);
    }
    let reached = |paired: bool, sum: f64, entry: f64| !paired | (sum >= entry);
    if !sums_hold(size, col_ptr, row_idx, cost, perm, u, v, reached) {
        return Err(Refusal::LoosePair);
    }
    Ok(())
}

// Checks a pairing with duals of rows and columns, whoever made them, against a cost graph by columns: whether it is a
// complete matching of least total, and the duals show it.
pub fn check_match(
    n: u32,
    col_ptr: &[u32],
    row_idx: &[u32],
    cost: &[f64],
    perm: &[u32],
    u: &[f64],
    v: &[f64],
) -> Result<(), Refusal>
    ensures { let g = graph_of n col_ptr.now row_idx.now cost.now in
        let s = claim perm.now u.now v.now in
        Promises g s (number_of result) }
{
    let lengths = lengths_fit(n as usize, col_ptr, row_idx, cost, perm, u, v);
    graph_test::graph_fault(n, col_ptr, row_idx, cost, lengths)?;
    if !small_wholes(cost) {
        return Err(Refusal::CostRange);
    }
    claim_fault(n, col_ptr, row_idx, cost, perm, u, v)
}
