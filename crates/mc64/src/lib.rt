// MC64 scaling of a symmetric matrix: its cost graph, the match of the graph, and the log factors.
#![tactic(auto)]

ghost use Rattle.std.specs.Prelude.{◌≡◌};
ghost use Rattle.refusal.specs.Number.{numbered};
ghost use Rattle.sparse.specs.Matrix.{matrix};
ghost use Rattle.hungarian.specs.Graph.{graph_of};
ghost use Rattle.hungarian_match.specs.Call as Match;
ghost use Rattle.mc64_columns.specs.Graphs as Graphs;
ghost use Rattle.factors_mc64.specs.Calls as Factors;
ghost use Rattle.mc64.specs.Call.{scaling_slices, rest_lengths, Promises};
ghost use Rattle.mc64.specs.inner.Steps.{Ready, Scales};

use factors_mc64::Scaled;
use refusal::Refusal;
use sparse::layout;

// Whether the slices of the match and of the factors have their lengths.
fn rest_fits(
    n: u32,
    perm: &[u32],
    u: &[f64],
    v: &[f64],
    match_work: &[u32],
    distances: &[f64],
    factors: &[f64],
    factor_work: &[u32],
) -> bool
    ensures { let pairs = Match.slices perm.now u.now v.now match_work.now
        distances.now in
        let scaled = Factors.slices factors.now factor_work.now in
        result ≡ rest_lengths n pairs scaled }
{
    let size = n as usize;
    let scaled = (factors.len() == size) & (factor_work.len() == size);
    let room = (match_work.len() == 12 * size + 1) & ((distances.len() == 2 * size) & scaled);
    (perm.len() == size) & ((u.len() == size) & ((v.len() == size) & room))
}

// The match of a built graph, which is accepted, and the log factors of the match.
fn match_and_scale(
    n: u32,
    graph_ptr: &[u32],
    graph_rows: &[u32],
    cost: &[f64],
    cmax: &[f64],
    perm: &mut [u32],
    u: &mut [f64],
    v: &mut [f64],
    match_work: &mut [u32],
    distances: &mut [f64],
    factors: &mut [f64],
    factor_work: &mut [u32],
) -> Scaled
    requires { let g = graph_of n graph_ptr.now graph_rows.now cost.now in
        let pairs = Match.slices perm.old u.old v.old match_work.old distances.old in
        Ready g cmax.now pairs (Factors.slices factors.old factor_work.old) }
    ensures { let g = graph_of n graph_ptr.now graph_rows.now cost.now in
        let before = Match.slices perm.old u.old v.old match_work.old
        distances.old in
        let after = Match.slices perm.new u.new v.new match_work.new
        distances.new in
        let scaled = Factors.slices factors.new factor_work.new in
        Scales g cmax.now before after scaled result }
{
    let found = hungarian_match::solve(
        n as usize, graph_ptr, graph_rows, cost, perm, u, v, match_work, distances,
    );
    factors_mc64::write_factors(n as usize, perm, u, v, cmax, factors, factor_work);
    factors_mc64::answer(n, found.matched as u32)
}

// The log factors of a symmetric matrix.
pub fn compute_symmetric(
    n: u32,
    col_ptr: &[u32],
    row_idx: &[u32],
    values: &[f64],
    logs: &[f64],
    graph_ptr: &mut [u32],
    graph_rows: &mut [u32],
    cost: &mut [f64],
    cmax: &mut [f64],
    graph_work: &mut [u32],
    perm: &mut [u32],
    u: &mut [f64],
    v: &mut [f64],
    match_work: &mut [u32],
    distances: &mut [f64],
    factors: &mut [f64],
    factor_work: &mut [u32],
) -> Result<Scaled, Refusal>
    ensures { let m = matrix n col_ptr.now row_idx.now values.now in
        let graph = Graphs.slices graph_ptr.old graph_rows.old cost.old
        cmax.old graph_work.old in
        let pairs = Match.slices perm.old u.old v.old match_work.old
        distances.old in
        let before = scaling_slices graph pairs (Factors.slices factors.old factor_work.old) in
        let graphAfter = Graphs.slices graph_ptr.new graph_rows.new cost.new
        cmax.new graph_work.new in
        let pairs_after = Match.slices perm.new u.new v.new match_work.new
        distances.new in
        let after = scaling_slices graphAfter pairs_after (Factors.slices factors.new
        factor_work.new) in
        Promises m logs.now before (numbered result) after }
{
    let fit = rest_fits(n, perm, u, v, match_work, distances, factors, factor_work);
    if !fit {
        return Err(layout::length_fault(n, limits::MAX_SYMMETRIC, row_idx.len()));
    }
    let kept = mc64_symmetric::build_cost_graph(
        n, col_ptr, row_idx, values, logs, graph_ptr, graph_rows, cost, cmax, graph_work,
    )?;
    let end = kept as usize;
    let scaled = match_and_scale(
        n,
        graph_ptr,
        &graph_rows[..end],
        &cost[..end],
        cmax,
        perm,
        u,
        v,
        match_work,
        distances,
        factors,
        factor_work,
    );
    Ok(scaled)
}
