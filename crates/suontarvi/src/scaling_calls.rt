// The chooser over the C interface, with native slices.
ghost use Rattle.slices.specs.Outcome.{outcome_is};
ghost use Rattle.sparse.specs.Matrix.{matrix};
ghost use Rattle.mc64_columns.specs.Graphs as Graphs;
ghost use Rattle.hungarian_match.specs.Call as Match;
ghost use Rattle.scaling.specs.Choice.{slices};
ghost use Rattle.suontarvi.specs.Scaling.{lent, ScalingPromises};

// The factors by the number of a strategy. Answers 0, and `info` has what was done, or the number of the refusal.
#[unsafe(no_mangle)]
pub extern "C" fn suontarvi_scaling(
    choice: u32,
    n: u32,
    col_ptr: &[u32],
    row_idx: &[u32],
    values: &[f64],
    external: &[f64],
    logs: &[f64],
    factors: &mut [f64],
    maxima: &mut [f64],
    graph_ptr: &mut [u32],
    graph_rows: &mut [u32],
    cost: &mut [f64],
    cmax: &mut [f64],
    graph_work: &mut [u32],
    perm: &mut [u32],
    u: &mut [f64],
    v: &mut [f64],
    match_work: &mut [u32],
    distances: &mut [f64],
    factor_work: &mut [u32],
    info: &mut [u32],
) -> u32
    ensures { let m = matrix n col_ptr.now row_idx.now values.now in
        let graph =
        Graphs.slices graph_ptr.old graph_rows.old cost.old cmax.old
        graph_work.old in
        let pairs = Match.slices perm.old u.old v.old match_work.old
        distances.old in
        let before = slices factors.old maxima.old graph pairs factor_work.old in
        let graphAfter =
        Graphs.slices graph_ptr.new graph_rows.new cost.new cmax.new
        graph_work.new in
        let pairs_after = Match.slices perm.new u.new v.new match_work.new
        distances.new in
        let after = slices factors.new maxima.new graphAfter pairs_after
        factor_work.new in
        ScalingPromises choice m external.now logs.now before info.old
        (outcome_is result (lent after info.new)) }
{
    // refused before any length is tested
    if choice == 4 {
        return u32::from(scaling::external_fault(n, row_idx.len()));
    }
    if info.len() != 2 {
        return u32::from(sparse::layout::length_fault(n, limits::MAX_SYMMETRIC, row_idx.len()));
    }
    if choice > 4 {
        return u32::from(scaling::no_choice(n, col_ptr, row_idx, values, factors));
    }
    let strategy = scaling::strategy_for(choice);
    let done = scaling::compute_scaling(
        strategy,
        n,
        col_ptr,
        row_idx,
        values,
        external,
        logs,
        factors,
        maxima,
        graph_ptr,
        graph_rows,
        cost,
        cmax,
        graph_work,
        perm,
        u,
        v,
        match_work,
        distances,
        factor_work,
    );
    refusal::answer(scaling::put_info(done, info))
}
