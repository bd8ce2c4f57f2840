// The check of a match that others made, over the C interface, with native slices.
ghost use Rattle.hungarian.specs.Graph.{graph_of};
ghost use Rattle.match_check.specs.Check.{claim};
ghost use Rattle.suontarvi.specs.Check.{CheckPromises};

// Checks whether a pairing with duals is a complete matching of least total and the duals show it. Answers 0 or the
// refusal; nothing is written.
#[unsafe(no_mangle)]
pub extern "C" fn suontarvi_check_match(
    n: u32,
    col_ptr: &[u32],
    row_idx: &[u32],
    cost: &[f64],
    perm: &[u32],
    u: &[f64],
    v: &[f64],
) -> u32
    ensures { let g = graph_of n col_ptr.now row_idx.now cost.now in
        let s = claim perm.now u.now v.now in
        CheckPromises g s result }
{
    refusal::answer(match_check::check_match(n, col_ptr, row_idx, cost, perm, u, v))
}
