// How far a match, whoever made it, can be from the least total, over the C interface, with native slices.
ghost use Rattle.hungarian.specs.Graph.{graph_of};
ghost use Rattle.match_check.specs.Check.{claim};
ghost use Rattle.match_gap.specs.Call.{Promises as GapPromises};

// gap[0] gets a number of steps of 2 ^ -digits: the total of the pairs is at most that of every complete matching plus
// these, exactly. Answers 0 or the refusal; a refused call leaves the slice as it is.
#[unsafe(no_mangle)]
pub extern "C" fn suontarvi_match_gap(
    n: u32,
    digits: u32,
    col_ptr: &[u32],
    row_idx: &[u32],
    cost: &[f64],
    perm: &[u32],
    u: &[f64],
    v: &[f64],
    gap: &mut [u64],
) -> u32
    ensures { let g = graph_of n col_ptr.now row_idx.now cost.now in
        let c = claim perm.now u.now v.now in
        GapPromises digits g c gap.old result gap.new }
{
    refusal::answer(match_gap::match_gap(n, digits, col_ptr, row_idx, cost, perm, u, v, gap))
}
