// The log factors by a rule for the unmatched indices over the C interface, with native slices.
ghost use Rattle.sparse.specs.Matrix.{matrix};
ghost use Rattle.matching.specs.Match.{match_of};
ghost use Rattle.factors_mc64.specs.Calls.{slices};
ghost use Rattle.factors_flat.specs.Flat.{input};
ghost use Rattle.factors_flat.specs.ByNumber.{NumberPromises};

// Symmetric: one log factor of each row and its column. Rule 0 gives unmatched indices 0 and reads no matrix, rule 1
// leaves them flat. Answers 0, and `unmatched` has the count of unmatched columns, or the number of the refusal.
#[unsafe(no_mangle)]
pub extern "C" fn suontarvi_log_factors_by_rule(
    rule: u32,
    n: u32,
    matched: u32,
    perm: &[u32],
    u: &[f64],
    v: &[f64],
    cmax: &[f64],
    col_ptr: &[u32],
    row_idx: &[u32],
    values: &[f64],
    logs: &[f64],
    factors: &mut [f64],
    work: &mut [u32],
    unmatched: &mut [u32],
) -> u32
    ensures { let c = match_of perm.now u.now v.now cmax.now in
        let m = matrix n col_ptr.now row_idx.now values.now in
        let g = input c m logs.now in
        let before = slices factors.old work.old in
        let after = slices factors.new work.new in
        NumberPromises rule matched g before unmatched.old result after unmatched.new }
{
    refusal::answer(factors_flat::factors_by_number(
        rule, n, matched, perm, u, v, cmax, col_ptr, row_idx, values, logs, factors, work,
        unmatched,
    ))
}
