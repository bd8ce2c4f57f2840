// Log factors by a rule for the unmatched indices: the identity rule gives them 0, Duff and Pralet's leaves them flat.
#![tactic(auto)]

ghost use Rattle.std.specs.Prelude.{◌≡◌, true, ◌+◌, ◌-◌, ◌^◌, ◌≤◌, ◌<◌, eqb, length, get_or, replicate};
ghost use Rattle.limits.specs.Limits.{max_columns};
ghost use Rattle.refusal.specs.Number.{number, number_of, numbered};
ghost use Rattle.slices.specs.Outcome.{outcome_is};
ghost use Rattle.sparse.specs.Fault.{or_else};
ghost use Rattle.sparse.specs.Matrix.{matrix};
ghost use Rattle.matching.specs.Match.{match_of};
ghost use Rattle.mc64_symmetric.specs.Call.{input_fault};
ghost use Rattle.factors_mc64.specs.Calls.{slices, matching_fault};
ghost use Rattle.factors_mc64.specs.inner.Steps.{Accepted};
ghost use Rattle.factors_flat.specs.Flat.{input, flat_factors};
ghost use Rattle.factors_flat.specs.Call.{flat_lengths, flat_outcome, Promises};
ghost use Rattle.factors_flat.specs.ByNumber.{rule_by, unfit_fault, NumberPromises};
ghost use Rattle.factors_flat.specs.inner.Steps.{Levelled, no_sums, MarkedTo, Ready, Enters};
ghost use Rattle.factors_flat.specs.inner.Steps.{raised_to, raised_at, entered, turned, turned_all};

use factors_mc64::Scaled;
use limits::NONE;
use refusal::Refusal;
use sparse::layout;

// The factor of an unmatched index: 0, or one that leaves its largest entry to a matched index flat.
#[derive(Clone, Copy)]
pub enum Rule {
    Identity,
    Flat,
}

// Whether every slice of the flat rule has its length.
fn lengths_fit(
    n: usize,
    perm: &[u32],
    u: &[f64],
    v: &[f64],
    cmax: &[f64],
    col_ptr: &[u32],
    row_idx: &[u32],
    values: &[f64],
    logs: &[f64],
    factors: &[f64],
    work: &[u32],
) -> bool
    requires { n < 2 ^ 32 }
    ensures { let c = match_of perm.now u.now v.now cmax.now in
        let m = matrix n col_ptr.now row_idx.now values.now in
        let before = slices factors.now work.now in
        result ≡ flat_lengths (input c m logs.now) before }
{
    let count = row_idx.len();
    let held = factors_mc64::lengths_fit(n, perm, u, v, cmax, factors, work);
    (col_ptr.len() == n + 1) & ((values.len() == count) & ((logs.len() == count) & held))
}

// Refusals 1 to 7, per entry 9 and 8, then 10 of the flat rule.
fn call_fault(
    n: u32,
    matched: u32,
    perm: &[u32],
    col_ptr: &[u32],
    row_idx: &[u32],
    values: &[f64],
    logs: &[f64],
    lengths: bool,
) -> Result<(), Refusal>
    requires { lengths ≡ true → length logs.now ≡ length values.now }
    ensures { let m = matrix n col_ptr.now row_idx.now values.now in
        number_of result ≡ or_else (input_fault m logs.now lengths) (matching_fault n matched perm.now) }
{
    mc64_symmetric::input_fault(n, col_ptr, row_idx, values, logs, lengths)?;
    factors_mc64::matching_fault(n, matched, perm)
}

// From the marks of the matched rows to those of the matched indices.
fn mark_matched(n: usize, perm: &[u32], cmax: &[f64], work: &mut [u32])
    requires perm_len { (length perm.now ≡ n) × (length cmax.now ≡ n) }
    requires n_le_max_columns { (n ≤ max_columns) × MarkedTo n perm.now cmax.now 0 work.old }
    ensures { MarkedTo n perm.now cmax.now n work.new }
{
    for i in 0..n {
        let both = (perm[i] != NONE) & (work[i] == 1);
        let bounded = float64::is_finite(cmax[i]);
        work[i] = (bounded & both) as u32;
    }
}

// The factors of the matched indices, and the marks.
fn fill_matched(
    n: usize,
    perm: &[u32],
    u: &[f64],
    v: &[f64],
    cmax: &[f64],
    factors: &mut [f64],
    work: &mut [u32],
)
    requires { Accepted n (match_of perm.now u.now v.now cmax.now) (slices factors.old work.old) }
    ensures { let c = match_of perm.now u.now v.now cmax.now in
        Levelled n c no_sums (slices factors.new work.new) }
{
    slices::fill(work, 0);
    factors_mc64::mark_rows(n, perm, work);
    factors_mc64::fill_factors(n, perm, u, v, cmax, factors, work);
    mark_matched(n, perm, cmax, work);
}

// The larger of the sum so far and another. The first sum counts, a later one only if it is strictly larger.
fn raised(mark: u32, best: f64, sum: f64) -> f64
    ensures { result ≡ raised_to mark best sum }
{
    if (mark == 0) | (best < sum) {
        sum
    } else {
        best
    }
}

// An entry to the matched index `from` counts for `to`.
fn raise(to: usize, from: usize, log: f64, factors: &mut [f64], work: &mut [u32])
    requires to_in_bounds { (to < length factors.old) × (from < length factors.old) }
    requires work_len { length work.old ≡ length factors.old }
    ensures { let before = slices factors.old work.old in
        slices factors.new work.new ≡ raised_at to from log before }
{
    let sum = log + factors[from];
    factors[to] = raised(work[to], factors[to], sum);
    work[to] = 2;
}

// An entry of row i and column j counts for its unmatched end if the other one is matched.
fn enter(i: usize, j: usize, log: f64, factors: &mut [f64], work: &mut [u32])
    requires i_in_bounds { (i < length factors.old) × (j < length factors.old) }
    requires work_len { length work.old ≡ length factors.old }
    ensures { let before = slices factors.old work.old in
        let row = eqb (get_or work.old i 0) 1 in
        let column = eqb (get_or work.old j 0) 1 in
        slices factors.new work.new ≡ entered row column i j log before }
{
    match (work[i] == 1, work[j] == 1) {
        (true, false) => raise(j, i, log, factors, work),
        (false, true) => raise(i, j, log, factors, work),
        _ => {}
    }
}

// The kept entries of column j of the triangle.
fn enter_column(
    j: usize,
    col_ptr: &[u32],
    row_idx: &[u32],
    values: &[f64],
    logs: &[f64],
    factors: &mut [f64],
    work: &mut [u32],
)
    requires j_in_bounds { (j < length factors.old) × (length work.old ≡ length factors.old) }
    requires fact { let m = matrix (length factors.old) col_ptr.now row_idx.now values.now in
        Ready m logs.now }
    ensures { let m = matrix (length factors.old) col_ptr.now row_idx.now
        values.now in
        let from = get_or col_ptr.now j 0 in
        let to = get_or col_ptr.now (j + 1) 0 in
        let before = slices factors.old work.old in
        let after = slices factors.new work.new in
        Enters m logs.now from to before after }
{
    for k in col_ptr[j] as usize..col_ptr[j + 1] as usize {
        if values[k] == 0.0 {
            continue;
        }
        enter(row_idx[k] as usize, j, logs[k], factors, work);
    }
}

// All kept entries, in stored order: each column of the graph gets its own in column order.
fn enter_entries(
    n: usize,
    col_ptr: &[u32],
    row_idx: &[u32],
    values: &[f64],
    logs: &[f64],
    factors: &mut [f64],
    work: &mut [u32],
)
    requires factors_len { (length factors.old ≡ n) × (length work.old ≡ n) }
    requires ready { Ready (matrix n col_ptr.now row_idx.now values.now) logs.now }
    ensures { let m = matrix n col_ptr.now row_idx.now values.now in
        let before = slices factors.old work.old in
        let after = slices factors.new work.new in
        Enters m logs.now 0 (length row_idx.now) before after }
{
    for j in 0..n {
        enter_column(j, col_ptr, row_idx, values, logs, factors, work);
    }
}

// The factor of the largest sum.
fn turn(mark: u32, x: f64) -> f64
    ensures { result ≡ turned mark x }
{
    if mark == 2 {
        return float64::clamp_log(-x);
    }
    x
}

// Each largest sum becomes a factor.
fn turn_sums(n: usize, factors: &mut [f64], work: &[u32])
    requires { (length factors.old ≡ n) × (length work.now ≡ n) }
    ensures { factors.new ≡ turned_all n (slices factors.old work.now) }
{
    for i in 0..n {
        factors[i] = turn(work[i], factors[i]);
    }
}

// The factors of an accepted call by the flat rule, and cleared work.
fn write_flat(
    n: usize,
    perm: &[u32],
    u: &[f64],
    v: &[f64],
    cmax: &[f64],
    col_ptr: &[u32],
    row_idx: &[u32],
    values: &[f64],
    logs: &[f64],
    factors: &mut [f64],
    work: &mut [u32],
)
    requires accepted { Accepted n (match_of perm.now u.now v.now cmax.now) (slices factors.old work.old) }
    requires ready { Ready (matrix n col_ptr.now row_idx.now values.now) logs.now }
    ensures { let c = match_of perm.now u.now v.now cmax.now in
        let m = matrix n col_ptr.now row_idx.now values.now in
        let after = slices factors.new work.new in
        after ≡ slices (flat_factors (input c m logs.now)) (replicate n 0) }
{
    fill_matched(n, perm, u, v, cmax, factors, work);
    enter_entries(n, col_ptr, row_idx, values, logs, factors, work);
    turn_sums(n, factors, work);
    slices::fill(work, 0); // SPECIFICATION 3.3: an accepted call leaves its work zero
}

// The log factors by Duff and Pralet's rule.
fn flat_factors(
    n: u32,
    matched: u32,
    perm: &[u32],
    u: &[f64],
    v: &[f64],
    cmax: &[f64],
    col_ptr: &[u32],
    row_idx: &[u32],
    values: &[f64],
    logs: &[f64],
    factors: &mut [f64],
    work: &mut [u32],
) -> Result<Scaled, Refusal>
    ensures { let c = match_of perm.now u.now v.now cmax.now in
        let m = matrix n col_ptr.now row_idx.now values.now in
        let before = slices factors.old work.old in
        let after = slices factors.new work.new in
        outcome_is (numbered result) after ≡ flat_outcome matched (input c m logs.now) before }
{
    let size = n as usize;
    let fit = lengths_fit(
        size, perm, u, v, cmax, col_ptr, row_idx, values, logs, factors, work,
    );
    call_fault(n, matched, perm, col_ptr, row_idx, values, logs, fit)?;
    write_flat(
        size, perm, u, v, cmax, col_ptr, row_idx, values, logs, factors, work,
    );
    Ok(factors_mc64::answer(n, matched))
}

// One log factor for each row and its column, by the rule. The identity rule is `log_factors` and reads no matrix.
pub fn log_factors_by_rule(
    rule: Rule,
    n: u32,
    matched: u32,
    perm: &[u32],
    u: &[f64],
    v: &[f64],
    cmax: &[f64],
    col_ptr: &[u32],
    row_idx: &[u32],
    values: &[f64],
    logs: &[f64],
    factors: &mut [f64],
    work: &mut [u32],
) -> Result<Scaled, Refusal>
    ensures { let c = match_of perm.now u.now v.now cmax.now in
        let m = matrix n col_ptr.now row_idx.now values.now in
        let before = slices factors.old work.old in
        let after = slices factors.new work.new in
        Promises rule matched (input c m logs.now) before (numbered result) after }
{
    match rule {
        Rule::Identity => factors_mc64::log_factors(n, matched, perm, u, v, cmax, factors, work),
        Rule::Flat => flat_factors(
            n, matched, perm, u, v, cmax, col_ptr, row_idx, values, logs, factors, work,
        ),
    }
}

// The rule of a number, 0 or 1; refusal 5 of any other.
fn rule_for(number: u32) -> Result<Rule, Refusal>
    ensures { numbered result ≡ rule_by number }
{
    match number {
        0 => Ok(Rule::Identity),
        1 => Ok(Rule::Flat),
        _ => Err(Refusal::IndexRange),
    }
}

// The fault of a call by the rule whose lengths are wrong.
fn unfit_fault(rule: Rule, n: u32, entries: usize) -> Refusal
    ensures { number result ≡ unfit_fault rule n entries }
{
    match rule {
        Rule::Identity => layout::length_fault(n, 0, 0),
        Rule::Flat => layout::length_fault(n, limits::MAX_SYMMETRIC, entries),
    }
}

// The same by the number of a rule: `unmatched` gets the count of unmatched columns.
pub fn factors_by_number(
    number: u32,
    n: u32,
    matched: u32,
    perm: &[u32],
    u: &[f64],
    v: &[f64],
    cmax: &[f64],
    col_ptr: &[u32],
    row_idx: &[u32],
    values: &[f64],
    logs: &[f64],
    factors: &mut [f64],
    work: &mut [u32],
    unmatched: &mut [u32],
) -> Result<(), Refusal>
    ensures { let c = match_of perm.now u.now v.now cmax.now in
        let m = matrix n col_ptr.now row_idx.now values.now in
        let g = input c m logs.now in
        let before = slices factors.old work.old in
        let after = slices factors.new work.new in
        NumberPromises number matched g before unmatched.old (number_of result) after unmatched.new }
{
    let rule = rule_for(number)?;
    if unmatched.len() != 1 {
        return Err(unfit_fault(rule, n, row_idx.len()));
    }
    let scaled = log_factors_by_rule(
        rule, n, matched, perm, u, v, cmax, col_ptr, row_idx, values, logs, factors, work,
    )?;
    unmatched[0] = match scaled {
        Scaled::Applied => 0,
        Scaled::PartialSingular(count) => count,
    };
    Ok(())
}
