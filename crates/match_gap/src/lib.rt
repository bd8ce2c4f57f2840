// How far a complete matching can be from the least total, whoever made it, for any costs: the sum over the columns of
// the excess of the duals over a cost and of their lack on the pair, in whole steps of 2 ^ -digits. Integers only.
#![tactic(auto)]

ghost use Rattle.std.specs.Prelude.{◌≡◌, cond, ◌+◌, ◌-◌, ◌*◌, ◌^◌, ◌≤◌, ◌<◌, eqb, length, get_or};
ghost use Rattle.std.specs.Float.{nan, binary64};
ghost use Rattle.std.specs.Float.Ieee.{of_bits};
ghost use Rattle.refusal.specs.Number.{number_of};
ghost use Rattle.float64.specs.Number.{magnitude};
ghost use Rattle.sparse.specs.Pattern.{pattern};
ghost use Rattle.hungarian.specs.Graph.{graph_of};
ghost use Rattle.match_check.specs.Check.{claim};
ghost use Rattle.match_gap.specs.Rounding.{zero_step, step, floor_in, ceiling_in, lower, upper};
ghost use Rattle.match_check.specs.inner.Steps.{AcceptedPattern};
ghost use Rattle.match_gap.specs.Gap.{gap_of, all_in_steps, pairs_fault, gap_fault};
ghost use Rattle.match_gap.specs.Call.{Promises};
ghost use Rattle.match_gap.specs.inner.Scans.{digits_of, scale_of, Measured, Shifted, InSteps, StepLimit};
ghost use Rattle.match_gap.specs.inner.Scans.{Scannable, Scanned, Measurable};

use hungarian_match::graph_test;
use match_check::{lengths_fit, pairing_fits};
use refusal::Refusal;

// The excess and the lack of a column, each 0 or above.
#[derive(Clone, Copy)]
struct Column {
    excess: u64,
    lack: u64,
}

// The most digits of a step.
const MAX_DIGITS: u32 = 50;

// The place of zero, and the most steps that a number may have.
const ORIGIN: u64 = 0x2_0000_0000_0000;

// 2 ^ 52, the bits of the smallest normal number, and the digit that its fraction leaves out.
const NORMAL: u64 = 0x10_0000_0000_0000;

// The bit of the sign.
const SIGN: u64 = 0x8000_0000_0000_0000;

// The digits of a finite double whose sign is not set.
fn digits_of(bits: u64) -> u64
    requires { bits < 2047 * 2 ^ 52 }
    ensures { (result ≡ digits_of bits) × (result < 2 ^ 53) }
{
    if bits < NORMAL {
        bits
    } else {
        bits % NORMAL + NORMAL
    }
}

// The power of two that the digits are counted in.
fn scale_of(bits: u64) -> u64
    ensures { result ≡ scale_of bits }
{
    if bits < NORMAL { 0 } else { bits / NORMAL - 1 }
}

// The shift from the digits to a step of 2 ^ unit units; 60 if no digit reaches it.
fn shift_of(bits: u64, unit: u64) -> u64
    requires { Measured bits unit }
    ensures { Shifted bits unit result }
{
    (unit - scale_of(bits)).min(60)
}

// A size in whole steps, rounded down.
fn floor_steps(bits: u64, unit: u64) -> u64
    requires { Measured bits unit }
    ensures { (result ≡ floor_in (2 ^ unit) (magnitude (of_bits binary64 bits))) × (result ≤ 2 ^ 49) }
{
    digits_of(bits) >> shift_of(bits, unit)
}

// A size in whole steps, rounded up.
fn ceiling_steps(bits: u64, unit: u64) -> u64
    requires { Measured bits unit }
    ensures { (result ≡ ceiling_in (2 ^ unit) (magnitude (of_bits binary64 bits))) × (result ≤ 2 ^ 49) }
{
    let shift = shift_of(bits, unit);
    let most = (1u64 << shift) - 1;
    (digits_of(bits) + most) >> shift
}

// The place of x, rounded down.
fn lower_place(x: f64, unit: u64) -> u64
    requires fact_1 { InSteps unit x }
    requires fact_2 { unit ≤ 1074 }
    ensures { (result ≡ lower (2 ^ unit) x) × (result ≤ 2 ^ 50) }
{
    let bits = f64::to_bits(x);
    if bits < SIGN {
        ORIGIN + floor_steps(bits, unit)
    } else {
        ORIGIN - ceiling_steps(bits - SIGN, unit)
    }
}

// The place of x, rounded up.
fn upper_place(x: f64, unit: u64) -> u64
    requires fact_1 { InSteps unit x }
    requires fact_2 { unit ≤ 1074 }
    ensures { (result ≡ upper (2 ^ unit) x) × (result ≤ 2 ^ 50) }
{
    2 * ORIGIN - lower_place(-x, unit)
}

// How far the sum of a, rounded up, and what has the place p is above that of b, rounded down, and what has the place q.
fn above(a: f64, p: u64, b: f64, q: u64, unit: u64) -> u64
    requires in_steps { (InSteps unit a) × (InSteps unit b) }
    requires unit_bound { (unit ≤ 1074) × ((p ≤ 2 ^ 50) × (q ≤ 2 ^ 50)) }
    ensures { (result ≡ upper (2 ^ unit) a + p - (lower (2 ^ unit) b + q)) × (result ≤ 2 ^ 50 + p) }
{
    (upper_place(a, unit) + p).saturating_sub(lower_place(b, unit) + q)
}

// How far the sum of the duals of an entry is below its cost, if it is its column's pair; `low` is the place of the
// column's dual, rounded down.
fn pair_lack(paired: bool, dual: f64, cost: f64, low: u64, unit: u64) -> u64
    requires in_steps_1 { InSteps unit dual }
    requires in_steps_2 { InSteps unit cost }
    requires unit_bound { (unit ≤ 1074) × (low ≤ 2 ^ 50) }
    ensures { (result ≡ cond paired
        (upper (2 ^ unit) cost + zero_step - (lower (2 ^ unit) dual + low)) 0) × (result ≤ 3 * 2 ^ 49) }
{
    if paired {
        above(cost, ORIGIN, dual, low, unit)
    } else {
        0
    }
}

// The entries of a column: the most by which a sum of duals exceeds its cost, and the lack of the pair's sum.
fn scan_column(
    row: u32,
    row_idx: &[u32],
    cost: &[f64],
    u: &[f64],
    dual: f64,
    unit: u64,
    from: usize,
    to: usize,
) -> Column
    requires fact_1 { Scannable unit from to row_idx.now cost.now u.now }
    requires fact_2 { InSteps unit dual }
    ensures { Scanned unit row row_idx.now cost.now u.now dual from to result }
{
    let high = upper_place(dual, unit);
    let low = lower_place(dual, unit);
    let mut excess: u64 = 0;
    let mut lack: u64 = 0;
    for k in from..to {
        let i = row_idx[k] as usize;
        excess = excess.max(above(u[i], high, cost[k], ORIGIN, unit));
        lack = lack.max(pair_lack(row_idx[k] == row, u[i], cost[k], low, unit));
    }
    Column { excess, lack }
}

// The gap: both, summed over the columns.
fn sum_columns(
    n: usize,
    col_ptr: &[u32],
    row_idx: &[u32],
    cost: &[f64],
    perm: &[u32],
    u: &[f64],
    v: &[f64],
    unit: u64,
) -> u64
    requires { Measurable unit n col_ptr.now row_idx.now cost.now (claim perm.now u.now v.now) }
    ensures { let g = graph_of n col_ptr.now row_idx.now cost.now in
        result ≡ gap_of (2 ^ unit) g (claim perm.now u.now v.now) }
{
    let mut gap: u64 = 0;
    for j in 0..n {
        let to = col_ptr[j + 1] as usize;
        let column = scan_column(
            perm[j],
            row_idx,
            cost,
            u,
            v[j],
            unit,
            col_ptr[j] as usize,
            to,
        );
        gap += column.excess + column.lack;
    }
    gap
}

// The largest number that does not have too many steps.
fn step_limit(digits: u32) -> f64
    requires { digits ≤ 50 }
    ensures { StepLimit digits result }
{
    f64::from_bits(((1072 - digits) as u64) << 52)
}

// Whether no number has too many steps.
fn all_in_steps(list: &[f64], limit: f64, digits: u32) -> bool
    requires { StepLimit digits limit }
    ensures { result ≡ all_in_steps (step digits) list.now }
{
    let mut fine = true;
    for &x in list {
        fine &= (x >= -limit) & (x <= limit);
    }
    fine
}

// 30 or 31: the first fault of a pairing and its duals on an accepted graph.
fn pairs_fault(
    n: u32,
    col_ptr: &[u32],
    row_idx: &[u32],
    perm: &[u32],
    u: &[f64],
    v: &[f64],
    limit: f64,
    digits: u32,
) -> Result<(), Refusal>
    requires accepted_pattern_1 { AcceptedPattern n col_ptr.now row_idx.now }
    requires accepted_pattern_2 { length perm.now ≡ n }
    requires step_limit { StepLimit digits limit }
    ensures { let p = pattern n col_ptr.now row_idx.now in
        number_of result ≡ pairs_fault (step digits) p (claim perm.now u.now v.now) }
{
    if !pairing_fits(n, col_ptr, row_idx, perm) {
        return Err(Refusal::IncompleteMatching);
    }
    let rows = all_in_steps(u, limit, digits);
    let columns = all_in_steps(v, limit, digits);
    if !(rows & columns) {
        return Err(Refusal::InfeasibleDuals);
    }
    Ok(())
}

// The first fault of the call.
fn gap_fault(
    n: u32,
    digits: u32,
    col_ptr: &[u32],
    row_idx: &[u32],
    cost: &[f64],
    perm: &[u32],
    u: &[f64],
    v: &[f64],
    gap: &[u64],
) -> Result<(), Refusal>
    ensures { let g = graph_of n col_ptr.now row_idx.now cost.now in
        let c = claim perm.now u.now v.now in
        number_of result ≡ gap_fault digits g c gap.now }
{
    if digits > MAX_DIGITS {
        return Err(Refusal::IndexRange);
    }
    let lengths = lengths_fit(n as usize, col_ptr, row_idx, cost, perm, u, v) & (gap.len() == 1);
    graph_test::graph_fault(n, col_ptr, row_idx, cost, lengths)?;
    let limit = step_limit(digits);
    if !all_in_steps(cost, limit, digits) {
        return Err(Refusal::CostRange);
    }
    pairs_fault(n, col_ptr, row_idx, perm, u, v, limit, digits)
}

// Bounds how far a complete pairing is from the least total, whoever made it and its duals: the total of the pairs is
// at most that of every complete matching plus gap[0] steps of 2 ^ -digits, exactly.
pub fn match_gap(
    n: u32,
    digits: u32,
    col_ptr: &[u32],
    row_idx: &[u32],
    cost: &[f64],
    perm: &[u32],
    u: &[f64],
    v: &[f64],
    gap: &mut [u64],
) -> Result<(), Refusal>
    ensures { let g = graph_of n col_ptr.now row_idx.now cost.now in
        let c = claim perm.now u.now v.now in
        Promises digits g c gap.old (number_of result) gap.new }
{
    gap_fault(n, digits, col_ptr, row_idx, cost, perm, u, v, gap)?;
    let unit = (1074 - digits) as u64;
    gap[0] = sum_columns(n as usize, col_ptr, row_idx, cost, perm, u, v, unit);
    Ok(())
}
