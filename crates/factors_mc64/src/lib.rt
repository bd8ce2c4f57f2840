// Log factors: the Rust's scaling factors before `exp`.
#![tactic(auto)]

ghost use Rattle.std.specs.Prelude.{◌≡◌, ◌-◌, ◌≤◌, length, replicate};
ghost use Rattle.limits.specs.Limits.{max_columns};
ghost use Rattle.refusal.specs.Number.{number_of, numbered};
ghost use Rattle.sparse.specs.Fault.{or_else};
ghost use Rattle.matching.specs.Match.{match_of};
ghost use Rattle.factors_mc64.specs.Factors.{log_factor, held, symmetric_factors, row_factors, column_factors};
ghost use Rattle.factors_mc64.specs.Calls.{slices, sizes, lengths, row_or_none, matching_fault};
ghost use Rattle.factors_mc64.specs.Calls.{applied_or_partial};
ghost use Rattle.factors_mc64.specs.Calls.{side_lengths};
ghost use Rattle.factors_mc64.specs.Calls.{SymmetricPromises, UnsymmetricPromises};
ghost use Rattle.factors_mc64.specs.inner.Steps.{Rows, Accepted, Marked, SideRoom};

use limits::NONE;
use refusal::Refusal;

// What an accepted call answers: every column is matched, or how many are not.
#[derive(Clone, Copy)]
pub enum Scaled {
    Applied,
    PartialSingular(u32),
}

// Whether every slice of the symmetric call has its length.
pub fn lengths_fit(
    n: usize,
    perm: &[u32],
    u: &[f64],
    v: &[f64],
    cmax: &[f64],
    factors: &[f64],
    work: &[u32],
) -> bool
    ensures { let m = match_of perm.now u.now v.now cmax.now in
        result ≡ lengths n m (slices factors.now work.now) }
{
    let room = (factors.len() == n) & (work.len() == n);
    (perm.len() == n) & ((u.len() == n) & ((v.len() == n) & ((cmax.len() == n) & room)))
}

// The row is NONE or below n.
fn row_or_none(n: u32, row: u32) -> bool
    ensures { result ≡ row_or_none n row }
{
    (row == NONE) | (row < n)
}

// Refusal 10.
pub fn matching_fault(n: u32, matched: u32, perm: &[u32]) -> Result<(), Refusal>
    ensures { number_of result ≡ matching_fault n matched perm.now }
{
    if matched > n {
        return Err(Refusal::MatchingRange);
    }
    for &row in perm {
        if !row_or_none(n, row) {
            return Err(Refusal::MatchingRange);
        }
    }
    Ok(())
}

// Refusals 1, 3 and 10 of the symmetric call.
fn call_fault(n: u32, matched: u32, perm: &[u32], lengths: bool) -> Result<(), Refusal>
    ensures { number_of result ≡ or_else (sizes n lengths) (matching_fault n matched perm.now) }
{
    sparse::layout::size_fault(n, 0, 0, lengths)?;
    matching_fault(n, matched, perm)
}

// Marks the row of every matched column.
pub fn mark_rows(n: usize, perm: &[u32], work: &mut [u32])
    requires n_le_max_columns { (n ≤ max_columns) × (n ≤ length perm.now) }
    requires rows { Rows n perm.now }
    requires marked { Marked n perm.now 0 work.old }
    ensures { Marked n perm.now n work.new }
{
    for &row in &perm[..n] {
        if row != NONE {
            work[row as usize] = 1;
        }
    }
}

// The factor of an index; `both` says whether its row and its column are matched.
pub fn log_factor(both: bool, u: f64, v: f64, cmax: f64) -> f64
    ensures { result ≡ log_factor both u v cmax }
{
    let argument = ((u + v) - cmax) / 2.0;
    let fine = float64::is_finite(argument);
    let bounded = float64::is_finite(cmax);
    if bounded & (both & fine) {
        return float64::clamp_log(argument);
    }
    0.0
}

// The factors, from the marks of the matched rows.
pub fn fill_factors(
    n: usize,
    perm: &[u32],
    u: &[f64],
    v: &[f64],
    cmax: &[f64],
    factors: &mut [f64],
    work: &[u32],
)
    requires accepted { Accepted n (match_of perm.now u.now v.now cmax.now) (slices factors.old work.now) }
    requires marked { Marked n perm.now n work.now }
    ensures { let m = match_of perm.now u.now v.now cmax.now in
        factors.new ≡ symmetric_factors n m }
{
    for i in 0..n {
        let both = (perm[i] != NONE) & (work[i] == 1);
        factors[i] = log_factor(both, u[i], v[i], cmax[i]);
    }
}

// The factors of an accepted call, and cleared work.
pub fn write_factors(
    n: usize,
    perm: &[u32],
    u: &[f64],
    v: &[f64],
    cmax: &[f64],
    factors: &mut [f64],
    work: &mut [u32],
)
    requires { Accepted n (match_of perm.now u.now v.now cmax.now) (slices factors.old work.old) }
    ensures { let m = match_of perm.now u.now v.now cmax.now in
        slices factors.new work.new ≡ slices (symmetric_factors n m) (replicate n 0) }
{
    slices::fill(work, 0);
    mark_rows(n, perm, work);
    fill_factors(n, perm, u, v, cmax, factors, work);
    slices::fill(work, 0);
}

// The answer of an accepted call.
pub fn answer(n: u32, matched: u32) -> Scaled
    requires { matched ≤ n }
    ensures { result ≡ applied_or_partial n matched }
{
    if matched == n {
        return Scaled::Applied;
    }
    Scaled::PartialSingular(n - matched)
}

// Symmetric: one log factor for each row and its column, from a match of n columns and the largest log of each.
pub fn log_factors(
    n: u32,
    matched: u32,
    perm: &[u32],
    u: &[f64],
    v: &[f64],
    cmax: &[f64],
    factors: &mut [f64],
    work: &mut [u32],
) -> Result<Scaled, Refusal>
    ensures { let m = match_of perm.now u.now v.now cmax.now in
        let before = slices factors.old work.old in
        let after = slices factors.new work.new in
        SymmetricPromises n matched m before (numbered result) after }
{
    let size = n as usize;
    let lengths = lengths_fit(size, perm, u, v, cmax, factors, work);
    call_fault(n, matched, perm, lengths)?;
    write_factors(size, perm, u, v, cmax, factors, work);
    Ok(answer(n, matched))
}

// x held to -709..709, or 0.0 for a NaN.
pub fn hold(x: f64) -> f64
    ensures { result ≡ held x }
{
    if x != x {
        return 0.0;
    }
    float64::clamp_log(x)
}

// All slices of the unsymmetric factors have length n.
fn side_lengths(n: usize, u: &[f64], v: &[f64], cmax: &[f64], rows: &[f64], columns: &[f64]) -> bool
    ensures { result ≡ side_lengths n u.now v.now cmax.now
        rows.now columns.now }
{
    (u.len() == n)
        & ((v.len() == n) & ((cmax.len() == n) & ((rows.len() == n) & (columns.len() == n))))
}

// The factors of the rows from u, those of the columns from v and cmax.
fn write_sides(n: usize, u: &[f64], v: &[f64], cmax: &[f64], rows: &mut [f64], columns: &mut [f64])
    requires { SideRoom n u.now v.now cmax.now rows.old columns.old }
    ensures rows_after { rows.new ≡ row_factors n u.now }
    ensures columns_after { columns.new ≡ column_factors n v.now cmax.now }
{
    for i in 0..n {
        rows[i] = hold(u[i]);
        columns[i] = hold(v[i] - cmax[i]);
    }
}

// Unsymmetric: a log factor for each row and one for each column.
pub fn unsymmetric_factors(
    n: u32,
    u: &[f64],
    v: &[f64],
    cmax: &[f64],
    rows: &mut [f64],
    columns: &mut [f64],
) -> Result<(), Refusal>
    ensures { UnsymmetricPromises n u.now v.now cmax.now
        rows.old columns.old (number_of result) rows.new columns.new }
{
    let size = n as usize;
    let lengths = side_lengths(size, u, v, cmax, rows, columns);
    sparse::layout::size_fault(n, 0, 0, lengths)?;
    write_sides(size, u, v, cmax, rows, columns);
    Ok(())
}
