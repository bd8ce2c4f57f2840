// The cost graph of a general matrix: zero and non-finite values dropped, each column's logs made costs.
#![tactic(auto)]

ghost use Rattle.std.specs.Prelude.{◌≡◌, true, cond, ◌||◌, ℕ, ◌+◌, ◌^◌, ◌≤◌, ◌<◌, ◌-◌, length};
ghost use Rattle.std.specs.Float.Ieee.{lt};
ghost use Rattle.limits.specs.Limits.{max_columns};
ghost use Rattle.refusal.specs.Number.{number_of, numbered};
ghost use Rattle.sparse.specs.Matrix.{matrix};
ghost use Rattle.cost_limit.specs.inner.Limits.{LogLimit};
ghost use Rattle.mc64_columns.specs.inner.Steps.{entry_logs, Worded};
ghost use Rattle.mc64_columns.specs.Graphs.{slices};
ghost use Rattle.mc64_general.specs.Graph.{is_kept, kept_places};
ghost use Rattle.mc64_general.specs.Call.{lengths_fit, log_fits, logs_fault, input_fault, Promises};
ghost use Rattle.mc64_general.specs.inner.Steps.{Accepted, Roomy, Copied, BuiltAll};

use mc64_columns::LogSource;
use refusal::Refusal;
use sparse::{general, layout};

// Whether every slice has its length.
pub fn lengths_fit(
    n: usize,
    col_ptr: &[u32],
    row_idx: &[u32],
    values: &[f64],
    logs: &[f64],
    graph_ptr: &[u32],
    graph_rows: &[u32],
    cost: &[f64],
    cmax: &[f64],
    work: &[u32],
) -> bool
    requires { n < 2 ^ 32 }
    ensures { let m = matrix n col_ptr.now row_idx.now values.now in
        let before = slices graph_ptr.now graph_rows.now cost.now
        cmax.now
        work.now in
        result ≡ lengths_fit m logs.now before }
{
    let count = row_idx.len();
    let room = (cmax.len() == n) & (work.len() == 2 * n + 2 + count);
    let entries = (graph_rows.len() == count) & ((cost.len() == count) & room);
    let input = (logs.len() == count) & ((graph_ptr.len() == n + 1) & entries);
    (col_ptr.len() == n + 1) & ((values.len() == count) & input)
}

// Whether a value is finite and not zero.
fn is_kept(value: f64) -> bool
    ensures { result ≡ is_kept value }
{
    float64::is_finite(value) & (value != 0.0)
}

// Whether a value is dropped, whatever its log, or its log is in range.
fn log_fits(limit: f64, value: f64, log: f64) -> bool
    ensures { (n : ℕ) → LogLimit n limit → result ≡ log_fits n value log }
{
    let fits = cost_limit::in_log_range(limit, log);
    !is_kept(value) | fits
}

// Refusal 8. The loop has no early exit, so that it can test several entries at a time; over a `zip` of the slices it
// tests them one by one, which takes a quarter longer.
fn logs_fault(n: u32, values: &[f64], logs: &[f64]) -> Result<(), Refusal>
    requires { (n ≤ max_columns) × (length logs.now ≡ length values.now) }
    ensures { number_of result ≡ logs_fault n values.now logs.now }
{
    let limit = cost_limit::log_limit(n);
    let mut fine = true;
    for k in 0..values.len() {
        fine &= log_fits(limit, values[k], logs[k]);
    }
    if fine {
        Ok(())
    } else {
        Err(Refusal::CostRange)
    }
}

// The first thing wrong; `lengths` says whether every slice has its length.
fn input_fault(
    n: u32,
    col_ptr: &[u32],
    row_idx: &[u32],
    values: &[f64],
    logs: &[f64],
    lengths: bool,
) -> Result<(), Refusal>
    requires { lengths ≡ true → length logs.now ≡ length values.now }
    ensures { let m = matrix n col_ptr.now row_idx.now values.now in
        number_of result ≡ input_fault m logs.now lengths }
{
    layout::size_fault(n, limits::MAX_GENERAL, row_idx.len(), lengths)?;
    general::validate(n, col_ptr, row_idx, values)?;
    logs_fault(n, values, logs)
}

// What a column's kept entries leave: where the next one goes, and the largest of their logs.
#[derive(Clone, Copy)]
struct KeptColumn {
    next: usize,
    top: f64,
}

// The largest log with one more: the first whatever it is, a later one if it is larger.
fn larger(first: bool, log: f64, top: f64) -> f64
    ensures { result ≡ cond (first || lt top log) log top }
{
    if first | (log > top) { log } else { top }
}

// Writes the kept entries among the places from `from` up to `to`, from `at` on. The largest log of none is 0.0.
fn keep_column(
    from: usize,
    to: usize,
    at: usize,
    row_idx: &[u32],
    values: &[f64],
    logs: &[f64],
    words: &[u32],
    graph_rows: &mut [u32],
    cost: &mut [f64],
    source: LogSource,
) -> KeptColumn
    requires from_le_to { (from ≤ to) × (to ≤ length row_idx.now) × (at ≤ from) }
    requires values_len { (length values.now ≡ length row_idx.now) × (length logs.now ≡ length row_idx.now) }
    requires graph_rows_len { (length graph_rows.old ≡ length row_idx.now) × (length cost.old ≡ length row_idx.now) }
    requires worded { Worded source logs.now 0 words.now × (length row_idx.now ≤ length words.now) }
    ensures { Copied (kept_places values.now from (to - from)) row_idx.now
        (entry_logs source logs.now) at graph_rows.old cost.old
        graph_rows.new cost.new result.next result.top }
{
    let mut next = at;
    let mut top = 0.0;
    for k in from..to {
        if !is_kept(values[k]) {
            continue;
        }
        let log = mc64_columns::entry_log(source, logs[k], words[k]);
        graph_rows[next] = row_idx[k];
        cost[next] = log;
        top = larger(next == at, log, top);
        next += 1;
    }
    KeptColumn { next, top }
}

// The graph of an accepted matrix, column by column; how many entries it has. Where the logs are not lent, `words` has
// those of the values.
pub fn build(
    n: usize,
    col_ptr: &[u32],
    row_idx: &[u32],
    values: &[f64],
    logs: &[f64],
    words: &[u32],
    graph_ptr: &mut [u32],
    graph_rows: &mut [u32],
    cost: &mut [f64],
    cmax: &mut [f64],
    source: LogSource,
) -> u32
    requires accepted { Accepted (matrix n col_ptr.now row_idx.now values.now) logs.now }
    requires roomy { Roomy n row_idx.now graph_ptr.old graph_rows.old cost.old cmax.old }
    requires worded { Worded source logs.now 0 words.now × (length row_idx.now ≤ length words.now) }
    ensures { let m = matrix n col_ptr.now row_idx.now values.now in
        BuiltAll m (entry_logs source logs.now) graph_rows.old cost.old
        graph_ptr.new graph_rows.new cost.new cmax.new result }
{
    let mut next = 0;
    for c in 0..n {
        graph_ptr[c] = next as u32;
        let from = col_ptr[c] as usize;
        let to = col_ptr[c + 1] as usize;
        let kept = keep_column(
            from, to, next, row_idx, values, logs, words, graph_rows, cost, source,
        );
        let end = kept.next;
        mc64_columns::subtract(kept.top, &mut cost[next..end]);
        cmax[c] = kept.top;
        next = end;
    }
    graph_ptr[n] = next as u32;
    next as u32
}

// The cost graph of the matrix; how many entries it has.
pub fn build_general_graph(
    n: u32,
    col_ptr: &[u32],
    row_idx: &[u32],
    values: &[f64],
    logs: &[f64],
    graph_ptr: &mut [u32],
    graph_rows: &mut [u32],
    cost: &mut [f64],
    cmax: &mut [f64],
    work: &mut [u32],
) -> Result<u32, Refusal>
    ensures { let m = matrix n col_ptr.now row_idx.now values.now in
        let before = slices graph_ptr.old graph_rows.old cost.old
        cmax.old
        work.old in
        let after = slices graph_ptr.new graph_rows.new cost.new cmax.new
        work.new in
        Promises m logs.now before (numbered result) after }
{
    let size = n as usize;
    let fit = lengths_fit(
        size, col_ptr, row_idx, values, logs, graph_ptr, graph_rows, cost, cmax, work,
    );
    input_fault(n, col_ptr, row_idx, values, logs, fit)?;
    let kept = build(
        size,
        col_ptr,
        row_idx,
        values,
        logs,
        work,
        graph_ptr,
        graph_rows,
        cost,
        cmax,
        LogSource::Lent,
    );
    slices::fill(work, 0);
    Ok(kept)
}
