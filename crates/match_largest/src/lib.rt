// Checks whether a pairing, complete or not, is a largest matching of a pattern, by a search from the columns without a
// row, whose marks show why no matching has more pairs. Nothing lent is written before the search has ended.
#![tactic(auto)]

ghost use Rattle.std.specs.Prelude.{◌≡◌, true, not, cond, ◌||◌, ◌≢◌, ℕ, ◌+◌, ◌^◌, ◌≤◌, ◌<◌, eqb, ltb, length, get_or, replicate};
ghost use Rattle.limits.specs.Limits.{none, max_columns};
ghost use Rattle.slices.specs.Lists.{tabulate};
ghost use Rattle.refusal.specs.Number.{number_of};
ghost use Rattle.matching.specs.Pairing.{matched_count};
ghost use Rattle.match_check.specs.Check.{every_of};
ghost use Rattle.match_check.specs.inner.Steps.{AcceptedPattern};
ghost use Rattle.sparse.specs.Pattern.{pattern};
ghost use Rattle.match_largest.specs.Marks.{row_at, pair_fits, pairs_fit, pairing_fault};
ghost use Rattle.match_largest.specs.Call.{slices, largest_lengths, Promises};
ghost use Rattle.match_largest.specs.inner.Sweeps.{Entered, Queued, Sweeping, Swept, Searched};

use limits::NONE;
use match_check::has_row;
use refusal::Refusal;

// No column: larger than the number of any column.
const FREE: u16 = 4096;

// Whether every slice has its length.
fn lengths_fit(
    n: usize,
    col_ptr: &[u32],
    perm: &[u32],
    columns: &[u32],
    rows: &[u32],
    matched: &[u32],
) -> bool
    requires { n < 2 ^ 32 }
    ensures { let s = slices columns.now rows.now matched.now in
        result ≡ largest_lengths n col_ptr.now perm.now s }
{
    let lent = (columns.len() == n) & ((rows.len() == n) & (matched.len() == 1));
    (col_ptr.len() == n + 1) & ((perm.len() == n) & lent)
}

// Whether column j has no row, or a row that no column before it has, by an entry. The row gets its column.
fn enter_pair(
    j: usize,
    n: usize,
    col_ptr: &[u32],
    row_idx: &[u32],
    perm: &[u32],
    inverse: &mut [u16],
) -> bool
    requires accepted_pattern_1 { AcceptedPattern n col_ptr.now row_idx.now }
    requires accepted_pattern_2 { length perm.now ≡ n }
    requires j_lt_n_1 { j < n }
    requires j_lt_n_2 { Entered n perm.now j inverse.old }
    ensures result_value { let g = pattern n col_ptr.now row_idx.now in
        result ≡ pair_fits g perm.now j }
    ensures entered { Entered n perm.now (j + 1) inverse.new }
{
    if perm[j] == NONE {
        return true;
    }
    let row = perm[j] as usize;
    if row >= n {
        return false;
    }
    if (inverse[row] as usize) < n {
        return false;
    }
    inverse[row] = j as u16;
    has_row(
        perm[j],
        row_idx,
        col_ptr[j] as usize,
        col_ptr[j + 1] as usize,
    )
}

// Whether the pairs are a matching. Each row that has a column gets it.
fn enter_pairs(
    n: usize,
    col_ptr: &[u32],
    row_idx: &[u32],
    perm: &[u32],
    inverse: &mut [u16],
) -> bool
    requires accepted_pattern_1 { AcceptedPattern n col_ptr.now row_idx.now }
    requires accepted_pattern_2 { length perm.now ≡ n }
    requires inverse_value { inverse.old ≡ replicate max_columns 4096 }
    ensures result_value { let g = pattern n col_ptr.now row_idx.now in
        result ≡ pairs_fit g perm.now }
    ensures entered { Entered n perm.now n inverse.new }
{
    let mut fine = true;
    for j in 0..n {
        fine &= enter_pair(j, n, col_ptr, row_idx, perm, inverse);
    }
    fine
}

// Puts the columns without a row at the front of the queue; answers how many there are.
fn queue_free(perm: &[u32], queue: &mut [u16]) -> usize
    requires { (length perm.now ≤ max_columns) × (length queue.old ≡ 4097) }
    ensures { Queued perm.now (length perm.now) queue.new result }
{
    let mut free: usize = 0;
    for (j, &row) in perm.iter().enumerate() {
        queue[free] = j as u16;
        free += usize::from(row == NONE);
    }
    free
}

// The entries of the column at `head` of the queue: their rows are marked, and the columns of those that were not join
// the queue. A free row is marked and queues nothing.
fn scan(
    head: usize,
    end: usize,
    n: usize,
    col_ptr: &[u32],
    row_idx: &[u32],
    inverse: &[u16],
    met: &mut [u8],
    queue: &mut [u16],
) -> usize
    requires accepted_pattern_1 { AcceptedPattern n col_ptr.now row_idx.now }
    requires accepted_pattern_2 { (length inverse.now ≡ max_columns) × (head < end) }
    requires fact { let g = pattern n col_ptr.now row_idx.now in
        Sweeping g inverse.now met.old queue.old head 0 end }
    ensures { let g = pattern n col_ptr.now row_idx.now in
        Sweeping g inverse.now met.new queue.new (head + 1) 0 result }
{
    let j = queue[head] as usize;
    let mut last = end;
    for k in col_ptr[j] as usize..col_ptr[j + 1] as usize {
        let row = row_idx[k] as usize;
        let column = inverse[row];
        queue[last] = column;
        last += usize::from((met[row] == 0) & ((column as usize) < n));
        met[row] = 1;
    }
    last
}

// All columns of the queue, and those that join it.
fn sweep(
    free: usize,
    n: usize,
    col_ptr: &[u32],
    row_idx: &[u32],
    inverse: &[u16],
    met: &mut [u8],
    queue: &mut [u16],
)
    requires accepted_pattern_1 { AcceptedPattern n col_ptr.now row_idx.now }
    requires accepted_pattern_2 { length inverse.now ≡ max_columns }
    requires fact { let g = pattern n col_ptr.now row_idx.now in
        Sweeping g inverse.now met.old queue.old 0 0 free }
    ensures { let g = pattern n col_ptr.now row_idx.now in
        Swept g inverse.now met.new }
{
    let mut head: usize = 0;
    let mut end = free;
    while head < end {
        end = scan(head, end, n, col_ptr, row_idx, inverse, met, queue);
        head += 1;
    }
}

// The search from the columns without a row: marks each row that has an entry of a reached column.
fn search(n: usize, col_ptr: &[u32], row_idx: &[u32], perm: &[u32], inverse: &[u16], met: &mut [u8])
    requires accepted_pattern_1 { AcceptedPattern n col_ptr.now row_idx.now }
    requires accepted_pattern_2 { length perm.now ≡ n }
    requires fact { let g = pattern n col_ptr.now row_idx.now in
        (pairs_fit g perm.now ≡ true) × Entered n perm.now n inverse.now }
    requires met_value { met.old ≡ replicate max_columns 0 }
    ensures { let g = pattern n col_ptr.now row_idx.now in
        Searched g perm.now met.new }
{
    let mut queue = [0u16; 4097];
    let free = queue_free(perm, &mut queue);
    sweep(free, n, col_ptr, row_idx, inverse, met, &mut queue);
}

// Whether every marked row has a column.
fn all_held(n: usize, inverse: &[u16], met: &[u8]) -> bool
    requires { (n ≤ max_columns) × ((length inverse.now ≡ max_columns) × (length met.now ≡ max_columns)) }
    ensures { result ≡ every_of n
        (λ i. not (eqb (get_or met.now i 0) 1) || ltb (get_or inverse.now i 0) n) 0 }
{
    let mut fine = true;
    for i in 0..n {
        fine &= (met[i] != 1) | ((inverse[i] as usize) < n);
    }
    fine
}

// 30 or 33: the first fault of a pairing on an accepted pattern. `met` gets the marks of the rows.
fn pairing_fault(
    n: usize,
    col_ptr: &[u32],
    row_idx: &[u32],
    perm: &[u32],
    met: &mut [u8],
) -> Result<(), Refusal>
    requires accepted_pattern_1 { AcceptedPattern n col_ptr.now row_idx.now }
    requires accepted_pattern_2 { length perm.now ≡ n }
    requires met_value { met.old ≡ replicate max_columns 0 }
    ensures result_value { let g = pattern n col_ptr.now row_idx.now in
        number_of result ≡ pairing_fault g perm.now }
    ensures fact { let g = pattern n col_ptr.now row_idx.now in
        (number_of result ≡ 0 → Searched g perm.now met.new) }
{
    let mut inverse = [FREE; 4096];
    if !enter_pairs(n, col_ptr, row_idx, perm, &mut inverse) {
        return Err(Refusal::IncompleteMatching);
    }
    search(n, col_ptr, row_idx, perm, &inverse, met);
    if !all_held(n, &inverse, met) {
        return Err(Refusal::NotLargest);
    }
    Ok(())
}

// The mark of a column: 1 if it has no row, else that of its row.
fn column_mark(row: u32, met: &[u8]) -> u32
    requires { (length met.now ≡ max_columns) × (row ≢ none → row < max_columns) }
    ensures { result ≡ cond (eqb row none) 1 (get_or met.now row 0) }
{
    if row == NONE {
        1
    } else {
        u32::from(met[row as usize])
    }
}

// The marks of the columns.
fn write_columns(perm: &[u32], met: &[u8], columns: &mut [u32])
    requires columns_len { (length columns.old ≡ length perm.now) × (length met.now ≡ max_columns) }
    requires by_index { (j : ℕ) → j < length perm.now → row_at perm.now j ≢ none → row_at perm.now j < max_columns }
    ensures { let row = row_at perm.now in
        columns.new ≡ tabulate (length perm.now)
        (λ j. cond (eqb (row j) none) 1 (get_or met.now (row j) 0)) }
{
    for (j, mark) in columns.iter_mut().enumerate() {
        *mark = column_mark(perm[j], met);
    }
}

// The marks of the rows.
fn write_rows(met: &[u8], rows: &mut [u32])
    requires { (length rows.old ≤ max_columns) × (length met.now ≡ max_columns) }
    ensures { rows.new ≡ tabulate (length rows.old) (λ i. get_or met.now i 0) }
{
    for (i, mark) in rows.iter_mut().enumerate() {
        *mark = u32::from(met[i]);
    }
}

// How many columns have a row.
fn count_pairs(perm: &[u32]) -> u32
    requires { length perm.now ≤ max_columns }
    ensures { result ≡ matched_count none (length perm.now) (row_at perm.now) }
{
    let mut count: u32 = 0;
    for &row in perm {
        count += u32::from(row != NONE);
    }
    count
}

// Says whether a pairing is a largest matching of a pattern, whoever made it, and leaves the marks that show it: 1 for
// each column that an alternating path leads to from a column without a row, and for each row of its entries; and the
// number of pairs in matched[0].
pub fn check_largest(
    n: u32,
    col_ptr: &[u32],
    row_idx: &[u32],
    perm: &[u32],
    columns: &mut [u32],
    rows: &mut [u32],
    matched: &mut [u32],
) -> Result<(), Refusal>
    ensures { let g = pattern n col_ptr.now row_idx.now in
        let before = slices columns.old rows.old matched.old in
        let after = slices columns.new rows.new matched.new in
        Promises g perm.now before (number_of result) after }
{
    let size = n as usize;
    let lengths = lengths_fit(size, col_ptr, perm, columns, rows, matched);
    sparse::general::pattern_fault(n, col_ptr, row_idx, lengths)?;
    let mut met = [0u8; 4096];
    pairing_fault(size, col_ptr, row_idx, perm, &mut met)?;
    write_columns(perm, &met, columns);
    write_rows(&met, rows);
    matched[0] = count_pairs(perm);
    Ok(())
}
