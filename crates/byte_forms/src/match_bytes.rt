// The match of a small graph given as bytes: sizes are tested, words and doubles are read into local arrays and
// matched, and the match is written as bytes.
ghost use Rattle.std.specs.Prelude.{◌≡◌, [], ◌≤◌};
ghost use Rattle.refusal.specs.Number.{number_of};
ghost use Rattle.slices.specs.Outcome.{outcome_is};
ghost use Rattle.hungarian.specs.Graph.{graph_of};
ghost use Rattle.hungarian_match.specs.Call.{slices, match_after};
ghost use Rattle.byte_forms.specs.MatchBytes.{byte_columns, byte_entries, word_count, byte_lengths, byte_sizes};
ghost use Rattle.byte_forms.specs.MatchBytes.{graph_bytes, graph_read, match_bytes, match_laid};
ghost use Rattle.byte_forms.specs.inner.Steps.{graph_result, Laying, Roomy, Fitting, Small, Sized};

use hungarian::Counts;
use refusal::Refusal;

// The most columns and entries of a graph given as bytes; the lengths of arrays for them.
pub const MAX_COLUMNS: u32 = 256;

pub const COLUMNS: usize = MAX_COLUMNS as usize;

const POINTERS: usize = COLUMNS + 1;

const MAX_ENTRIES: usize = 2048;

// The work of a match of that many columns: words and doubles.
const MATCH_WORK: usize = 12 * COLUMNS + 1;

const MATCH_DOUBLES: usize = 2 * COLUMNS;

// Eight bytes for each number.
const ANSWER_BYTES: usize = 8 * hungarian_match::ANSWER_LENGTH;

// Whether every byte slice has its length. Numbers are lengths.
#[tactic(auto, unfolding(crate::specs::MatchBytes::byte_lengths))]
fn lengths_fit(
    n: usize,
    col_ptr: usize,
    row_idx: usize,
    cost: usize,
    perm: usize,
    u: usize,
    v: usize,
    answer: usize,
) -> bool
    requires n_le_byte_columns { n ≤ byte_columns }
    requires row_idx_bound { word_count row_idx ≤ byte_entries }
    ensures { result ≡ byte_lengths n col_ptr row_idx cost perm u v answer }
{
    let count = row_idx / 4;
    let result = (perm == 4 * n) & ((u == 8 * n) & ((v == 8 * n) & (answer == ANSWER_BYTES)));
    (col_ptr == 4 * (n + 1)) & ((row_idx == 4 * count) & ((cost == 8 * count) & result))
}

// Refusals 1, 2 and 3. All but n are lengths.
#[tactic(auto, unfolding(crate::specs::MatchBytes::byte_sizes))]
pub fn size_fault(
    n: u32,
    col_ptr: usize,
    row_idx: usize,
    cost: usize,
    perm: usize,
    u: usize,
    v: usize,
    answer: usize,
) -> Result<(), Refusal>
    ensures { number_of result ≡ byte_sizes n col_ptr row_idx cost perm u v answer }
{
    if n > MAX_COLUMNS {
        return Err(Refusal::TooManyColumns);
    }
    if row_idx / 4 > MAX_ENTRIES {
        return Err(Refusal::TooManyEntries);
    }
    if lengths_fit(n as usize, col_ptr, row_idx, cost, perm, u, v, answer) {
        Ok(())
    } else {
        Err(Refusal::SliceLength)
    }
}

// Writes a match as bytes.
#[tactic(auto, unfolding(crate::specs::MatchBytes::match_laid))]
fn put_match(
    rows_of: &[u32],
    row_duals: &[f64],
    col_duals: &[f64],
    found: Counts,
    perm: &mut [u8],
    u: &mut [u8],
    v: &mut [u8],
    answer: &mut [u8],
)
    requires { let bytes = match_bytes perm.old u.old v.old answer.old in
        Laying rows_of.now row_duals.now col_duals.now bytes }
    ensures { let after = match_bytes perm.new u.new v.new answer.new in
        let pairs = slices rows_of.now row_duals.now col_duals.now [] [] in
        after ≡ match_laid (match_after found pairs) }
{
    let stats = found.stats;
    byte_numbers::put_all(rows_of, perm);
    byte_numbers::put_all(row_duals, u);
    byte_numbers::put_all(col_duals, v);
    let counts = [
        found.matched as u64,
        stats.heap_init_slots,
        stats.augment_searches,
        stats.touched_total,
        stats.phase3_inner_iters,
        stats.main_loop_edge_scans,
        stats.popped_total,
        stats.largest_heap,
    ];
    byte_numbers::put_all(&counts, answer);
}

// Writes the match of a graph as bytes; slices for the work and the match are lent.
fn match_in(
    n: u32,
    col_ptr: &[u32],
    row_idx: &[u32],
    cost: &[f64],
    rows_of: &mut [u32],
    row_duals: &mut [f64],
    col_duals: &mut [f64],
    work: &mut [u32],
    fwork: &mut [f64],
    perm: &mut [u8],
    u: &mut [u8],
    v: &mut [u8],
    answer: &mut [u8],
) -> Result<(), Refusal>
    requires fact { let room = slices rows_of.old row_duals.old col_duals.old work.old fwork.old in
        Fitting (graph_of n col_ptr.now row_idx.now cost.now) room }
    requires roomy { Roomy n (match_bytes perm.old u.old v.old answer.old) }
    ensures { let g = graph_of n col_ptr.now row_idx.now cost.now in
        let before = match_bytes perm.old u.old v.old answer.old in
        let after = match_bytes perm.new u.new v.new answer.new in
        outcome_is (number_of result) after ≡ graph_result g before }
{
    let found = hungarian_match::hungarian_match(
        n, col_ptr, row_idx, cost, rows_of, row_duals, col_duals, work, fwork,
    )?;
    put_match(rows_of, row_duals, col_duals, found, perm, u, v, answer);
    Ok(())
}

// The same with local arrays.
fn match_small(
    n: u32,
    col_ptr: &[u32],
    row_idx: &[u32],
    cost: &[f64],
    perm: &mut [u8],
    u: &mut [u8],
    v: &mut [u8],
    answer: &mut [u8],
) -> Result<(), Refusal>
    requires small { Small (graph_of n col_ptr.now row_idx.now cost.now) }
    requires roomy { Roomy n (match_bytes perm.old u.old v.old answer.old) }
    ensures { let g = graph_of n col_ptr.now row_idx.now cost.now in
        let before = match_bytes perm.old u.old v.old answer.old in
        let after = match_bytes perm.new u.new v.new answer.new in
        outcome_is (number_of result) after ≡ graph_result g before }
{
    let size = n as usize;
    let mut rows_of = [0u32; COLUMNS];
    let mut row_duals = [0.0f64; COLUMNS];
    let mut col_duals = [0.0f64; COLUMNS];
    let mut work = [0u32; MATCH_WORK];
    let mut fwork = [0.0f64; MATCH_DOUBLES];
    match_in(
        n,
        col_ptr,
        row_idx,
        cost,
        &mut rows_of[..size],
        &mut row_duals[..size],
        &mut col_duals[..size],
        &mut work[..12 * size + 1],
        &mut fwork[..2 * size],
        perm,
        u,
        v,
        answer,
    )
}

// The match of the graph that the bytes stand for.
pub fn read_and_match(
    n: u32,
    col_ptr: &[u8],
    row_idx: &[u8],
    cost: &[u8],
    perm: &mut [u8],
    u: &mut [u8],
    v: &mut [u8],
    answer: &mut [u8],
) -> Result<(), Refusal>
    requires sized { Sized (graph_bytes n col_ptr.now row_idx.now cost.now) }
    requires roomy { Roomy n (match_bytes perm.old u.old v.old answer.old) }
    ensures { let g = graph_read (graph_bytes n col_ptr.now row_idx.now cost.now) in
        let before = match_bytes perm.old u.old v.old answer.old in
        let after = match_bytes perm.new u.new v.new answer.new in
        outcome_is (number_of result) after ≡ graph_result g before }
{
    let pointers = n as usize + 1;
    let count = row_idx.len() / 4;
    let mut starts = [0u32; POINTERS];
    let mut entries = [0u32; MAX_ENTRIES];
    let mut costs = [0.0f64; MAX_ENTRIES];
    byte_numbers::read_all(col_ptr, &mut starts[..pointers]);
    byte_numbers::read_all(row_idx, &mut entries[..count]);
    byte_numbers::read_all(cost, &mut costs[..count]);
    match_small(
        n,
        &starts[..pointers],
        &entries[..count],
        &costs[..count],
        perm,
        u,
        v,
        answer,
    )
}
