// From the bytes of a tie file to the bytes of its text: the report of its match, or the match's pairs.
#![tactic(auto)]

ghost use Rattle.std.specs.Prelude.{◌≡◌, ◌^◌, ◌≤◌, length};
ghost use Rattle.hungarian.specs.Graph.{graph_of};
ghost use Rattle.triplets.specs.Order.{Below};
ghost use Rattle.text_matrix_market.specs.declared.banner.Kind.TheVariants.{General, Symmetric};
ghost use Rattle.text_graph.specs.Graph.{cost_values};
ghost use Rattle.text_report.specs.inner.Steps.{output_length};
ghost use Rattle.text_answer.specs.Answer.{report_answer, report_written, answer_text, graph_text, Promises};
ghost use Rattle.text_answer.specs.inner.Steps.{Reportable, FileEntries, Entries, EntriesReported, entries_text};

use refusal::Refusal;
use text_matrix_market::File;
use text_matrix_market::banner::Kind;
use text_report::Form;
use text_symmetric_graph::{ASSEMBLY_WORDS, COLUMNS, ENTRIES, POINTERS};

// One more byte than an input may have.
pub const BUFFER_LENGTH: usize = 32769;

// What the match needs: twelve words for each column and one more, and two doubles for each column.
const MATCH_WORDS: usize = 12 * COLUMNS + 1;

const DISTANCES: usize = 2 * COLUMNS;

// Each entry of a symmetric file, and its mirror.
const MIRRORED: usize = 2 * ENTRIES;

// The match of a graph, and its text.
fn answer_graph(
    form: Form,
    n: u32,
    col_ptr: &[u32],
    row_idx: &[u32],
    cost: &[f64],
    output: &mut [u8],
) -> usize
    requires { Reportable (graph_of n col_ptr.now row_idx.now cost.now) output.old }
    ensures text { let g = graph_of n col_ptr.now row_idx.now cost.now in
        report_answer result output.new ≡ report_written (graph_text form g) output.old }
    ensures fits { result ≤ output_length }
{
    let size = n as usize;
    let mut perm = [0u32; COLUMNS];
    let mut u = [0.0f64; COLUMNS];
    let mut v = [0.0f64; COLUMNS];
    let mut work = [0u32; MATCH_WORDS];
    let mut fwork = [0.0f64; DISTANCES];
    let found = hungarian_match::solve(
        size,
        col_ptr,
        row_idx,
        cost,
        &mut perm[..size],
        &mut u[..size],
        &mut v[..size],
        &mut work[..12 * size + 1],
        &mut fwork[..2 * size],
    );
    let mut counts = [0u64; hungarian_match::ANSWER_LENGTH];
    hungarian_match::put_counts(&mut counts, found);
    text_report::put_form(
        form,
        size,
        &perm[..size],
        &u[..size],
        &v[..size],
        &counts,
        output,
    )
}

// The graph of entries with costs, if no pair is repeated, and its text. A repeated pair leaves fewer than were given.
fn answer_triplets(
    form: Form,
    n: u32,
    rows: &[u32],
    cols: &[u32],
    values: &[f64],
    output: &mut [u8],
) -> usize
    requires { Entries General n rows.now cols.now values.now output.old }
    ensures text { let reported = report_answer result output.new in
        EntriesReported form General n rows.now cols.now values.now
        output.old reported }
    ensures fits { result ≤ output_length }
{
    let size = n as usize;
    let len = rows.len();
    let mut col_ptr = [0u32; POINTERS];
    let mut row_idx = [0u32; ENTRIES];
    let mut cost = [0.0f64; ENTRIES];
    let mut work = [0u32; ASSEMBLY_WORDS];
    let kept = triplets::assemble(
        size,
        rows,
        cols,
        values,
        &mut col_ptr[..size + 1],
        &mut row_idx[..len],
        &mut cost[..len],
        &mut work[..2 * size + 2 + len],
    );
    if kept as usize != len {
        return text_report::put_refused(u32::from(Refusal::RepeatedPair), output);
    }
    answer_graph(
        form,
        n,
        &col_ptr[..size + 1],
        &row_idx[..len],
        &cost[..len],
        output,
    )
}

// The graph of entries with values of a symmetric matrix, if no pair is repeated, and its text.
fn answer_symmetric(
    form: Form,
    n: u32,
    rows: &[u32],
    cols: &[u32],
    values: &[f64],
    output: &mut [u8],
) -> usize
    requires { Entries Symmetric n rows.now cols.now values.now output.old }
    ensures text { let reported = report_answer result output.new in
        EntriesReported form Symmetric n rows.now cols.now values.now
        output.old reported }
    ensures fits { result ≤ output_length }
{
    let size = n as usize;
    let room = 2 * rows.len();
    let mut graph_ptr = [0u32; POINTERS];
    let mut graph_rows = [0u32; MIRRORED];
    let mut cost = [0.0f64; MIRRORED];
    let built = text_symmetric_graph::symmetric_graph(
        n,
        rows,
        cols,
        values,
        &mut graph_ptr[..size + 1],
        &mut graph_rows[..room],
        &mut cost[..room],
    );
    match built {
        Some(kept) => {
            let count = kept as usize;
            answer_graph(
                form,
                n,
                &graph_ptr[..size + 1],
                &graph_rows[..count],
                &cost[..count],
                output,
            )
        }
        None => text_report::put_refused(u32::from(Refusal::RepeatedPair), output),
    }
}

// Each weight as a double.
fn set_values(weights: &[u64], values: &mut [f64])
    requires values_len { length values.old ≡ length weights.now }
    requires below { Below (2 ^ 53) weights.now }
    ensures { values.new ≡ cost_values weights.now }
{
    for (k, &weight) in weights.iter().enumerate() {
        values[k] = weight as f64;
    }
}

// The text of the entries of a file, by their kind.
fn answer_entries(
    form: Form,
    kind: Kind,
    n: u32,
    rows: &[u32],
    cols: &[u32],
    weights: &[u64],
    output: &mut [u8],
) -> usize
    requires { FileEntries kind n rows.now cols.now weights.now output.old }
    ensures text { let text = entries_text form kind n rows.now cols.now weights.now in
        report_answer result output.new ≡ report_written text output.old }
    ensures fits { result ≤ output_length }
{
    let count = weights.len();
    let mut doubles = [0.0f64; ENTRIES];
    set_values(weights, &mut doubles[..count]);
    let values = &doubles[..count];
    match kind {
        Kind::General | Kind::Pattern => answer_triplets(form, n, rows, cols, values, output),
        Kind::Symmetric => answer_symmetric(form, n, rows, cols, values, output),
    }
}

// The text of an input, at the front of `output`.
fn answer_input(form: Form, input: &[u8], output: &mut [u8]) -> usize
    requires { length output.old ≡ output_length }
    ensures text { let text = answer_text form input.now in
        report_answer result output.new ≡ report_written text output.old }
    ensures fits { result ≤ output_length }
{
    let mut rows = [0u32; ENTRIES];
    let mut cols = [0u32; ENTRIES];
    let mut weights = [0u64; ENTRIES];
    match text_matrix_market::read_file(input, &mut rows, &mut cols, &mut weights) {
        Ok(File { kind, n, count }) => {
            let size = count as usize;
            answer_entries(
                form,
                kind,
                n,
                &rows[..size],
                &cols[..size],
                &weights[..size],
                output,
            )
        }
        Err(refusal) => text_report::put_refused(u32::from(refusal), output),
    }
}

// Writes the text, in a form, of an input to the front of `output` and answers its length. The first `count` bytes of
// the input are at the front of `buffer`: all of them, or as many as the buffer takes, which is one more than an input
// may have.
pub fn answer(
    form: Form,
    buffer: &[u8; BUFFER_LENGTH],
    count: usize,
    output: &mut [u8; text_report::OUTPUT_LENGTH],
) -> usize
    ensures { Promises form count buffer.now output.old result output.new }
{
    answer_input(form, &buffer[..count.min(BUFFER_LENGTH)], output)
}
