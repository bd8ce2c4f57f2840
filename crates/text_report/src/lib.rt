// The texts that the programs print, written into a lent slice of bytes. A function that writes at a place answers the
// next place.
#![tactic(auto)]

ghost use Rattle.std.specs.Prelude.{◌≡◌, ◌+◌, ◌≤◌, length};
ghost use Rattle.std.proofs.lemmas.List.Edits.{sets};
ghost use Rattle.std.specs.Float.Ieee.{lt};
ghost use Rattle.float64.specs.Constants.{zero};
ghost use Rattle.float64.specs.Number.{whole_of};
ghost use Rattle.text_report.specs.Decimal.{decimal, signed_text};
ghost use Rattle.text_report.specs.Report.{spaced, matched_line, row_number, pair_line, pair_lines, counts_line};
ghost use Rattle.text_report.specs.Report.{match_text, refused_text};
ghost use Rattle.text_report.specs.inner.Steps.{output_length, Printable, AllPrintable, Wrote};
ghost use Rattle.text_report.specs.Pairs.{pattern_size, matched_pair, column_pair, matched_pairs, pairs_text};
ghost use Rattle.text_report.specs.Form.{form_text};

// The bytes that any text fits: 64 lines.
pub const OUTPUT_LENGTH: usize = 4096;

// What is printed of a match: its report, or its pairs as a pattern file.
#[derive(Clone, Copy)]
pub enum Form {
    Report,
    Pairs,
}

// The first digits are the text of a tenth of the number. It is written by hand, since there is no heap for the text
// that std's formats make.
fn put_decimal(out: &mut [u8], at: usize, value: u64) -> usize
    requires { at + length (decimal value) ≤ length out.old }
    ensures { Wrote out.old at (decimal value) out.new result }
{
    if value < 10 {
        out[at] = 48 + value as u8;
        return at + 1;
    }
    let last = put_decimal(out, at, value / 10);
    out[last] = 48 + (value % 10) as u8;
    last + 1
}

// Whether a minus comes first; never for a zero.
fn has_minus(x: f64) -> bool
    ensures { result ≡ lt x zero }
{
    x < 0.0
}

// The size is cast, since -0.0 does not cast to an integer and has to print 0.
fn put_whole(out: &mut [u8], at: usize, x: f64) -> usize
    requires printable { Printable x }
    requires x_in_bounds { at + length (signed_text (whole_of x)) ≤ length out.old }
    ensures { Wrote out.old at (signed_text (whole_of x)) out.new result }
{
    let size = float64::abs(x) as u64;
    if has_minus(x) {
        out[at] = b'-';
        return put_decimal(out, at + 1, size);
    }
    put_decimal(out, at, size)
}

// A text of bytes, from `at` on.
fn put_bytes(out: &mut [u8], at: usize, text: &[u8]) -> usize
    requires { at + length text.now ≤ length out.old }
    ensures { Wrote out.old at text.now out.new result }
{
    let next = at + text.len();
    out[at..next].copy_from_slice(text);
    next
}

// A space and the number.
fn put_spaced(out: &mut [u8], at: usize, value: u64) -> usize
    requires { at + length (spaced (decimal value)) ≤ length out.old }
    ensures { Wrote out.old at (spaced (decimal value)) out.new result }
{
    out[at] = b' ';
    put_decimal(out, at + 1, value)
}

// A space and the whole number that x stands for.
fn put_spaced_whole(out: &mut [u8], at: usize, x: f64) -> usize
    requires printable { Printable x }
    requires x_in_bounds { at + length (spaced (signed_text (whole_of x))) ≤ length out.old }
    ensures { Wrote out.old at (spaced (signed_text (whole_of x))) out.new result }
{
    out[at] = b' ';
    put_whole(out, at + 1, x)
}

// The row from 1, or 0 for NONE.
fn row_number(row: u32) -> u64
    ensures { result ≡ row_number row }
{
    if row == limits::NONE {
        0
    } else {
        u64::from(row) + 1
    }
}

// The line of the matched count.
fn put_matched_line(out: &mut [u8], at: usize, pairs: u64, n: usize) -> usize
    requires { at + length (matched_line pairs n) ≤ length out.old }
    ensures { Wrote out.old at (matched_line pairs n) out.new result }
{
    let after_word = put_bytes(out, at, b"matched ");
    let after_pairs = put_decimal(out, after_word, pairs);
    let after_of = put_bytes(out, after_pairs, b" of ");
    let last = put_decimal(out, after_of, n as u64);
    out[last] = b'\n';
    last + 1
}

// The line of index k: the row of its column and its two duals.
fn put_line(out: &mut [u8], at: usize, k: u64, row: u32, u: f64, v: f64) -> usize
    requires printable { Printable u }
    requires printable_2 { Printable v }
    requires v_in_bounds { at + length (pair_line k row u v) ≤ length out.old }
    ensures { Wrote out.old at (pair_line k row u v) out.new result }
{
    let after_k = put_decimal(out, at, k);
    let after_row = put_spaced(out, after_k, row_number(row));
    let after_u = put_spaced_whole(out, after_row, u);
    let last = put_spaced_whole(out, after_u, v);
    out[last] = b'\n';
    last + 1
}

// The lines of all indices, upward.
fn put_lines(out: &mut [u8], at: usize, n: usize, perm: &[u32], u: &[f64], v: &[f64]) -> usize
    requires n_in_bounds { n ≤ length perm.now }
    requires n_in_bounds_2 { n ≤ length u.now }
    requires n_in_bounds_3 { n ≤ length v.now }
    requires all_printable { AllPrintable n u.now }
    requires all_printable_2 { AllPrintable n v.now }
    requires v_in_bounds { at + length (pair_lines n perm.now u.now v.now) ≤ length out.old }
    ensures { let text = pair_lines n perm.now u.now v.now in
        Wrote out.old at text out.new result }
{
    let mut next = at;
    for k in 0..n {
        next = put_line(out, next, k as u64 + 1, perm[k], u[k], v[k]);
    }
    next
}

// The line of the counts.
fn put_counts(out: &mut [u8], at: usize, counts: &[u64]) -> usize
    requires counts_len { length counts.now ≡ 8 }
    requires counts_in_bounds { at + length (counts_line counts.now) ≤ length out.old }
    ensures { Wrote out.old at (counts_line counts.now) out.new result }
{
    let mut next = put_bytes(out, at, b"counts");
    for &count in &counts[1..] {
        next = put_spaced(out, next, count);
    }
    out[next] = b'\n';
    next + 1
}

// The text of a match into the slice, whose rest stays. Answers the length of the text.
fn put_match(n: usize, perm: &[u32], u: &[f64], v: &[f64], counts: &[u64], out: &mut [u8]) -> usize
    requires small { n ≤ 64 }
    requires perm { length perm.now ≡ n }
    requires u { length u.now ≡ n }
    requires v { length v.now ≡ n }
    requires counts { length counts.now ≡ 8 }
    requires room { output_length ≤ length out.old }
    requires rows { AllPrintable n u.now }
    requires columns { AllPrintable n v.now }
    ensures text { let text = match_text n perm.now u.now v.now counts.now in
        out.new ≡ sets out.old 0 text }
    ensures length { let text = match_text n perm.now u.now v.now counts.now in
        result ≡ length text }
    ensures fits { result ≤ output_length }
{
    let after_first = put_matched_line(out, 0, counts[0], n);
    let after_pairs = put_lines(out, after_first, n, perm, u, v);
    put_counts(out, after_pairs, counts)
}

// The line of the size: n twice, and the matched count.
fn put_pattern_size(out: &mut [u8], at: usize, n: usize, pairs: u64) -> usize
    requires { at + length (pattern_size n pairs) ≤ length out.old }
    ensures { Wrote out.old at (pattern_size n pairs) out.new result }
{
    let after_rows = put_decimal(out, at, n as u64);
    let after_columns = put_spaced(out, after_rows, n as u64);
    let last = put_spaced(out, after_columns, pairs);
    out[last] = b'\n';
    last + 1
}

// The line of a pair, both counted from 1.
fn put_pair(out: &mut [u8], at: usize, row: u32, column: u32) -> usize
    requires { at + length (matched_pair row column) ≤ length out.old }
    ensures { Wrote out.old at (matched_pair row column) out.new result }
{
    let after_row = put_decimal(out, at, u64::from(row) + 1);
    let last = put_spaced(out, after_row, u64::from(column) + 1);
    out[last] = b'\n';
    last + 1
}

// The line of a column; none if it has no row.
fn put_column(out: &mut [u8], at: usize, row: u32, column: u32) -> usize
    requires { at + length (column_pair row column) ≤ length out.old }
    ensures { Wrote out.old at (column_pair row column) out.new result }
{
    if row == limits::NONE {
        return at;
    }
    put_pair(out, at, row, column)
}

// The pairs of the columns, upward.
fn put_columns(out: &mut [u8], at: usize, n: usize, perm: &[u32]) -> usize
    requires n_bound { n ≤ 64 }
    requires n_in_bounds { n ≤ length perm.now }
    requires perm_in_bounds { at + length (matched_pairs n perm.now) ≤ length out.old }
    ensures { Wrote out.old at (matched_pairs n perm.now) out.new result }
{
    let mut next = at;
    for k in 0..n {
        next = put_column(out, next, perm[k], k as u32);
    }
    next
}

// The pairs of a match as a pattern file into the slice, whose rest stays. Answers the length of the text.
fn put_pairs(n: usize, pairs: u64, perm: &[u32], out: &mut [u8]) -> usize
    requires small { n ≤ 64 }
    requires perm { length perm.now ≡ n }
    requires room { output_length ≤ length out.old }
    ensures text { out.new ≡ sets out.old 0 (pairs_text n pairs perm.now) }
    ensures length { result ≡ length (pairs_text n pairs perm.now) }
    ensures fits { result ≤ output_length }
{
    let after_banner = put_bytes(
        out,
        0,
        b"%%MatrixMarket matrix coordinate pattern general\n",
    );
    let after_size = put_pattern_size(out, after_banner, n, pairs);
    put_columns(out, after_size, n, perm)
}

// Writes the text of a match, in the requested form, into the slice, whose rest stays. Answers the length of the text.
pub fn put_form(
    form: Form,
    n: usize,
    perm: &[u32],
    u: &[f64],
    v: &[f64],
    counts: &[u64],
    out: &mut [u8],
) -> usize
    requires small { n ≤ 64 }
    requires perm { length perm.now ≡ n }
    requires u { length u.now ≡ n }
    requires v { length v.now ≡ n }
    requires counts { length counts.now ≡ 8 }
    requires room { output_length ≤ length out.old }
    requires rows { AllPrintable n u.now }
    requires columns { AllPrintable n v.now }
    ensures text { let text = form_text form n perm.now u.now v.now counts.now in
        out.new ≡ sets out.old 0 text }
    ensures length { let text = form_text form n perm.now u.now v.now counts.now in
        result ≡ length text }
    ensures fits { result ≤ output_length }
{
    match form {
        Form::Report => put_match(n, perm, u, v, counts, out),
        Form::Pairs => put_pairs(n, counts[0], perm, out),
    }
}

// The text of a refusal into the slice, whose rest stays. Answers the length of the text.
pub fn put_refused(number: u32, out: &mut [u8]) -> usize
    requires { output_length ≤ length out.old }
    ensures text { out.new ≡ sets out.old 0 (refused_text number) }
    ensures length { result ≡ length (refused_text number) }
    ensures fits { result ≤ output_length }
{
    let after_word = put_bytes(out, 0, b"refused ");
    let last = put_decimal(out, after_word, u64::from(number));
    out[last] = b'\n';
    last + 1
}
