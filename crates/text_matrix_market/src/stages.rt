// The stages of reading, line by line.
ghost use Rattle.std.specs.Prelude.{◌≡◌, ◌<◌};
ghost use Rattle.refusal.specs.Number.{numbered};
ghost use Rattle.text_matrix_market.specs.File.{start, sizing, entering, is_within, weight_fits, is_upper};
ghost use Rattle.text_matrix_market.specs.File.{line_entry};
ghost use Rattle.text_matrix_market.specs.File.{content, read_line};
ghost use Rattle.text_matrix_market.specs.inner.Steps.{Lists, lists, first_entries, state_of, state_after};
ghost use Rattle.text_matrix_market.specs.inner.Steps.{Places, Room, line_stored};

use crate::banner::Kind;
use crate::{banner, numbers, text};
use refusal::Refusal;

// Row and column count from 0. The weight is the cost, or the size of a symmetric entry's value; a pattern's is 0.
#[derive(Clone, Copy)]
pub struct Entry {
    pub row: u32,
    pub column: u32,
    pub weight: u64,
}

// Before the banner, before the size line, or below it (N, L and how many entries were read).
#[derive(Clone, Copy)]
pub enum Stage {
    Start,
    Sizing(Kind),
    Entering(Kind, u32, u32, u32),
}

const MAX_LINE: usize = 1024;

const MAX_ORDER: u64 = 64;

const MAX_ENTRIES: u64 = 512;

// 2^48 - 1
const MAX_PRODUCT: u64 = 0xffff_ffff_ffff;

// 2^53
const VALUE_LIMIT: u64 = 0x20_0000_0000_0000;

// An index from 1 to n.
fn within(n: u64, index: u64) -> bool
    ensures { result ≡ is_within n index }
{
    (1..=n).contains(&index)
}

// Whether a weight is in the range of its kind.
fn weight_fits(kind: Kind, n: u64, weight: u64) -> bool
    requires { 0 < n }
    ensures { result ≡ weight_fits kind n weight }
{
    match kind {
        // N times a cost of eighteen digits may exceed 64 bits
        Kind::General | Kind::Pattern => weight <= MAX_PRODUCT / n,
        Kind::Symmetric => weight < VALUE_LIMIT,
    }
}

// Whether an entry is above the diagonal, where a symmetric file has none.
fn is_upper(kind: Kind, row: u64, column: u64) -> bool
    ensures { result ≡ is_upper kind row column }
{
    match kind {
        Kind::Symmetric => row < column,
        Kind::General | Kind::Pattern => false,
    }
}

// The entry of a line: two indices from 1 to n and a weight in range.
fn read_entry(kind: Kind, n: u32, line: &[u8]) -> Result<Entry, Refusal>
    ensures { numbered result ≡ line_entry kind n line.now }
{
    let (row, column, weight) = numbers::line_numbers(kind, line).ok_or(Refusal::EntryLine)?;
    let order = u64::from(n);
    if !within(order, row) || !within(order, column) || !weight_fits(kind, order, weight) {
        return Err(Refusal::EntryLine);
    }
    if is_upper(kind, row, column) {
        return Err(Refusal::UpperEntry);
    }
    Ok(Entry {
        row: (row - 1) as u32,
        column: (column - 1) as u32,
        weight,
    })
}

// A line before the size line, or the size line.
fn size_line(kind: Kind, line: &[u8]) -> Result<Stage, Refusal>
    ensures { (l : Lists) → state_after (numbered result) l ≡ content (sizing kind) line.now }
{
    if text::is_blank_line(line) || text::begins_percent(line) {
        return Ok(Stage::Sizing(kind));
    }
    let (m, n, count) = numbers::line_numbers(Kind::General, line).ok_or(Refusal::SizeLine)?;
    if m != n {
        return Err(Refusal::SizeLine);
    }
    if n > MAX_ORDER || count > MAX_ENTRIES {
        return Err(Refusal::InputLimit);
    }
    Ok(Stage::Entering(kind, n as u32, count as u32, 0))
}

// A line below the size line. Its entry goes to the place after those that were read.
fn entry_line(
    kind: Kind,
    n: u32,
    count: u32,
    read: u32,
    line: &[u8],
    rows: &mut [u32],
    columns: &mut [u32],
    weights: &mut [u64],
) -> Result<Stage, Refusal>
    requires { Places count (lists rows.old columns.old weights.old) }
    ensures state { let before = lists rows.old columns.old weights.old in
        let after = lists rows.new columns.new weights.new in
        let state = entering kind n count (first_entries read before) in
        state_after (numbered result) after ≡ content state line.now }
    ensures slices { let before = lists rows.old columns.old weights.old in
        let after = lists rows.new columns.new weights.new in
        let state = entering kind n count (first_entries read before) in
        after ≡ line_stored state (content state line.now) before }
{
    if text::is_blank_line(line) {
        return Ok(Stage::Entering(kind, n, count, read));
    }
    if read >= count {
        return Err(Refusal::EntryCount);
    }
    let entry = read_entry(kind, n, line)?;
    let at = read as usize;
    rows[at] = entry.row;
    columns[at] = entry.column;
    weights[at] = entry.weight;
    Ok(Stage::Entering(kind, n, count, read + 1))
}

// The first line.
fn banner_line(line: &[u8]) -> Result<Stage, Refusal>
    ensures { (l : Lists) → state_after (numbered result) l ≡ content start line.now }
{
    let kind = banner::read_banner(line).ok_or(Refusal::Banner)?;
    Ok(Stage::Sizing(kind))
}

// One more line.
pub fn next_stage(
    stage: Stage,
    line: &[u8],
    rows: &mut [u32],
    columns: &mut [u32],
    weights: &mut [u64],
) -> Result<Stage, Refusal>
    requires { Room stage (lists rows.old columns.old weights.old) }
    ensures state { let before = lists rows.old columns.old weights.old in
        let after = lists rows.new columns.new weights.new in
        state_after (numbered result) after ≡ read_line (state_of stage before) line.now }
    ensures slices { let before = lists rows.old columns.old weights.old in
        let after = lists rows.new columns.new weights.new in
        let state = state_of stage before in
        after ≡ line_stored state (read_line state line.now) before }
{
    if line.len() > MAX_LINE {
        return Err(Refusal::InputLimit);
    }
    match stage {
        Stage::Start => banner_line(line),
        Stage::Sizing(kind) => size_line(kind, line),
        Stage::Entering(kind, n, count, read) => {
            entry_line(kind, n, count, read, line, rows, columns, weights)
        }
    }
}
