// Numbers of one to eighteen decimal digits.
ghost use Rattle.std.specs.Prelude.{◌≡◌, ◌≤◌, length};
ghost use Rattle.text_matrix_market.specs.Numbers.{number_read, size_read, numbers_of};
ghost use Rattle.text_matrix_market.specs.inner.Steps.{word_read, field_of, weight_field, next_word, word_past};

use crate::banner::Kind;
use crate::text;

const MAX_DIGITS: usize = 18;

// A word of 1 to 18 digits as its number.
pub fn read_number(word: &[u8]) -> Option<u64>
    ensures { result ≡ number_read word.now }
{
    if word.is_empty() || word.len() > MAX_DIGITS {
        return None;
    }
    let mut value: u64 = 0;
    for &digit in word {
        if !digit.is_ascii_digit() {
            return None;
        }
        value = 10 * value + u64::from(digit - b'0');
    }
    Some(value)
}

// The size of a word's number, which may begin with one minus.
fn read_size(word: &[u8]) -> Option<u64>
    ensures { result ≡ size_read word.now }
{
    read_number(word.strip_prefix(b"-").unwrap_or(word))
}

// The number of a word, which may begin with a minus if it is `signed`.
fn read_word(signed: bool, word: &[u8]) -> Option<u64>
    ensures { result ≡ word_read signed word.now }
{
    if signed {
        read_size(word)
    } else {
        read_number(word)
    }
}

// The next word's number, and where the word ends.
fn next_number(signed: bool, line: &[u8], from: usize) -> Option<(u64, usize)>
    requires { from ≤ length line.now }
    ensures { result ≡ field_of (word_read signed (next_word line.now from))
        (word_past line.now from) }
{
    let start = text::word_start(line, from);
    let end = text::word_end(line, start);
    let value = read_word(signed, &line[start..end])?;
    Some((value, end))
}

// What follows row and column: a pattern has nothing there, which counts as 0.
fn next_weight(kind: Kind, line: &[u8], from: usize) -> Option<(u64, usize)>
    requires { from ≤ length line.now }
    ensures { result ≡ weight_field kind line.now from }
{
    match kind {
        Kind::General => next_number(false, line, from),
        Kind::Symmetric => next_number(true, line, from),
        Kind::Pattern => Some((0, from)),
    }
}

// The numbers of a line: row, column and weight. A size line has those of a general entry.
pub fn line_numbers(kind: Kind, line: &[u8]) -> Option<(u64, u64, u64)>
    ensures { result ≡ numbers_of kind line.now }
{
    let (a, past_a) = next_number(false, line, 0)?;
    let (b, past_b) = next_number(false, line, past_a)?;
    let (c, past_c) = next_weight(kind, line, past_b)?;
    if text::word_start(line, past_c) < line.len() {
        return None;
    }
    Some((a, b, c))
}
