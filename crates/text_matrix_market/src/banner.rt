// The banner, word by word.
ghost use Rattle.std.specs.Prelude.{◌≡◌, ◌≤◌, ◌<◌, length, IfSome};
ghost use Rattle.std.specs.Bool.{then_some};
ghost use Rattle.text_matrix_market.specs.Text.{words_of};
ghost use Rattle.text_matrix_market.specs.Banner.{same_word, same_words, banner_words, is_banner, banner_kind};
ghost use Rattle.text_matrix_market.specs.inner.Steps.{next_word, word_past, nothing_past};

use crate::text;

// The kinds of file that are read.
#[derive(Clone, Copy)]
pub enum Kind {
    General,
    Symmetric,
    Pattern,
}

// Whether the word is the name, in any letter case. The name is in small letters.
fn same_word(word: &[u8], name: &[u8]) -> bool
    ensures { result ≡ same_word word.now name.now }
{
    word.len() == name.len()
        && word
            .iter()
            .zip(name)
            .all(|(x, y)| x.to_ascii_lowercase() == *y)
}

// Where the next word of the line ends, if it is the name.
fn next_is(line: &[u8], from: usize, name: &[u8]) -> Option<usize>
    requires { from ≤ length line.now }
    ensures { let word = next_word line.now from in
        result ≡ then_some (same_word word name.now) (word_past line.now from) }
{
    let start = text::word_start(line, from);
    let end = text::word_end(line, start);
    same_word(&line[start..end], name).then_some(end)
}

// Where the banner's words end, if the line begins with them.
fn banner_end(line: &[u8], field: &[u8], symmetry: &[u8]) -> Option<usize>
    requires some_field { 0 < length field.now }
    requires some_symmetry { 0 < length symmetry.now }
    ensures within { IfSome result (λ end. end ≤ length line.now) }
    ensures words { let names = banner_words field.now symmetry.now in
        nothing_past result line.now ≡ same_words (words_of line.now) names }
{
    let first = next_is(line, 0, b"%%matrixmarket")?;
    let second = next_is(line, first, b"matrix")?;
    let third = next_is(line, second, b"coordinate")?;
    let fourth = next_is(line, third, field)?;
    next_is(line, fourth, symmetry)
}

// Whether the line is the banner with this field and symmetry, its last two words (SPECIFICATION 11.2).
fn is_banner(line: &[u8], field: &[u8], symmetry: &[u8]) -> bool
    requires fact_1 { 0 < length field.now }
    requires fact_2 { 0 < length symmetry.now }
    ensures { result ≡ is_banner field.now symmetry.now line.now }
{
    let Some(end) = banner_end(line, field, symmetry) else {
        return false;
    };
    text::begins_percent(line) && text::word_start(line, end) == line.len()
}

// The kind of file whose banner the line is.
pub fn read_banner(line: &[u8]) -> Option<Kind>
    ensures { result ≡ banner_kind line.now }
{
    if is_banner(line, b"integer", b"general") {
        return Some(Kind::General);
    }
    if is_banner(line, b"integer", b"symmetric") {
        return Some(Kind::Symmetric);
    }
    if is_banner(line, b"pattern", b"general") {
        return Some(Kind::Pattern);
    }
    None
}
