// Lines and words by their places.
ghost use Rattle.std.specs.Prelude.{◌≡◌, ◌≤◌, length};
ghost use Rattle.text_matrix_market.specs.Text.{is_blank, is_blank_line, begins_percent};
ghost use Rattle.text_matrix_market.specs.inner.Steps.{line_end, word_start, word_end};

// A space, a tab or a carriage return.
pub fn is_blank(b: u8) -> bool
    ensures { result ≡ is_blank b }
{
    matches!(b, b' ' | b'\t' | b'\r')
}

// The line feed that ends the line, or the end of the input.
pub fn line_end(input: &[u8], from: usize) -> usize
    requires { from ≤ length input.now }
    ensures { result ≡ line_end input.now from }
{
    match input[from..].iter().position(|b| *b == b'\n') {
        Some(count) => from + count,
        None => input.len(),
    }
}

// The place past the leading blanks.
pub fn word_start(line: &[u8], from: usize) -> usize
    requires { from ≤ length line.now }
    ensures { result ≡ word_start line.now from }
{
    match line[from..].iter().position(|b| !is_blank(*b)) {
        Some(count) => from + count,
        None => line.len(),
    }
}

// The blank that ends the word, or the end of the line.
pub fn word_end(line: &[u8], from: usize) -> usize
    requires { from ≤ length line.now }
    ensures { result ≡ word_end line.now from }
{
    match line[from..].iter().position(|b| is_blank(*b)) {
        Some(count) => from + count,
        None => line.len(),
    }
}

// A line without words.
pub fn is_blank_line(line: &[u8]) -> bool
    ensures { result ≡ is_blank_line line.now }
{
    word_start(line, 0) == line.len()
}

// Whether the line is a comment, where comments are allowed.
pub fn begins_percent(line: &[u8]) -> bool
    ensures { result ≡ begins_percent line.now }
{
    line.starts_with(b"%")
}
