// What both builders of cost graphs do to a column of logs.
#![tactic(auto)]

ghost use Rattle.std.specs.Prelude.{◌≡◌, ◌+◌, ◌≤◌, ◌<◌, length};
ghost use Rattle.mc64_columns.specs.Columns.{largest, below, normalised};
ghost use Rattle.mc64_columns.specs.inner.Steps.{entry_log, WordOf, WordsPut};

// Where the logs of entries come from: they are lent, or values are lent and the logs are computed from them.
#[derive(Clone, Copy)]
pub enum LogSource {
    Lent,
    Own,
}

// The log of an entry: what is lent for it, or the logarithm of that, whose word is given.
pub fn entry_log(source: LogSource, lent: f64, word: u32) -> f64
    requires { WordOf source lent word }
    ensures { result ≡ entry_log source lent }
{
    match source {
        LogSource::Lent => lent,
        LogSource::Own => log_lanes::double_of(word),
    }
}

// The words of what is lent, from `at` on, where the logs are the values' own; lent logs need none.
pub fn put_words(source: LogSource, lent: &[f64], at: usize, words: &mut [u32])
    requires { at + length lent.now ≤ length words.old }
    ensures { WordsPut source lent.now at words.old words.new }
{
    match source {
        LogSource::Lent => {}
        LogSource::Own => log_lanes::log_words(lent, at, words),
    }
}

// The largest log, the first of equals.
fn top_of(column: &[f64]) -> f64
    requires { 0 < length column.now }
    ensures { result ≡ largest column.now }
{
    let mut top = column[0];
    for &log in &column[1..] {
        if log > top {
            top = log;
        }
    }
    top
}

// Subtracts each log from `top`.
pub fn subtract(top: f64, column: &mut [f64])
    ensures { column.new ≡ below top column.old }
{
    for log in column {
        *log = top - *log;
    }
}

// Turns a column of logs into its costs, in place, and answers its largest log.
pub fn normalise(column: &mut [f64]) -> f64
    requires { 0 < length column.old }
    ensures top { result ≡ largest column.old }
    ensures costs { column.new ≡ normalised column.old }
{
    let top = top_of(column);
    subtract(top, column);
    top
}
