// The words of the list, one after the other, and the state of a case.
ghost use Rattle.std.specs.Prelude.{◌<◌, ◌≤◌, IfSome};

use refusal::Refusal;

// The longest slices beside rows and values: those of n = 4,097 and 1,024 entries.
pub const COLUMNS: usize = 4097;

pub const POINTERS: usize = 4098;

pub const ENTRIES: usize = 1024;

pub const BUILD_WORK: usize = 9220;

pub const MATCH_WORK: usize = 49165;

pub const DISTANCES: usize = 8194;

// The state of a case. The last two end the reading: the list cannot be read further, or is at its end.
#[derive(Clone, Copy, Default, PartialEq)]
pub enum State {
    #[default]
    Alike,
    Differs,
    Bad,
    Ended,
}

// The reading of the list: the last word, how often it is repeated and by what it grows, and the state of the case.
#[derive(Clone, Copy, Default)]
pub struct Place {
    pub at: usize,
    pub value: u64,
    pub left: u64,
    pub step: u64,
    pub state: State,
}

// The number of some digits, and the place after them.
#[derive(Clone, Copy)]
struct Digits {
    value: u64,
    next: usize,
}

impl Place {
    // The list cannot be read further.
    pub fn bad(self) -> Self {
        Self {
            state: State::Bad,
            ..self
        }
    }

    // The list is at its end.
    pub fn ended(self) -> Self {
        Self {
            state: State::Ended,
            ..self
        }
    }

    // The case differs, unless the list is at its end or cannot be read.
    pub fn differs(self) -> Self {
        match self.state {
            State::Alike => Self {
                state: State::Differs,
                ..self
            },
            _ => self,
        }
    }

    // The state of a case does not carry over to the next.
    pub fn alike(self) -> Self {
        match self.state {
            State::Differs => Self {
                state: State::Alike,
                ..self
            },
            _ => self,
        }
    }

    // No case follows.
    pub fn is_last(self) -> bool {
        matches!(self.state, State::Bad | State::Ended)
    }
}

// What a hexadecimal digit stands for.
fn digit(byte: u8) -> Option<u64>
    ensures { IfSome result (λ d. d < 16) }
{
    match byte {
        b'0'..=b'9' => Some(u64::from(byte - b'0')),
        b'a'..=b'f' => Some(u64::from(byte - b'a') + 10),
        _ => None,
    }
}

// The digits from a place on, up to the first that does not fit 64 bits.
fn number(input: &[u8], from: usize) -> Digits {
    let mut value = 0u64;
    for next in from..input.len() {
        match digit(input[next]) {
            Some(digit) if value <= 0xfff_ffff_ffff_ffff => value = value * 16 + digit,
            _ => return Digits { value, next },
        }
    }
    Digits {
        value,
        next: from.max(input.len()),
    }
}

// The next place that is neither blank nor in a comment, which goes from `#` to the end of its line.
fn skip(input: &[u8], from: usize) -> usize {
    let mut comment = false;
    for at in from..input.len() {
        let byte = input[at];
        comment = byte == b'#' || comment && byte != b'\n';
        if !comment && byte != b' ' && byte != b'\n' {
            return at;
        }
    }
    from.max(input.len())
}

// The place after the mark, or the same place if another byte is there.
fn behind(input: &[u8], at: usize, mark: u8) -> usize {
    if at < input.len() && input[at] == mark {
        at + 1
    } else {
        at
    }
}

// A word `value`, or a run of words `count*value` or `count*value+step`, at its first word. Apart from `next`, which is
// then short enough to stand in its callers' loops: a place passed and copied there takes twice the time.
#[inline(never)]
fn run(input: &[u8], from: Place) -> Place {
    let start = skip(input, from.at);
    let first = number(input, start);
    if first.next == start {
        return from.bad();
    }
    let star = behind(input, first.next, b'*');
    if star == first.next {
        return Place {
            at: first.next,
            value: first.value,
            left: 0,
            step: 0,
            ..from
        };
    }
    let value = number(input, star);
    let step = number(input, behind(input, value.next, b'+'));
    if first.value == 0 || value.next == star {
        return from.bad();
    }
    Place {
        at: step.next,
        value: value.value,
        left: first.value - 1,
        step: step.value,
        ..from
    }
}

// The next word. If the list cannot be read, the place stays.
pub fn next(input: &[u8], from: Place) -> Place {
    if from.state == State::Bad {
        return from;
    }
    if from.left == 0 {
        return run(input, from);
    }
    Place {
        value: from.value.wrapping_add(from.step),
        left: from.left - 1,
        ..from
    }
}

// The next word, which is below 2^32.
pub fn next_u32(input: &[u8], from: Place) -> Place {
    let place = next(input, from);
    if place.value > 0xffff_ffff {
        return place.bad();
    }
    place
}

// The low 32 bits of the word that was read.
pub fn word(place: Place) -> u32 {
    (place.value % 0x1_0000_0000) as u32
}

// The next word, a length up to the limit.
pub fn length(input: &[u8], from: Place, limit: usize) -> Place {
    let place = next(input, from);
    if place.value as usize > limit {
        return place.bad();
    }
    place
}

// The length that was read, 0 if it is above the limit.
pub fn size(place: Place, limit: usize) -> usize
    ensures { result ≤ limit }
{
    let size = place.value as usize;
    if size > limit {
        return 0;
    }
    size
}

// What the list has as a word: a number, or a double by its bits.
pub trait Listed: Copy + Default {
    // The next word.
    fn next(input: &[u8], from: Place) -> Place;

    // What the word stands for that was read.
    fn of(place: Place) -> Self;

    fn bits(self) -> u64;
}

impl Listed for u32 {
    fn next(input: &[u8], from: Place) -> Place {
        next_u32(input, from)
    }

    fn of(place: Place) -> u32 {
        word(place)
    }

    fn bits(self) -> u64 {
        u64::from(self)
    }
}

impl Listed for u64 {
    fn next(input: &[u8], from: Place) -> Place {
        next(input, from)
    }

    fn of(place: Place) -> u64 {
        place.value
    }

    fn bits(self) -> u64 {
        self
    }
}

// Every pattern of a NaN gives the one NaN.
impl Listed for f64 {
    fn next(input: &[u8], from: Place) -> Place {
        next(input, from)
    }

    fn of(place: Place) -> f64 {
        byte_numbers::double_of(place.value)
    }

    fn bits(self) -> u64 {
        byte_numbers::bits_of(self)
    }
}

// What the slice holds before the call.
pub fn fill<T: Listed>(input: &[u8], from: Place, out: &mut [T]) -> Place {
    let mut place = from;
    for x in out {
        place = T::next(input, place);
        *x = T::of(place);
    }
    place
}

// The next word is this one.
pub fn expect<T: Listed>(input: &[u8], from: Place, got: T) -> Place {
    let place = next(input, from);
    if place.value == got.bits() {
        place
    } else {
        place.differs()
    }
}

// Compares what the slice holds after the call with the list.
pub fn expect_all<T: Listed>(input: &[u8], from: Place, got: &[T]) -> Place {
    got.iter().fold(from, |place, x| expect(input, place, *x))
}

// The number that a call answers, and what it makes, which is 0 if it is refused.
pub fn expect_answer<T: Listed>(input: &[u8], from: Place, answer: Result<T, Refusal>) -> Place {
    let (number, made) = match answer {
        Ok(made) => (refusal::ACCEPTED, made),
        Err(refusal) => (u32::from(refusal), T::default()),
    };
    let place = expect(input, from, number);
    expect(input, place, made)
}

// The number that a call answers, what was done, and how many columns are unmatched.
pub fn expect_done(input: &[u8], from: Place, done: Result<(u64, u32), Refusal>) -> Place {
    let (number, done, unmatched) = match done {
        Ok((done, unmatched)) => (refusal::ACCEPTED, done, unmatched),
        Err(refusal) => (u32::from(refusal), 0, 0),
    };
    let place = expect(input, from, number);
    let place = expect(input, place, done);
    expect(input, place, unmatched)
}
