// The logarithms of many values, sixteen in lockstep: the digits of each stand in a 32-bit word of its own, its lane,
// so that the compiler takes several lanes in one instruction.
#![tactic(auto)]

ghost use Rattle.std.specs.Prelude.{◌≡◌, ◌+◌, ◌*◌, ◌^◌, ◌≤◌, ◌<◌, length, get_or};
ghost use Rattle.whole_log.specs.Log.{digit_of, squared, log_from, whole_log, double_of};
ghost use Rattle.log_lanes.specs.inner.Lanes.{Ready, Wide, Every, Loaded, Answered, answer_of, Words};

// How many lanes there are.
const LANES: usize = 16;

// The word of a value that has no logarithm: words of logarithms are below it.
const NO_LOG: u32 = 137494528;

// What a lane holds: the 32 leading digits of a number, and what is known of its logarithm.
#[derive(Clone, Copy)]
struct Lane {
    leading: u32,
    known: u32,
}

// One more digit of a logarithm. `upper` is the upper word of the square of the leading digits, `carried` >> 14 ends in
// the digit behind it.
fn next_digit(leading: u32, known: u32) -> Lane
    requires { (2 ^ 31 ≤ leading) × (known < 2 ^ 30) }
    ensures { (result.leading ≡ squared leading) × (result.known ≡ 2 * known + digit_of leading) }
{
    let high = (leading >> 16) as u16;
    let low = (leading % 0x1_0000) as u16;
    let middle = whole_log::product(high, low);
    let carried = (whole_log::product(low, low) >> 17) + middle % 0x8000;
    let upper = whole_log::product(high, high) + (middle >> 15) + (carried >> 15);
    let digit = upper >> 31;
    if digit != 0 {
        return Lane {
            leading: upper,
            known: known + known + digit,
        };
    }
    Lane {
        leading: upper + upper + (carried >> 14) % 2,
        known: known + known,
    }
}

// One more digit in every lane.
fn next_digits(leading: &mut [u32], known: &mut [u32])
    requires wide { Wide leading.old known.old }
    requires every { Every (λ j m e. (2 ^ 31 ≤ m) × (e < 2 ^ 30)) leading.old known.old }
    ensures { let m = leading.old in
        let e = known.old in
        Every (λ j m' e'. (m' ≡ squared (get_or m j 0)) × (e' ≡ 2 * get_or e j 0 + digit_of (get_or m j 0)))
        leading.new known.new }
{
    for i in 0..LANES {
        let lane = next_digit(leading[i], known[i]);
        leading[i] = lane.leading;
        known[i] = lane.known;
    }
}

// The logarithm in every lane: sixteen more digits.
fn all_digits(leading: &mut [u32], known: &mut [u32])
    requires wide { Wide leading.old known.old }
    requires every { Every (λ j m e. Ready m e) leading.old known.old }
    ensures { let m = leading.old in
        let e = known.old in
        Every (λ j m' e'. e' ≡ log_from 16 (get_or m j 0) (get_or e j 0)) leading.new known.new }
{
    for _ in 0..whole_log::DIGITS {
        next_digits(leading, known);
    }
}

// Where the lane of a value starts. That of a value without a logarithm ends at NO_LOG.
fn lane_of(x: f64) -> Lane
    ensures { Ready result.leading result.known × (answer_of (log_from 16 result.leading result.known) ≡ whole_log x) }
{
    if float64::is_finite(x) {
        let bits = f64::to_bits(x) % 0x8000_0000_0000_0000;
        if bits > 0 {
            let digits = float64::full_digits(bits);
            return Lane {
                leading: (digits.significand >> 21) as u32,
                known: (digits.exponent - 1022) as u32,
            };
        }
    }
    Lane {
        leading: 0x8000_0000,
        known: 2098,
    }
}

// The values start in the lanes, the first in lane 0.
fn load(values: &[f64], leading: &mut [u32], known: &mut [u32])
    requires wide { (length values.now ≤ 16) × Wide leading.old known.old }
    requires every { Every (λ j m e. Ready m e) leading.old known.old }
    ensures { Every (Loaded values.now (length values.now)) leading.new known.new }
{
    for (i, value) in values.iter().enumerate() {
        let lane = lane_of(*value);
        leading[i] = lane.leading;
        known[i] = lane.known;
    }
}

// The words of a block of values, at most one for each lane. The two parts of a lane stand in arrays of their own, so
// that the compiler takes several lanes in one instruction.
fn log_block(values: &[f64], words: &mut [u32])
    requires { (length values.now ≤ 16) × (length words.old ≡ length values.now) }
    ensures { Answered values.now words.new }
{
    let mut leading = [0x8000_0000u32; LANES];
    let mut known = [0u32; LANES];
    load(values, &mut leading, &mut known);
    all_digits(&mut leading, &mut known);
    words.copy_from_slice(&known[..values.len()]);
}

// The words of the values, from `at` on.
pub fn log_words(values: &[f64], at: usize, words: &mut [u32])
    requires { at + length values.now ≤ length words.old }
    ensures { Words values.now at (length values.now) words.old words.new }
{
    let mut place = at;
    for block in values.chunks(LANES) {
        let end = place + block.len();
        log_block(block, &mut words[place..end]);
        place = end;
    }
}

// The logarithm of a value, by its word, as a double; a NaN where there is none.
pub fn double_of(word: u32) -> f64
    ensures { result ≡ double_of (answer_of word) }
{
    if word >= NO_LOG {
        return float64::quiet_nan();
    }
    whole_log::from_units(word as u64) as f64
}
