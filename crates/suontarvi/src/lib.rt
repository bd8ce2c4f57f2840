// What a host links: functions of a C interface on numbers and slices. A slice is passed as a pointer, then its length.
#![tactic(auto)]

ghost use Rattle.std.specs.Prelude.{◌≡◌};
ghost use Rattle.refusal.specs.Listed.{OneOf, root_byte_numbers};
ghost use Rattle.refusal.specs.Number.{number_of};
ghost use Rattle.byte_numbers.specs.Root.{root_number, root_bytes, RootPromised};

mod check_calls;
mod exponent_calls;
mod factor_calls;
mod gap_calls;
mod graph_calls;
mod infnorm_calls;
mod largest_calls;
mod log_calls;
mod match_calls;
mod matrices;
mod row_calls;
mod rule_calls;
mod scaling_calls;
mod sheet_calls;
mod version;

use refusal::Refusal;

// What a call answers over C where what it makes has a count.
fn told(made: Result<u32, Refusal>) -> u32
    ensures { result ≡ number_of made }
{
    match made {
        Ok(_) => refusal::ACCEPTED,
        Err(refusal) => u32::from(refusal),
    }
}

// The square root of x into 8 bytes, low byte first. Answers 0 or the number of the refusal; a refused call leaves the
// bytes as they are.
#[unsafe(no_mangle)]
pub extern "C" fn suontarvi_sqrt(x: f64, root: &mut [u8]) -> u32
    ensures fault { result ≡ root_number x root.old }
    ensures bytes { root.new ≡ root_bytes x root.old }
    ensures ieee { RootPromised x root.old result root.new }
    ensures number { OneOf root_byte_numbers result }
{
    refusal::answer(byte_numbers::sqrt(x, root))
}
