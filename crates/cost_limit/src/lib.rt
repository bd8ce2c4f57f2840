// The test of one cost and of one log in a graph of n columns: n times its size, the exact product, is below 2^48 or
// 2^47. A limit is made once a call; a cost is compared with 0 and with the limit, the size of a log with the limit.
#![tactic(auto)]

ghost use Rattle.std.specs.Prelude.{◌≡◌, ℕ, ◌≤◌, ◌<◌};
ghost use Rattle.limits.specs.Limits.{max_columns};
ghost use Rattle.cost_limit.specs.Range.{in_range, in_log_range};
ghost use Rattle.cost_limit.specs.inner.Limits.{CostLimit, LogLimit};
ghost use Rattle.cost_limit.specs.inner.Steps.{Bound};

// The limit of a cost in a graph of n columns.
pub fn cost_limit(n: u32) -> f64
    requires { n ≤ max_columns }
    ensures { CostLimit n result }
{
    bound(48, n)
}

// The limit of the size of a log in a graph of n columns.
pub fn log_limit(n: u32) -> f64
    requires { n ≤ max_columns }
    ensures { LogLimit n result }
{
    bound(47, n)
}

// Whether a cost is in range for the n whose limit this is.
pub fn in_range(limit: f64, cost: f64) -> bool
    ensures { (n : ℕ) → CostLimit n limit → result ≡ in_range n cost }
{
    (cost >= 0.0) & (cost < limit)
}

// Whether a log is in range for the n whose limit this is.
pub fn in_log_range(limit: f64, log: f64) -> bool
    ensures { (n : ℕ) → LogLimit n limit → result ≡ in_log_range n log }
{
    float64::size_of(log) < limit
}

// The least double from 2^e / n up; without columns nothing is too large. If 2^t is the least power of two from n up,
// its 53 digits are 2^(52 + t) / n, rounded up. 1 is subtracted first, so the dividend fits 64 digits at t = 12.
fn bound(e: u64, n: u32) -> f64
    requires { (e ≤ 48) × (n ≤ max_columns) }
    ensures { Bound e n result }
{
    if n == 0 {
        return f64::INFINITY;
    }
    let t = (32 - u32::leading_zeros(n - 1)) as u64;
    let ones = 0xffff_ffff_ffff_ffff >> (12 - t);
    f64::from_bits((1022 + e - t) * 0x10_0000_0000_0000 + ones / (n as u64) + 1)
}
