// One double scaled by a power of two, by its bits (specs/Power.antt).
#![tactic(auto)]

ghost use Rattle.std.specs.Prelude.{◌≡◌, true, ◌+◌, ◌≤◌, pos, ◌+ℤ◌};
ghost use Rattle.exponents_powers.specs.Power.{within_limit, scalable, scaled_bits};

// Whether an exponent is within the limit.
pub fn within_limit(exponent: i32) -> bool
    ensures { result ≡ within_limit exponent }
{
    (-67108864 <= exponent) & (exponent <= 67108864)
}

// An exponent within the limit, counted from the least one up.
fn raised(exponent: i32) -> u64
    requires { within_limit exponent ≡ true }
    ensures { (pos result ≡ exponent +ℤ pos 67108864) × (result ≤ 134217728) }
{
    (exponent + 67108864) as u64
}

// Whether a double is zero, or normal before and after it is scaled.
pub fn is_scalable(bits: u64, row: i32, column: i32) -> bool
    requires { (within_limit row ≡ true) × (within_limit column ≡ true) }
    ensures { result ≡ scalable bits (row +ℤ column) }
{
    let field = (bits >> 52) % 2048;
    let sum = field + raised(row) + raised(column);
    let normal = (1 <= field) & (field <= 2046);
    (bits % 0x8000_0000_0000_0000 == 0) | (normal & ((134217729 <= sum) & (sum <= 134219774)))
}

// The double scaled by 2 ^ (row + column).
pub fn scaled(bits: u64, row: i32, column: i32) -> u64
    requires row_value { (within_limit row ≡ true) × (within_limit column ≡ true) }
    requires column_value { scalable bits (row +ℤ column) ≡ true }
    ensures { result ≡ scaled_bits bits (row +ℤ column) }
{
    if bits % 0x8000_0000_0000_0000 == 0 {
        return bits;
    }
    let field = (bits >> 52) % 2048 + raised(row) + raised(column) - 134217728;
    (bits >> 63 << 63) + (field << 52) + bits % 0x0010_0000_0000_0000
}
