// A general matrix scaled in place by powers of two, through the exponents of its values alone. Values are lent as the
// bits of doubles, so that a refused call leaves every one as it was, NaNs included.
#![tactic(auto)]

ghost use Rattle.std.specs.Prelude.{◌≡◌, true, ◌+◌, ◌≤◌, ◌<◌, ℤ, ◌+ℤ◌, length, get_or};
ghost use Rattle.refusal.specs.Number.{number_of};
ghost use Rattle.exponents_powers.specs.Power.{within_limit, scaled_bits, exponents};
ghost use Rattle.sparse.specs.Pattern.{pattern};
ghost use Rattle.exponents_apply.specs.Apply.{exponent_at, limit_fault, column_fault, values_fault, shift_at};
ghost use Rattle.exponents_apply.specs.Apply.{Promises};
ghost use Rattle.exponents_apply.specs.inner.Steps.{Places, Tested, Written};

use refusal::Refusal;

// Refuses an exponent of a list beyond the limit with 43.
fn limit_fault(exponents: &[i32]) -> Result<(), Refusal>
    ensures { number_of result ≡ limit_fault exponents.now }
{
    for &exponent in exponents {
        if !exponents_powers::within_limit(exponent) {
            return Err(Refusal::ExponentRange);
        }
    }
    Ok(())
}

// Refuses a value of the column whose entries are those from `from` up to `to` with 46.
fn column_fault(
    row_idx: &[u32],
    row_exponents: &[i32],
    column_exponent: i32,
    values: &[u64],
    from: usize,
    to: usize,
) -> Result<(), Refusal>
    requires places { Places row_idx.now row_exponents.now values.now }
    requires to_in_bounds { (to ≤ length row_idx.now) × (within_limit column_exponent ≡ true) }
    ensures { number_of result
        ≡ column_fault row_idx.now row_exponents.now column_exponent values.now from to }
{
    for k in from..to {
        let row_exponent = row_exponents[row_idx[k] as usize];
        if !exponents_powers::is_scalable(values[k], row_exponent, column_exponent) {
            return Err(Refusal::ValueNotNormal);
        }
    }
    Ok(())
}

// Refuses a value of any column with 46.
fn values_fault(
    n: usize,
    col_ptr: &[u32],
    row_idx: &[u32],
    row_exponents: &[i32],
    column_exponents: &[i32],
    values: &[u64],
) -> Result<(), Refusal>
    requires { Tested (pattern n col_ptr.now row_idx.now)
        (exponents row_exponents.now column_exponents.now) values.now }
    ensures { number_of result
        ≡ values_fault (pattern n col_ptr.now row_idx.now)
        (exponents row_exponents.now column_exponents.now) values.now }
{
    for j in 0..n {
        let from = col_ptr[j] as usize;
        let to = col_ptr[j + 1] as usize;
        column_fault(
            row_idx,
            row_exponents,
            column_exponents[j],
            values,
            from,
            to,
        )?;
    }
    Ok(())
}

// The entries of one column, scaled.
fn scale_column(
    row_idx: &[u32],
    row_exponents: &[i32],
    column_exponent: i32,
    values: &mut [u64],
    from: usize,
    to: usize,
)
    requires places { Places row_idx.now row_exponents.now values.old }
    requires from_le_to { (from ≤ to) × ((to ≤ length row_idx.now) × (within_limit column_exponent ≡ true)) }
    requires to_value { column_fault row_idx.now row_exponents.now column_exponent values.old from to ≡ 0 }
    ensures { Written
        (λ k. scaled_bits (get_or values.old k 0)
        (exponent_at row_exponents.now (get_or row_idx.now k 0) +ℤ column_exponent))
        from to values.old values.new }
{
    for k in from..to {
        let row_exponent = row_exponents[row_idx[k] as usize];
        values[k] = exponents_powers::scaled(values[k], row_exponent, column_exponent);
    }
}

// All entries, scaled.
fn scale_values(
    n: usize,
    col_ptr: &[u32],
    row_idx: &[u32],
    row_exponents: &[i32],
    column_exponents: &[i32],
    values: &mut [u64],
)
    requires tested { Tested (pattern n col_ptr.now row_idx.now)
        (exponents row_exponents.now column_exponents.now) values.old }
    requires values_value { values_fault (pattern n col_ptr.now row_idx.now)
        (exponents row_exponents.now column_exponents.now) values.old ≡ 0 }
    ensures { Written
        (λ k. scaled_bits (get_or values.old k 0)
        (shift_at (pattern n col_ptr.now row_idx.now)
        (exponents row_exponents.now column_exponents.now) k))
        0 (length row_idx.now) values.old values.new }
{
    for j in 0..n {
        let from = col_ptr[j] as usize;
        let to = col_ptr[j + 1] as usize;
        scale_column(
            row_idx,
            row_exponents,
            column_exponents[j],
            values,
            from,
            to,
        );
    }
}

// Every value times 2 ^ (exponent of its row + exponent of its column), or the first thing wrong.
pub fn apply_exponents(
    n: u32,
    col_ptr: &[u32],
    row_idx: &[u32],
    row_exponents: &[i32],
    column_exponents: &[i32],
    values: &mut [u64],
) -> Result<(), Refusal>
    ensures { let m = pattern n col_ptr.now row_idx.now in
        let e = exponents row_exponents.now column_exponents.now in
        Promises m e values.old (number_of result) values.new }
{
    let size = n as usize;
    let lengths = (col_ptr.len() == size + 1)
        & ((values.len() == row_idx.len())
            & ((row_exponents.len() == size) & (column_exponents.len() == size)));
    sparse::general::pattern_fault(n, col_ptr, row_idx, lengths)?;
    limit_fault(row_exponents)?;
    limit_fault(column_exponents)?;
    values_fault(
        size,
        col_ptr,
        row_idx,
        row_exponents,
        column_exponents,
        values,
    )?;
    scale_values(
        size,
        col_ptr,
        row_idx,
        row_exponents,
        column_exponents,
        values,
    );
    Ok(())
}
