// Exponents from a match and a matrix scaled by them over the C interface, with native slices. Values are lent as the
// bits of doubles.
ghost use Rattle.exponents_powers.specs.Power.{exponents};
ghost use Rattle.exponents.specs.Call.{duals, Promises as ExponentPromises};
ghost use Rattle.sparse.specs.Pattern.{pattern};
ghost use Rattle.exponents_apply.specs.Apply.{Promises as ApplyPromises};

// The exponents of rows and columns from a match of whole numbers. Answers 0 or the refusal.
#[unsafe(no_mangle)]
pub extern "C" fn suontarvi_exponents(
    n: u32,
    u: &[f64],
    v: &[f64],
    cmax: &[f64],
    row_exponents: &mut [i32],
    column_exponents: &mut [i32],
) -> u32
    ensures { let d = duals u.now v.now cmax.now in
        ExponentPromises n d row_exponents.old column_exponents.old result
        row_exponents.new column_exponents.new }
{
    refusal::answer(exponents::exponents(n, u, v, cmax, row_exponents, column_exponents))
}

// A general matrix scaled in place by powers of two. Answers 0 or the refusal.
#[unsafe(no_mangle)]
pub extern "C" fn suontarvi_apply_exponents(
    n: u32,
    col_ptr: &[u32],
    row_idx: &[u32],
    row_exponents: &[i32],
    column_exponents: &[i32],
    values: &mut [u64],
) -> u32
    ensures { let m = pattern n col_ptr.now row_idx.now in
        let e = exponents row_exponents.now column_exponents.now in
        ApplyPromises m e values.old result values.new }
{
    refusal::answer(exponents_apply::apply_exponents(
        n,
        col_ptr,
        row_idx,
        row_exponents,
        column_exponents,
        values,
    ))
}
