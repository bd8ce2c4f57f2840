// Inf-norm factors of a symmetric matrix over the C interface, with native slices. Each call answers 0 or the
// number of the refusal.
ghost use Rattle.sparse.specs.Matrix.{matrix};
ghost use Rattle.infnorm.specs.Call.{InfnormPromises, OnepassPromises};

// Iterated.
#[unsafe(no_mangle)]
pub extern "C" fn suontarvi_infnorm(
    n: u32,
    col_ptr: &[u32],
    row_idx: &[u32],
    values: &[f64],
    factors: &mut [f64],
    work: &mut [f64],
) -> u32
    ensures { let m = matrix n col_ptr.now row_idx.now values.now in
        InfnormPromises m factors.old work.old result factors.new work.new }
{
    refusal::answer(infnorm::compute_infnorm(n, col_ptr, row_idx, values, factors, work))
}

// In one pass.
#[unsafe(no_mangle)]
pub extern "C" fn suontarvi_onepass(
    n: u32,
    col_ptr: &[u32],
    row_idx: &[u32],
    values: &[f64],
    factors: &mut [f64],
) -> u32
    ensures { let m = matrix n col_ptr.now row_idx.now values.now in
        OnepassPromises m factors.old result factors.new }
{
    refusal::answer(infnorm::compute_onepass(n, col_ptr, row_idx, values, factors))
}
