// The largest size in each row, under factors and of the values alone.
#![tactic(auto)]

ghost use Rattle.std.specs.Prelude.{◌≡◌, ◌-◌, length};
ghost use Rattle.sparse.specs.Matrix.{matrix};
ghost use Rattle.infnorm_factors.specs.Maxima as Maxima;
ghost use Rattle.infnorm_factors.specs.Factors as Factors;
ghost use Rattle.infnorm_maxima.specs.inner.Steps.{Accepted, Stretch};

// The entries of column j. Its own maximum is kept in a local: at the end it replaces what an entry on the diagonal
// stored there, which is the same.
fn scan_column(
    j: usize,
    from: usize,
    to: usize,
    row_idx: &[u32],
    values: &[f64],
    factors: &[f64],
    work: &mut [f64],
)
    requires stretch { Stretch (length work.old) row_idx.now values.now j from to }
    requires factors_len { length factors.now ≡ length work.old }
    ensures { work.new
        ≡ Maxima.enter_column (Factors.scaled_sizes row_idx.now values.now
        factors.now j)
        row_idx.now j (to - from) from work.old }
{
    let dj = factors[j];
    let mut top = work[j];
    for k in from..to {
        let i = row_idx[k] as usize;
        let size = infnorm_factors::scaled_size(factors[i], values[k], dj);
        work[i] = infnorm_factors::larger(work[i], size);
        top = infnorm_factors::larger(top, size);
    }
    work[j] = top;
}

// The maxima under the factors so far.
pub fn row_maxima(
    n: usize,
    col_ptr: &[u32],
    row_idx: &[u32],
    values: &[f64],
    factors: &[f64],
    work: &mut [f64],
)
    requires accepted { Accepted (matrix n col_ptr.now row_idx.now values.now) }
    requires factors_len { (length factors.now ≡ n) × (length work.old ≡ n) }
    ensures { let m = matrix n col_ptr.now row_idx.now values.now in
        let sizes = Factors.scaled_sizes row_idx.now values.now factors.now in
        work.new ≡ Maxima.row_maxima sizes m }
{
    slices::fill(work, 0.0);
    for j in 0..n {
        let from = col_ptr[j] as usize;
        let to = col_ptr[j + 1] as usize;
        scan_column(j, from, to, row_idx, values, factors, work);
    }
}

// As `scan_column`, with the sizes of the values alone.
fn scan_values(
    j: usize,
    from: usize,
    to: usize,
    row_idx: &[u32],
    values: &[f64],
    maxima: &mut [f64],
)
    requires { Stretch (length maxima.old) row_idx.now values.now j from to }
    ensures { maxima.new
        ≡ Maxima.enter_column (Factors.own_sizes values.now j) row_idx.now j (to - from) from
        maxima.old }
{
    let mut top = maxima[j];
    for k in from..to {
        let i = row_idx[k] as usize;
        let size = float64::size_of(values[k]);
        maxima[i] = infnorm_factors::larger(maxima[i], size);
        top = infnorm_factors::larger(top, size);
    }
    maxima[j] = top;
}

// The maxima of the values.
pub fn value_maxima(n: usize, col_ptr: &[u32], row_idx: &[u32], values: &[f64], maxima: &mut [f64])
    requires accepted { Accepted (matrix n col_ptr.now row_idx.now values.now) }
    requires maxima_len { length maxima.old ≡ n }
    ensures { let m = matrix n col_ptr.now row_idx.now values.now in
        let sizes = Factors.own_sizes values.now in
        maxima.new ≡ Maxima.row_maxima sizes m }
{
    slices::fill(maxima, 0.0);
    for j in 0..n {
        let from = col_ptr[j] as usize;
        let to = col_ptr[j + 1] as usize;
        scan_values(j, from, to, row_idx, values, maxima);
    }
}
