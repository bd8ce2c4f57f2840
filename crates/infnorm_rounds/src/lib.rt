// The rounds of the iterated inf-norm factors.
#![tactic(auto)]

ghost use Rattle.std.specs.Prelude.{◌≡◌, not, ◌&&◌, ◌+◌, ◌≤◌, length};
ghost use Rattle.std.specs.Float.Ieee.{lt, le};
ghost use Rattle.root_blocks.specs.inner.Blocks.{Roots};
ghost use Rattle.sparse.specs.Matrix.{matrix};
ghost use Rattle.float64.specs.Constants as Constants;
ghost use Rattle.infnorm_factors.specs.Factors as Factors;
ghost use Rattle.infnorm_maxima.specs.inner.Steps.{Accepted};
ghost use Rattle.infnorm_rounds.specs.inner.Blocks.{Updated};

const INFNORM_MAX_ITER: usize = 10;

const INFNORM_TOL: f64 = 1e-8;

// New factors of a block from the maxima and their roots.
fn update_block(factors: &mut [f64], work: &[f64], from: usize, roots: &[f64])
    requires factors_len { (length factors.old ≡ length work.now) × (from + 16 ≤ length work.now) }
    requires roots_len { (length roots.now ≡ 16) × Roots work.now from roots.now 16 }
    ensures { Updated work.now factors.old from factors.new (from + 16) }
{
    for i in 0..root_blocks::BLOCK {
        let at = from + i;
        factors[at] = infnorm_factors::new_factor(factors[at], work[at], roots[i]);
    }
}

// The same of the rows after the last block.
fn update_rest(factors: &mut [f64], work: &[f64], from: usize)
    requires { (length factors.old ≡ length work.now) × (from ≤ length work.now) }
    ensures { Updated work.now factors.old from factors.new (length work.now) }
{
    for i in from..factors.len() {
        let m = work[i];
        factors[i] = infnorm_factors::new_factor(factors[i], m, root_blocks::root(m));
    }
}

// Whether a row's maximum is above 0 and as far from 1 as the tolerance. The sign of a zero makes no difference here.
fn is_far(m: f64) -> bool
    ensures { result ≡ (lt Constants.zero m && le Constants.infnorm_tol (Factors.deviation m)) }
{
    (m > 0.0) & (float64::size_of(m - 1.0) >= INFNORM_TOL)
}

// Whether a row is far. The loop has no early exit, so that it can test several at a time.
fn one_is_far(work: &[f64]) -> bool
    ensures { lt (Factors.deviating_all Constants.zero work.now) Constants.infnorm_tol ≡ not result }
{
    let mut far = false;
    for i in 0..work.len() {
        far = far | is_far(work[i]);
    }
    far
}

// New factors from the maxima; whether a row was far.
fn update_factors(factors: &mut [f64], work: &[f64]) -> bool
    requires { length factors.old ≡ length work.now }
    ensures { let round = Factors.round_with factors.old work.now in
        (factors.new ≡ round.factors) × (lt round.largest Constants.infnorm_tol ≡ not result) }
{
    let mut roots = [0.0; root_blocks::BLOCK];
    let mut from = 0;
    while factors.len() - from >= root_blocks::BLOCK {
        root_blocks::roots_of(work, from, &mut roots);
        update_block(factors, work, from, &roots);
        from += root_blocks::BLOCK;
    }
    update_rest(factors, work, from);
    one_is_far(work)
}

// One round; whether a row was far.
fn one_round(
    n: usize,
    col_ptr: &[u32],
    row_idx: &[u32],
    values: &[f64],
    factors: &mut [f64],
    work: &mut [f64],
) -> bool
    requires accepted { Accepted (matrix n col_ptr.now row_idx.now values.now) }
    requires factors_len { (length factors.old ≡ n) × (length work.old ≡ n) }
    ensures { let m = matrix n col_ptr.now row_idx.now values.now in
        let round = Factors.round_from m factors.old in
        (factors.new ≡ round.factors) × (lt round.largest Constants.infnorm_tol ≡ not result) }
{
    infnorm_maxima::row_maxima(n, col_ptr, row_idx, values, factors, work);
    update_factors(factors, work)
}

// Rounds until one without a row that was far.
pub fn iterate(
    n: usize,
    col_ptr: &[u32],
    row_idx: &[u32],
    values: &[f64],
    factors: &mut [f64],
    work: &mut [f64],
)
    requires accepted { Accepted (matrix n col_ptr.now row_idx.now values.now) }
    requires factors_len { (length factors.old ≡ n) × (length work.old ≡ n) }
    ensures { factors.new
        ≡ Factors.rounds 10 (matrix n col_ptr.now row_idx.now values.now)
        factors.old }
{
    let mut done = 0;
    while done < INFNORM_MAX_ITER {
        let far = one_round(n, col_ptr, row_idx, values, factors, work);
        if !far {
            return;
        }
        done += 1;
    }
}
