// What the call leaves: each column's row and dual, and a free row's dual.
ghost use Rattle.std.specs.Prelude.{◌≡◌, List, ℕ, ◌+◌, ◌*◌, ◌≤◌, length};
ghost use Rattle.hungarian.specs.Match.{perm_of, column_duals, row_duals};
ghost use Rattle.hungarian.specs.inner.Layout.{region, iperm_at, jperm_at};
ghost use Rattle.hungarian_match.specs.inner.StepsFinish.{Finishable, Columned};

use limits::NONE;

// The row of each column's entry, and its cost minus the row's dual. A free column has no row, and 0.
pub fn finish_columns(
    n: usize,
    row_idx: &[u32],
    cost: &[f64],
    u: &[f64],
    work: &[u32],
    perm: &mut [u32],
    v: &mut [f64],
)
    requires fact_1 { Finishable n row_idx.now cost.now u.now work.now }
    requires fact_2 { length perm.old ≡ n }
    requires fact_3 { length v.old ≡ n }
    ensures { let jperm = region jperm_at n work.now in
        Columned n row_idx.now cost.now u.now jperm perm.new
        v.new }
{
    for j in 0..n {
        let entry = work[n + j];
        if entry == NONE {
            perm[j] = NONE;
            v[j] = 0.0;
            continue;
        }
        let k = entry as usize;
        let row = row_idx[k];
        perm[j] = row;
        v[j] = cost[k] - u[row as usize];
    }
}

// A free row's dual becomes 0.
pub fn finish_rows(n: usize, work: &[u32], u: &mut [f64])
    requires fact_1 { n ≤ length work.now }
    requires fact_2 { length u.old ≡ n }
    ensures { u.new ≡ row_duals (region iperm_at n work.now) u.old }
{
    for i in 0..n {
        if work[i] == NONE {
            u[i] = 0.0;
        }
    }
}
