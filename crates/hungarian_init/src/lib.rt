// Phase 3 of the match, and phases 1 to 3 together: the Rust's hungarian_init_heuristic, as in the definition. The work
// slice is cut into regions of n words (hungarian's Layout): each row's column from 0, each column's entry from n, each
// row's least entry from 2 n, and the place from which phase 3 still searches a column from 3 n. The second region of
// the doubles has phase 3's value of a column.
#![tactic(auto)]

ghost use Rattle.std.specs.Prelude.{◌≡◌, ◌+◌, ◌*◌, length};
ghost use Rattle.hungarian.specs.inner.Layout.{Workspace};
ghost use Rattle.hungarian.specs.Graph.{graph_of};
ghost use Rattle.hungarian.specs.Match.{empty_rows_zeroed};
ghost use Rattle.hungarian_init.specs.inner.Steps.{improving_of, Prepared, Improvable, improved, Startable, Begun};

use hungarian::{Counts, FROM, HungarianStats, RINF};
use limits::NONE;

// Phase 3 has searched no column and found no value yet.
fn prepare(n: usize, col_ptr: &[u32], work: &mut [u32], fwork: &mut [f64])
    requires fact_1 { Workspace n work.old }
    requires fact_2 { length col_ptr.now ≡ n + 1 }
    requires fact_3 { length fwork.old ≡ 2 * n }
    ensures { Prepared n col_ptr.now work.old work.new fwork.new }
{
    slices::copy(&mut work[FROM * n..(FROM + 1) * n], &col_ptr[..n]);
    slices::fill(&mut fwork[n..], 0.0);
}

// Phase 3: each free column that is not empty takes the row of its best entry, if that is free; else a length-2 swap is
// tried from that entry on. A swap ends both scans.
fn improve_assign(
    n: usize,
    col_ptr: &[u32],
    row_idx: &[u32],
    cost: &[f64],
    u: &[f64],
    work: &mut [u32],
    fwork: &mut [f64],
    matched: usize,
    counted: HungarianStats,
) -> Counts
    requires { let g = graph_of n col_ptr.now row_idx.now cost.now in
        Improvable g u.now work.old fwork.old matched counted }
    ensures { let g = graph_of n col_ptr.now row_idx.now cost.now in
        improving_of n work.new fwork.new result.matched result.stats ≡ improved g }
{
    let from = FROM * n;
    let mut num = matched;
    let mut stats = counted;
    'improve_assign: for j in 0..n {
        if work[n + j] != NONE || col_ptr[j] >= col_ptr[j + 1] {
            continue;
        }
        let best = hungarian_best::best_of(n, col_ptr, row_idx, cost, u, work, j);
        let vj = best.value;
        let i0 = best.row;
        let k0 = best.place;
        fwork[n + j] = vj;
        if work[i0] == NONE {
            num += 1;
            hungarian_best::pair_and_advance(n, work, i0, j, k0);
            continue;
        }
        let end = col_ptr[j + 1] as usize;
        for k in k0..end {
            let i = row_idx[k] as usize;
            if cost[k] - u[i] > vj || work[i] == NONE {
                continue;
            }
            let jj = work[i] as usize;
            let jj_end = col_ptr[jj + 1] as usize;
            let search_from = work[from + jj] as usize;
            for kk in search_from..jj_end {
                stats = stats.inner_step();
                let ii = row_idx[kk] as usize;
                if work[ii] == NONE && cost[kk] - u[ii] <= fwork[n + jj] {
                    num += 1;
                    hungarian_best::pair_and_advance(n, work, ii, jj, kk);
                    hungarian_best::pair_and_advance(n, work, i, j, k);
                    continue 'improve_assign;
                }
            }
            work[from + jj] = jj_end as u32;
        }
    }
    Counts {
        matched: num,
        stats,
    }
}

// Rows without entries get u = 0.
fn zero_empty_rows(u: &mut [f64])
    ensures { u.new ≡ empty_rows_zeroed u.old }
{
    for x in u {
        if *x >= RINF {
            *x = 0.0;
        }
    }
}

// Phases 1 to 3; phase 3 only while a column is free.
pub fn start(
    n: usize,
    col_ptr: &[u32],
    row_idx: &[u32],
    cost: &[f64],
    u: &mut [f64],
    work: &mut [u32],
    fwork: &mut [f64],
) -> Counts
    requires { Startable n col_ptr.now row_idx.now cost.now u.old work.old fwork.old }
    ensures { let g = graph_of n col_ptr.now row_idx.now cost.now in
        Begun g u.new work.new result }
{
    hungarian_claim::row_minima(n, col_ptr, row_idx, cost, u, work);
    let num = hungarian_claim::claim_columns(n, col_ptr, work);
    let stats = HungarianStats::default();
    if num == n {
        zero_empty_rows(u);
        return Counts {
            matched: num,
            stats,
        };
    }
    prepare(n, col_ptr, work, fwork);
    let started = improve_assign(n, col_ptr, row_idx, cost, u, work, fwork, num, stats);
    zero_empty_rows(u);
    started
}
