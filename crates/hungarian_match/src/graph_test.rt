// The graph test of SPECIFICATION 5.1: 1, 2, 3, 4, then columns upward 5 and 7, then costs 8.
ghost use Rattle.std.specs.Prelude.{◌≡◌, true, ◌+◌, ◌≤◌, length};
ghost use Rattle.limits.specs.Limits.{max_columns};
ghost use Rattle.refusal.specs.Number.{number_of};
ghost use Rattle.hungarian.specs.Graph.{graph_of};
ghost use Rattle.hungarian.specs.Test.{cost_fault, graph_fault};

use refusal::Refusal;

// Refusal 8, or none. The loop has no early exit, so that it can test several costs at a time.
fn cost_fault(n: u32, cost: &[f64]) -> Result<(), Refusal>
    requires { n ≤ max_columns }
    ensures { number_of result ≡ cost_fault n cost.now }
{
    let limit = cost_limit::cost_limit(n);
    let mut fine = true;
    for x in cost {
        fine &= cost_limit::in_range(limit, *x);
    }
    if fine {
        Ok(())
    } else {
        Err(Refusal::CostRange)
    }
}

// The first thing wrong with a graph, if any. `lengths` says whether every slice of the call has its length.
pub fn graph_fault(
    n: u32,
    col_ptr: &[u32],
    row_idx: &[u32],
    cost: &[f64],
    lengths: bool,
) -> Result<(), Refusal>
    requires { lengths ≡ true → length col_ptr.now ≡ n + 1 }
    ensures { number_of result
        ≡ graph_fault (graph_of n col_ptr.now row_idx.now cost.now) lengths }
{
    sparse::layout::size_fault(n, limits::MAX_GENERAL, row_idx.len(), lengths)?;
    let size = n as usize;
    sparse::layout::pointer_fault(size, col_ptr, row_idx.len())?;
    sparse::general::columns_fault(size, col_ptr, row_idx)?;
    cost_fault(n, cost)
}
