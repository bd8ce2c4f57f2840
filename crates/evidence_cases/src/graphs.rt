// Cases of graph building of both kinds.
use crate::list::Place;
use crate::matrices::Kind;
use crate::{list, matrices};
use refusal::Refusal;

// The call that builds a graph.
pub type Build = fn(
    u32,
    &[u32],
    &[u32],
    &[f64],
    &[f64],
    &mut [u32],
    &mut [u32],
    &mut [f64],
    &mut [f64],
    &mut [u32],
) -> Result<u32, Refusal>;

// The slices that a graph is built into.
pub fn fill(
    input: &[u8],
    from: Place,
    graph_ptr: &mut [u32],
    graph_rows: &mut [u32],
    cost: &mut [f64],
    cmax: &mut [f64],
    work: &mut [u32],
) -> Place {
    let place = matrices::fill(input, from, graph_ptr, graph_rows, cost);
    let place = list::fill(input, place, cmax);
    list::fill(input, place, work)
}

// The next words of the list are what the slices hold after the call.
pub fn expect(
    input: &[u8],
    from: Place,
    graph_ptr: &[u32],
    graph_rows: &[u32],
    cost: &[f64],
    cmax: &[f64],
    work: &[u32],
) -> Place {
    let place = list::expect_all(input, from, graph_ptr);
    let place = list::expect_all(input, place, graph_rows);
    let place = list::expect_all(input, place, cost);
    let place = list::expect_all(input, place, cmax);
    list::expect_all(input, place, work)
}

// The case, with slices of its lengths: fills them from the list, makes the call, and compares what it leaves.
fn graph_lent<F>(
    input: &[u8],
    from: Place,
    build: F,
    n: u32,
    col_ptr: &mut [u32],
    rows: &mut [u32],
    values: &mut [f64],
    logs: &mut [f64],
    graph_ptr: &mut [u32],
    graph_rows: &mut [u32],
    cost: &mut [f64],
    cmax: &mut [f64],
    work: &mut [u32],
) -> Place
where
    F: Fn(
        u32,
        &[u32],
        &[u32],
        &[f64],
        &[f64],
        &mut [u32],
        &mut [u32],
        &mut [f64],
        &mut [f64],
        &mut [u32],
    ) -> Result<u32, Refusal>,
    requires { F.IsAlwaysCallable build }
{
    let place = matrices::fill(input, from, col_ptr, rows, values);
    let place = list::fill(input, place, logs);
    let place = fill(input, place, graph_ptr, graph_rows, cost, cmax, work);
    let answer = build(
        n, col_ptr, rows, values, logs, graph_ptr, graph_rows, cost, cmax, work,
    );
    let place = list::expect_answer(input, place, answer);
    expect(input, place, graph_ptr, graph_rows, cost, cmax, work)
}

// One case of a call: the lengths of its slices, then the slices. The bound stands in full here and above: `rt` states
// no trait that is short for one of `Fn`.
fn graph_by<F>(input: &[u8], from: Place, build: F, rows: &mut [u32], values: &mut [f64]) -> Place
where
    F: Fn(
        u32,
        &[u32],
        &[u32],
        &[f64],
        &[f64],
        &mut [u32],
        &mut [u32],
        &mut [f64],
        &mut [f64],
        &mut [u32],
    ) -> Result<u32, Refusal>,
    requires { F.IsAlwaysCallable build }
{
    let most = rows.len();
    let places = values.len();
    let n = list::next_u32(input, from);
    let l0 = list::length(input, n, list::POINTERS);
    let l1 = list::length(input, l0, most);
    let l2 = list::length(input, l1, places);
    let l3 = list::length(input, l2, list::ENTRIES);
    let l4 = list::length(input, l3, list::POINTERS);
    let l5 = list::length(input, l4, list::ENTRIES);
    let l6 = list::length(input, l5, list::ENTRIES);
    let l7 = list::length(input, l6, list::COLUMNS);
    let l8 = list::length(input, l7, list::BUILD_WORK);
    let mut col_ptr = [0u32; list::POINTERS];
    let mut logs = [0.0f64; list::ENTRIES];
    let mut graph_ptr = [0u32; list::POINTERS];
    let mut graph_rows = [0u32; list::ENTRIES];
    let mut cost = [0.0f64; list::ENTRIES];
    let mut cmax = [0.0f64; list::COLUMNS];
    let mut work = [0u32; list::BUILD_WORK];
    graph_lent(
        input,
        l8,
        build,
        list::word(n),
        &mut col_ptr[..list::size(l0, list::POINTERS)],
        &mut rows[..list::size(l1, most)],
        &mut values[..list::size(l2, places)],
        &mut logs[..list::size(l3, list::ENTRIES)],
        &mut graph_ptr[..list::size(l4, list::POINTERS)],
        &mut graph_rows[..list::size(l5, list::ENTRIES)],
        &mut cost[..list::size(l6, list::ENTRIES)],
        &mut cmax[..list::size(l7, list::COLUMNS)],
        &mut work[..list::size(l8, list::BUILD_WORK)],
    )
}

// One case of a call that the caller has as a function. `rt` lends one of more than seven arguments only in a closure.
pub fn graph(input: &[u8], from: Place, build: Build, rows: &mut [u32], values: &mut [f64]) -> Place
    requires { IsAlwaysCallable build }
{
    graph_by(
        input,
        from,
        |n, col_ptr, rows, values, logs, graph_ptr, graph_rows, cost, cmax, work| {
            build(
                n, col_ptr, rows, values, logs, graph_ptr, graph_rows, cost, cmax, work,
            )
        },
        rows,
        values,
    )
}

// One case of the call of a kind of matrix.
pub fn graph_of<K: Kind>(input: &[u8], from: Place, rows: &mut [u32], values: &mut [f64]) -> Place {
    graph_by(
        input,
        from,
        |n, col_ptr, rows, values, logs, graph_ptr, graph_rows, cost, cmax, work| {
            K::build(
                n, col_ptr, rows, values, logs, graph_ptr, graph_rows, cost, cmax, work,
            )
        },
        rows,
        values,
    )
}
