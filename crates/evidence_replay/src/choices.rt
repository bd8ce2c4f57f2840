// Cases of the chooser. Its slices come in three groups: the lengths of a group are read, then what it holds, then the
// next group; after the call they are compared from the last group to the first.
use evidence_cases::list::Place;
use evidence_cases::{graphs, list, matches, matrices};
use refusal::Refusal;
use scaling::Scaling;

// The next word of the list is the answer of the chooser.
fn expect_scaling(input: &[u8], from: Place, answer: Result<Scaling, Refusal>) -> Place {
    let done = answer.map(|scaling| match scaling {
        Scaling::Applied => (0, 0),
        Scaling::PartialSingular(unmatched) => (1, unmatched),
        Scaling::NotApplied => (2, 0),
    });
    list::expect_done(input, from, done)
}

// The slices of all choices but MC64.
fn fill(
    input: &[u8],
    from: Place,
    col_ptr: &mut [u32],
    rows: &mut [u32],
    values: &mut [f64],
    external: &mut [f64],
    logs: &mut [f64],
    factors: &mut [f64],
    maxima: &mut [f64],
) -> Place {
    let place = matrices::fill(input, from, col_ptr, rows, values);
    let place = list::fill(input, place, external);
    let place = list::fill(input, place, logs);
    let place = list::fill(input, place, factors);
    list::fill(input, place, maxima)
}

// The call, and its comparison with the list: its answer and the last group.
fn choice_held(
    input: &[u8],
    from: Place,
    choice: u32,
    n: u32,
    col_ptr: &[u32],
    rows: &[u32],
    values: &[f64],
    external: &[f64],
    logs: &[f64],
    factors: &mut [f64],
    maxima: &mut [f64],
    graph_ptr: &mut [u32],
    graph_rows: &mut [u32],
    cost: &mut [f64],
    cmax: &mut [f64],
    graph_work: &mut [u32],
    perm: &mut [u32],
    u: &mut [f64],
    v: &mut [f64],
    match_work: &mut [u32],
    distances: &mut [f64],
    factor_work: &mut [u32],
) -> Place {
    let answer = scaling::compute_scaling(
        scaling::strategy_for(choice),
        n,
        col_ptr,
        rows,
        values,
        external,
        logs,
        factors,
        maxima,
        graph_ptr,
        graph_rows,
        cost,
        cmax,
        graph_work,
        perm,
        u,
        v,
        match_work,
        distances,
        factor_work,
    );
    let place = expect_scaling(input, from, answer);
    let place = matches::expect(input, place, perm, u, v, match_work, distances);
    list::expect_all(input, place, factor_work)
}

// The case with one more group of slices, of its lengths and filled from the list.
fn match_lent(
    input: &[u8],
    from: Place,
    choice: u32,
    n: u32,
    col_ptr: &[u32],
    rows: &[u32],
    values: &[f64],
    external: &[f64],
    logs: &[f64],
    factors: &mut [f64],
    maxima: &mut [f64],
    graph_ptr: &mut [u32],
    graph_rows: &mut [u32],
    cost: &mut [f64],
    cmax: &mut [f64],
    graph_work: &mut [u32],
    perm: &mut [u32],
    u: &mut [f64],
    v: &mut [f64],
    match_work: &mut [u32],
    distances: &mut [f64],
    factor_work: &mut [u32],
) -> Place {
    let place = matches::fill(input, from, perm, u, v, match_work, distances);
    let place = list::fill(input, place, factor_work);
    choice_held(
        input,
        place,
        choice,
        n,
        col_ptr,
        rows,
        values,
        external,
        logs,
        factors,
        maxima,
        graph_ptr,
        graph_rows,
        cost,
        cmax,
        graph_work,
        perm,
        u,
        v,
        match_work,
        distances,
        factor_work,
    )
}

// With the slices of the match and the factors.
fn with_match(
    input: &[u8],
    from: Place,
    choice: u32,
    n: u32,
    col_ptr: &[u32],
    rows: &[u32],
    values: &[f64],
    external: &[f64],
    logs: &[f64],
    factors: &mut [f64],
    maxima: &mut [f64],
    graph_ptr: &mut [u32],
    graph_rows: &mut [u32],
    cost: &mut [f64],
    cmax: &mut [f64],
    graph_work: &mut [u32],
) -> Place {
    let l0 = list::length(input, from, list::COLUMNS);
    let l1 = list::length(input, l0, list::COLUMNS);
    let l2 = list::length(input, l1, list::COLUMNS);
    let l3 = list::length(input, l2, list::MATCH_WORK);
    let l4 = list::length(input, l3, list::DISTANCES);
    let l5 = list::length(input, l4, list::COLUMNS);
    let mut perm = [0u32; list::COLUMNS];
    let mut u = [0.0f64; list::COLUMNS];
    let mut v = [0.0f64; list::COLUMNS];
    let mut match_work = [0u32; list::MATCH_WORK];
    let mut distances = [0.0f64; list::DISTANCES];
    let mut factor_work = [0u32; list::COLUMNS];
    match_lent(
        input,
        l5,
        choice,
        n,
        col_ptr,
        rows,
        values,
        external,
        logs,
        factors,
        maxima,
        graph_ptr,
        graph_rows,
        cost,
        cmax,
        graph_work,
        &mut perm[..list::size(l0, list::COLUMNS)],
        &mut u[..list::size(l1, list::COLUMNS)],
        &mut v[..list::size(l2, list::COLUMNS)],
        &mut match_work[..list::size(l3, list::MATCH_WORK)],
        &mut distances[..list::size(l4, list::DISTANCES)],
        &mut factor_work[..list::size(l5, list::COLUMNS)],
    )
}

// The case with one more group of slices, of its lengths and filled from the list.
fn graph_lent(
    input: &[u8],
    from: Place,
    choice: u32,
    n: u32,
    col_ptr: &[u32],
    rows: &[u32],
    values: &[f64],
    external: &[f64],
    logs: &[f64],
    factors: &mut [f64],
    maxima: &mut [f64],
    graph_ptr: &mut [u32],
    graph_rows: &mut [u32],
    cost: &mut [f64],
    cmax: &mut [f64],
    graph_work: &mut [u32],
) -> Place {
    let place = graphs::fill(input, from, graph_ptr, graph_rows, cost, cmax, graph_work);
    let place = with_match(
        input, place, choice, n, col_ptr, rows, values, external, logs, factors, maxima, graph_ptr,
        graph_rows, cost, cmax, graph_work,
    );
    graphs::expect(input, place, graph_ptr, graph_rows, cost, cmax, graph_work)
}

// With the slices of the graph.
fn with_graph(
    input: &[u8],
    from: Place,
    choice: u32,
    n: u32,
    col_ptr: &[u32],
    rows: &[u32],
    values: &[f64],
    external: &[f64],
    logs: &[f64],
    factors: &mut [f64],
    maxima: &mut [f64],
) -> Place {
    let l0 = list::length(input, from, list::POINTERS);
    let l1 = list::length(input, l0, list::ENTRIES);
    let l2 = list::length(input, l1, list::ENTRIES);
    let l3 = list::length(input, l2, list::COLUMNS);
    let l4 = list::length(input, l3, list::BUILD_WORK);
    let mut graph_ptr = [0u32; list::POINTERS];
    let mut graph_rows = [0u32; list::ENTRIES];
    let mut cost = [0.0f64; list::ENTRIES];
    let mut cmax = [0.0f64; list::COLUMNS];
    let mut graph_work = [0u32; list::BUILD_WORK];
    graph_lent(
        input,
        l4,
        choice,
        n,
        col_ptr,
        rows,
        values,
        external,
        logs,
        factors,
        maxima,
        &mut graph_ptr[..list::size(l0, list::POINTERS)],
        &mut graph_rows[..list::size(l1, list::ENTRIES)],
        &mut cost[..list::size(l2, list::ENTRIES)],
        &mut cmax[..list::size(l3, list::COLUMNS)],
        &mut graph_work[..list::size(l4, list::BUILD_WORK)],
    )
}

// The case with one more group of slices, of its lengths and filled from the list.
fn choice_lent(
    input: &[u8],
    from: Place,
    choice: u32,
    n: u32,
    col_ptr: &mut [u32],
    rows: &mut [u32],
    values: &mut [f64],
    external: &mut [f64],
    logs: &mut [f64],
    factors: &mut [f64],
    maxima: &mut [f64],
) -> Place {
    let place = fill(
        input, from, col_ptr, rows, values, external, logs, factors, maxima,
    );
    let place = with_graph(
        input, place, choice, n, col_ptr, rows, values, external, logs, factors, maxima,
    );
    let place = list::expect_all(input, place, factors);
    list::expect_all(input, place, maxima)
}

// The choice as a number, and the slices of every choice.
pub fn choice(input: &[u8], from: Place, rows: &mut [u32], values: &mut [f64]) -> Place {
    let most = rows.len();
    let places = values.len();
    let choice = list::next_u32(input, from);
    let n = list::next_u32(input, choice);
    let l0 = list::length(input, n, list::POINTERS);
    let l1 = list::length(input, l0, most);
    let l2 = list::length(input, l1, places);
    let l3 = list::length(input, l2, list::COLUMNS);
    let l4 = list::length(input, l3, list::ENTRIES);
    let l5 = list::length(input, l4, list::COLUMNS);
    let l6 = list::length(input, l5, list::COLUMNS);
    let mut col_ptr = [0u32; list::POINTERS];
    let mut external = [0.0f64; list::COLUMNS];
    let mut logs = [0.0f64; list::ENTRIES];
    let mut factors = [0.0f64; list::COLUMNS];
    let mut maxima = [0.0f64; list::COLUMNS];
    choice_lent(
        input,
        l6,
        list::word(choice),
        list::word(n),
        &mut col_ptr[..list::size(l0, list::POINTERS)],
        &mut rows[..list::size(l1, most)],
        &mut values[..list::size(l2, places)],
        &mut external[..list::size(l3, list::COLUMNS)],
        &mut logs[..list::size(l4, list::ENTRIES)],
        &mut factors[..list::size(l5, list::COLUMNS)],
        &mut maxima[..list::size(l6, list::COLUMNS)],
    )
}
