// Cases of the match.
use crate::list::Place;
use crate::{list, matrices};
use hungarian::Counts;
use refusal::Refusal;

// The slices that the match is lent beside its graph.
pub fn fill(
    input: &[u8],
    from: Place,
    perm: &mut [u32],
    u: &mut [f64],
    v: &mut [f64],
    work: &mut [u32],
    distances: &mut [f64],
) -> Place {
    let place = list::fill(input, from, perm);
    let place = list::fill(input, place, u);
    let place = list::fill(input, place, v);
    let place = list::fill(input, place, work);
    list::fill(input, place, distances)
}

// The next words of the list are what the slices hold after the call.
pub fn expect(
    input: &[u8],
    from: Place,
    perm: &[u32],
    u: &[f64],
    v: &[f64],
    work: &[u32],
    distances: &[f64],
) -> Place {
    let place = list::expect_all(input, from, perm);
    let place = list::expect_all(input, place, u);
    let place = list::expect_all(input, place, v);
    let place = list::expect_all(input, place, work);
    list::expect_all(input, place, distances)
}

// The number of the refusal, or 0, and the matched count with the seven counts.
fn expect_answer(input: &[u8], from: Place, answer: Result<Counts, Refusal>) -> Place {
    let mut counts = [0u64; hungarian_match::ANSWER_LENGTH];
    let number = match answer {
        Ok(found) => {
            hungarian_match::put_counts(&mut counts, found);
            refusal::ACCEPTED
        }
        Err(refusal) => u32::from(refusal),
    };
    let place = list::expect(input, from, number);
    list::expect_all(input, place, &counts)
}

// The case, with slices of its lengths: fills them from the list, makes the call, and compares what it leaves.
fn matching_lent(
    input: &[u8],
    from: Place,
    n: u32,
    col_ptr: &mut [u32],
    rows: &mut [u32],
    cost: &mut [f64],
    perm: &mut [u32],
    u: &mut [f64],
    v: &mut [f64],
    work: &mut [u32],
    distances: &mut [f64],
) -> Place {
    let place = matrices::fill(input, from, col_ptr, rows, cost);
    let place = fill(input, place, perm, u, v, work, distances);
    let answer = hungarian_match::hungarian_match(
        n, col_ptr, rows, cost, perm, u, v, work, distances,
    );
    let place = expect_answer(input, place, answer);
    expect(input, place, perm, u, v, work, distances)
}

// One case of the call: the lengths of its slices, then the slices.
pub fn matching(input: &[u8], from: Place, rows: &mut [u32], cost: &mut [f64]) -> Place {
    let most = rows.len();
    let places = cost.len();
    let n = list::next_u32(input, from);
    let l0 = list::length(input, n, list::POINTERS);
    let l1 = list::length(input, l0, most);
    let l2 = list::length(input, l1, places);
    let l3 = list::length(input, l2, list::COLUMNS);
    let l4 = list::length(input, l3, list::COLUMNS);
    let l5 = list::length(input, l4, list::COLUMNS);
    let l6 = list::length(input, l5, list::MATCH_WORK);
    let l7 = list::length(input, l6, list::DISTANCES);
    let mut col_ptr = [0u32; list::POINTERS];
    let mut perm = [0u32; list::COLUMNS];
    let mut u = [0.0f64; list::COLUMNS];
    let mut v = [0.0f64; list::COLUMNS];
    let mut work = [0u32; list::MATCH_WORK];
    let mut distances = [0.0f64; list::DISTANCES];
    matching_lent(
        input,
        l7,
        list::word(n),
        &mut col_ptr[..list::size(l0, list::POINTERS)],
        &mut rows[..list::size(l1, most)],
        &mut cost[..list::size(l2, places)],
        &mut perm[..list::size(l3, list::COLUMNS)],
        &mut u[..list::size(l4, list::COLUMNS)],
        &mut v[..list::size(l5, list::COLUMNS)],
        &mut work[..list::size(l6, list::MATCH_WORK)],
        &mut distances[..list::size(l7, list::DISTANCES)],
    )
}
