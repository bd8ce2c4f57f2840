// Cases of the root, of the log factors of both kinds and of the inf-norm factors of both kinds.
use crate::list::{Listed, Place};
use crate::{list, matrices};
use factors_mc64::Scaled;
use refusal::Refusal;

// The number of the refusal, or 0, and the root.
pub fn root(input: &[u8], from: Place) -> Place {
    let place = list::next(input, from);
    let x = f64::of(place);
    list::expect_answer(input, place, square_root::sqrt(x))
}

// The next word of the list is the answer of the log factors.
fn expect_scaled(input: &[u8], from: Place, answer: Result<Scaled, Refusal>) -> Place {
    let done = answer.map(|scaled| match scaled {
        Scaled::Applied => (0, 0),
        Scaled::PartialSingular(unmatched) => (1, unmatched),
    });
    list::expect_done(input, from, done)
}

// The duals of a match and the largest log of each column.
fn fill_duals(input: &[u8], from: Place, u: &mut [f64], v: &mut [f64], cmax: &mut [f64]) -> Place {
    let place = list::fill(input, from, u);
    let place = list::fill(input, place, v);
    list::fill(input, place, cmax)
}

// The case, with slices of its lengths: fills them from the list, makes the call, and compares what it leaves.
fn symmetric_lent(
    input: &[u8],
    from: Place,
    n: u32,
    matched: u32,
    perm: &mut [u32],
    u: &mut [f64],
    v: &mut [f64],
    cmax: &mut [f64],
    factors: &mut [f64],
    work: &mut [u32],
) -> Place {
    let place = list::fill(input, from, perm);
    let place = fill_duals(input, place, u, v, cmax);
    let place = list::fill(input, place, factors);
    let place = list::fill(input, place, work);
    let answer = factors_mc64::log_factors(n, matched, perm, u, v, cmax, factors, work);
    let place = expect_scaled(input, place, answer);
    let place = list::expect_all(input, place, factors);
    list::expect_all(input, place, work)
}

// One case of the call: the lengths of its slices, then the slices.
pub fn symmetric(input: &[u8], from: Place) -> Place {
    let n = list::next_u32(input, from);
    let matched = list::next_u32(input, n);
    let l0 = list::length(input, matched, list::COLUMNS);
    let l1 = list::length(input, l0, list::COLUMNS);
    let l2 = list::length(input, l1, list::COLUMNS);
    let l3 = list::length(input, l2, list::COLUMNS);
    let l4 = list::length(input, l3, list::COLUMNS);
    let l5 = list::length(input, l4, list::COLUMNS);
    let mut perm = [0u32; list::COLUMNS];
    let mut u = [0.0f64; list::COLUMNS];
    let mut v = [0.0f64; list::COLUMNS];
    let mut cmax = [0.0f64; list::COLUMNS];
    let mut factors = [0.0f64; list::COLUMNS];
    let mut work = [0u32; list::COLUMNS];
    symmetric_lent(
        input,
        l5,
        list::word(n),
        list::word(matched),
        &mut perm[..list::size(l0, list::COLUMNS)],
        &mut u[..list::size(l1, list::COLUMNS)],
        &mut v[..list::size(l2, list::COLUMNS)],
        &mut cmax[..list::size(l3, list::COLUMNS)],
        &mut factors[..list::size(l4, list::COLUMNS)],
        &mut work[..list::size(l5, list::COLUMNS)],
    )
}

// The case, with slices of its lengths: fills them from the list, makes the call, and compares what it leaves.
fn unsymmetric_lent(
    input: &[u8],
    from: Place,
    n: u32,
    u: &mut [f64],
    v: &mut [f64],
    cmax: &mut [f64],
    rows: &mut [f64],
    columns: &mut [f64],
) -> Place {
    let place = fill_duals(input, from, u, v, cmax);
    let place = list::fill(input, place, rows);
    let place = list::fill(input, place, columns);
    let answer = factors_mc64::unsymmetric_factors(n, u, v, cmax, rows, columns);
    let place = list::expect(input, place, refusal::answer(answer));
    let place = list::expect_all(input, place, rows);
    list::expect_all(input, place, columns)
}

// One case of the call: the lengths of its slices, then the slices.
pub fn unsymmetric(input: &[u8], from: Place) -> Place {
    let n = list::next_u32(input, from);
    let l0 = list::length(input, n, list::COLUMNS);
    let l1 = list::length(input, l0, list::COLUMNS);
    let l2 = list::length(input, l1, list::COLUMNS);
    let l3 = list::length(input, l2, list::COLUMNS);
    let l4 = list::length(input, l3, list::COLUMNS);
    let mut u = [0.0f64; list::COLUMNS];
    let mut v = [0.0f64; list::COLUMNS];
    let mut cmax = [0.0f64; list::COLUMNS];
    let mut rows = [0.0f64; list::COLUMNS];
    let mut columns = [0.0f64; list::COLUMNS];
    unsymmetric_lent(
        input,
        l4,
        list::word(n),
        &mut u[..list::size(l0, list::COLUMNS)],
        &mut v[..list::size(l1, list::COLUMNS)],
        &mut cmax[..list::size(l2, list::COLUMNS)],
        &mut rows[..list::size(l3, list::COLUMNS)],
        &mut columns[..list::size(l4, list::COLUMNS)],
    )
}

// The case, with slices of its lengths: fills them from the list, makes the call, and compares what it leaves.
fn infnorm_lent(
    input: &[u8],
    from: Place,
    n: u32,
    col_ptr: &mut [u32],
    rows: &mut [u32],
    values: &mut [f64],
    factors: &mut [f64],
    work: &mut [f64],
) -> Place {
    let place = matrices::fill(input, from, col_ptr, rows, values);
    let place = list::fill(input, place, factors);
    let place = list::fill(input, place, work);
    let answer = infnorm::compute_infnorm(n, col_ptr, rows, values, factors, work);
    let place = list::expect(input, place, refusal::answer(answer));
    let place = list::expect_all(input, place, factors);
    list::expect_all(input, place, work)
}

// One case of the call: the lengths of its slices, then the slices.
pub fn iterated(input: &[u8], from: Place, rows: &mut [u32], values: &mut [f64]) -> Place {
    let most = rows.len();
    let places = values.len();
    let n = list::next_u32(input, from);
    let l0 = list::length(input, n, list::POINTERS);
    let l1 = list::length(input, l0, most);
    let l2 = list::length(input, l1, places);
    let l3 = list::length(input, l2, list::COLUMNS);
    let l4 = list::length(input, l3, list::COLUMNS);
    let mut col_ptr = [0u32; list::POINTERS];
    let mut factors = [0.0f64; list::COLUMNS];
    let mut work = [0.0f64; list::COLUMNS];
    infnorm_lent(
        input,
        l4,
        list::word(n),
        &mut col_ptr[..list::size(l0, list::POINTERS)],
        &mut rows[..list::size(l1, most)],
        &mut values[..list::size(l2, places)],
        &mut factors[..list::size(l3, list::COLUMNS)],
        &mut work[..list::size(l4, list::COLUMNS)],
    )
}

// The case, with slices of its lengths: fills them from the list, makes the call, and compares what it leaves.
fn onepass_lent(
    input: &[u8],
    from: Place,
    n: u32,
    col_ptr: &mut [u32],
    rows: &mut [u32],
    values: &mut [f64],
    factors: &mut [f64],
) -> Place {
    let place = matrices::fill(input, from, col_ptr, rows, values);
    let place = list::fill(input, place, factors);
    let answer = infnorm::compute_onepass(n, col_ptr, rows, values, factors);
    let place = list::expect(input, place, refusal::answer(answer));
    list::expect_all(input, place, factors)
}

// One case of the call: the lengths of its slices, then the slices.
pub fn onepass(input: &[u8], from: Place, rows: &mut [u32], values: &mut [f64]) -> Place {
    let most = rows.len();
    let places = values.len();
    let n = list::next_u32(input, from);
    let l0 = list::length(input, n, list::POINTERS);
    let l1 = list::length(input, l0, most);
    let l2 = list::length(input, l1, places);
    let l3 = list::length(input, l2, list::COLUMNS);
    let mut col_ptr = [0u32; list::POINTERS];
    let mut factors = [0.0f64; list::COLUMNS];
    onepass_lent(
        input,
        l3,
        list::word(n),
        &mut col_ptr[..list::size(l0, list::POINTERS)],
        &mut rows[..list::size(l1, most)],
        &mut values[..list::size(l2, places)],
        &mut factors[..list::size(l3, list::COLUMNS)],
    )
}
