// Replays a list of the original's answers, and prints for each call its cases and its differences. oracle/README.md
// says how the list was made.
#![tactic(auto)]

mod choices;
mod kinds;
#[cfg(test)]
mod tests;

use evidence_cases::list::{Place, State};
use evidence_cases::{factors, graphs, list, matches, matrices};
use kinds::{General, Symmetric};

// The numbers of the calls are below this; 0 ends the list.
const CALLS: usize = 14;

// One case of a call, from the word after the call's number.
fn case(input: &[u8], from: Place, call: u32, rows: &mut [u32], values: &mut [f64]) -> Place {
    match call {
        1 => matrices::validate_of::<Symmetric>(input, from, rows, values),
        2 => matrices::validate_of::<General>(input, from, rows, values),
        3 => matrices::triplets_of::<Symmetric>(input, from, rows),
        4 => matrices::triplets_of::<General>(input, from, rows),
        5 => factors::root(input, from),
        6 => matches::matching(input, from, rows, values),
        7 => graphs::graph_of::<Symmetric>(input, from, rows, values),
        8 => graphs::graph_of::<General>(input, from, rows, values),
        9 => factors::symmetric(input, from),
        10 => factors::unsymmetric(input, from),
        11 => factors::iterated(input, from, rows, values),
        12 => factors::onepass(input, from, rows, values),
        13 => choices::choice(input, from, rows, values),
        _ => from.bad(),
    }
}

// The name of a call.
fn name(call: usize) -> &'static [u8] {
    match call {
        1 => b"csc::validate",
        2 => b"general::validate",
        3 => b"csc::from_triplets",
        4 => b"general::from_triplets",
        5 => b"sqrt",
        6 => b"hungarian_match",
        7 => b"build_cost_graph",
        8 => b"build_general_graph",
        9 => b"log_factors",
        10 => b"unsymmetric_factors",
        11 => b"compute_infnorm",
        12 => b"compute_onepass",
        13 => b"compute_scaling",
        _ => b"in all",
    }
}

// A line of the report: a call, its cases and how many of them differ.
fn line(call: usize, cases: u64, differences: u64) {
    io::write_all(1, name(call));
    io::write_all(1, b" ");
    io::print_decimal(1, cases);
    io::write_all(1, b" cases, ");
    io::print_decimal(1, differences);
    io::write_all(1, b" differences\n");
}

// One more case of the call, and of all calls at place 0.
fn count(counts: &mut [u64; CALLS], call: usize) {
    if call < CALLS {
        counts[call] = counts[call].wrapping_add(1);
        counts[0] = counts[0].wrapping_add(1);
    }
}

// The next case, or the end of the list.
fn step(
    input: &[u8],
    from: Place,
    rows: &mut [u32],
    values: &mut [f64],
    cases: &mut [u64; CALLS],
    differences: &mut [u64; CALLS],
) -> Place {
    let first = list::next_u32(input, from.alike());
    let call = list::word(first);
    if first.state == State::Bad {
        return first;
    }
    if call == 0 {
        return first.ended();
    }
    let place = case(input, first, call, rows, values);
    count(cases, call as usize);
    if place.state != State::Alike {
        count(differences, call as usize);
    }
    place
}

// Every case of the list. None is shorter than a byte.
fn replay(
    input: &[u8],
    rows: &mut [u32],
    values: &mut [f64],
    cases: &mut [u64; CALLS],
    differences: &mut [u64; CALLS],
) -> Place {
    let mut place = Place::default();
    for _ in 0..input.len() {
        place = step(input, place, rows, values, cases, differences);
        if place.is_last() {
            return place;
        }
    }
    place.bad()
}

fn report(cases: &[u64; CALLS], differences: &[u64; CALLS]) {
    for call in 1..CALLS {
        line(call, cases[call], differences[call]);
    }
    line(0, cases[0], differences[0]);
}

fn main() {
    let mut input = [0u8; 524288];
    let length = io::read_full(0, &mut input);
    let mut rows = [0u32; 262145];
    let mut values = [0.0f64; 262145];
    let mut cases = [0u64; CALLS];
    let mut differences = [0u64; CALLS];
    let place = replay(
        &input[..length],
        &mut rows,
        &mut values,
        &mut cases,
        &mut differences,
    );
    if place.state == State::Bad {
        io::write_all(1, b"bad list at byte ");
        io::print_decimal(1, place.at as u64);
        io::write_all(1, b"\n");
    }
    report(&cases, &differences);
}
