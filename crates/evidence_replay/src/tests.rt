// Calls that are lent as functions, on cases of the list: as they stand there, with one word changed, and with a length
// beyond the room.
use evidence_cases::list::{Place, State};
use evidence_cases::{graphs, matrices};

#[test]
fn validate_takes_a_function(rt: HostRuntime) {
    let mut rows = [0u32; 8];
    let mut values = [0.0f64; 8];
    let place = matrices::validate(
        b"ffffffff 1 0 0 0 1",
        Place::default(),
        sparse::general::validate,
        &mut rows,
        &mut values,
    );
    assert!(rt; place.state == State::Alike);
    let cases: [(&[u8], State); 3] = [
        (b"4 5 0 0 4*0 1 4", State::Alike),
        (b"4 5 0 0 4*0 1 3", State::Differs),
        (b"4 5 9 0 4*0 1 9*0 3", State::Bad),
    ];
    for (list, state) in cases {
        let place = matrices::validate(
            list,
            Place::default(),
            sparse::csc::validate,
            &mut rows,
            &mut values,
        );
        assert!(rt; place.state == state);
    }
}

#[test]
fn triplets_takes_a_function(rt: HostRuntime) {
    let mut rows = [0u32; 8];
    let list = b"3 2 2 2 4 2 2 a 1 1 0 0 127e9dad297825fc 1 4*ffffffff 2 1 \
        a2130790f1502934 3cdede3352f000d4 522c6018 dcf9791c dab7e6c7 44d7501e \
        98e88998 1503af73 d5b1ea6a 8827e7ca daa08325 d30d0b72 0 1 0 5*1 \
        127e9dad297825fc 3cdede3352f000d4 a*0";
    let place = matrices::triplets(
        list,
        Place::default(),
        sparse::csc::from_triplets,
        &mut rows,
    );
    assert!(rt; place.state == State::Alike);
    let cases: [(&[u8], State); 4] = [
        (b"0 0 0 0 1 0 0 2 2 0 1 0 1 0 0 0", State::Differs),
        (b"0 0 0 0 1 0 0 2 2 0 1 0 0 0 0 0", State::Alike),
        (b"0 0 0 0 1 0 0 2 2 0 1 0 0 0 0 1", State::Differs),
        (b"0 9 0 0 1 0 0 2 9*0 2 0 1 3 0 2 0 1", State::Bad),
    ];
    for (list, state) in cases {
        let place = matrices::triplets(
            list,
            Place::default(),
            sparse::general::from_triplets,
            &mut rows,
        );
        assert!(rt; place.state == state);
    }
}

#[test]
fn graph_takes_a_function(rt: HostRuntime) {
    let mut rows = [0u32; 8];
    let mut values = [0.0f64; 8];
    let list = b"1 2 1 1 1 2 2 2 1 5 0 1 0 8000000000000000 c2e0000000000000 4 3 2*ffffffff \
        422896f4d41697f9 3d8707369fc22ef3 c000000000000000 0 0 0 3 3 4*0 \
        2*ffffffff 422896f4d41697f9 3d8707369fc22ef3 fff0000000000000 5*0";
    let place = graphs::graph(
        list,
        Place::default(),
        mc64_symmetric::build_cost_graph,
        &mut rows,
        &mut values,
    );
    assert!(rt; place.state == State::Alike);
    let cases: [(&[u8], State); 4] = [
        (b"0 1 0 0 0 1 0 0 0 2 0 2 4 2 0 0 0 0 1", State::Differs),
        (b"0 1 0 0 0 1 0 0 0 2 0 2 4 2 0 0 0 0 0", State::Alike),
        (b"0 1 0 0 0 1 0 0 0 2 0 2 4 2 0 1 0 0 0", State::Differs),
        (b"0 1 0 9 0 1 0 0 0 2 0 9*0 2 4 2 3 0 2 4 2", State::Bad),
    ];
    for (list, state) in cases {
        let place = graphs::graph(
            list,
            Place::default(),
            mc64_general::build_general_graph,
            &mut rows,
            &mut values,
        );
        assert!(rt; place.state == state);
    }
}
