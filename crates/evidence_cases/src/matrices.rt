// Cases of the calls on matrices: `validate` and `from_triplets` of both kinds.
use crate::list;
use crate::list::Place;
use refusal::Refusal;

// The call that tests a matrix.
pub type Validate = fn(u32, &[u32], &[u32], &[f64]) -> Result<(), Refusal>;

// The call that assembles triplets.
pub type Assemble = fn(
    u32,
    &[u32],
    &[u32],
    &[f64],
    &mut [u32],
    &mut [u32],
    &mut [f64],
    &mut [u32],
) -> Result<u32, Refusal>;

// A kind of matrix, by its calls.
pub trait Kind {
    // Tests a matrix.
    fn validate(n: u32, col_ptr: &[u32], rows: &[u32], values: &[f64]) -> Result<(), Refusal>;

    // Assembles triplets.
    fn assemble(
        n: u32,
        rows: &[u32],
        cols: &[u32],
        vals: &[f64],
        col_ptr: &mut [u32],
        row_idx: &mut [u32],
        values: &mut [f64],
        work: &mut [u32],
    ) -> Result<u32, Refusal>;

    // Builds a cost graph.
    fn build(
        n: u32,
        col_ptr: &[u32],
        rows: &[u32],
        values: &[f64],
        logs: &[f64],
        graph_ptr: &mut [u32],
        graph_rows: &mut [u32],
        cost: &mut [f64],
        cmax: &mut [f64],
        work: &mut [u32],
    ) -> Result<u32, Refusal>;
}

// The three slices of a matrix.
pub fn fill(
    input: &[u8],
    from: Place,
    col_ptr: &mut [u32],
    rows: &mut [u32],
    values: &mut [f64],
) -> Place {
    let place = list::fill(input, from, col_ptr);
    let place = list::fill(input, place, rows);
    list::fill(input, place, values)
}

// The case, with slices of its lengths: fills them from the list, makes the call, and compares what it leaves.
fn validate_lent<F>(
    input: &[u8],
    from: Place,
    validate: F,
    n: u32,
    col_ptr: &mut [u32],
    rows: &mut [u32],
    values: &mut [f64],
) -> Place
where
    F: Fn(u32, &[u32], &[u32], &[f64]) -> Result<(), Refusal>,
    requires { F.IsAlwaysCallable validate }
{
    let place = fill(input, from, col_ptr, rows, values);
    let answer = validate(n, col_ptr, rows, values);
    list::expect(input, place, refusal::answer(answer))
}

// One case of a call: the lengths of its slices, then the slices.
fn validate_by<F>(
    input: &[u8],
    from: Place,
    validate: F,
    rows: &mut [u32],
    values: &mut [f64],
) -> Place
where
    F: Fn(u32, &[u32], &[u32], &[f64]) -> Result<(), Refusal>,
    requires { F.IsAlwaysCallable validate }
{
    let most = rows.len();
    let places = values.len();
    let n = list::next_u32(input, from);
    let l0 = list::length(input, n, list::POINTERS);
    let l1 = list::length(input, l0, most);
    let l2 = list::length(input, l1, places);
    let mut col_ptr = [0u32; list::POINTERS];
    validate_lent(
        input,
        l2,
        validate,
        list::word(n),
        &mut col_ptr[..list::size(l0, list::POINTERS)],
        &mut rows[..list::size(l1, most)],
        &mut values[..list::size(l2, places)],
    )
}

// One case of a call that the caller has as a function.
pub fn validate(
    input: &[u8],
    from: Place,
    validate: Validate,
    rows: &mut [u32],
    values: &mut [f64],
) -> Place
    requires { IsAlwaysCallable validate }
{
    validate_by(input, from, validate, rows, values)
}

// One case of the call of a kind of matrix.
pub fn validate_of<K: Kind>(
    input: &[u8],
    from: Place,
    rows: &mut [u32],
    values: &mut [f64],
) -> Place {
    validate_by(
        input,
        from,
        |n, col_ptr, rows, values| K::validate(n, col_ptr, rows, values),
        rows,
        values,
    )
}

// The case, with slices of its lengths: fills them from the list, makes the call, and compares what it leaves.
fn triplets_lent<F>(
    input: &[u8],
    from: Place,
    assemble: F,
    n: u32,
    rows: &mut [u32],
    cols: &mut [u32],
    vals: &mut [f64],
    col_ptr: &mut [u32],
    row_idx: &mut [u32],
    values: &mut [f64],
    work: &mut [u32],
) -> Place
where
    F: Fn(
        u32,
        &[u32],
        &[u32],
        &[f64],
        &mut [u32],
        &mut [u32],
        &mut [f64],
        &mut [u32],
    ) -> Result<u32, Refusal>,
    requires { F.IsAlwaysCallable assemble }
{
    let place = fill(input, from, rows, cols, vals);
    let place = fill(input, place, col_ptr, row_idx, values);
    let place = list::fill(input, place, work);
    let answer = assemble(n, rows, cols, vals, col_ptr, row_idx, values, work);
    let place = list::expect_answer(input, place, answer);
    let place = list::expect_all(input, place, col_ptr);
    let place = list::expect_all(input, place, row_idx);
    let place = list::expect_all(input, place, values);
    list::expect_all(input, place, work)
}

// One case of a call: the lengths of its slices, then the slices. The bound stands in full here and above: `rt` states
// no trait that is short for one of `Fn`.
fn triplets_by<F>(input: &[u8], from: Place, assemble: F, rows: &mut [u32]) -> Place
where
    F: Fn(
        u32,
        &[u32],
        &[u32],
        &[f64],
        &mut [u32],
        &mut [u32],
        &mut [f64],
        &mut [u32],
    ) -> Result<u32, Refusal>,
    requires { F.IsAlwaysCallable assemble }
{
    let most = rows.len();
    let n = list::next_u32(input, from);
    let l0 = list::length(input, n, most);
    let l1 = list::length(input, l0, list::ENTRIES);
    let l2 = list::length(input, l1, list::ENTRIES);
    let l3 = list::length(input, l2, list::POINTERS);
    let l4 = list::length(input, l3, list::ENTRIES);
    let l5 = list::length(input, l4, list::ENTRIES);
    let l6 = list::length(input, l5, list::BUILD_WORK);
    let mut cols = [0u32; list::ENTRIES];
    let mut vals = [0.0f64; list::ENTRIES];
    let mut col_ptr = [0u32; list::POINTERS];
    let mut row_idx = [0u32; list::ENTRIES];
    let mut values = [0.0f64; list::ENTRIES];
    let mut work = [0u32; list::BUILD_WORK];
    triplets_lent(
        input,
        l6,
        assemble,
        list::word(n),
        &mut rows[..list::size(l0, most)],
        &mut cols[..list::size(l1, list::ENTRIES)],
        &mut vals[..list::size(l2, list::ENTRIES)],
        &mut col_ptr[..list::size(l3, list::POINTERS)],
        &mut row_idx[..list::size(l4, list::ENTRIES)],
        &mut values[..list::size(l5, list::ENTRIES)],
        &mut work[..list::size(l6, list::BUILD_WORK)],
    )
}

// One case of a call that the caller has as a function. `rt` lends one of more than seven arguments only in a closure.
pub fn triplets(input: &[u8], from: Place, assemble: Assemble, rows: &mut [u32]) -> Place
    requires { IsAlwaysCallable assemble }
{
    triplets_by(
        input,
        from,
        |n, rows, cols, vals, col_ptr, row_idx, values, work| {
            assemble(n, rows, cols, vals, col_ptr, row_idx, values, work)
        },
        rows,
    )
}

// One case of the call of a kind of matrix.
pub fn triplets_of<K: Kind>(input: &[u8], from: Place, rows: &mut [u32]) -> Place {
    triplets_by(
        input,
        from,
        |n, rows, cols, vals, col_ptr, row_idx, values, work| {
            K::assemble(n, rows, cols, vals, col_ptr, row_idx, values, work)
        },
        rows,
    )
}
