// The calls of both kinds of matrix.
use evidence_cases::matrices::Kind;
use refusal::Refusal;

// A symmetric matrix, stored as its lower triangle.
pub struct Symmetric;

// A matrix of which every entry is stored.
pub struct General;

impl Kind for Symmetric {
    fn validate(n: u32, col_ptr: &[u32], rows: &[u32], values: &[f64]) -> Result<(), Refusal> {
        sparse::csc::validate(n, col_ptr, rows, values)
    }

    fn assemble(
        n: u32,
        rows: &[u32],
        cols: &[u32],
        vals: &[f64],
        col_ptr: &mut [u32],
        row_idx: &mut [u32],
        values: &mut [f64],
        work: &mut [u32],
    ) -> Result<u32, Refusal> {
        sparse::csc::from_triplets(n, rows, cols, vals, col_ptr, row_idx, values, work)
    }

    fn build(
        n: u32,
        col_ptr: &[u32],
        rows: &[u32],
        values: &[f64],
        logs: &[f64],
        graph_ptr: &mut [u32],
        graph_rows: &mut [u32],
        cost: &mut [f64],
        cmax: &mut [f64],
        work: &mut [u32],
    ) -> Result<u32, Refusal> {
        mc64_symmetric::build_cost_graph(
            n, col_ptr, rows, values, logs, graph_ptr, graph_rows, cost, cmax, work,
        )
    }
}

impl Kind for General {
    fn validate(n: u32, col_ptr: &[u32], rows: &[u32], values: &[f64]) -> Result<(), Refusal> {
        sparse::general::validate(n, col_ptr, rows, values)
    }

    fn assemble(
        n: u32,
        rows: &[u32],
        cols: &[u32],
        vals: &[f64],
        col_ptr: &mut [u32],
        row_idx: &mut [u32],
        values: &mut [f64],
        work: &mut [u32],
    ) -> Result<u32, Refusal> {
        sparse::general::from_triplets(n, rows, cols, vals, col_ptr, row_idx, values, work)
    }

    fn build(
        n: u32,
        col_ptr: &[u32],
        rows: &[u32],
        values: &[f64],
        logs: &[f64],
        graph_ptr: &mut [u32],
        graph_rows: &mut [u32],
        cost: &mut [f64],
        cmax: &mut [f64],
        work: &mut [u32],
    ) -> Result<u32, Refusal> {
        mc64_general::build_general_graph(
            n, col_ptr, rows, values, logs, graph_ptr, graph_rows, cost, cmax, work,
        )
    }
}
