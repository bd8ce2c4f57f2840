// The chooser: the factors of a symmetric matrix by the strategy that the host names.
#![tactic(auto)]

ghost use Rattle.std.specs.Prelude.{◌≡◌, length};
ghost use Rattle.refusal.specs.Number.{number, number_of, numbered};
ghost use Rattle.sparse.specs.Matrix.{matrix};
ghost use Rattle.mc64_columns.specs.Graphs as Graphs;
ghost use Rattle.hungarian_match.specs.Call as Match;
ghost use Rattle.scaling.specs.Choice.{slices, of_scaled, Promises};
ghost use Rattle.scaling.specs.Choice.{external_fault, strategy_for, no_choice, info_of};

use factors_mc64::Scaled;
use refusal::Refusal;

#[derive(Clone, Copy)]
pub enum ScalingStrategy {
    InfNorm,
    OnePassInfNorm,
    Mc64Symmetric,
    Identity,
    External,
}

// What was done.
#[derive(Clone, Copy)]
pub enum Scaling {
    Applied,
    PartialSingular(u32),
    NotApplied,
}

// What the log factors did.
impl From<Scaled> for Scaling {
    ghost from_gives = { λ scaled scaling. scaling ≡ of_scaled scaled };

    fn from(scaled: Scaled) -> Scaling {
        match scaled {
            Scaled::Applied => Scaling::Applied,
            Scaled::PartialSingular(unmatched) => Scaling::PartialSingular(unmatched),
        }
    }
}

// The refusal of the external choice: n or the entry count is over its limit, or else 12.
pub fn external_fault(n: u32, count: usize) -> Refusal
    ensures { number result ≡ external_fault n count }
{
    match sparse::layout::size_fault(n, limits::MAX_SYMMETRIC, count, true) {
        Err(refusal) => refusal,
        Ok(()) => Refusal::ExternalChoice,
    }
}

// The factors by the strategy. MC64 uses `logs` and the slices after `maxima`, the iterated kind uses `maxima`;
// `external` is lent by hosts that still keep such factors, and is not read.
pub fn compute_scaling(
    strategy: ScalingStrategy,
    n: u32,
    col_ptr: &[u32],
    row_idx: &[u32],
    values: &[f64],
    external: &[f64],
    logs: &[f64],
    factors: &mut [f64],
    maxima: &mut [f64],
    graph_ptr: &mut [u32],
    graph_rows: &mut [u32],
    cost: &mut [f64],
    cmax: &mut [f64],
    graph_work: &mut [u32],
    perm: &mut [u32],
    u: &mut [f64],
    v: &mut [f64],
    match_work: &mut [u32],
    distances: &mut [f64],
    factor_work: &mut [u32],
) -> Result<Scaling, Refusal>
    ensures { let m = matrix n col_ptr.now row_idx.now values.now in
        let graph =
        Graphs.slices graph_ptr.old graph_rows.old cost.old cmax.old
        graph_work.old in
        let pairs = Match.slices perm.old u.old v.old match_work.old
        distances.old in
        let before = slices factors.old maxima.old graph pairs factor_work.old in
        let graphAfter =
        Graphs.slices graph_ptr.new graph_rows.new cost.new cmax.new
        graph_work.new in
        let pairs_after = Match.slices perm.new u.new v.new match_work.new
        distances.new in
        let after = slices factors.new maxima.new graphAfter pairs_after
        factor_work.new in
        Promises strategy m external.now logs.now before (numbered result) after }
{
    match strategy {
        ScalingStrategy::InfNorm => {
            infnorm::compute_infnorm(n, col_ptr, row_idx, values, factors, maxima)?;
            Ok(Scaling::Applied)
        }
        ScalingStrategy::OnePassInfNorm => {
            infnorm::compute_onepass(n, col_ptr, row_idx, values, factors)?;
            Ok(Scaling::Applied)
        }
        ScalingStrategy::Mc64Symmetric => {
            let scaled = mc64::compute_symmetric(
                n,
                col_ptr,
                row_idx,
                values,
                logs,
                graph_ptr,
                graph_rows,
                cost,
                cmax,
                graph_work,
                perm,
                u,
                v,
                match_work,
                distances,
                factors,
                factor_work,
            )?;
            Ok(Scaling::from(scaled))
        }
        ScalingStrategy::Identity => {
            factors_identity::identity_factors(n, col_ptr, row_idx, values, factors)?;
            Ok(Scaling::NotApplied)
        }
        ScalingStrategy::External => Err(external_fault(n, row_idx.len())),
    }
}

// The strategy of a number from 0 to 4, in the order of the enum.
#[tactic(auto, unfolding(crate::specs::Choice::strategy_for))]
pub fn strategy_for(choice: u32) -> ScalingStrategy
    ensures { result ≡ strategy_for choice }
{
    match choice {
        0 => ScalingStrategy::InfNorm,
        1 => ScalingStrategy::OnePassInfNorm,
        2 => ScalingStrategy::Mc64Symmetric,
        3 => ScalingStrategy::Identity,
        _ => ScalingStrategy::External,
    }
}

// The answer for an unknown choice: the first thing wrong with the matrix or the length of the factors, else 5
// (SPECIFICATION 10.2).
pub fn no_choice(
    n: u32,
    col_ptr: &[u32],
    row_idx: &[u32],
    values: &[f64],
    factors: &[f64],
) -> Refusal
    ensures { let m = matrix n col_ptr.now row_idx.now values.now in
        number result ≡ no_choice m factors.now }
{
    let lengths = infnorm::lengths_fit(n as usize, col_ptr, row_idx, values, factors);
    match infnorm::input_fault(n, col_ptr, row_idx, values, lengths) {
        Err(refusal) => refusal,
        Ok(()) => Refusal::IndexRange,
    }
}

// Writes what was done as two numbers; a refusal leaves them as they were.
pub fn put_info(done: Result<Scaling, Refusal>, info: &mut [u32]) -> Result<(), Refusal>
    requires { length info.old ≡ 2 }
    ensures { (number_of result ≡ number_of done)
        × (info.new ≡ info_of (numbered done) info.old) }
{
    let (kind, unmatched) = match done? {
        Scaling::Applied => (0, 0),
        Scaling::PartialSingular(unmatched) => (1, unmatched),
        Scaling::NotApplied => (2, 0),
    };
    info[0] = kind;
    info[1] = unmatched;
    Ok(())
}
