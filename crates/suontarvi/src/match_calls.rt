// The match over the C interface: at the limits of SPECIFICATION 3.2 with native slices, and for comparison as bytes.
ghost use Rattle.slices.specs.Outcome.{outcome_is};
ghost use Rattle.hungarian.specs.Graph.{graph_of};
ghost use Rattle.hungarian_match.specs.Call.{slices};
ghost use Rattle.suontarvi.specs.Match.{lent, MatchPromises, MatchBytesPromises};
ghost use Rattle.byte_forms.specs.MatchBytes.{graph_bytes, match_bytes};

use byte_forms::match_bytes;

// The match of a cost graph. Answers 0, and `answer` has the matched count and the seven counts, or the number of
// the refusal.
#[unsafe(no_mangle)]
pub extern "C" fn suontarvi_match(
    n: u32,
    col_ptr: &[u32],
    row_idx: &[u32],
    cost: &[f64],
    perm: &mut [u32],
    u: &mut [f64],
    v: &mut [f64],
    work: &mut [u32],
    fwork: &mut [f64],
    answer: &mut [u64],
) -> u32
    ensures { let g = graph_of n col_ptr.now row_idx.now cost.now in
        let before =
        slices perm.old u.old v.old work.old fwork.old in
        let after = slices perm.new u.new v.new work.new fwork.new in
        MatchPromises g before answer.old (outcome_is result (lent after answer.new)) }
{
    if answer.len() != hungarian_match::ANSWER_LENGTH {
        return u32::from(sparse::layout::length_fault(n, limits::MAX_GENERAL, row_idx.len()));
    }
    match hungarian_match::hungarian_match(n, col_ptr, row_idx, cost, perm, u, v, work, fwork) {
        Ok(found) => {
            hungarian_match::put_counts(answer, found);
            refusal::ACCEPTED
        }
        Err(refusal) => u32::from(refusal),
    }
}

// The match of a small cost graph for comparison: wide slices as bytes, low byte first. Answers 0, or the
// number of the refusal with no byte changed.
#[unsafe(no_mangle)]
pub extern "C" fn suontarvi_match_bytes(
    n: u32,
    col_ptr: &[u8],
    row_idx: &[u8],
    cost: &[u8],
    perm: &mut [u8],
    u: &mut [u8],
    v: &mut [u8],
    answer: &mut [u8],
) -> u32
    ensures { let b = graph_bytes n col_ptr.now row_idx.now cost.now in
        let before = match_bytes perm.old u.old v.old answer.old in
        let after = match_bytes perm.new u.new v.new answer.new in
        MatchBytesPromises b before (outcome_is result after) }
{
    let sizes = match_bytes::size_fault(
        n,
        col_ptr.len(),
        row_idx.len(),
        cost.len(),
        perm.len(),
        u.len(),
        v.len(),
        answer.len(),
    );
    if let Err(refusal) = sizes {
        return u32::from(refusal);
    }
    refusal::answer(match_bytes::read_and_match(n, col_ptr, row_idx, cost, perm, u, v, answer))
}
