// Whether a pairing, whoever made it, is a largest matching of a pattern, over the C interface, with native slices.
ghost use Rattle.sparse.specs.Pattern.{pattern};
ghost use Rattle.match_largest.specs.Call.{slices};
ghost use Rattle.suontarvi.specs.Largest.{LargestPromises};

// columns and rows get 1 for each that an alternating path reaches from a column without a row, else 0; matched[0] gets
// the number of pairs. Answers 0 or the refusal; a refused call leaves every slice as it is.
#[unsafe(no_mangle)]
pub extern "C" fn suontarvi_check_largest(
    n: u32,
    col_ptr: &[u32],
    row_idx: &[u32],
    perm: &[u32],
    columns: &mut [u32],
    rows: &mut [u32],
    matched: &mut [u32],
) -> u32
    ensures { let g = pattern n col_ptr.now row_idx.now in
        let before = slices columns.old rows.old matched.old in
        let after = slices columns.new rows.new matched.new in
        LargestPromises g perm.now before result after }
{
    refusal::answer(match_largest::check_largest(n, col_ptr, row_idx, perm, columns, rows, matched))
}
