// Sheet files over the C interface. u, v and cmax are taken by their bits, which a host passes as doubles.
ghost use Rattle.std.specs.Prelude.{◌≡◌, length};
ghost use Rattle.refusal.specs.Number.{number_of, numbered};
ghost use Rattle.slices.specs.Outcome.{outcome_is};
ghost use Rattle.matching.specs.Match.{match_of};
ghost use Rattle.suontarvi.specs.Sheets.{write_lent, WritePromises};
ghost use Rattle.suontarvi.specs.Sheets.{read_lent, values_left, ReadPromises, CanonicalPromises};

use refusal::Refusal;

// The match as a sheet file at the front of `sheet`. Answers 0, and `used` has the file's length, or the number of the
// refusal.
#[unsafe(no_mangle)]
pub extern "C" fn suontarvi_write_sheet(
    n: u32,
    matched: u32,
    perm: &[u32],
    u: &[u64],
    v: &[u64],
    cmax: &[u64],
    sheet: &mut [u8],
    used: &mut [u32],
) -> u32
    ensures { let m = match_of perm.now u.now v.now cmax.now in
        let left = outcome_is result (write_lent sheet.new used.new) in
        WritePromises n matched m sheet.old used.old left }
{
    if used.len() != 1 {
        return u32::from(sparse::layout::length_fault(n, 0, 0));
    }
    match sheet_writer::write_sheet(n, matched, perm, u, v, cmax, sheet) {
        Ok(count) => {
            used[0] = count;
            refusal::ACCEPTED
        }
        Err(refusal) => u32::from(refusal),
    }
}

// What a reader answers over C: n and the matched count of an accepted file are left in `answer`.
fn leave(read: Result<(u32, u32), Refusal>, answer: &mut [u32]) -> u32
    requires { length answer.old ≡ 2 }
    ensures number { result ≡ number_of read }
    ensures values { answer.new ≡ values_left (numbered read) answer.old }
{
    match read {
        Ok((n, matched)) => {
            answer.copy_from_slice(&[n, matched]);
            refusal::ACCEPTED
        }
        Err(refusal) => u32::from(refusal),
    }
}

// The match of a sheet file, whose records come in any order. Answers 0, and `answer` has n and the matched count, or
// the number of the refusal.
#[unsafe(no_mangle)]
pub extern "C" fn suontarvi_read_sheet(
    sheet: &[u8],
    perm: &mut [u32],
    u: &mut [u64],
    v: &mut [u64],
    cmax: &mut [u64],
    answer: &mut [u32],
) -> u32
    ensures { let before = match_of perm.old u.old v.old cmax.old in
        let after = match_of perm.new u.new v.new cmax.new in
        let left = outcome_is result (read_lent after answer.new) in
        ReadPromises sheet.now before answer.old left }
{
    if answer.len() != 2 {
        return u32::from(sheet_reader::length_fault(sheet));
    }
    leave(sheet_reader::read_sheet(sheet, perm, u, v, cmax), answer)
}

// The same for a canonical file.
#[unsafe(no_mangle)]
pub extern "C" fn suontarvi_read_canonical_sheet(
    sheet: &[u8],
    perm: &mut [u32],
    u: &mut [u64],
    v: &mut [u64],
    cmax: &mut [u64],
    answer: &mut [u32],
) -> u32
    ensures { let before = match_of perm.old u.old v.old cmax.old in
        let after = match_of perm.new u.new v.new cmax.new in
        let left = outcome_is result (read_lent after answer.new) in
        CanonicalPromises sheet.now before answer.old left }
{
    if answer.len() != 2 {
        return u32::from(sheet_reader::length_fault(sheet));
    }
    leave(
        sheet_reader::read_canonical_sheet(sheet, perm, u, v, cmax),
        answer,
    )
}
