// A match written as a sheet file.
#![tactic(auto)]

ghost use Rattle.std.specs.Prelude.{◌≡◌, ◌+◌, ◌*◌, ◌^◌, ◌≤◌, ◌<◌, true, length};
ghost use Rattle.std.proofs.lemmas.List.Edits.{sets};
ghost use Rattle.limits.specs.Limits.{max_columns};
ghost use Rattle.refusal.specs.Number.{number_of, numbered};
ghost use Rattle.matching.specs.Match.{match_of};
ghost use Rattle.byte_numbers.specs.Bytes.{bytes_of};
ghost use Rattle.text_report.specs.inner.Steps.{Wrote};
ghost use Rattle.sheet.specs.Format.{part, record_bytes, patch_bytes, sheet_bytes, row_or_none, rows_fit};
ghost use Rattle.sheet_writer.specs.Call.{lengths, match_fault, Promises};

use refusal::Refusal;
use sheet::Record;
use sparse::layout;

// The two bytes of a number, low byte first, from `at` on.
fn put_two(out: &mut [u8], at: usize, value: u32) -> usize
    requires { at + 2 ≤ length out.old }
    ensures { Wrote out.old at (bytes_of 2 value) out.new result }
{
    out[at] = (value % 256) as u8;
    out[at + 1] = (value / 256 % 256) as u8;
    at + 2
}

// The two bytes of a row, if its bit is set.
fn put_row(out: &mut [u8], at: usize, bit: u32, row: u32) -> usize
    requires { at + 2 * bit ≤ length out.old }
    ensures { Wrote out.old at (part bit 2 row) out.new result }
{
    if bit == 0 {
        return at;
    }
    put_two(out, at, row)
}

// The eight bytes of a number, if its bit is set.
fn put_long(out: &mut [u8], at: usize, bit: u32, value: u64) -> usize
    requires { at + 8 * bit ≤ length out.old }
    ensures { Wrote out.old at (part bit 8 value) out.new result }
{
    if bit == 0 {
        return at;
    }
    byte_numbers::put_u64(out, at, value);
    at + 8
}

// A record: its patch, its map of bits, and the fields whose bits are set.
fn put_record(out: &mut [u8], at: usize, r: Record) -> usize
    requires bits_bound { r.bits < 256 }
    requires at_in_bounds { at + 29 ≤ length out.old }
    ensures { Wrote out.old at (record_bytes r) out.new result }
{
    let bits = r.bits;
    let map = put_two(out, at, r.patch);
    out[map] = bits as u8;
    let row = put_row(out, map + 1, bits % 2, r.row);
    let u = put_long(out, row, bits / 2 % 2, r.u);
    let v = put_long(out, u, bits / 4 % 2, r.v);
    put_long(out, v, bits / 8 % 2, r.cmax)
}

// The record of a patch that has a field.
fn put_patch(out: &mut [u8], at: usize, patch: u32, row: u32, u: u64, v: u64, cmax: u64) -> usize
    requires { at + 29 ≤ length out.old }
    ensures { Wrote out.old at (patch_bytes patch row u v cmax) out.new result }
{
    let bits = sheet::bits_of(row, u, v, cmax);
    if bits == 0 {
        return at;
    }
    let r = Record {
        patch,
        bits,
        row,
        u,
        v,
        cmax,
        size: sheet::record_size(bits),
    };
    put_record(out, at, r)
}

// The file: n, then the record of each patch that has a field.
fn put_sheet(n: u32, perm: &[u32], u: &[u64], v: &[u64], cmax: &[u64], out: &mut [u8]) -> usize
    requires n_le_max_columns { n ≤ max_columns }
    requires out_value { lengths n (match_of perm.now u.now v.now cmax.now) out.old ≡ true }
    ensures { let m = match_of perm.now u.now v.now cmax.now in
        Wrote out.old 0 (sheet_bytes n m) out.new result }
{
    let mut at = put_two(out, 0, n);
    for k in 0..n {
        let i = k as usize;
        at = put_patch(out, at, k, perm[i], u[i], v[i], cmax[i]);
    }
    at
}

// A row below n, or none.
fn row_or_none(n: u32, row: u32) -> bool
    ensures { result ≡ row_or_none n row }
{
    (row == limits::NONE) | (row < n)
}

// Whether every place has a row below n or none.
fn rows_fit(n: u32, perm: &[u32]) -> bool
    ensures { result ≡ rows_fit n perm.now }
{
    let mut fit = true;
    for &row in perm {
        fit &= row_or_none(n, row);
    }
    fit
}

// Refusal 10, or none.
fn match_fault(n: u32, matched: u32, perm: &[u32]) -> Result<(), Refusal>
    requires { length perm.now ≤ max_columns }
    ensures { number_of result ≡ match_fault n matched perm.now }
{
    let fit = rows_fit(n, perm);
    let count = sheet::rows_present(perm);
    if fit & (count == matched) {
        return Ok(());
    }
    Err(Refusal::MatchingRange)
}

// Whether every slice has its length for n columns.
fn lengths_fit(n: usize, perm: &[u32], u: &[u64], v: &[u64], cmax: &[u64], sheet: &[u8]) -> bool
    requires { n < 2 ^ 32 }
    ensures { let m = match_of perm.now u.now v.now cmax.now in
        result ≡ lengths n m sheet.now }
{
    let room = sheet.len() == 2 + 29 * n;
    (perm.len() == n) & ((u.len() == n) & ((v.len() == n) & ((cmax.len() == n) & room)))
}

// Writes the match of n columns as a sheet file at the front of 2 + 29 n bytes, whose rest stays, and answers how many
// bytes it used. u, v and cmax are the bits of doubles.
pub fn write_sheet(
    n: u32,
    matched: u32,
    perm: &[u32],
    u: &[u64],
    v: &[u64],
    cmax: &[u64],
    sheet: &mut [u8],
) -> Result<u32, Refusal>
    ensures { let m = match_of perm.now u.now v.now cmax.now in
        Promises n matched m sheet.old (numbered result) sheet.new }
{
    let fit = lengths_fit(n as usize, perm, u, v, cmax, sheet);
    layout::size_fault(n, 0, 0, fit)?;
    match_fault(n, matched, perm)?;
    Ok(put_sheet(n, perm, u, v, cmax, sheet) as u32)
}
