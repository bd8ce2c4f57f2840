// A sheet file read into a match: every record is tested first, then the slices are written.
#![tactic(auto)]

ghost use Rattle.std.specs.Prelude.{◌≡◌, true, false, ◌≤◌, length, drop};
ghost use Rattle.limits.specs.Limits.{max_columns};
ghost use Rattle.refusal.specs.Number.{number, number_of, numbered};
ghost use Rattle.sparse.specs.Fault.{or_else};
ghost use Rattle.matching.specs.Match.{match_of};
ghost use Rattle.sheet.specs.Reading.{records_of, index_fault, repeat_fault, records_fault, no_marks, stored, order_of};
ghost use Rattle.sheet.specs.Reading.{head_fault, body_fault, sheet_match};
ghost use Rattle.sheet.specs.inner.Steps.{Inside};
ghost use Rattle.sheet.specs.Canonical.{needless_fault, rising_fault, canonical_fault};
ghost use Rattle.sheet_reader.specs.inner.Steps.{tested_order};
ghost use Rattle.sheet_reader.specs.Call.{lengths, sizes, ReadPromises, CanonicalPromises};

use refusal::Refusal;
use sheet::Record;

// Refusal 41, or none.
fn index_fault(n: u32, r: Record) -> Result<(), Refusal>
    ensures { number_of result ≡ index_fault n r }
{
    let row = (r.row == limits::NONE) | (r.row < n);
    if (r.bits < 16) & ((r.patch < n) & row) {
        return Ok(());
    }
    Err(Refusal::SheetIndex)
}

// Refusal 42, or none.
fn repeat_fault(mark: u8) -> Result<(), Refusal>
    ensures { number_of result ≡ repeat_fault mark }
{
    if mark == 0 {
        return Ok(());
    }
    Err(Refusal::PatchTwice)
}

// The first record at fault: refusals 40, 41 and 42. A mark says that its patch was given.
fn test_records(n: u32, sheet: &[u8], marks: &mut [u8]) -> Result<(), Refusal>
    requires { n ≤ length marks.old }
    ensures { number_of result ≡ records_fault n marks.old (records_of (drop 2 sheet.now)) }
{
    let mut at = 2;
    while at < sheet.len() {
        let r = sheet::first_record(&sheet[at..]).ok_or(Refusal::SheetCut)?;
        index_fault(n, r)?;
        let patch = r.patch as usize;
        repeat_fault(marks[patch])?;
        marks[patch] = 1;
        at += r.size;
    }
    Ok(())
}

// The first fault of the records after n.
fn records_fault(n: u32, sheet: &[u8]) -> Result<(), Refusal>
    requires { n ≤ max_columns }
    ensures { number_of result ≡ records_fault n no_marks (records_of (drop 2 sheet.now)) }
{
    let mut marks = [0u8; limits::COLUMN_ROOM];
    test_records(n, sheet, &mut marks)
}

// Refusal 45: an empty map, or another than that of the fields.
fn needless_fault(r: Record) -> Result<(), Refusal>
    ensures { number_of result ≡ needless_fault r }
{
    let map = sheet::bits_of(r.row, r.u, r.v, r.cmax);
    if (r.bits > 0) & (r.bits == map) {
        return Ok(());
    }
    Err(Refusal::NeedlessField)
}

// Refusal 44, or none.
fn rising_fault(next: u32, r: Record) -> Result<(), Refusal>
    ensures { number_of result ≡ rising_fault next r }
{
    if next <= r.patch {
        return Ok(());
    }
    Err(Refusal::PatchOrder)
}

// Refusal 45, then 44.
fn canonical_fault(next: u32, r: Record) -> Result<(), Refusal>
    ensures { number_of result ≡ or_else (needless_fault r) (rising_fault next r) }
{
    needless_fault(r)?;
    rising_fault(next, r)
}

// The first record at fault in a canonical file: refusals 40, 41, 45 and 44. Patches that rise need no marks.
fn test_canonical(n: u32, sheet: &[u8]) -> Result<(), Refusal>
    requires { n ≤ max_columns }
    ensures { number_of result ≡ canonical_fault n 0 (records_of (drop 2 sheet.now)) }
{
    let mut next: u32 = 0;
    let mut at = 2;
    while at < sheet.len() {
        let r = sheet::first_record(&sheet[at..]).ok_or(Refusal::SheetCut)?;
        index_fault(n, r)?;
        canonical_fault(next, r)?;
        next = r.patch + 1;
        at += r.size;
    }
    Ok(())
}

// Stores the fields of every record at its patch.
fn store_records(sheet: &[u8], perm: &mut [u32], u: &mut [u64], v: &mut [u64], cmax: &mut [u64])
    requires inside { Inside (length perm.old) (records_of (drop 2 sheet.now)) }
    requires u_len { length u.old ≡ length perm.old }
    requires v_len { length v.old ≡ length perm.old }
    requires cmax_len { length cmax.old ≡ length perm.old }
    ensures { let before = match_of perm.old u.old v.old cmax.old in
        let after = match_of perm.new u.new v.new cmax.new in
        after ≡ stored (records_of (drop 2 sheet.now)) before }
{
    let mut at = 2;
    while at < sheet.len() {
        let Some(r) = sheet::first_record(&sheet[at..]) else {
            return;
        };
        let patch = r.patch as usize;
        perm[patch] = r.row;
        u[patch] = r.u;
        v[patch] = r.v;
        cmax[patch] = r.cmax;
        at += r.size;
    }
}

// The match of a file that was tested.
fn fill_match(sheet: &[u8], perm: &mut [u32], u: &mut [u64], v: &mut [u64], cmax: &mut [u64])
    requires sheet_value { body_fault sheet.now ≡ 0 }
    requires cmax_value { lengths (order_of sheet.now) (match_of perm.old u.old v.old cmax.old) ≡ true }
    ensures { let after = match_of perm.new u.new v.new cmax.new in
        after ≡ sheet_match sheet.now }
{
    slices::fill(perm, limits::NONE);
    slices::fill(u, 0);
    slices::fill(v, 0);
    slices::fill(cmax, 0);
    store_records(sheet, perm, u, v, cmax);
}

// Refusal 40 of a file's n, or none.
fn head_fault(sheet: &[u8]) -> Result<(), Refusal>
    ensures { number_of result ≡ head_fault sheet.now }
{
    if sheet.len() < 2 {
        return Err(Refusal::SheetCut);
    }
    if sheet::get_two(sheet, 0) > limits::MAX_COLUMNS {
        return Err(Refusal::SheetCut);
    }
    Ok(())
}

// What a caller answers if a slice of its own has a wrong length: the fault of n, or refusal 3.
pub fn length_fault(sheet: &[u8]) -> Refusal
    ensures { number result ≡ sizes sheet.now false }
{
    head_fault(sheet).err().unwrap_or(Refusal::SliceLength)
}

// Whether every slice has its length for n columns.
fn lengths_fit(n: usize, perm: &[u32], u: &[u64], v: &[u64], cmax: &[u64]) -> bool
    ensures { let m = match_of perm.now u.now v.now cmax.now in
        result ≡ lengths n m }
{
    (perm.len() == n) & ((u.len() == n) & ((v.len() == n) & (cmax.len() == n)))
}

// n, if it and the length of every slice are accepted: refusal 40, then 3.
fn tested_order(
    sheet: &[u8],
    perm: &[u32],
    u: &[u64],
    v: &[u64],
    cmax: &[u64],
) -> Result<u32, Refusal>
    ensures { let m = match_of perm.now u.now v.now cmax.now in
        numbered result ≡ tested_order sheet.now m }
{
    head_fault(sheet)?;
    let n = sheet::get_two(sheet, 0);
    if !lengths_fit(n as usize, perm, u, v, cmax) {
        return Err(Refusal::SliceLength);
    }
    Ok(n)
}

// Reads a sheet file into the match that it means, and answers n and the matched count. u, v and cmax get the bits of
// doubles. A refused call leaves every slice as it was.
pub fn read_sheet(
    sheet: &[u8],
    perm: &mut [u32],
    u: &mut [u64],
    v: &mut [u64],
    cmax: &mut [u64],
) -> Result<(u32, u32), Refusal>
    ensures { let before = match_of perm.old u.old v.old cmax.old in
        let after = match_of perm.new u.new v.new cmax.new in
        ReadPromises sheet.now before (numbered result) after }
{
    let n = tested_order(sheet, perm, u, v, cmax)?;
    records_fault(n, sheet)?;
    fill_match(sheet, perm, u, v, cmax);
    Ok((n, sheet::rows_present(perm)))
}

// The same for a canonical file, whose patches rise, and whose records have no needless field.
pub fn read_canonical_sheet(
    sheet: &[u8],
    perm: &mut [u32],
    u: &mut [u64],
    v: &mut [u64],
    cmax: &mut [u64],
) -> Result<(u32, u32), Refusal>
    ensures { let before = match_of perm.old u.old v.old cmax.old in
        let after = match_of perm.new u.new v.new cmax.new in
        CanonicalPromises sheet.now before (numbered result) after }
{
    let n = tested_order(sheet, perm, u, v, cmax)?;
    test_canonical(n, sheet)?;
    fill_match(sheet, perm, u, v, cmax);
    Ok((n, sheet::rows_present(perm)))
}
