// One record of a sheet file: reading it, and its length.
#![tactic(auto)]

ghost use Rattle.std.specs.Prelude.{◌≡◌, ◌+◌, ◌≤◌, length};
ghost use Rattle.limits.specs.Limits.{none, max_columns};
ghost use Rattle.byte_numbers.specs.Bytes.{number_at};
ghost use Rattle.sheet.specs.Format.{record_size, first_record};
ghost use Rattle.sheet.specs.inner.Steps.{taken};
ghost use Rattle.sheet.specs.Format.{bits_of, rows_present};

use limits::NONE;

// A record of a sheet file; an absent row is NONE, an absent number 0. The numbers are bits of doubles.
#[derive(Clone, Copy)]
pub struct Record {
    pub patch: u32,
    pub bits: u32,
    pub row: u32,
    pub u: u64,
    pub v: u64,
    pub cmax: u64,
    pub size: usize, // bytes of the record
}

// The number of the two bytes from `at` on.
pub fn get_two(bytes: &[u8], at: usize) -> u32
    requires { at + 2 ≤ length bytes.now }
    ensures { result ≡ number_at 2 bytes.now at }
{
    let low = bytes[at] as u32;
    let high = bytes[at + 1] as u32;
    low + 256 * high
}

// The length of a record, whose unknown bits have no field.
pub fn record_size(bits: u32) -> usize
    ensures { result ≡ record_size bits }
{
    let row = 2 * (bits % 2) as usize;
    let u = 8 * (bits / 2 % 2) as usize;
    let v = 8 * (bits / 4 % 2) as usize;
    let cmax = 8 * (bits / 8 % 2) as usize;
    3 + row + u + v + cmax
}

// A row, or NONE, and the place after it; none if it is cut. The branch of each field says where the next one begins:
// the processor need not wait for the map.
fn take_row(bit: u32, bytes: &[u8]) -> Option<(u32, usize)>
    requires bit_bound { bit ≤ 1 }
    requires in_bounds { 3 ≤ length bytes.now }
    ensures { result ≡ taken none 2 bit bytes.now 3 }
{
    if bit == 0 {
        return Some((NONE, 3));
    }
    if bytes.len() < 5 {
        return None;
    }
    Some((get_two(bytes, 3), 5))
}

// The bits of a number and the place after it: 0 if its bit is not set, none if bytes are missing.
fn take_number(bit: u32, bytes: &[u8], at: usize) -> Option<(u64, usize)>
    requires bit_bound { bit ≤ 1 }
    requires at_in_bounds { at ≤ length bytes.now }
    ensures { result ≡ taken 0 8 bit bytes.now at }
{
    if bit == 0 {
        return Some((0, at));
    }
    if bytes.len() < at + 8 {
        return None;
    }
    Some((byte_numbers::get_u64(bytes, at), at + 8))
}

// The record at the front of the bytes; none if it is cut.
pub fn first_record(bytes: &[u8]) -> Option<Record>
    ensures { result ≡ first_record bytes.now }
{
    if bytes.len() < 3 {
        return None;
    }
    let bits = bytes[2] as u32;
    let (row, u_at) = take_row(bits % 2, bytes)?;
    let (u, v_at) = take_number(bits / 2 % 2, bytes, u_at)?;
    let (v, cmax_at) = take_number(bits / 4 % 2, bytes, v_at)?;
    let (cmax, size) = take_number(bits / 8 % 2, bytes, cmax_at)?;
    Some(Record {
        patch: get_two(bytes, 0),
        bits,
        row,
        u,
        v,
        cmax,
        size,
    })
}

// The map with a bit for each field that differs from what its absence means: no row, or the bits of +0.0.
pub fn bits_of(row: u32, u: u64, v: u64, cmax: u64) -> u32
    ensures { result ≡ bits_of row u v cmax }
{
    let low = u32::from(row != NONE) + 2 * u32::from(u != 0);
    low + 4 * u32::from(v != 0) + 8 * u32::from(cmax != 0)
}

// The matched count.
pub fn rows_present(perm: &[u32]) -> u32
    requires { length perm.now ≤ max_columns }
    ensures { result ≡ rows_present perm.now }
{
    let mut count: u32 = 0;
    for &row in perm {
        count += u32::from(row != NONE);
    }
    count
}
