// The bytes of a configuration: its fields, and the walk over them from the first to the last.
#![tactic(auto)]

ghost use Rattle.std.specs.Prelude.{◌≡◌, ◌+◌, ◌≤◌, ◌<◌, length, get_or, OnOk};
ghost use Rattle.config_bytes.specs.Fields.{le16, le64, region_at};
ghost use Rattle.config_bytes.specs.Reading.{Read, after, field, region_read, regions_read, machine_read, read_of};

use address::Region;

// What is wrong first with the fields, from front to back.
#[derive(Clone, Copy, Debug, PartialEq, Eq)]
pub enum Misread {
    // The field at an offset is not whole.
    TooShort(usize),
    TooManyMachines,
    // A machine has more than 32 regions.
    TooManyRegions(usize),
    // A region, of a machine, has no known kind.
    UnknownKind(usize, usize),
}

// The byte at `at`.
pub fn byte(s: &[u8], at: usize) -> u64
    requires { at < length s.now }
    ensures { (result ≡ get_or s.now at 0) × (result < 256) }
{
    u64::from(s[at])
}

// The number in the two bytes from `at` on.
pub fn u16_at(s: &[u8], at: usize) -> u64
    requires { at + 2 ≤ length s.now }
    ensures { (result ≡ le16 s.now at) × (result < 65536) }
{
    u64::from(u16::from_le_bytes([s[at], s[at + 1]]))
}

// The number in the eight bytes from `at` on.
pub fn u64_at(s: &[u8], at: usize) -> u64
    requires { at + 8 ≤ length s.now }
    ensures { result ≡ le64 s.now at }
{
    u64::from_le_bytes([
        s[at],
        s[at + 1],
        s[at + 2],
        s[at + 3],
        s[at + 4],
        s[at + 5],
        s[at + 6],
        s[at + 7],
    ])
}

// The region in the 25 bytes from `at` on.
pub fn region_at(s: &[u8], at: usize) -> Region
    requires { at + 25 ≤ length s.now }
    ensures { result ≡ region_at s.now at }
{
    Region {
        guest: u64_at(s, at),
        host: u64_at(s, at + 8),
        pages: u64_at(s, at + 16),
        kind: region_words::kind_of(byte(s, at + 24)),
    }
}

// Whether a field of `size` bytes at `at` is whole.
fn read_field(s: &[u8], at: usize, size: usize) -> Result<(), Misread>
    requires { at ≤ length s.now }
    ensures read { (next : Read) → field s.now at size next ≡ after result next }
    ensures whole { OnOk result (at + size ≤ length s.now) }
{
    if s.len() - at < size {
        return Err(Misread::TooShort(at));
    }
    Ok(())
}

// Reads the fields of region i of machine m, which start at `at`.
fn read_region(s: &[u8], at: usize, m: usize, i: usize) -> Result<(), Misread>
    requires { at ≤ length s.now }
    ensures { (next : Read) → region_read s.now m i at next ≡ after result next }
{
    read_field(s, at, 8)?;
    read_field(s, at + 8, 8)?;
    read_field(s, at + 16, 8)?;
    read_field(s, at + 24, 1)?;
    if 2 < s[at + 24] {
        return Err(Misread::UnknownKind(m, i));
    }
    Ok(())
}

// Reads the n regions of machine m, which start at `at`.
fn read_regions(s: &[u8], at: usize, n: usize, m: usize) -> Result<(), Misread>
    requires { (at ≤ length s.now) × (n ≤ 32) }
    ensures { (next : Read) → regions_read n s.now m 0 at next ≡ after result next }
{
    for i in 0..n {
        read_region(s, at + 25 * i, m, i)?;
    }
    Ok(())
}

// Reads the fields of machine m, which start at `at`.
fn read_machine(s: &[u8], at: usize, m: usize) -> Result<(), Misread>
    requires { at ≤ length s.now }
    ensures { (next : Read) → machine_read s.now m at next ≡ after result next }
{
    read_field(s, at, 2)?;
    read_field(s, at + 2, 2)?;
    let k = u16_at(s, at + 2);
    if 32 < k {
        return Err(Misread::TooManyRegions(m));
    }
    read_regions(s, at + 4, k as usize, m)
}

// Reads every field, from the first to the last.
pub fn read_all(s: &[u8]) -> Result<(), Misread>
    ensures { result ≡ read_of s.now }
{
    read_field(s, 0, 2)?;
    let n = u16_at(s, 0) as usize;
    if 64 < n {
        return Err(Misread::TooManyMachines);
    }
    let mut at = 2;
    for m in 0..n {
        read_machine(s, at, m)?;
        at += 4 + 25 * (u16_at(s, at + 2) as usize);
    }
    read_field(s, at, 8)?;
    read_field(s, at + 8, 8)
}
