// Makes calls that the original forbids: on regions that are not valid, on addresses that a region does not
// have, on multiples of 0, and on sets, to put in a region that is not valid or overlaps, and to take one out
// where none starts; and one on a set that is full. Prints each case with its answer. docs/DIFFERENCES.md names
// a case by what stands before the colon. The answers in the file stdout were worked out by hand from the
// contracts.

#![tactic(auto)]

mod sets;
mod show;

use address::{Kind, Region};
use show::say;
use std::io;
use std::io::{BufWriter, Write};

// The start of the last page: 2^64 - 4096.
const LAST: u64 = 18446744073709547520;

// As many pages as have 2^64 bytes: 2^52.
const MANY: u64 = 4503599627370496;

// A region of ordinary memory.
fn region(guest: u64, host: u64, pages: u64) -> Region {
    Region {
        guest: guest,
        host: host,
        pages: pages,
        kind: Kind::Ordinary,
    }
}

// Prints where a region's guest pages end.
fn end(out: &mut impl Write, name: &[u8], start: u64, pages: u64) -> io::Result<()> {
    say(out, b"end of ")?;
    say(out, name)?;
    say(out, b": ")?;
    show::end(out, address::vend(region(start, 0, pages)))
}

// Prints whether two regions overlap.
fn overlap(out: &mut impl Write, name: &[u8], yes: bool) -> io::Result<()> {
    say(out, b"overlap of ")?;
    say(out, name)?;
    say(out, b": ")?;
    show::yes(out, yes)
}

// Prints which host address a guest address stands for.
fn translation(out: &mut impl Write, name: &[u8], addr: u64, r: Region) -> io::Result<()> {
    say(out, b"translation of ")?;
    say(out, name)?;
    say(out, b": ")?;
    show::translated(out, address::translate(r, addr))
}

// Prints whether an address is a multiple of 0.
fn aligned(out: &mut impl Write, name: &[u8], addr: u64) -> io::Result<()> {
    say(out, name)?;
    say(out, b" aligned to 0: ")?;
    show::yes(out, address::aligned(addr, 0))
}

// The cases of `vend`.
fn ends(out: &mut impl Write) -> io::Result<()> {
    end(out, b"no page at 8192", 8192, 0)?;
    end(out, b"1 page at 2^64 - 4097", LAST - 1, 1)?;
    end(out, b"1 page at 2^64 - 4096", LAST, 1)
}

// The cases of `overlaps_vmem` and `overlaps_pmem`.
fn overlaps(out: &mut impl Write) -> io::Result<()> {
    overlap(
        out,
        b"no page at 8192 and 4 pages at 4096, guest",
        address::overlaps_vmem(region(8192, 0, 0), region(4096, 0, 4)),
    )?;
    overlap(
        out,
        b"4 pages at 4096 and no page at 8192, host",
        address::overlaps_pmem(region(0, 4096, 4), region(0, 8192, 0)),
    )?;
    overlap(
        out,
        b"1 page at 4095 and 1 page at 4096, guest",
        address::overlaps_vmem(region(4095, 0, 1), region(4096, 0, 1)),
    )?;
    overlap(
        out,
        b"1 page at 2^64 - 4096 and 2 pages at 2^64 - 8192, host",
        address::overlaps_pmem(region(0, LAST, 1), region(0, LAST - 4096, 2)),
    )?;
    overlap(
        out,
        b"2^52 pages at 4096 and 1 page at 8192, guest",
        address::overlaps_vmem(region(4096, 0, MANY), region(8192, 0, 1)),
    )
}

// The cases of `translate`.
fn translations(out: &mut impl Write) -> io::Result<()> {
    translation(
        out,
        b"8192 by 1 page at 4096, host 0",
        8192,
        region(4096, 0, 1),
    )?;
    translation(
        out,
        b"8192 by no page at 8192, host 0",
        8192,
        region(8192, 0, 0),
    )?;
    translation(
        out,
        b"4195 by 1 page at 100, host 1000",
        4195,
        region(100, 1000, 1),
    )?;
    translation(
        out,
        b"4096 by 2 pages at 0, host 2^64 - 4096",
        4096,
        region(0, LAST, 2),
    )
}

// The cases of `aligned`.
fn multiples(out: &mut impl Write) -> io::Result<()> {
    aligned(out, b"0", 0)?;
    aligned(out, b"4096", 4096)
}

// The cases of `insert` and `remove_starting_at`, on one set. Two regions go in and one out: they show that a
// change is seen.
fn changes(out: &mut impl Write) -> io::Result<()> {
    let mut words = [7u64; 11];
    let _ = memory_set_changes::clear(&mut words, 1, 2);
    sets::insert(
        out,
        &mut words,
        b"no page at 8192, host 4096",
        region(8192, 4096, 0),
    )?;
    sets::insert(
        out,
        &mut words,
        b"1 page at 100, host 4096",
        region(100, 4096, 1),
    )?;
    sets::insert(
        out,
        &mut words,
        b"1 page at 8192, host 100",
        region(8192, 100, 1),
    )?;
    sets::insert(
        out,
        &mut words,
        b"1 page at 2^64 - 4096, host 4096",
        region(LAST, 4096, 1),
    )?;
    sets::insert(
        out,
        &mut words,
        b"1 page at 8192, host 2^64 - 4096",
        region(8192, LAST, 1),
    )?;
    sets::insert(
        out,
        &mut words,
        b"1 page at 8192, host 4096",
        region(8192, 4096, 1),
    )?;
    sets::insert(
        out,
        &mut words,
        b"2 pages at 4096 over 1 page at 8192",
        region(4096, 0, 2),
    )?;
    sets::insert(
        out,
        &mut words,
        b"1 page at 16384, host 8192",
        region(16384, 8192, 1),
    )?;
    sets::insert(
        out,
        &mut words,
        b"1 page at 0 where two slots have two regions",
        region(0, 0, 1),
    )?;
    sets::remove(out, &mut words, b"4096 in pages at 8192 and 16384", 4096)?;
    sets::remove(out, &mut words, b"8192 in pages at 8192 and 16384", 8192)
}

fn main(rt: HostRuntime) -> io::Result<()> {
    let mut out = BufWriter::new(rt.alloc(), io::writer(&rt))?;
    ends(&mut out)?;
    overlaps(&mut out)?;
    translations(&mut out)?;
    multiples(&mut out)?;
    changes(&mut out)?;
    out.flush()
}
