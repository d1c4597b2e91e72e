// Answers in print.
use address::{Fault, Region, Untranslated};
use memory_set_changes::NotRemoved;
use set_claims::NotInserted;
use std::io;
use std::io::Write;

// Prints a text.
pub fn say(out: &mut impl Write, text: &[u8]) -> io::Result<()> {
    out.write_all(text)
}

// Prints a number, and ends the line.
fn number(out: &mut impl Write, n: u64) -> io::Result<()> {
    write!(out, "{n}")?;
    say(out, b"\n")
}

// Prints a yes or no, and ends the line.
pub fn yes(out: &mut impl Write, is_so: bool) -> io::Result<()> {
    if is_so {
        say(out, b"yes\n")
    } else {
        say(out, b"no\n")
    }
}

// Prints an end, and ends the line.
pub fn end(out: &mut impl Write, e: Option<u64>) -> io::Result<()> {
    match e {
        Some(addr) => number(out, addr),
        None => say(out, b"beyond\n"),
    }
}

// Prints a host address, and ends the line.
pub fn translated(out: &mut impl Write, t: Result<u64, Untranslated>) -> io::Result<()> {
    match t {
        Ok(addr) => number(out, addr),
        Err(Untranslated::Outside) => say(out, b"outside\n"),
        Err(Untranslated::Beyond) => say(out, b"beyond\n"),
    }
}

// Prints which condition of a valid region is broken.
fn fault(out: &mut impl Write, f: Fault) -> io::Result<()> {
    match f {
        Fault::NoPage => say(out, b"no page"),
        Fault::GuestStart => say(out, b"guest start"),
        Fault::HostStart => say(out, b"host start"),
        Fault::GuestEnd => say(out, b"guest end"),
        Fault::HostEnd => say(out, b"host end"),
    }
}

// Prints why a region does not go in.
fn not_inserted(out: &mut impl Write, why: NotInserted) -> io::Result<()> {
    match why {
        NotInserted::Bad(_) => say(out, b"no set"),
        NotInserted::NotValid(f) => {
            say(out, b"not valid, ")?;
            fault(out, f)
        }
        NotInserted::Overlap => say(out, b"overlap"),
        NotInserted::NoRoom => say(out, b"no room"),
    }
}

// Prints whether a region went in.
pub fn inserted(out: &mut impl Write, a: Result<(), NotInserted>) -> io::Result<()> {
    match a {
        Ok(()) => say(out, b"done"),
        Err(why) => not_inserted(out, why),
    }
}

// Prints whether a region went out.
pub fn taken_out(out: &mut impl Write, a: Result<Region, NotRemoved>) -> io::Result<()> {
    match a {
        Ok(_) => say(out, b"done"),
        Err(NotRemoved::NotThere) => say(out, b"not there"),
        Err(NotRemoved::Bad(_)) => say(out, b"no set"),
    }
}
