// Regions that go into a set or out of it. It has two slots, and lies between a word before it and one behind.
use super::show;
use super::show::say;
use address::Region;
use std::io;
use std::io::Write;

// Prints whether a word changed, and ends the line.
fn change(out: &mut impl Write, old: &[u64; 11], words: &[u64; 11]) -> io::Result<()> {
    if old == words {
        say(out, b", no word changed\n")
    } else {
        say(out, b", words changed\n")
    }
}

// Puts a region into the set, and prints whether it went in and whether a word changed.
pub fn insert(
    out: &mut impl Write,
    words: &mut [u64; 11],
    name: &[u8],
    r: Region,
) -> io::Result<()> {
    let old = *words;
    say(out, b"insert of ")?;
    say(out, name)?;
    say(out, b": ")?;
    show::inserted(out, memory_set_changes::insert(words, 1, 2, r))?;
    change(out, &old, words)
}

// Takes the region that starts at a guest address out of the set, and prints whether there was one and whether
// a word changed.
pub fn remove(
    out: &mut impl Write,
    words: &mut [u64; 11],
    name: &[u8],
    guest: u64,
) -> io::Result<()> {
    let old = *words;
    say(out, b"removal of what starts at ")?;
    say(out, name)?;
    say(out, b": ")?;
    show::taken_out(
        out,
        memory_set_changes::remove_starting_at(words, 1, 2, guest),
    )?;
    change(out, &old, words)
}
