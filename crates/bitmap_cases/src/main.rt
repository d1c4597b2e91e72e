// Makes the requests of the file stdin, one on a line, on a tree of each size from 16 to 1048576 frames and
// on words that are no tree, and prints each with its answer. Refusals and damaged trees are among them.
// The answers in the file stdout are those of a plain array of booleans: gate/expected_cases.py.

#![tactic(auto)]

mod read;

use bitmap_requests::Request;
use std::io;
use std::io::{BufWriter, Read, Write};

// Makes the request of a line, and prints what it is answered. A first word that names no request is damage.
fn answered(out: &mut impl Write, tree: &mut [u16], line: &[u8], n: usize) -> io::Result<()> {
    let w = tree.len();
    let mut words = line.split(|c| *c == b' ');
    let request = Request::try_from(words.next().unwrap_or(b"")).unwrap_or(Request::Put);
    let a = read::number(words.next().unwrap_or(b""), n, w);
    let b = read::number(words.next().unwrap_or(b""), n, w);
    match bitmap_requests::make(tree, request, a, b) {
        Ok(answer) => write!(out, "{answer}"),
        Err(refusal) => write!(out, "{refusal}"),
    }
}

// Prints a line, and behind it what its request is answered, unless it starts with `#`.
fn said(out: &mut impl Write, tree: &mut [u16], line: &[u8], n: usize) -> io::Result<()> {
    out.write_all(line)?;
    if line.first() != Some(&b'#') {
        out.write_all(b": ")?;
        answered(out, tree, line, n)?;
    }
    out.write_all(b"\n")
}

// Prints all lines so: the parts of the text that end with a line end.
fn lines(out: &mut impl Write, tree: &mut [u16], text: &[u8]) -> io::Result<()> {
    let n = bitmap_looks::cap(tree).unwrap_or(0);
    for part in text.split_inclusive(|c| *c == b'\n') {
        if let Some(line) = part.strip_suffix(b"\n") {
            said(out, tree, line, n)?;
        }
    }
    Ok(())
}

// The lengths that are tried: the trees of 16 to 1048576 frames, and three that are no tree.
const LENGTHS: [usize; 8] = [1, 17, 273, 4369, 69905, 0, 18, 272];

// Prints them for each length, on the first of the words.
fn lengths(out: &mut impl Write, words: &mut [u16; 69905], text: &[u8]) -> io::Result<()> {
    for w in LENGTHS {
        writeln!(out, "\nwords: {w}")?;
        if w <= words.len() {
            lines(out, &mut words[..w], text)?;
        }
    }
    Ok(())
}

fn main(rt: HostRuntime) -> io::Result<()> {
    let mut words = [0u16; 69905];
    let mut text = Vec::new(rt.alloc());
    rt.reader().take(65536).read_to_end(&mut text)?;
    let mut out = BufWriter::new(rt.alloc(), io::writer(&rt))?;
    lengths(&mut out, &mut words, text.as_slice())?;
    out.flush()
}
