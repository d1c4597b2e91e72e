// Replays requests whose answers are known, and counts where the proved code answers otherwise.
//
// The file `answers` has the answers of the original's executable code. The program `sample` of
// rust/compare made it, with a fixed seed, and says at its top how the file is laid out. So the
// proved code is compared with the original where there is no Rust.
//
// Bytes are counted from 0. The byte at which a file is damaged is
// the first of what cannot be read: the file ends within it, there is no such kind of request, or
// the number of frames is neither 16 nor 256. Bytes behind the last sequence are damage too.

#![tactic(auto)]

use bitmap_sequences::Damaged;
use std::fs::File;
use std::io;
use std::io::{BufWriter, Read, Write};

// Reads the file, of at most 65,536 bytes, and replays it.
fn main(rt: HostRuntime) -> io::Result<()> {
    let mut bytes = Vec::new(rt.alloc());
    File::open(&rt, "answers")?
        .take(65536)
        .read_to_end(&mut bytes)?;
    let mut out = BufWriter::new(rt.alloc(), io::writer(&rt))?;
    replay(&mut out, bytes.as_slice())?;
    out.flush()
}

// Replays all sequences and writes what came of them.
fn replay(out: &mut impl Write, bytes: &[u8]) -> io::Result<()> {
    if bytes.len() < 4 {
        return say_damaged(out, 0);
    }
    let count = bitmap_answers::u32_at(bytes, 0);
    match bitmap_sequences::replay(bytes, count) {
        Ok(end) => {
            write!(out, "{count} sequences, {} requests: ", end.requests)?;
            writeln!(
                out,
                "{} answers differ, {} frames differ",
                end.answers, end.frames
            )
        }
        Err(Damaged(at)) => say_damaged(out, at),
    }
}

// Writes a line on a file that is damaged at a byte.
fn say_damaged(out: &mut impl Write, at: usize) -> io::Result<()> {
    writeln!(out, "the file is damaged at byte {at}")
}
