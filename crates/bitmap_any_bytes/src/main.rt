// Fills memory with pseudo-random words, thousands of times, and makes every request on it, with
// pseudo-random numbers. Every answer is held to what `test` says of every frame before and after, a refusal
// to a copy of the words, and where the summaries agree the answer is held to a plain recomputation.
// Prints how often each answer was given, and how many were inconsistent.

#![tactic(auto)]

mod tally;

ghost use Rattle.std.specs.Prelude.{◌≤◌};

use bitmap_plain::random;
use bitmap_requests::{REQUESTS, Request};
use std::io;
use std::io::{BufWriter, Write};
use tally::Tally;

// How many frames or words a request can name.
fn reach(tree: &[u16], request: Request) -> usize {
    match request {
        Request::Put => tree.len(),
        _ => bitmap_plain::frames(tree),
    }
}

// A number that s picks for a request: for a run mostly a small one.
fn number(tree: &[u16], request: Request, s: u64) -> usize {
    let x = random::number(s, reach(tree, request));
    match request {
        Request::AllocContiguous => random::small(s / 64, x),
        _ => x,
    }
}

// Makes the request that s picks, and counts what it is answered.
fn request<const N: usize>(tree: &mut [u16; N], s: u64, tally: &mut Tally) {
    let old = *tree;
    let request = REQUESTS[random::request(s)];
    let a = number(tree, request, random::step(s));
    let b = number(tree, request, random::step(random::step(s)));
    let reply = bitmap_requests::make(tree, request, a, b);
    tally.note(reply, bitmap_judge::right(&old, tree, request, a, b, reply));
}

// Makes so many requests on N words, which are filled anew at every fortieth turn.
fn turns<const N: usize>(many: u64, tally: &mut Tally)
    requires { N ≤ 273 }
{
    let mut tree = [0u16; N];
    let mut s: u64 = 1;
    for i in 0..many {
        if i % 40 == 0 {
            random::fill(&mut tree, i / 40);
        }
        s = random::step(s);
        request(&mut tree, s, tally);
    }
}

// Makes them on three trees, and on words that are no tree.
fn main(rt: HostRuntime) -> io::Result<()> {
    let mut tally = Tally::new();
    turns::<1>(100000, &mut tally);
    turns::<17>(100000, &mut tally);
    turns::<273>(100000, &mut tally);
    turns::<18>(10000, &mut tally);
    let mut out = BufWriter::new(rt.alloc(), io::writer(&rt))?;
    tally.print(&mut out)?;
    out.flush()
}
