// The search for runs of free frames. Long runs are looked for a window at a time, from its end; the
// starts of short ones are found a word at a time. An inner crate: its functions ask what their callers
// show.
#![tactic(auto, using(bitmap_tree::proofs::Fullness::full_bound))]

ghost use Rattle.std.specs.Prelude.{◌≡◌, ◌+◌, ◌*◌, ◌^◌, ◌≤◌, ◌<◌, length, get_or};
ghost use Rattle.base.specs.Search.{Since};
ghost use Rattle.bits16.specs.Runs.{Multiples};
ghost use Rattle.bitmap_tree.specs.Tree.{node_bit, Full};
ghost use Rattle.bitmap_runs.specs.Runs.{Rounded, SearchSays};
ghost use Rattle.bitmap_runs.specs.Short.{Scanning, LookSays};

use bitmap_search::Missed;

// What a look at the starts in one word finds.
#[derive(Clone, Copy, Debug, PartialEq, Eq)]
pub enum Looked {
    // The lowest run, which starts there.
    At(usize),
    // Nothing; the search goes on at this word.
    From(usize),
}

// The lowest word from p on from which on every word up to q has all its bits set.
fn full_since(tree: &[u16], p: usize, q: usize) -> usize
    requires { (p ≤ q) × (q ≤ length tree.now) }
    ensures { Since (λ n. get_or tree.now n 0 ≡ 65535) p q result }
{
    for n in (p..q).rev() {
        if tree[n] != 65535 {
            return n + 1;
        }
    }
    p
}

// The lowest node from a on from which on the bit of each node up to b is set: from the end, past full
// words, to the first word that is not.
fn set_since(tree: &[u16], a: usize, b: usize) -> usize
    requires { (0 < a) × (a ≤ b) × (b ≤ 16 * length tree.now + 1) × (length tree.now < 2 ^ 57) }
    ensures { Since (λ j. node_bit tree.now j ≡ 1) a b result }
{
    let mut e = b;
    // A `while`, since it goes back by words, and past as many as are full.
    while a < e {
        let p = (e - 2) / 16;
        let i = bits16::set_since(tree[p], (e - 2) % 16 + 1);
        if 0 < i {
            return a.max(16 * p + 1 + i);
        }
        e = 16 * full_since(tree, (a - 1) / 16, p) + 1;
    }
    a
}

// The lowest multiple of 2 to the power of e that is not below f.
fn round_up(f: usize, e: usize) -> usize
    requires { (f < 2 ^ 61) × (e ≤ 60) }
    ensures { Rounded f (2 ^ e) result }
{
    ((f + ((1usize << e) - 1)) >> e) << e
}

// The lowest multiple of 2 to the power of a from which on n frames are free. A window that fails is
// left behind its last taken frame, since every base up to that frame has it in its run. No frame's
// number reaches 2 to the power of 60, so that 0 is the only multiple of that, or of more, among them.
fn find_long(tree: &[u16], n: usize, a: usize) -> Result<usize, Missed>
    requires { Full (length tree.now) × (0 < n) }
    ensures { SearchSays tree.now n a result }
{
    let w = tree.len();
    let e = a.min(60);
    let cap = 15 * w + 1;
    let mut k: usize = 0;
    // A `while`, since a window that fails says where the next begins.
    while k < cap {
        let f = bitmap_search::next_from(tree, k)?;
        let s = round_up(f, e);
        if cap < s || cap - s < n {
            return Err(Missed::Nothing);
        }
        let r = set_since(tree, w + s, w + s + n) - w;
        if r == s {
            return Ok(s);
        }
        k = r;
    }
    Err(Missed::Nothing)
}

// What stands in word n, or 0 behind the last one.
fn word_at(tree: &[u16], n: usize) -> u16
    ensures { result ≡ get_or tree.now n 0 }
{
    tree.get(n).copied().unwrap_or(0)
}

// Looks for a run that starts in word p at one of the given places. A word that is 0 is passed over,
// with all taken frames behind it.
fn look(tree: &[u16], n: usize, a: usize, places: u16, p: usize) -> Result<Looked, Missed>
    requires full { Full (length tree.now) × (p < length tree.now) × (0 < n) × (n ≤ 16) × (a ≤ 4) }
    requires multiples { Multiples a places × Scanning tree.now n a p }
    ensures { LookSays tree.now n a p result }
{
    let w = tree.len();
    let first = 16 * p + 1;
    let word = tree[p];
    if word == 0 {
        let f = bitmap_search::next_from(tree, first - w)?;
        return Ok(Looked::From((w + f - 1) / 16));
    }
    let starts = bits16::starts(word, word_at(tree, p + 1), n, places);
    let i = bits16::lowest(starts);
    if i < 16 {
        return Ok(Looked::At(first + i - w));
    }
    Ok(Looked::From(p + 1))
}

// The lowest run of n frames, 16 at most, at a multiple of 2 to the power of a, 4 at most.
fn find_short(tree: &[u16], n: usize, a: usize) -> Result<usize, Missed>
    requires { Full (length tree.now) × (0 < n) × (n ≤ 16) × (a ≤ 4) }
    ensures { SearchSays tree.now n a result }
{
    let places = bits16::multiples(a);
    let mut p = (tree.len() - 1) / 16;
    // A `while`, since a look says at which word the next is.
    while p < tree.len() {
        match look(tree, n, a, places, p)? {
            Looked::At(s) => return Ok(s),
            Looked::From(q) => p = q,
        }
    }
    Err(Missed::Nothing)
}

// The lowest multiple of 2 to the power of a from which on n frames are free.
pub fn find_run(tree: &[u16], n: usize, a: usize) -> Result<usize, Missed>
    requires { Full (length tree.now) × (0 < n) }
    ensures { SearchSays tree.now n a result }
{
    if n <= 16 && a <= 4 {
        find_short(tree, n, a)
    } else {
        find_long(tree, n, a)
    }
}
