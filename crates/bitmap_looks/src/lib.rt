// What is asked of a bitmap under its summaries and changes nothing: how many frames it has, how many are
// free, which, and whether the summaries agree. The bitmap is in memory that the caller lends.
//
// Every function takes any words of any length and any arguments. A length that is no full tree is
// refused, and so is a frame that is not there. What is said of the frames holds for any words; what is
// exact, "the lowest" and "none is free", holds where the summaries agree. `Corrupt` is answered only
// where they do not agree; `check` alone decides whether they do.
#![tactic(auto, using(bitmap_tree::proofs::Fullness::full_bound))]

ghost use Rattle.std.specs.Prelude.{◌≡◌, ◌<◌};
ghost use Rattle.bitmap_looks.specs.Looks.{CapSays, CountSays, AnySays, TestSays, NextSays, CheckSays, WordsSays, no_next};

use bitmap_search::Missed;
use bitmap_tree::NotFull;

// Why it is not told whether a frame is free.
#[derive(Clone, Copy, Debug, PartialEq, Eq)]
pub enum NotTested {
    // There is no such frame. Each enum below that has this variant means the same by it.
    Outside,
    // So many words are no full tree. Each enum below that has this variant means the same by it.
    NotFull,
}

// Why no free frame is named.
#[derive(Clone, Copy, Debug, PartialEq, Eq)]
pub enum NoNext {
    // None is free from there on.
    Nothing,
    // A summary was met that does not agree with its word.
    Corrupt,
    Outside,
    NotFull,
}

impl From<Missed> for NoNext {
    ghost from_gives = { λ m n. n ≡ no_next m };

    fn from(missed: Missed) -> NoNext {
        match missed {
            Missed::Nothing => NoNext::Nothing,
            Missed::Corrupt => NoNext::Corrupt,
        }
    }
}

// Why it is not so that the summaries agree.
#[derive(Clone, Copy, Debug, PartialEq, Eq)]
pub enum Unsound {
    // They do not: the lowest word with a bit that does not agree with the word that it summarises.
    Lie(usize),
    NotFull,
}

// How many words a tree of so many frames has; no full tree has another number of frames.
pub fn words_for(frames: usize) -> Option<usize>
    ensures { WordsSays frames result }
{
    let w = frames / 15;
    if frames % 15 == 1 && bitmap_tree::is_full(w) {
        Some(w)
    } else {
        None
    }
}

// How many frames there are.
pub fn cap(tree: &[u16]) -> Result<usize, NotFull>
    ensures { CapSays tree.now result }
{
    let w = tree.len();
    if !bitmap_tree::is_full(w) {
        return Err(NotFull);
    }
    Ok(15 * w + 1)
}

// How many frames are free.
pub fn count_free(tree: &[u16]) -> Result<usize, NotFull>
    ensures { CountSays tree.now result }
{
    if !bitmap_tree::is_full(tree.len()) {
        return Err(NotFull);
    }
    Ok(bitmap_tree::count(tree))
}

// Whether some frame is free.
pub fn any(tree: &[u16]) -> Result<bool, NotFull>
    ensures { AnySays tree.now result }
{
    if !bitmap_tree::is_full(tree.len()) {
        return Err(NotFull);
    }
    Ok(tree[0] != 0)
}

// Whether frame k is free.
pub fn test(tree: &[u16], k: usize) -> Result<bool, NotTested>
    ensures { TestSays tree.now k result }
{
    let w = tree.len();
    if !bitmap_tree::is_full(w) {
        return Err(NotTested::NotFull);
    }
    if 15 * w < k {
        return Err(NotTested::Outside);
    }
    Ok(bitmap_tree::read(tree, w + k) == 1)
}

// The lowest free frame at or above k.
pub fn next(tree: &[u16], k: usize) -> Result<usize, NoNext>
    ensures { NextSays tree.now k result }
{
    let w = tree.len();
    if !bitmap_tree::is_full(w) {
        return Err(NoNext::NotFull);
    }
    if 15 * w < k {
        return Err(NoNext::Outside);
    }
    Ok(bitmap_search::next_from(tree, k)?)
}

// Whether the summaries agree, and where not.
#[tactic(auto, using(bitmap_tree::proofs::Fullness::full_bound, crate::proofs::Answers::no_lie, crate::proofs::Answers::lowest_lie))]
pub fn check(tree: &[u16]) -> Result<(), Unsound>
    ensures { CheckSays tree.now result }
{
    let w = tree.len();
    if !bitmap_tree::is_full(w) {
        return Err(Unsound::NotFull);
    }
    let p = bitmap_tree::first_lie(tree);
    if p == (w - 1) / 16 {
        Ok(())
    } else {
        Err(Unsound::Lie(p))
    }
}
