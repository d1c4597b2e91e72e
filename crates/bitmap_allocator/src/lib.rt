// Which page frames are free: a bitmap under its summaries, in memory that the caller lends.
//
// Every function takes any words of any length and any arguments. A length that is no full tree is
// refused, and so is every other request that cannot be met, each with its reason and with every word
// left as it was. What a success says of the frames holds for any words; what is exact, "the lowest"
// and "none is free", holds where the summaries agree, as they do from `reset` on. `Corrupt` is
// answered only where they do not agree; bitmap_looks has `check`, which alone decides whether
// they do, and what is asked and changes nothing.
#![tactic(auto, using(bitmap_tree::proofs::Fullness::full_bound))]

ghost use Rattle.std.specs.Prelude.{◌≡◌, ◌<◌};
ghost use Rattle.bitmap_allocator.specs.Changes.{ResetSays, AllocSays, RunSays, DeallocSays, RangeSays, not_allocated, run_not_taken};

use bitmap_search::Missed;
use bitmap_tree::NotFull;

// Why no frame is taken.
#[derive(Clone, Copy, Debug, PartialEq, Eq)]
pub enum NotAllocated {
    // No frame is free.
    NoRoom,
    // A summary was met that does not agree with its word. Each enum below that has this variant means the same by it.
    Corrupt,
    // So many words are no full tree. Each enum below that has this variant means the same by it.
    NotFull,
}

impl From<Missed> for NotAllocated {
    ghost from_gives = { λ m n. n ≡ not_allocated m };

    fn from(missed: Missed) -> NotAllocated {
        match missed {
            Missed::Nothing => NotAllocated::NoRoom,
            Missed::Corrupt => NotAllocated::Corrupt,
        }
    }
}

// Why no run of frames is taken.
#[derive(Clone, Copy, Debug, PartialEq, Eq)]
pub enum RunNotTaken {
    // There is no such run of free frames.
    NoRoom,
    Corrupt,
    // A run of no frame was asked for.
    Empty,
    NotFull,
}

impl From<Missed> for RunNotTaken {
    ghost from_gives = { λ m n. n ≡ run_not_taken m };

    fn from(missed: Missed) -> RunNotTaken {
        match missed {
            Missed::Nothing => RunNotTaken::NoRoom,
            Missed::Corrupt => RunNotTaken::Corrupt,
        }
    }
}

// Why a frame is not freed.
#[derive(Clone, Copy, Debug, PartialEq, Eq)]
pub enum NotFreed {
    // It was free before.
    NotTaken,
    // There is no such frame.
    Outside,
    NotFull,
}

// Why no range of frames is freed or taken.
#[derive(Clone, Copy, Debug, PartialEq, Eq)]
pub enum BadRange {
    // It ends where it starts.
    Empty,
    // It ends before it starts.
    Reversed,
    // It has a frame that is not there.
    Outside,
    NotFull,
}

// Makes every frame taken, whatever the words held.
#[tactic(auto, using(crate::proofs::Answers::wiped))]
pub fn reset(tree: &mut [u16]) -> Result<(), NotFull>
    ensures { ResetSays tree.old tree.new result }
{
    let w = tree.len();
    if !bitmap_tree::is_full(w) {
        return Err(NotFull);
    }
    bitmap_range::flood(tree, 0, w, 0);
    Ok(())
}

// Takes the lowest free frame.
pub fn alloc(tree: &mut [u16]) -> Result<usize, NotAllocated>
    ensures { AllocSays tree.old tree.new result }
{
    if !bitmap_tree::is_full(tree.len()) {
        return Err(NotAllocated::NotFull);
    }
    let k = bitmap_search::lowest(tree)?;
    bitmap_tree::change_one(tree, k, 0);
    Ok(k)
}

// Takes the lowest run of `size` free frames whose first is a multiple of 2 to the power of
// `align_log2`.
pub fn alloc_contiguous(
    tree: &mut [u16],
    size: usize,
    align_log2: usize,
) -> Result<usize, RunNotTaken>
    ensures { RunSays tree.old size align_log2 tree.new result }
{
    if !bitmap_tree::is_full(tree.len()) {
        return Err(RunNotTaken::NotFull);
    }
    if size == 0 {
        return Err(RunNotTaken::Empty);
    }
    let s = bitmap_runs::find_run(tree, size, align_log2)?;
    bitmap_range::change(tree, s, s + size, 0);
    Ok(s)
}

// Makes frame k, which is taken, free.
#[tactic(auto, using(bitmap_tree::proofs::Fullness::full_bound, bitmap_tree::proofs::Nodes::bit_clear))]
pub fn dealloc(tree: &mut [u16], k: usize) -> Result<(), NotFreed>
    ensures { DeallocSays tree.old k tree.new result }
{
    let w = tree.len();
    if !bitmap_tree::is_full(w) {
        return Err(NotFreed::NotFull);
    }
    if 15 * w < k {
        return Err(NotFreed::Outside);
    }
    let bit = bitmap_tree::read(tree, w + k);
    if bit == 1 {
        return Err(NotFreed::NotTaken);
    }
    bitmap_tree::change_one(tree, k, 1);
    Ok(())
}

// Makes the frames from `from` up to `to` free, whatever they were.
pub fn insert(tree: &mut [u16], from: usize, to: usize) -> Result<(), BadRange>
    ensures { RangeSays tree.old from to 1 tree.new result }
{
    change_range(tree, from, to, 1)
}

// Makes the frames from `from` up to `to` taken, whatever they were.
pub fn remove(tree: &mut [u16], from: usize, to: usize) -> Result<(), BadRange>
    ensures { RangeSays tree.old from to 0 tree.new result }
{
    change_range(tree, from, to, 0)
}

// What `insert` and `remove` have in common: the frames become free where v is 1, and taken where v
// is 0.
fn change_range(tree: &mut [u16], from: usize, to: usize, v: u16) -> Result<(), BadRange>
    requires { v < 2 }
    ensures { RangeSays tree.old from to v tree.new result }
{
    let w = tree.len();
    if !bitmap_tree::is_full(w) {
        return Err(BadRange::NotFull);
    }
    if from == to {
        return Err(BadRange::Empty);
    }
    if to < from {
        return Err(BadRange::Reversed);
    }
    if 15 * w + 1 < to {
        return Err(BadRange::Outside);
    }
    bitmap_range::change(tree, from, to, v);
    Ok(())
}
