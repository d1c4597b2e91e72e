// The shared allocator with the frames' own memory, as its clients use it: a frame is cleared before it
// becomes free, and so a frame that is handed out is empty. Beside the tree, the owners and the base, the
// caller lends exactly 512 words of 64 bits for each frame that may become free; the frames behind them
// are reserved. What the monitor does with all of them is frames_pool's.
//
// Every function takes any words, any bytes and any arguments. What cannot be met is refused with the
// first reason that applies, and every word and byte is left as it was. Where the memories are `Clean`,
// every operation keeps them so; `Corrupt` is answered only where they are not.
#![tactic(auto)]

ghost use Rattle.std.specs.Prelude.{◌≡◌};
ghost use Rattle.frames.specs.declared.NotGiven.{NotGiven};
ghost use Rattle.frames.specs.declared.NotReturned.{NotReturned};
ghost use Rattle.frames.specs.Frames.{AllocSays, RunSays, DeallocSays, DeallocRunSays};

use claims::{NoFrame, NoRun, NotFreed, RunNotFreed};

// Why no frame, or no run of frames, is given; E is why the shared allocator gives none.
#[derive(Clone, Copy, Debug, PartialEq, Eq)]
pub enum NotGiven<E> {
    // The contents are not those of whole frames, or of more than there are.
    Unbacked,
    No(E),
}

impl<E> From<E> for NotGiven<E> {
    ghost from_gives = { λ why e. e ≡ NotGiven.No why };

    fn from(why: E) -> NotGiven<E> {
        NotGiven::No(why)
    }
}

// Why a frame, or a run of frames, can't be given back; E is why the shared allocator takes none.
#[derive(Clone, Copy, Debug, PartialEq, Eq)]
pub enum NotReturned<E> {
    // As in NotGiven.
    Unbacked,
    // It is the client's, but the frame, or the last one of the run, has no contents.
    Corrupt,
    No(E),
}

impl<E> From<E> for NotReturned<E> {
    ghost from_gives = { λ why e. e ≡ NotReturned.No why };

    fn from(why: E) -> NotReturned<E> {
        NotReturned::No(why)
    }
}

// Gives the client c the lowest free frame, which is empty.
pub fn alloc(
    tree: &mut [u16],
    owners: &mut [u8],
    words: &[u64],
    base: usize,
    c: u8,
) -> Result<usize, NotGiven<NoFrame>>
    ensures { AllocSays base tree.old owners.old words.now c tree.new owners.new result }
{
    if !contents::is_backed(owners, words) {
        return Err(NotGiven::Unbacked);
    }
    Ok(global_allocator::alloc(tree, owners, base, c)?)
}

// Gives the client c the lowest run of `size` free frames whose first is a multiple of 2 to the power of
// `align_log2`; all of them are empty.
pub fn alloc_contiguous(
    tree: &mut [u16],
    owners: &mut [u8],
    words: &[u64],
    base: usize,
    c: u8,
    size: usize,
    align_log2: usize,
) -> Result<usize, NotGiven<NoRun>>
    ensures { RunSays base tree.old owners.old words.now c size align_log2 tree.new owners.new result }
{
    if !contents::is_backed(owners, words) {
        return Err(NotGiven::Unbacked);
    }
    Ok(global_allocator::alloc_contiguous(tree, owners, base, c, size, align_log2)?)
}

// The client c gives back the frame at an address, which is cleared first.
pub fn dealloc(
    tree: &mut [u16],
    owners: &mut [u8],
    words: &mut [u64],
    base: usize,
    c: u8,
    addr: usize,
) -> Result<(), NotReturned<NotFreed>>
    ensures { DeallocSays base tree.old owners.old words.old c addr tree.new owners.new words.new result }
{
    if !contents::is_backed(owners, words) {
        return Err(NotReturned::Unbacked);
    }
    let k = claims::may_free(tree, owners, base, c, addr)?;
    if words.len() / 512 <= k {
        return Err(NotReturned::Corrupt);
    }
    contents::wipe(words, k, k + 1);
    owners::assign_one(tree, owners, k, 1, 255);
    Ok(())
}

// The client c gives back the `count` frames from an address on, all or none; they are cleared first.
pub fn dealloc_contiguous(
    tree: &mut [u16],
    owners: &mut [u8],
    words: &mut [u64],
    base: usize,
    c: u8,
    addr: usize,
    count: usize,
) -> Result<(), NotReturned<RunNotFreed>>
    ensures { DeallocRunSays base tree.old owners.old words.old c addr count tree.new owners.new words.new result }
{
    if !contents::is_backed(owners, words) {
        return Err(NotReturned::Unbacked);
    }
    let k = claims::may_free_run(tree, owners, base, c, addr, count)?;
    let end = k + count;
    if words.len() / 512 < end {
        return Err(NotReturned::Corrupt);
    }
    contents::wipe(words, k, end);
    owners::assign(tree, owners, k, end, 1, 255);
    Ok(())
}
