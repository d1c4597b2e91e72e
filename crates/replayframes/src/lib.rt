// The bitmap's functions that change it, for programs in other languages: numbers, and pointers with
// lengths. Each answers 0 or a reason, and writes its value through the last pointer, which a refusal leaves alone.
// Nothing is demanded of the caller beyond the types.
#![tactic(auto)]

ghost use Rattle.std.specs.Prelude.{◌≡◌};
ghost use Rattle.replayframes.specs.Bitmap.{range_code, ResetCode, AllocCode, RunCode, DeallocCode, InsertCode, RemoveCode};

use bitmap_allocator::{BadRange, NotAllocated, NotFreed, RunNotTaken};
use bitmap_tree::NotFull;
use codes::{
    RF_CORRUPT, RF_DONE, RF_EMPTY, RF_NO_ROOM, RF_NOT_FULL, RF_NOT_TAKEN, RF_OUTSIDE, RF_REVERSED,
};

// Makes every frame taken, whatever the words held.
#[unsafe(no_mangle)]
pub extern "C" fn rf_bitmap_reset(tree: &mut [u16]) -> u32
    ensures { ResetCode tree.old tree.new result }
{
    match bitmap_allocator::reset(tree) {
        Ok(()) => RF_DONE,
        Err(NotFull) => RF_NOT_FULL,
    }
}

// Takes the lowest free frame.
#[unsafe(no_mangle)]
pub extern "C" fn rf_bitmap_alloc(tree: &mut [u16], frame: &mut usize) -> u32
    ensures { AllocCode tree.old tree.new frame.old frame.new result }
{
    match bitmap_allocator::alloc(tree) {
        Ok(k) => {
            *frame = k;
            RF_DONE
        }
        Err(NotAllocated::NoRoom) => RF_NO_ROOM,
        Err(NotAllocated::Corrupt) => RF_CORRUPT,
        Err(NotAllocated::NotFull) => RF_NOT_FULL,
    }
}

// Takes the lowest run of `size` free frames whose first is a multiple of 2 to the power of
// `align_log2`.
#[unsafe(no_mangle)]
pub extern "C" fn rf_bitmap_alloc_contiguous(
    tree: &mut [u16],
    size: usize,
    align_log2: usize,
    frame: &mut usize,
) -> u32
    ensures { RunCode tree.old size align_log2 tree.new frame.old frame.new result }
{
    match bitmap_allocator::alloc_contiguous(tree, size, align_log2) {
        Ok(s) => {
            *frame = s;
            RF_DONE
        }
        Err(RunNotTaken::NoRoom) => RF_NO_ROOM,
        Err(RunNotTaken::Corrupt) => RF_CORRUPT,
        Err(RunNotTaken::Empty) => RF_EMPTY,
        Err(RunNotTaken::NotFull) => RF_NOT_FULL,
    }
}

// Makes frame k, which is taken, free.
#[unsafe(no_mangle)]
pub extern "C" fn rf_bitmap_dealloc(tree: &mut [u16], k: usize) -> u32
    ensures { DeallocCode tree.old k tree.new result }
{
    match bitmap_allocator::dealloc(tree, k) {
        Ok(()) => RF_DONE,
        Err(NotFreed::NotTaken) => RF_NOT_TAKEN,
        Err(NotFreed::Outside) => RF_OUTSIDE,
        Err(NotFreed::NotFull) => RF_NOT_FULL,
    }
}

// Makes the frames from `from` up to `to` free, whatever they were.
#[unsafe(no_mangle)]
pub extern "C" fn rf_bitmap_insert(tree: &mut [u16], from: usize, to: usize) -> u32
    ensures { InsertCode tree.old from to tree.new result }
{
    range_code(bitmap_allocator::insert(tree, from, to))
}

// Makes the frames from `from` up to `to` taken, whatever they were.
#[unsafe(no_mangle)]
pub extern "C" fn rf_bitmap_remove(tree: &mut [u16], from: usize, to: usize) -> u32
    ensures { RemoveCode tree.old from to tree.new result }
{
    range_code(bitmap_allocator::remove(tree, from, to))
}

// The reason of a range of frames.
fn range_code(answer: Result<(), BadRange>) -> u32
    ensures { result ≡ range_code answer }
{
    match answer {
        Ok(()) => RF_DONE,
        Err(BadRange::Empty) => RF_EMPTY,
        Err(BadRange::Reversed) => RF_REVERSED,
        Err(BadRange::Outside) => RF_OUTSIDE,
        Err(BadRange::NotFull) => RF_NOT_FULL,
    }
}
