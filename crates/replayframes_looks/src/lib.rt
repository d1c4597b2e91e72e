// The bitmap's functions that change nothing, for programs in other languages: numbers, and pointers with
// lengths. Each answers 0 or a reason, and writes its value through the last pointer, which a refusal leaves alone;
// `rf_bitmap_check` writes the word that lies.
// Nothing is demanded of the caller beyond the types.
#![tactic(auto)]

ghost use Rattle.replayframes_looks.specs.Looks.{WordsCode, CapCode, CountCode, AnyCode, TestCode, NextCode, CheckCode};

use bitmap_looks::{NoNext, NotTested, Unsound};
use bitmap_tree::NotFull;
use codes::{RF_CORRUPT, RF_DONE, RF_NO_ROOM, RF_NO_SIZE, RF_NOT_FULL, RF_OUTSIDE};

// How many words a tree of so many frames has.
#[unsafe(no_mangle)]
pub extern "C" fn rf_bitmap_words_for(frames: usize, words: &mut usize) -> u32
    ensures { WordsCode frames words.old words.new result }
{
    match bitmap_looks::words_for(frames) {
        Some(w) => {
            *words = w;
            RF_DONE
        }
        None => RF_NO_SIZE,
    }
}

// How many frames there are.
#[unsafe(no_mangle)]
pub extern "C" fn rf_bitmap_cap(tree: &[u16], frames: &mut usize) -> u32
    ensures { CapCode tree.now frames.old frames.new result }
{
    match bitmap_looks::cap(tree) {
        Ok(all) => {
            *frames = all;
            RF_DONE
        }
        Err(NotFull) => RF_NOT_FULL,
    }
}

// How many frames are free.
#[unsafe(no_mangle)]
pub extern "C" fn rf_bitmap_count_free(tree: &[u16], frames: &mut usize) -> u32
    ensures { CountCode tree.now frames.old frames.new result }
{
    match bitmap_looks::count_free(tree) {
        Ok(n) => {
            *frames = n;
            RF_DONE
        }
        Err(NotFull) => RF_NOT_FULL,
    }
}

// 1 if some frame is free, and else 0.
#[unsafe(no_mangle)]
pub extern "C" fn rf_bitmap_any(tree: &[u16], some: &mut u8) -> u32
    ensures { AnyCode tree.now some.old some.new result }
{
    match bitmap_looks::any(tree) {
        Ok(free) => {
            *some = free as u8;
            RF_DONE
        }
        Err(NotFull) => RF_NOT_FULL,
    }
}

// 1 if frame k is free, and 0 if it is taken.
#[unsafe(no_mangle)]
pub extern "C" fn rf_bitmap_test(tree: &[u16], k: usize, free: &mut u8) -> u32
    ensures { TestCode tree.now k free.old free.new result }
{
    match bitmap_looks::test(tree, k) {
        Ok(is) => {
            *free = is as u8;
            RF_DONE
        }
        Err(NotTested::Outside) => RF_OUTSIDE,
        Err(NotTested::NotFull) => RF_NOT_FULL,
    }
}

// The lowest free frame at or above k.
#[unsafe(no_mangle)]
pub extern "C" fn rf_bitmap_next(tree: &[u16], k: usize, frame: &mut usize) -> u32
    ensures { NextCode tree.now k frame.old frame.new result }
{
    match bitmap_looks::next(tree, k) {
        Ok(f) => {
            *frame = f;
            RF_DONE
        }
        Err(NoNext::Nothing) => RF_NO_ROOM,
        Err(NoNext::Corrupt) => RF_CORRUPT,
        Err(NoNext::Outside) => RF_OUTSIDE,
        Err(NoNext::NotFull) => RF_NOT_FULL,
    }
}

// Whether the summaries agree; where not, the lowest word with a bit that does not is written.
#[unsafe(no_mangle)]
pub extern "C" fn rf_bitmap_check(tree: &[u16], word: &mut usize) -> u32
    ensures { CheckCode tree.now word.old word.new result }
{
    match bitmap_looks::check(tree) {
        Ok(()) => RF_DONE,
        Err(Unsound::Lie(p)) => {
            *word = p;
            RF_CORRUPT
        }
        Err(Unsound::NotFull) => RF_NOT_FULL,
    }
}
