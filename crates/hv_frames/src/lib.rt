// A machine's requests for frames. The machine that asks is named by its number; it takes and gives back
// frames for itself alone. The memories are, in this order: the table of the configuration, the machines'
// words, the tree, the owners and the frames' own words.
//
// Every function takes any words, any bytes and any arguments, and a refusal leaves every word and byte.
// Where the memories are sound, they stay so, and the answer and what they mean afterwards are those of the
// abstract machine's `step`: a refusal has the first reason that applies. "Corrupt" is answered only where
// they are not.
#![tactic(auto)]

ghost use Rattle.machine.specs.declared.Request.TheVariants.{Alloc, AllocContiguous, Dealloc, DeallocContiguous};
ghost use Rattle.hv_state.specs.Serving.{Served, mem};

use frames::{NotGiven, NotReturned};
use machine::Answer;

// Gives the machine the lowest free frame, which is empty, and answers its host address.
pub fn alloc(
    table: &[u64],
    zones: &[u64],
    tree: &mut [u16],
    owners: &mut [u8],
    words: &[u64],
    number: u64,
) -> Answer
    ensures { Served (mem table.now zones.now tree.old owners.old words.now) number Alloc (mem table.now zones.now tree.new owners.new words.now) result }
{
    let c = match hv_asker::client_that_asks(table, zones, number) {
        Ok(c) => c,
        Err(why) => return Answer::from(why),
    };
    match frames::alloc(tree, owners, words, c.base, c.client) {
        Ok(addr) => Answer::Address(addr as u64),
        Err(NotGiven::Unbacked) => Answer::Corrupt,
        Err(NotGiven::No(why)) => hv_answers::of_no_frame(why),
    }
}

// Gives the machine the lowest run of `size` free frames of which the first has a number that is a multiple
// of 2 to the power of `align_log2`; all of them are empty. Answers the host address of the first.
pub fn alloc_contiguous(
    table: &[u64],
    zones: &[u64],
    tree: &mut [u16],
    owners: &mut [u8],
    words: &[u64],
    number: u64,
    size: usize,
    align_log2: usize,
) -> Answer
    ensures { Served (mem table.now zones.now tree.old owners.old words.now) number (AllocContiguous size align_log2) (mem table.now zones.now tree.new owners.new words.now) result }
{
    let c = match hv_asker::client_that_asks(table, zones, number) {
        Ok(c) => c,
        Err(why) => return Answer::from(why),
    };
    match frames::alloc_contiguous(tree, owners, words, c.base, c.client, size, align_log2) {
        Ok(first) => Answer::Address(first as u64),
        Err(NotGiven::Unbacked) => Answer::Corrupt,
        Err(NotGiven::No(why)) => hv_answers::of_no_run(why),
    }
}

// The machine gives back the frame at a host address, which is cleared.
pub fn dealloc(
    table: &[u64],
    zones: &[u64],
    tree: &mut [u16],
    owners: &mut [u8],
    words: &mut [u64],
    number: u64,
    addr: usize,
) -> Answer
    ensures { Served (mem table.now zones.now tree.old owners.old words.old) number (Dealloc addr) (mem table.now zones.now tree.new owners.new words.new) result }
{
    let c = match hv_asker::client_that_asks(table, zones, number) {
        Ok(c) => c,
        Err(why) => return Answer::from(why),
    };
    match frames::dealloc(tree, owners, words, c.base, c.client, addr) {
        Ok(()) => Answer::Done,
        Err(NotReturned::Unbacked) => Answer::Corrupt,
        Err(NotReturned::Corrupt) => Answer::Corrupt,
        Err(NotReturned::No(why)) => hv_answers::of_not_freed(why),
    }
}

// The machine gives back the `count` frames from a host address on, all or none; they are cleared.
pub fn dealloc_contiguous(
    table: &[u64],
    zones: &[u64],
    tree: &mut [u16],
    owners: &mut [u8],
    words: &mut [u64],
    number: u64,
    addr: usize,
    count: usize,
) -> Answer
    ensures { Served (mem table.now zones.now tree.old owners.old words.old) number (DeallocContiguous addr count) (mem table.now zones.now tree.new owners.new words.new) result }
{
    let c = match hv_asker::client_that_asks(table, zones, number) {
        Ok(c) => c,
        Err(why) => return Answer::from(why),
    };
    match frames::dealloc_contiguous(tree, owners, words, c.base, c.client, addr, count) {
        Ok(()) => Answer::Done,
        Err(NotReturned::Unbacked) => Answer::Corrupt,
        Err(NotReturned::Corrupt) => Answer::Corrupt,
        Err(NotReturned::No(why)) => hv_answers::of_run_not_freed(why),
    }
}
