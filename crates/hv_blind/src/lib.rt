// A machine's requests for frames, served without the frames' own words. The machine that asks is named by
// its number; it takes and gives back frames for itself alone. The memories are the first four of the order:
// the table of the configuration, the machines' words, the tree and the owners.
//
// Every function takes any words, any bytes and any arguments, and serves the request for whatever words the
// frames have that are all 0: to clear them changes nothing. These functions stand beside hv_frames's, since
// a generic one would be given the call, its errors and its contract, which is all that one of them has.
#![tactic(auto)]

ghost use Rattle.machine.specs.declared.Request.TheVariants.{Alloc, AllocContiguous, Dealloc, DeallocContiguous};
ghost use Rattle.hv_blind.specs.Blind.{ServedBlind};

use machine::Answer;

// Gives the machine the lowest free frame, and answers its host address.
pub fn alloc(
    table: &[u64],
    zones: &[u64],
    tree: &mut [u16],
    owners: &mut [u8],
    number: u64,
) -> Answer
    ensures { ServedBlind table.now zones.now tree.old owners.old number Alloc zones.now tree.new owners.new result }
{
    let c = match hv_asker::client_that_asks(table, zones, number) {
        Ok(c) => c,
        Err(why) => return Answer::from(why),
    };
    match global_allocator::alloc(tree, owners, c.base, c.client) {
        Ok(addr) => Answer::Address(addr as u64),
        Err(why) => hv_answers::of_no_frame(why),
    }
}

// Gives the machine the lowest run of `size` free frames of which the first has a number that is a multiple
// of 2 to the power of `align_log2`. Answers the host address of the first.
pub fn alloc_contiguous(
    table: &[u64],
    zones: &[u64],
    tree: &mut [u16],
    owners: &mut [u8],
    number: u64,
    size: usize,
    align_log2: usize,
) -> Answer
    ensures { ServedBlind table.now zones.now tree.old owners.old number (AllocContiguous size align_log2) zones.now tree.new owners.new result }
{
    let c = match hv_asker::client_that_asks(table, zones, number) {
        Ok(c) => c,
        Err(why) => return Answer::from(why),
    };
    match global_allocator::alloc_contiguous(tree, owners, c.base, c.client, size, align_log2) {
        Ok(first) => Answer::Address(first as u64),
        Err(why) => hv_answers::of_no_run(why),
    }
}

// The machine gives back the frame at a host address.
pub fn dealloc(
    table: &[u64],
    zones: &[u64],
    tree: &mut [u16],
    owners: &mut [u8],
    number: u64,
    addr: usize,
) -> Answer
    ensures { ServedBlind table.now zones.now tree.old owners.old number (Dealloc addr) zones.now tree.new owners.new result }
{
    let c = match hv_asker::client_that_asks(table, zones, number) {
        Ok(c) => c,
        Err(why) => return Answer::from(why),
    };
    match global_allocator::dealloc(tree, owners, c.base, c.client, addr) {
        Ok(()) => Answer::Done,
        Err(why) => hv_answers::of_not_freed(why),
    }
}

// The machine gives back the `count` frames from a host address on, all or none.
pub fn dealloc_contiguous(
    table: &[u64],
    zones: &[u64],
    tree: &mut [u16],
    owners: &mut [u8],
    number: u64,
    addr: usize,
    count: usize,
) -> Answer
    ensures { ServedBlind table.now zones.now tree.old owners.old number (DeallocContiguous addr count) zones.now tree.new owners.new result }
{
    let c = match hv_asker::client_that_asks(table, zones, number) {
        Ok(c) => c,
        Err(why) => return Answer::from(why),
    };
    match global_allocator::dealloc_contiguous(tree, owners, c.base, c.client, addr, count) {
        Ok(()) => Answer::Done,
        Err(why) => hv_answers::of_run_not_freed(why),
    }
}
