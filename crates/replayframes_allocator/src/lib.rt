// The shared allocator's functions that programs in other languages link: numbers, and pointers with
// lengths. Each answers 0 or a reason, and writes its value through the last pointer, which a refusal
// that names no frame leaves alone. Nothing is demanded of the caller beyond the types.
#![tactic(auto)]

ghost use Rattle.replayframes_allocator.specs.Allocator.{FidCode, PaddrCode, OwnerCode, CountCode, CheckCode, InitCode};
ghost use Rattle.replayframes_allocator.specs.Allocator.{AllocCode, RunCode, DeallocCode, DeallocRunCode, InsertCode, RemoveCode, ReleaseCode};

use allocator_pool::{BadClient, FrameState, NoState, NotInserted, NotStarted, Unaccounted};
use codes::{
    RF_BAD_BASE, RF_BELOW, RF_CORRUPT, RF_DONE, RF_NO_CLIENT, RF_NOT_AT_FRAME, RF_OUTSIDE,
    RF_TOO_HIGH, RF_TOO_MANY, RF_WRONG,
};
use global_allocator::{NoFid, NoPaddr};

// What `rf_allocator_owner` writes for a frame that is free.
pub const RF_FREE: u8 = 64;
// What `rf_allocator_owner` writes for a frame that is reserved.
pub const RF_RESERVED: u8 = 65;

// The number of the frame at an address.
#[unsafe(no_mangle)]
pub extern "C" fn rf_allocator_fid(base: usize, addr: usize, frame: &mut usize) -> u32
    ensures { FidCode base addr frame.old frame.new result }
{
    match global_allocator::paddr_to_fid(base, addr) {
        Ok(k) => {
            *frame = k;
            RF_DONE
        }
        Err(NoFid::BadBase) => RF_BAD_BASE,
        Err(NoFid::Below) => RF_BELOW,
        Err(NoFid::NotAtFrame) => RF_NOT_AT_FRAME,
    }
}

// The address of frame k.
#[unsafe(no_mangle)]
pub extern "C" fn rf_allocator_paddr(base: usize, k: usize, addr: &mut usize) -> u32
    ensures { PaddrCode base k addr.old addr.new result }
{
    match global_allocator::fid_to_paddr(base, k) {
        Ok(at) => {
            *addr = at;
            RF_DONE
        }
        Err(NoPaddr::BadBase) => RF_BAD_BASE,
        Err(NoPaddr::TooHigh) => RF_TOO_HIGH,
    }
}

// What frame k is: 0 to 63 for the client that owns it, 64 if it is free, and 65 if it is reserved.
#[unsafe(no_mangle)]
pub extern "C" fn rf_allocator_owner(
    tree: &[u16],
    owners: &[u8],
    base: usize,
    k: usize,
    owner: &mut u8,
) -> u32
    ensures { OwnerCode base tree.now owners.now k owner.old owner.new result }
{
    match allocator_pool::owner(tree, owners, base, k) {
        Ok(state) => {
            *owner = match state {
                FrameState::Free => RF_FREE,
                FrameState::Reserved => RF_RESERVED,
                FrameState::Client(c) => c,
            };
            RF_DONE
        }
        Err(NoState::Outside) => RF_OUTSIDE,
        Err(NoState::Unfit(why)) => reason_codes::unfit(why),
    }
}

// How many frames the client owns.
#[unsafe(no_mangle)]
pub extern "C" fn rf_allocator_owned_count(
    tree: &[u16],
    owners: &[u8],
    base: usize,
    client: u8,
    frames: &mut usize,
) -> u32
    ensures { CountCode base tree.now owners.now client frames.old frames.new result }
{
    match allocator_pool::owned_count(tree, owners, base, client) {
        Ok(n) => {
            *frames = n;
            RF_DONE
        }
        Err(BadClient::NoClient) => RF_NO_CLIENT,
        Err(BadClient::Unfit(why)) => reason_codes::unfit(why),
    }
}

// Whether the memories are an allocator's; where not, the word of the tree that lies or the frame that
// is not in order is written.
#[unsafe(no_mangle)]
pub extern "C" fn rf_allocator_check(
    tree: &[u16],
    owners: &[u8],
    base: usize,
    at: &mut usize,
) -> u32
    ensures { CheckCode base tree.now owners.now at.old at.new result }
{
    match allocator_pool::check(tree, owners, base) {
        Ok(()) => RF_DONE,
        Err(Unaccounted::Lie(p)) => {
            *at = p;
            RF_CORRUPT
        }
        Err(Unaccounted::Wrong(k)) => {
            *at = k;
            RF_WRONG
        }
        Err(Unaccounted::Unfit(why)) => reason_codes::unfit(why),
    }
}

// Makes the frames below n free and all others reserved, whatever the memories held.
#[unsafe(no_mangle)]
pub extern "C" fn rf_allocator_init(
    tree: &mut [u16],
    owners: &mut [u8],
    base: usize,
    n: usize,
) -> u32
    ensures { InitCode base tree.old owners.old n tree.new owners.new result }
{
    match allocator_pool::init(tree, owners, base, n) {
        Ok(()) => RF_DONE,
        Err(NotStarted::TooMany) => RF_TOO_MANY,
        Err(NotStarted::TooHigh) => RF_TOO_HIGH,
        Err(NotStarted::Unfit(why)) => reason_codes::unfit(why),
    }
}

// Gives the client the lowest free frame, and writes its address.
#[unsafe(no_mangle)]
pub extern "C" fn rf_allocator_alloc(
    tree: &mut [u16],
    owners: &mut [u8],
    base: usize,
    client: u8,
    addr: &mut usize,
) -> u32
    ensures { AllocCode base tree.old owners.old client tree.new owners.new addr.old addr.new result }
{
    match global_allocator::alloc(tree, owners, base, client) {
        Ok(at) => {
            *addr = at;
            RF_DONE
        }
        Err(why) => reason_codes::no_frame(why),
    }
}

// Gives the client the lowest run of `size` free frames whose first is a multiple of 2 to the power of
// `align_log2`, and writes its address.
#[unsafe(no_mangle)]
pub extern "C" fn rf_allocator_alloc_contiguous(
    tree: &mut [u16],
    owners: &mut [u8],
    base: usize,
    client: u8,
    size: usize,
    align_log2: usize,
    addr: &mut usize,
) -> u32
    ensures { RunCode base tree.old owners.old client size align_log2 tree.new owners.new addr.old addr.new result }
{
    match global_allocator::alloc_contiguous(tree, owners, base, client, size, align_log2) {
        Ok(at) => {
            *addr = at;
            RF_DONE
        }
        Err(why) => reason_codes::no_run(why),
    }
}

// The client gives back the frame at an address.
#[unsafe(no_mangle)]
pub extern "C" fn rf_allocator_dealloc(
    tree: &mut [u16],
    owners: &mut [u8],
    base: usize,
    client: u8,
    addr: usize,
) -> u32
    ensures { DeallocCode base tree.old owners.old client addr tree.new owners.new result }
{
    match global_allocator::dealloc(tree, owners, base, client, addr) {
        Ok(()) => RF_DONE,
        Err(why) => reason_codes::not_freed(why),
    }
}

// The client gives back the `count` frames from an address on, all or none; the first frame that is
// not its own is written.
#[unsafe(no_mangle)]
pub extern "C" fn rf_allocator_dealloc_contiguous(
    tree: &mut [u16],
    owners: &mut [u8],
    base: usize,
    client: u8,
    addr: usize,
    count: usize,
    frame: &mut usize,
) -> u32
    ensures { DeallocRunCode base tree.old owners.old client addr count tree.new owners.new frame.old frame.new result }
{
    match global_allocator::dealloc_contiguous(tree, owners, base, client, addr, count) {
        Ok(()) => RF_DONE,
        Err(why) => reason_codes::run_not_freed(why, frame),
    }
}

// Makes the frames from `from` up to `to` free; the first one that a client owns is written, and then
// nothing is changed.
#[unsafe(no_mangle)]
pub extern "C" fn rf_allocator_insert(
    tree: &mut [u16],
    owners: &mut [u8],
    base: usize,
    from: usize,
    to: usize,
    frame: &mut usize,
) -> u32
    ensures { InsertCode base tree.old owners.old from to tree.new owners.new frame.old frame.new result }
{
    match allocator_pool::insert(tree, owners, base, from, to) {
        Ok(()) => RF_DONE,
        Err(NotInserted::TooHigh) => RF_TOO_HIGH,
        Err(NotInserted::No(why)) => reason_codes::not_changed(why, frame),
    }
}

// Reserves the frames from `from` up to `to`; the first one that a client owns is written, and then
// nothing is changed.
#[unsafe(no_mangle)]
pub extern "C" fn rf_allocator_remove(
    tree: &mut [u16],
    owners: &mut [u8],
    base: usize,
    from: usize,
    to: usize,
    frame: &mut usize,
) -> u32
    ensures { RemoveCode base tree.old owners.old from to tree.new owners.new frame.old frame.new result }
{
    match allocator_pool::remove(tree, owners, base, from, to) {
        Ok(()) => RF_DONE,
        Err(why) => reason_codes::not_changed(why, frame),
    }
}

// Makes every frame of the client free.
#[unsafe(no_mangle)]
pub extern "C" fn rf_allocator_release_all(
    tree: &mut [u16],
    owners: &mut [u8],
    base: usize,
    client: u8,
) -> u32
    ensures { ReleaseCode base tree.old owners.old client tree.new owners.new result }
{
    match allocator_pool::release_all(tree, owners, base, client) {
        Ok(()) => RF_DONE,
        Err(BadClient::NoClient) => RF_NO_CLIENT,
        Err(BadClient::Unfit(why)) => reason_codes::unfit(why),
    }
}
