// The functions of the shared allocator with contents that programs in other languages link: numbers,
// and pointers with lengths. Each answers 0 or a reason, and writes its value through the last pointer,
// which a refusal that names no frame leaves alone. Nothing is demanded of the caller beyond the types.
#![tactic(auto)]

ghost use Rattle.replayframes_frames.specs.Frames.{InitCode, AllocCode, RunCode, DeallocCode, DeallocRunCode, InsertCode, RemoveCode, ReleaseCode, CheckCode};

use codes::{
    RF_BEYOND, RF_CORRUPT, RF_DIRTY, RF_DONE, RF_NO_CLIENT, RF_TOO_HIGH, RF_UNBACKED, RF_WRONG,
};
use frames::{NotGiven, NotReturned};
use frames_pool::{NotBegun, NotClosed, NotLeft, NotOpened, Unclean};

// Makes the frames with contents free and empty, and all others reserved, whatever the memories held.
#[unsafe(no_mangle)]
pub extern "C" fn rf_frames_init(
    tree: &mut [u16],
    owners: &mut [u8],
    words: &mut [u64],
    base: usize,
) -> u32
    ensures { InitCode base tree.old owners.old words.old tree.new owners.new words.new result }
{
    match frames_pool::init(tree, owners, words, base) {
        Ok(()) => RF_DONE,
        Err(NotBegun::Unbacked) => RF_UNBACKED,
        Err(NotBegun::TooHigh) => RF_TOO_HIGH,
        Err(NotBegun::Unfit(why)) => reason_codes::unfit(why),
    }
}

// Gives the client the lowest free frame, which is empty, and writes its address.
#[unsafe(no_mangle)]
pub extern "C" fn rf_frames_alloc(
    tree: &mut [u16],
    owners: &mut [u8],
    words: &[u64],
    base: usize,
    client: u8,
    addr: &mut usize,
) -> u32
    ensures { AllocCode base tree.old owners.old words.now client tree.new owners.new addr.old addr.new result }
{
    match frames::alloc(tree, owners, words, base, client) {
        Ok(at) => {
            *addr = at;
            RF_DONE
        }
        Err(NotGiven::Unbacked) => RF_UNBACKED,
        Err(NotGiven::No(why)) => reason_codes::no_frame(why),
    }
}

// Gives the client the lowest run of `size` free frames whose first is a multiple of 2 to the power of
// `align_log2`; all are empty, and the address is written.
#[unsafe(no_mangle)]
pub extern "C" fn rf_frames_alloc_contiguous(
    tree: &mut [u16],
    owners: &mut [u8],
    words: &[u64],
    base: usize,
    client: u8,
    size: usize,
    align_log2: usize,
    addr: &mut usize,
) -> u32
    ensures { RunCode base tree.old owners.old words.now client size align_log2 tree.new owners.new addr.old addr.new result }
{
    match frames::alloc_contiguous(tree, owners, words, base, client, size, align_log2) {
        Ok(at) => {
            *addr = at;
            RF_DONE
        }
        Err(NotGiven::Unbacked) => RF_UNBACKED,
        Err(NotGiven::No(why)) => reason_codes::no_run(why),
    }
}

// The client gives back the frame at an address, which is cleared first.
#[unsafe(no_mangle)]
pub extern "C" fn rf_frames_dealloc(
    tree: &mut [u16],
    owners: &mut [u8],
    words: &mut [u64],
    base: usize,
    client: u8,
    addr: usize,
) -> u32
    ensures { DeallocCode base tree.old owners.old words.old client addr tree.new owners.new words.new result }
{
    match frames::dealloc(tree, owners, words, base, client, addr) {
        Ok(()) => RF_DONE,
        Err(NotReturned::Unbacked) => RF_UNBACKED,
        Err(NotReturned::Corrupt) => RF_CORRUPT,
        Err(NotReturned::No(why)) => reason_codes::not_freed(why),
    }
}

// The client gives back the `count` frames from an address on, all or none, cleared first; the first
// frame that is not its own is written.
#[unsafe(no_mangle)]
pub extern "C" fn rf_frames_dealloc_contiguous(
    tree: &mut [u16],
    owners: &mut [u8],
    words: &mut [u64],
    base: usize,
    client: u8,
    addr: usize,
    count: usize,
    frame: &mut usize,
) -> u32
    ensures { DeallocRunCode base tree.old owners.old words.old client addr count tree.new owners.new words.new frame.old frame.new result }
{
    match frames::dealloc_contiguous(tree, owners, words, base, client, addr, count) {
        Ok(()) => RF_DONE,
        Err(NotReturned::Unbacked) => RF_UNBACKED,
        Err(NotReturned::Corrupt) => RF_CORRUPT,
        Err(NotReturned::No(why)) => reason_codes::run_not_freed(why, frame),
    }
}

// Makes the frames from `from` up to `to` free and empty; the first one that a client owns is written,
// and then nothing is changed.
#[unsafe(no_mangle)]
pub extern "C" fn rf_frames_insert(
    tree: &mut [u16],
    owners: &mut [u8],
    words: &mut [u64],
    base: usize,
    from: usize,
    to: usize,
    frame: &mut usize,
) -> u32
    ensures { InsertCode base tree.old owners.old words.old from to tree.new owners.new words.new frame.old frame.new result }
{
    match frames_pool::insert(tree, owners, words, base, from, to) {
        Ok(()) => RF_DONE,
        Err(NotOpened::Unbacked) => RF_UNBACKED,
        Err(NotOpened::TooHigh) => RF_TOO_HIGH,
        Err(NotOpened::Beyond) => RF_BEYOND,
        Err(NotOpened::No(why)) => reason_codes::not_changed(why, frame),
    }
}

// Reserves the frames from `from` up to `to`; the first one that a client owns is written, and then
// nothing is changed.
#[unsafe(no_mangle)]
pub extern "C" fn rf_frames_remove(
    tree: &mut [u16],
    owners: &mut [u8],
    words: &[u64],
    base: usize,
    from: usize,
    to: usize,
    frame: &mut usize,
) -> u32
    ensures { RemoveCode base tree.old owners.old words.now from to tree.new owners.new frame.old frame.new result }
{
    match frames_pool::remove(tree, owners, words, base, from, to) {
        Ok(()) => RF_DONE,
        Err(NotClosed::Unbacked) => RF_UNBACKED,
        Err(NotClosed::No(why)) => reason_codes::not_changed(why, frame),
    }
}

// Makes every frame of the client free; they are cleared first.
#[unsafe(no_mangle)]
pub extern "C" fn rf_frames_release_all(
    tree: &mut [u16],
    owners: &mut [u8],
    words: &mut [u64],
    base: usize,
    client: u8,
) -> u32
    ensures { ReleaseCode base tree.old owners.old words.old client tree.new owners.new words.new result }
{
    match frames_pool::release_all(tree, owners, words, base, client) {
        Ok(()) => RF_DONE,
        Err(NotLeft::Unbacked) => RF_UNBACKED,
        Err(NotLeft::Corrupt) => RF_CORRUPT,
        Err(NotLeft::NoClient) => RF_NO_CLIENT,
        Err(NotLeft::Unfit(why)) => reason_codes::unfit(why),
    }
}

// Whether the memories are an allocator's and clean; where not, the word of the tree that lies or the
// frame at fault is written.
#[unsafe(no_mangle)]
pub extern "C" fn rf_frames_check(
    tree: &[u16],
    owners: &[u8],
    words: &[u64],
    base: usize,
    at: &mut usize,
) -> u32
    ensures { CheckCode base tree.now owners.now words.now at.old at.new result }
{
    match frames_pool::check(tree, owners, words, base) {
        Ok(()) => RF_DONE,
        Err(Unclean::Unbacked) => RF_UNBACKED,
        Err(Unclean::Lie(p)) => {
            *at = p;
            RF_CORRUPT
        }
        Err(Unclean::Wrong(k)) => {
            *at = k;
            RF_WRONG
        }
        Err(Unclean::Beyond(k)) => {
            *at = k;
            RF_BEYOND
        }
        Err(Unclean::Dirty(k)) => {
            *at = k;
            RF_DIRTY
        }
        Err(Unclean::Unfit(why)) => reason_codes::unfit(why),
    }
}
