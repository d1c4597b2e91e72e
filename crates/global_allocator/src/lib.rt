// The shared allocator, as its clients use it: frames are given and given back. It is three things that
// the caller keeps together: a tree of bits, one byte a frame for its owner, and the base, the address of
// frame 0. What the monitor does with all of them is allocator_pool's.
//
// Every function takes any words, any bytes and any arguments. What cannot be met is refused with the
// first reason that applies, and every word and byte is left as it was. What a success says of the
// frames holds for any memories; what is exact, "the lowest" and "no room", holds where they are
// `Accounted`, as they are from `init` on. `Corrupt` is answered only where they are not.
#![tactic(auto)]

ghost use Rattle.std.specs.Prelude.{◌≡◌};
ghost use Rattle.global_allocator.specs.Addresses.{no_fid, FidSays, PaddrSays};
ghost use Rattle.global_allocator.specs.Changes.{AllocSays, RunSays, DeallocSays, DeallocRunSays};

use claims::{NoFrame, NoRun, NotAFrame, NotFreed, RunNotFreed};

// Why an address has no frame's number.
#[derive(Clone, Copy, Debug, PartialEq, Eq)]
pub enum NoFid {
    // The base is no multiple of 4096.
    BadBase,
    // The address is below the base.
    Below,
    // The address is not the first of a frame.
    NotAtFrame,
}

impl From<NotAFrame> for NoFid {
    ghost from_gives = { λ why e. e ≡ no_fid why };

    fn from(why: NotAFrame) -> NoFid {
        match why {
            NotAFrame::Below => NoFid::Below,
            NotAFrame::NotAtFrame => NoFid::NotAtFrame,
        }
    }
}

// Why a frame has no address.
#[derive(Clone, Copy, Debug, PartialEq, Eq)]
pub enum NoPaddr {
    // The base is no multiple of 4096.
    BadBase,
    // The address would pass 2^64 - 1.
    TooHigh,
}

// The number of the frame at an address.
pub fn paddr_to_fid(base: usize, addr: usize) -> Result<usize, NoFid>
    ensures { FidSays base addr result }
{
    if base % 4096 != 0 {
        return Err(NoFid::BadBase);
    }
    Ok(claims::number_at(base, addr)?)
}

// The address of frame k.
pub fn fid_to_paddr(base: usize, k: usize) -> Result<usize, NoPaddr>
    ensures { PaddrSays base k result }
{
    if base % 4096 != 0 {
        return Err(NoPaddr::BadBase);
    }
    if (18446744073709551615 - base) / 4096 < k {
        return Err(NoPaddr::TooHigh);
    }
    Ok(base + 4096 * k)
}

// Gives the client c the lowest free frame, and answers its address.
#[tactic(auto, using(crate::proofs::Writes::gave))]
pub fn alloc(tree: &mut [u16], owners: &mut [u8], base: usize, c: u8) -> Result<usize, NoFrame>
    ensures { AllocSays base tree.old owners.old c tree.new owners.new result }
{
    let k = claims::find_frame(tree, owners, base, c)?;
    owners::assign_one(tree, owners, k, 0, c);
    Ok(base + 4096 * k)
}

// Gives the client c the lowest run of `size` free frames whose first is a multiple of 2 to the power of
// `align_log2`, and answers the first one's address.
pub fn alloc_contiguous(
    tree: &mut [u16],
    owners: &mut [u8],
    base: usize,
    c: u8,
    size: usize,
    align_log2: usize,
) -> Result<usize, NoRun>
    ensures { RunSays base tree.old owners.old c size align_log2 tree.new owners.new result }
{
    let s = claims::find_run(tree, owners, base, c, size, align_log2)?;
    owners::assign(tree, owners, s, s + size, 0, c);
    Ok(base + 4096 * s)
}

// The client c gives back the frame at an address.
#[tactic(auto, using(crate::proofs::Writes::freed))]
pub fn dealloc(
    tree: &mut [u16],
    owners: &mut [u8],
    base: usize,
    c: u8,
    addr: usize,
) -> Result<(), NotFreed>
    ensures { DeallocSays base tree.old owners.old c addr tree.new owners.new result }
{
    let k = claims::may_free(tree, owners, base, c, addr)?;
    owners::assign_one(tree, owners, k, 1, 255);
    Ok(())
}

// The client c gives back the `count` frames from an address on, all or none.
pub fn dealloc_contiguous(
    tree: &mut [u16],
    owners: &mut [u8],
    base: usize,
    c: u8,
    addr: usize,
    count: usize,
) -> Result<(), RunNotFreed>
    ensures { DeallocRunSays base tree.old owners.old c addr count tree.new owners.new result }
{
    let k = claims::may_free_run(tree, owners, base, c, addr, count)?;
    owners::assign(tree, owners, k, k + count, 1, 255);
    Ok(())
}
