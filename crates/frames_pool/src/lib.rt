// The shared allocator with the frames' own memory, as the monitor keeps it: it is started, frames enter
// and leave the pool, all of a client's are released, and it can be looked at. Beside the tree, the
// owners and the base, the caller lends exactly 512 words of 64 bits for each frame that may become free;
// the frames behind them are reserved.
//
// Every function takes any words, any bytes and any arguments. What cannot be met is refused with the
// first reason that applies, and every word and byte is left as it was. From `init` on the memories are
// `Clean`, and every operation keeps them so; `check` decides, from any bytes, whether they are.
#![tactic(auto)]

ghost use Rattle.std.specs.Prelude.{◌≡◌};
ghost use Rattle.frames_pool.specs.declared.NotBegun.{NotBegun};
ghost use Rattle.frames_pool.specs.declared.NotOpened.{NotOpened};
ghost use Rattle.frames_pool.specs.declared.NotClosed.{NotClosed};
ghost use Rattle.frames_pool.specs.declared.NotLeft.{NotLeft};
ghost use Rattle.frames_pool.specs.Pool.{InitSays, InsertSays, RemoveSays, ReleaseSays, unclean, CheckSays};

use allocator_pool::Unaccounted;
use claims::{NotChanged, Unfit};

// Why memories are not made an allocator's.
#[derive(Clone, Copy, Debug, PartialEq, Eq)]
pub enum NotBegun {
    // The contents are not those of whole frames, or of more than there are. Each enum below that has
    // this variant means the same by it.
    Unbacked,
    // The last frame with contents would end past 2^64 - 1.
    TooHigh,
    Unfit(Unfit),
}

impl From<Unfit> for NotBegun {
    ghost from_gives = { λ why e. e ≡ NotBegun.Unfit why };

    fn from(why: Unfit) -> NotBegun {
        NotBegun::Unfit(why)
    }
}

// Why a range of frames is not made free.
#[derive(Clone, Copy, Debug, PartialEq, Eq)]
pub enum NotOpened {
    Unbacked,
    // The last frame would end past 2^64 - 1.
    TooHigh,
    // The last frame has no contents.
    Beyond,
    No(NotChanged),
}

impl From<NotChanged> for NotOpened {
    ghost from_gives = { λ why e. e ≡ NotOpened.No why };

    fn from(why: NotChanged) -> NotOpened {
        NotOpened::No(why)
    }
}

// Why a range of frames is not reserved.
#[derive(Clone, Copy, Debug, PartialEq, Eq)]
pub enum NotClosed {
    Unbacked,
    No(NotChanged),
}

impl From<NotChanged> for NotClosed {
    ghost from_gives = { λ why e. e ≡ NotClosed.No why };

    fn from(why: NotChanged) -> NotClosed {
        NotClosed::No(why)
    }
}

// Why a client's frames are not made free.
#[derive(Clone, Copy, Debug, PartialEq, Eq)]
pub enum NotLeft {
    Unbacked,
    // The client owns a frame that has no contents.
    Corrupt,
    // Clients are numbered 0 to 63.
    NoClient,
    Unfit(Unfit),
}

impl From<Unfit> for NotLeft {
    ghost from_gives = { λ why e. e ≡ NotLeft.Unfit why };

    fn from(why: Unfit) -> NotLeft {
        NotLeft::Unfit(why)
    }
}

// Why memories are not an allocator's and clean.
#[derive(Clone, Copy, Debug, PartialEq, Eq)]
pub enum Unclean {
    Unbacked,
    // The lowest word of the tree with a bit that does not agree with the word that it summarises.
    Lie(usize),
    // The lowest frame whose bit and byte are not in order.
    Wrong(usize),
    // The lowest frame without contents that is not reserved.
    Beyond(usize),
    // The lowest free frame that is not empty.
    Dirty(usize),
    Unfit(Unfit),
}

impl From<Unaccounted> for Unclean {
    ghost from_gives = { λ why e. e ≡ unclean why };

    fn from(why: Unaccounted) -> Unclean {
        match why {
            Unaccounted::Lie(p) => Unclean::Lie(p),
            Unaccounted::Wrong(k) => Unclean::Wrong(k),
            Unaccounted::Unfit(why) => Unclean::Unfit(why),
        }
    }
}

// Makes the frames with contents free and empty, and all others reserved, whatever the memories held.
pub fn init(
    tree: &mut [u16],
    owners: &mut [u8],
    words: &mut [u64],
    base: usize,
) -> Result<(), NotBegun>
    ensures { InitSays base tree.old owners.old words.old tree.new owners.new words.new result }
{
    if !contents::is_backed(owners, words) {
        return Err(NotBegun::Unbacked);
    }
    claims::fitting(tree, owners, base)?;
    let n = words.len() / 512;
    if (18446744073709551615 - base) / 4096 < n {
        return Err(NotBegun::TooHigh);
    }
    contents::wipe(words, 0, n);
    owner_passes::begin(tree, owners, n);
    Ok(())
}

// Makes the frames from `from` up to `to` free and empty, none of which a client owns.
pub fn insert(
    tree: &mut [u16],
    owners: &mut [u8],
    words: &mut [u64],
    base: usize,
    from: usize,
    to: usize,
) -> Result<(), NotOpened>
    ensures { InsertSays base tree.old owners.old words.old from to tree.new owners.new words.new result }
{
    if !contents::is_backed(owners, words) {
        return Err(NotOpened::Unbacked);
    }
    claims::may_change(tree, owners, base, from, to)?;
    if (18446744073709551615 - base) / 4096 < to {
        return Err(NotOpened::TooHigh);
    }
    if words.len() / 512 < to {
        return Err(NotOpened::Beyond);
    }
    contents::wipe(words, from, to);
    owners::assign(tree, owners, from, to, 1, 255);
    Ok(())
}

// Reserves the frames from `from` up to `to`, none of which a client owns.
pub fn remove(
    tree: &mut [u16],
    owners: &mut [u8],
    words: &[u64],
    base: usize,
    from: usize,
    to: usize,
) -> Result<(), NotClosed>
    ensures { RemoveSays base tree.old owners.old words.now from to tree.new owners.new result }
{
    if !contents::is_backed(owners, words) {
        return Err(NotClosed::Unbacked);
    }
    Ok(allocator_pool::remove(tree, owners, base, from, to)?)
}

// Makes every frame of the client c free; they are cleared first.
pub fn release_all(
    tree: &mut [u16],
    owners: &mut [u8],
    words: &mut [u64],
    base: usize,
    c: u8,
) -> Result<(), NotLeft>
    ensures { ReleaseSays base tree.old owners.old words.old c tree.new owners.new words.new result }
{
    if !contents::is_backed(owners, words) {
        return Err(NotLeft::Unbacked);
    }
    claims::fitting(tree, owners, base)?;
    if c >= 64 {
        return Err(NotLeft::NoClient);
    }
    if contents::others_until(tree, owners, words.len() / 512, c) != owners.len() {
        return Err(NotLeft::Corrupt);
    }
    contents::wipe_owned(tree, owners, words, c);
    owner_passes::release(tree, owners, c);
    Ok(())
}

// Whether the memories are an allocator's and clean, and where not.
pub fn check(tree: &[u16], owners: &[u8], words: &[u64], base: usize) -> Result<(), Unclean>
    ensures { CheckSays base tree.now owners.now words.now result }
{
    if !contents::is_backed(owners, words) {
        return Err(Unclean::Unbacked);
    }
    allocator_pool::check(tree, owners, base)?;
    let n = words.len() / 512;
    let beyond = contents::reserved_until(tree, owners, n);
    if beyond != owners.len() {
        return Err(Unclean::Beyond(beyond));
    }
    let dirty = contents::clean_until(tree, owners, words);
    if dirty != n {
        return Err(Unclean::Dirty(dirty));
    }
    Ok(())
}
