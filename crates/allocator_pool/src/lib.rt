// The shared allocator, as the monitor keeps it: it is started, frames enter and leave the pool, all of a
// client's are released, and it can be looked at. It is three things that the caller keeps together: a
// tree of bits, one byte a frame for its owner, and the base, the address of frame 0.
//
// Every function takes any words, any bytes and any arguments. What cannot be met is refused with the
// first reason that applies, and every word and byte is left as it was. `check` decides, from any bytes,
// whether the memories are `Accounted`.
#![tactic(auto)]

ghost use Rattle.std.specs.Prelude.{◌≡◌};
ghost use Rattle.allocator_pool.specs.declared.NoState.{NoState};
ghost use Rattle.allocator_pool.specs.declared.BadClient.{BadClient};
ghost use Rattle.allocator_pool.specs.declared.Unaccounted.{Unaccounted};
ghost use Rattle.allocator_pool.specs.declared.NotStarted.{NotStarted};
ghost use Rattle.allocator_pool.specs.declared.NotInserted.{NotInserted};
ghost use Rattle.allocator_pool.specs.Looks.{OwnerSays, CountSays, CheckSays};
ghost use Rattle.allocator_pool.specs.Changes.{InitSays, InsertSays, RemoveSays, ReleaseSays};

use claims::{NotChanged, Unfit};

// What a frame is.
#[derive(Clone, Copy, Debug, PartialEq, Eq)]
pub enum FrameState {
    Free,
    Reserved,
    Client(u8),
}

// Why it is not said what a frame is.
#[derive(Clone, Copy, Debug, PartialEq, Eq)]
pub enum NoState {
    // There is no such frame.
    Outside,
    Unfit(Unfit),
}

impl From<Unfit> for NoState {
    ghost from_gives = { λ why e. e ≡ NoState.Unfit why };

    fn from(why: Unfit) -> NoState {
        NoState::Unfit(why)
    }
}

// Why a client's frames are neither counted nor released.
#[derive(Clone, Copy, Debug, PartialEq, Eq)]
pub enum BadClient {
    // Clients are numbered 0 to 63.
    NoClient,
    Unfit(Unfit),
}

impl From<Unfit> for BadClient {
    ghost from_gives = { λ why e. e ≡ BadClient.Unfit why };

    fn from(why: Unfit) -> BadClient {
        BadClient::Unfit(why)
    }
}

// Why memories are not an allocator's.
#[derive(Clone, Copy, Debug, PartialEq, Eq)]
pub enum Unaccounted {
    // The lowest word of the tree with a bit that does not agree with the word that it summarises.
    Lie(usize),
    // The lowest frame whose bit and byte are not in order.
    Wrong(usize),
    Unfit(Unfit),
}

impl From<Unfit> for Unaccounted {
    ghost from_gives = { λ why e. e ≡ Unaccounted.Unfit why };

    fn from(why: Unfit) -> Unaccounted {
        Unaccounted::Unfit(why)
    }
}

// Why memories are not made an allocator's.
#[derive(Clone, Copy, Debug, PartialEq, Eq)]
pub enum NotStarted {
    // There are not so many frames.
    TooMany,
    // The last of them would end past 2^64 - 1.
    TooHigh,
    Unfit(Unfit),
}

impl From<Unfit> for NotStarted {
    ghost from_gives = { λ why e. e ≡ NotStarted.Unfit why };

    fn from(why: Unfit) -> NotStarted {
        NotStarted::Unfit(why)
    }
}

// Why a range of frames is not made free.
#[derive(Clone, Copy, Debug, PartialEq, Eq)]
pub enum NotInserted {
    // The last frame would end past 2^64 - 1.
    TooHigh,
    No(NotChanged),
}

impl From<NotChanged> for NotInserted {
    ghost from_gives = { λ why e. e ≡ NotInserted.No why };

    fn from(why: NotChanged) -> NotInserted {
        NotInserted::No(why)
    }
}

// What frame k is.
#[tactic(auto, using(bitmap_tree::proofs::Fullness::full_bound, owners::proofs::States::free_state))]
pub fn owner(tree: &[u16], owners: &[u8], base: usize, k: usize) -> Result<FrameState, NoState>
    ensures { OwnerSays base tree.now owners.now k result }
{
    claims::fitting(tree, owners, base)?;
    if k >= owners.len() {
        return Err(NoState::Outside);
    }
    if bitmap_tree::read(tree, tree.len() + k) == 1 {
        return Ok(FrameState::Free);
    }
    let c = owners[k];
    if c >= 64 {
        return Ok(FrameState::Reserved);
    }
    Ok(FrameState::Client(c))
}

// How many frames the client c owns.
pub fn owned_count(tree: &[u16], owners: &[u8], base: usize, c: u8) -> Result<usize, BadClient>
    ensures { CountSays base tree.now owners.now c result }
{
    claims::fitting(tree, owners, base)?;
    if c < 64 {
        Ok(owner_passes::count(tree, owners, c))
    } else {
        Err(BadClient::NoClient)
    }
}

// Whether the memories are an allocator's whose frames begin at the base, and where not.
#[tactic(auto, using(bitmap_tree::proofs::Fullness::full_bound, bitmap_looks::proofs::Answers::lowest_lie))]
pub fn check(tree: &[u16], owners: &[u8], base: usize) -> Result<(), Unaccounted>
    ensures { CheckSays base tree.now owners.now result }
{
    claims::fitting(tree, owners, base)?;
    let p = bitmap_tree::first_lie(tree);
    if p != (tree.len() - 1) / 16 {
        return Err(Unaccounted::Lie(p));
    }
    let k = owner_passes::right_until(tree, owners, base);
    if k != owners.len() {
        return Err(Unaccounted::Wrong(k));
    }
    Ok(())
}

// Makes the frames below n free and all others reserved, whatever the memories held.
pub fn init(tree: &mut [u16], owners: &mut [u8], base: usize, n: usize) -> Result<(), NotStarted>
    ensures { InitSays base tree.old owners.old n tree.new owners.new result }
{
    claims::fitting(tree, owners, base)?;
    if owners.len() < n {
        return Err(NotStarted::TooMany);
    }
    if (18446744073709551615 - base) / 4096 < n {
        return Err(NotStarted::TooHigh);
    }
    owner_passes::begin(tree, owners, n);
    Ok(())
}

// Makes the frames from `from` up to `to` free, none of which a client owns.
pub fn insert(
    tree: &mut [u16],
    owners: &mut [u8],
    base: usize,
    from: usize,
    to: usize,
) -> Result<(), NotInserted>
    ensures { InsertSays base tree.old owners.old from to tree.new owners.new result }
{
    claims::may_change(tree, owners, base, from, to)?;
    if (18446744073709551615 - base) / 4096 < to {
        return Err(NotInserted::TooHigh);
    }
    owners::assign(tree, owners, from, to, 1, 255);
    Ok(())
}

// Reserves the frames from `from` up to `to`, none of which a client owns.
pub fn remove(
    tree: &mut [u16],
    owners: &mut [u8],
    base: usize,
    from: usize,
    to: usize,
) -> Result<(), NotChanged>
    ensures { RemoveSays base tree.old owners.old from to tree.new owners.new result }
{
    claims::may_change(tree, owners, base, from, to)?;
    owners::assign(tree, owners, from, to, 0, 255);
    Ok(())
}

// Makes every frame of the client c free.
pub fn release_all(tree: &mut [u16], owners: &mut [u8], base: usize, c: u8) -> Result<(), BadClient>
    ensures { ReleaseSays base tree.old owners.old c tree.new owners.new result }
{
    claims::fitting(tree, owners, base)?;
    if c >= 64 {
        return Err(BadClient::NoClient);
    }
    owner_passes::release(tree, owners, c);
    Ok(())
}
