// What may be asked of the shared allocator, and why not: whether the memories fit, which frames an
// allocation would give, and whether a client may give frames back. Nothing is changed here, and
// nothing is demanded of the caller.
#![tactic(auto)]

ghost use Rattle.std.specs.Prelude.{◌≡◌};
ghost use Rattle.claims.specs.declared.NoFrame.{NoFrame};
ghost use Rattle.claims.specs.declared.NoRun.{NoRun};
ghost use Rattle.claims.specs.declared.NotFreed.{NotFreed};
ghost use Rattle.claims.specs.declared.RunNotFreed.{RunNotFreed};
ghost use Rattle.claims.specs.declared.NotChanged.{NotChanged};
ghost use Rattle.claims.specs.Fits.{FitSays};
ghost use Rattle.claims.specs.Offers.{no_frame, OfferSays, no_run, OfferRunSays};
ghost use Rattle.claims.specs.Returns.{NumberSays, not_freed, run_not_freed, MayFreeSays, MayFreeRunSays, MayChangeSays};

use bitmap_search::Missed;

// Why memories and a base are not an allocator's.
#[derive(Clone, Copy, Debug, PartialEq, Eq)]
pub enum Unfit {
    // The tree's words are no full tree.
    NotFull,
    // There are not as many bytes of owners as frames.
    Unmatched,
    // The base is no multiple of 4096.
    BadBase,
}

// Why no frame is given.
#[derive(Clone, Copy, Debug, PartialEq, Eq)]
pub enum NoFrame {
    Unfit(Unfit),
    // Clients are numbered 0 to 63. Each enum below that has this variant means the same by it.
    NoClient,
    // No frame is free.
    NoRoom,
    // A summary or a frame was met that is not in order.
    Corrupt,
}

impl From<Unfit> for NoFrame {
    ghost from_gives = { λ why e. e ≡ NoFrame.Unfit why };

    fn from(why: Unfit) -> NoFrame {
        NoFrame::Unfit(why)
    }
}

impl From<Missed> for NoFrame {
    ghost from_gives = { λ why e. e ≡ no_frame why };

    fn from(why: Missed) -> NoFrame {
        match why {
            Missed::Nothing => NoFrame::NoRoom,
            Missed::Corrupt => NoFrame::Corrupt,
        }
    }
}

// Why no run of frames is given.
#[derive(Clone, Copy, Debug, PartialEq, Eq)]
pub enum NoRun {
    Unfit(Unfit),
    NoClient,
    // A run of no frame was asked for.
    Empty,
    // There is no such run of free frames.
    NoRoom,
    // A summary or a frame was met that is not in order.
    Corrupt,
}

impl From<Unfit> for NoRun {
    ghost from_gives = { λ why e. e ≡ NoRun.Unfit why };

    fn from(why: Unfit) -> NoRun {
        NoRun::Unfit(why)
    }
}

impl From<Missed> for NoRun {
    ghost from_gives = { λ why e. e ≡ no_run why };

    fn from(why: Missed) -> NoRun {
        match why {
            Missed::Nothing => NoRun::NoRoom,
            Missed::Corrupt => NoRun::Corrupt,
        }
    }
}

// Why no frame is at an address.
#[derive(Clone, Copy, Debug, PartialEq, Eq)]
pub enum NotAFrame {
    // The address is below the base.
    Below,
    // The address is not the first of a frame.
    NotAtFrame,
}

// Why a frame can't be given back.
#[derive(Clone, Copy, Debug, PartialEq, Eq)]
pub enum NotFreed {
    Unfit(Unfit),
    NoClient,
    Below,
    NotAtFrame,
    // There is no such frame. Each enum below that has this variant means the same by it.
    Outside,
    // The frame is free.
    NotTaken,
    // The frame is another's, or reserved.
    NotYours,
}

impl From<Unfit> for NotFreed {
    ghost from_gives = { λ why e. e ≡ NotFreed.Unfit why };

    fn from(why: Unfit) -> NotFreed {
        NotFreed::Unfit(why)
    }
}

impl From<NotAFrame> for NotFreed {
    ghost from_gives = { λ why e. e ≡ not_freed why };

    fn from(why: NotAFrame) -> NotFreed {
        match why {
            NotAFrame::Below => NotFreed::Below,
            NotAFrame::NotAtFrame => NotFreed::NotAtFrame,
        }
    }
}

// Why a run of frames can't be given back.
#[derive(Clone, Copy, Debug, PartialEq, Eq)]
pub enum RunNotFreed {
    Unfit(Unfit),
    NoClient,
    Below,
    NotAtFrame,
    // The run has no frame.
    Empty,
    Outside,
    // The first frame of the run that is not the client's is free.
    NotTaken(usize),
    // The first frame of the run that is not the client's is another's, or reserved.
    NotYours(usize),
}

impl From<Unfit> for RunNotFreed {
    ghost from_gives = { λ why e. e ≡ RunNotFreed.Unfit why };

    fn from(why: Unfit) -> RunNotFreed {
        RunNotFreed::Unfit(why)
    }
}

impl From<NotAFrame> for RunNotFreed {
    ghost from_gives = { λ why e. e ≡ run_not_freed why };

    fn from(why: NotAFrame) -> RunNotFreed {
        match why {
            NotAFrame::Below => RunNotFreed::Below,
            NotAFrame::NotAtFrame => RunNotFreed::NotAtFrame,
        }
    }
}

// Why a range of frames can't be made free or reserved.
#[derive(Clone, Copy, Debug, PartialEq, Eq)]
pub enum NotChanged {
    Unfit(Unfit),
    // It ends where it starts.
    Empty,
    // It ends before it starts.
    Reversed,
    Outside,
    // The first frame of the range that a client owns.
    Taken(usize),
}

impl From<Unfit> for NotChanged {
    ghost from_gives = { λ why e. e ≡ NotChanged.Unfit why };

    fn from(why: Unfit) -> NotChanged {
        NotChanged::Unfit(why)
    }
}

// Whether the memories and the base are an allocator's.
#[tactic(auto, using(bitmap_tree::proofs::Fullness::full_bound))]
pub fn fitting(tree: &[u16], owners: &[u8], base: usize) -> Result<(), Unfit>
    ensures { FitSays base tree.now owners.now result }
{
    let w = tree.len();
    if !bitmap_tree::is_full(w) {
        return Err(Unfit::NotFull);
    }
    if owners.len() != 15 * w + 1 {
        return Err(Unfit::Unmatched);
    }
    if base % 4096 != 0 {
        return Err(Unfit::BadBase);
    }
    Ok(())
}

// The lowest free frame, for the client c.
#[tactic(auto, using(crate::proofs::Offers::none_free))]
pub fn find_frame(tree: &[u16], owners: &[u8], base: usize, c: u8) -> Result<usize, NoFrame>
    ensures { OfferSays base tree.now owners.now c result }
{
    fitting(tree, owners, base)?;
    if c >= 64 {
        return Err(NoFrame::NoClient);
    }
    let k = bitmap_search::lowest(tree)?;
    if !owner_passes::placed(base, k) {
        return Err(NoFrame::Corrupt);
    }
    Ok(k)
}

// The lowest run of `size` free frames whose first is a multiple of 2 to the power of `align_log2`, for
// the client c.
#[tactic(auto, using(bitmap_tree::proofs::Fullness::full_bound))]
pub fn find_run(
    tree: &[u16],
    owners: &[u8],
    base: usize,
    c: u8,
    size: usize,
    align_log2: usize,
) -> Result<usize, NoRun>
    ensures { OfferRunSays base tree.now owners.now c size align_log2 result }
{
    fitting(tree, owners, base)?;
    if c >= 64 {
        return Err(NoRun::NoClient);
    }
    if size == 0 {
        return Err(NoRun::Empty);
    }
    let s = bitmap_runs::find_run(tree, size, align_log2)?;
    if !owner_passes::placed(base, s + size - 1) {
        return Err(NoRun::Corrupt);
    }
    Ok(s)
}

// The number of the frame at an address.
pub fn number_at(base: usize, addr: usize) -> Result<usize, NotAFrame>
    ensures { NumberSays base addr result }
{
    if addr < base {
        return Err(NotAFrame::Below);
    }
    if (addr - base) % 4096 != 0 {
        return Err(NotAFrame::NotAtFrame);
    }
    Ok((addr - base) / 4096)
}

// Whether the client c may give back the frame at an address, and its number.
#[tactic(auto, using(bitmap_tree::proofs::Fullness::full_bound, owners::proofs::States::free_state))]
pub fn may_free(
    tree: &[u16],
    owners: &[u8],
    base: usize,
    c: u8,
    addr: usize,
) -> Result<usize, NotFreed>
    ensures { MayFreeSays base tree.now owners.now c addr result }
{
    fitting(tree, owners, base)?;
    if c >= 64 {
        return Err(NotFreed::NoClient);
    }
    let k = number_at(base, addr)?;
    if k >= owners.len() {
        return Err(NotFreed::Outside);
    }
    if bitmap_tree::read(tree, tree.len() + k) == 1 {
        return Err(NotFreed::NotTaken);
    }
    if owners[k] != c {
        return Err(NotFreed::NotYours);
    }
    Ok(k)
}

// Whether the client c may give back the `count` frames from an address on, and the number of the first.
#[tactic(auto, using(bitmap_tree::proofs::Fullness::full_bound, owners::proofs::States::free_state))]
pub fn may_free_run(
    tree: &[u16],
    owners: &[u8],
    base: usize,
    c: u8,
    addr: usize,
    count: usize,
) -> Result<usize, RunNotFreed>
    ensures { MayFreeRunSays base tree.now owners.now c addr count result }
{
    fitting(tree, owners, base)?;
    if c >= 64 {
        return Err(RunNotFreed::NoClient);
    }
    let k = number_at(base, addr)?;
    if count == 0 {
        return Err(RunNotFreed::Empty);
    }
    let all = owners.len();
    if k >= all || all - k < count {
        return Err(RunNotFreed::Outside);
    }
    let r = owners::owned_until(tree, owners, k, k + count, c);
    if r == k + count {
        return Ok(k);
    }
    if bitmap_tree::read(tree, tree.len() + r) == 1 {
        return Err(RunNotFreed::NotTaken(r));
    }
    Err(RunNotFreed::NotYours(r))
}

// Whether the frames from `from` up to `to` may be made free or reserved: no client owns one.
pub fn may_change(
    tree: &[u16],
    owners: &[u8],
    base: usize,
    from: usize,
    to: usize,
) -> Result<(), NotChanged>
    ensures { MayChangeSays base tree.now owners.now from to result }
{
    fitting(tree, owners, base)?;
    if from == to {
        return Err(NotChanged::Empty);
    }
    if to < from {
        return Err(NotChanged::Reversed);
    }
    if owners.len() < to {
        return Err(NotChanged::Outside);
    }
    let r = owners::unowned_until(tree, owners, from, to);
    if r != to {
        return Err(NotChanged::Taken(r));
    }
    Ok(())
}
