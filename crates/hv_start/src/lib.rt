// The start: a configuration and lent memories become a monitor's. The memories are, in this order: the
// table of the configuration, the machines' words, the tree, the owners and the frames' own words. They
// may hold anything.
//
// The configuration and every length are looked at first. What is not as it must be is refused with the
// first reason that applies, and every word and byte is left. Else all of the memories are written: no
// machine is there and every set is empty, and the frames with words are free and cleared.
#![tactic(auto)]

ghost use Rattle.std.specs.Prelude.{◌≡◌};
ghost use Rattle.config.specs.Checking.{IsRight};
ghost use Rattle.hv_state.specs.Serving.{mem};
ghost use Rattle.hv_start.specs.Starting.{RoomSays, FramesSays, MayStartSays, StartSays};
ghost use Rattle.hv_start.specs.declared.BadFrames.{BadFrames};
ghost use Rattle.hv_start.specs.declared.NotStarted.{NotStarted};

use claims::Unfit;
use config_rules::Reason;
use config_view::View;

// Why the machines' words are not those of a configuration.
#[derive(Clone, Copy, Debug, PartialEq, Eq)]
pub enum BadZones {
    // They are not as many as any number of slots gives its machines.
    Wrong,
    // The machine is the first that has more regions than a set has slots.
    FewSlots(usize),
}

// Why the tree, the owners and the frames' words are not those of a configuration.
#[derive(Clone, Copy, Debug, PartialEq, Eq)]
pub enum BadFrames {
    Unfit(Unfit),
    // The words are not those of whole frames, or of more than there are.
    Unbacked,
    // The allocator's region has more pages than the tree has frames.
    FewFrames,
    // More frames have words than the allocator's region has pages.
    FewPages,
}

// Why nothing was started.
#[derive(Clone, Copy, Debug, PartialEq, Eq)]
pub enum NotStarted {
    // The words are not as many as a table has.
    NoTable,
    Config(Reason),
    Zones(BadZones),
    Frames(BadFrames),
}

impl From<Unfit> for BadFrames {
    ghost from_gives = { λ why e. e ≡ BadFrames.Unfit why };

    fn from(why: Unfit) -> BadFrames {
        Self::Unfit(why)
    }
}

impl From<Reason> for NotStarted {
    ghost from_gives = { λ why e. e ≡ NotStarted.Config why };

    fn from(why: Reason) -> NotStarted {
        Self::Config(why)
    }
}

impl From<BadZones> for NotStarted {
    ghost from_gives = { λ why e. e ≡ NotStarted.Zones why };

    fn from(why: BadZones) -> NotStarted {
        Self::Zones(why)
    }
}

impl From<BadFrames> for NotStarted {
    ghost from_gives = { λ why e. e ≡ NotStarted.Frames why };

    fn from(why: BadFrames) -> NotStarted {
        Self::Frames(why)
    }
}

// Whether the machines' words are exactly those of the n machines, with room for what each is given.
fn zones_fit(bytes: &[u8], zones: &[u64], n: usize) -> Result<(), BadZones>
    requires { IsRight bytes.now n }
    ensures { RoomSays bytes.now zones.now result }
{
    let Some(slots) = zones::measure(zones, n) else {
        return Err(BadZones::Wrong);
    };
    match start_sizes::first_crowded(&View::Bytes(bytes), slots) {
        Some(m) => Err(BadZones::FewSlots(m)),
        None => Ok(()),
    }
}

// Where the allocator's frames begin, if the tree, the owners and the frames' words are those of its region.
#[tactic(auto, using(crate::proofs::Sizes::unfit))]
fn frames_fit(
    bytes: &[u8],
    tree: &[u16],
    owners: &[u8],
    words: &[u64],
    n: usize,
) -> Result<usize, BadFrames>
    requires { IsRight bytes.now n }
    ensures { FramesSays bytes.now tree.now owners.now words.now result }
{
    let pool = View::Bytes(bytes).pool();
    claims::fitting(tree, owners, pool.host as usize)?;
    if !contents::is_backed(owners, words) {
        return Err(BadFrames::Unbacked);
    }
    if (owners.len() as u64) < pool.pages {
        return Err(BadFrames::FewFrames);
    }
    if pool.pages < (words.len() / 512) as u64 {
        return Err(BadFrames::FewPages);
    }
    Ok(pool.host as usize)
}

// Where the allocator's frames begin, if the configuration and all lengths are as they must be.
fn may_start(
    bytes: &[u8],
    table: &[u64],
    zones: &[u64],
    tree: &[u16],
    owners: &[u8],
    words: &[u64],
) -> Result<usize, NotStarted>
    ensures { MayStartSays bytes.now (mem table.now zones.now tree.now owners.now words.now) result }
{
    if table.len() != 8325 {
        return Err(NotStarted::NoTable);
    }
    let n = config::check(bytes)?;
    zones_fit(bytes, zones, n)?;
    Ok(frames_fit(bytes, tree, owners, words, n)?)
}

// Starts a monitor: whatever the memories held, they are those of the configuration, with no machine.
pub fn start(
    bytes: &[u8],
    table: &mut [u64],
    zones: &mut [u64],
    tree: &mut [u16],
    owners: &mut [u8],
    words: &mut [u64],
) -> Result<(), NotStarted>
    ensures { StartSays bytes.now (mem table.old zones.old tree.old owners.old words.old) (mem table.new zones.new tree.new owners.new words.new) result }
{
    let base = may_start(bytes, table, zones, tree, owners, words)?;
    // The load and the beginning below succeed, by what `may_start` found.
    let _ = config::load(bytes, table);
    zones.fill(0);
    let _ = frames_pool::init(tree, owners, words, base);
    Ok(())
}
