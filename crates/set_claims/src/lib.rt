// What may be asked of a set in memory, and why not: whether its words are there and its count is one, and
// whether a region may go in. Nothing is changed here, and nothing is demanded of the caller.
#![tactic(auto)]

ghost use Rattle.std.specs.Prelude.{◌≡◌, ◌<◌};
ghost use Rattle.base.specs.Says.{Says};
ghost use Rattle.set_slots.specs.Slots.{Lies, UsedOk};
ghost use Rattle.set_claims.specs.Claims.{SizeSays, MayInsertSays};
ghost use Rattle.set_claims.specs.declared.NotInserted.{NotInserted};

use address::{Fault, Region};

// Why there is no set to work on.
#[derive(Clone, Copy, Debug, PartialEq, Eq)]
pub enum Bad {
    // It does not lie within the words.
    NoSet,
    // Its count is above its slots, or a slot that was met is not right.
    Corrupt,
}

// Why a region does not go in.
#[derive(Clone, Copy, Debug, PartialEq, Eq)]
pub enum NotInserted {
    Bad(Bad),
    // The region is not valid.
    NotValid(Fault),
    // A region of the set has a guest page of it.
    Overlap,
    // All slots are used.
    NoRoom,
}

impl From<Bad> for NotInserted {
    ghost from_gives = { λ why e. e ≡ NotInserted.Bad why };

    fn from(why: Bad) -> NotInserted {
        NotInserted::Bad(why)
    }
}

impl From<Fault> for NotInserted {
    ghost from_gives = { λ fault e. e ≡ NotInserted.NotValid fault };

    fn from(fault: Fault) -> NotInserted {
        NotInserted::NotValid(fault)
    }
}

// How many regions the set has.
pub fn count(words: &[u64], at: usize, slots: usize) -> Result<usize, Bad>
    ensures { SizeSays words.now at slots result }
{
    if !set_slots::lies(words, at, slots) {
        return Err(Bad::NoSet);
    }
    let n = words[at] as usize;
    if slots < n {
        return Err(Bad::Corrupt);
    }
    Ok(n)
}

// Whether slot i is right, if it is one of the first n.
pub fn is_right(words: &[u64], at: usize, n: usize, i: usize) -> bool
    requires { Lies words.now at n }
    ensures { Says result (i < n → UsedOk words.now at i) }
{
    n <= i || set_slots::used_ok(words, at, i)
}

// Whether r may go into the set, and to how many regions.
pub fn may_insert(words: &[u64], at: usize, slots: usize, r: Region) -> Result<usize, NotInserted>
    ensures { MayInsertSays words.now at slots r result }
{
    let n = count(words, at, slots)?;
    address::validity(r)?;
    if set_slots::first_meeting(words, at, n, r) < n {
        return Err(NotInserted::Overlap);
    }
    if n == slots {
        return Err(NotInserted::NoRoom);
    }
    Ok(n)
}
