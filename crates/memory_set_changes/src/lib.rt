// How a set of regions in memory changes: a region goes in or out, or all go out.
//
// A set lies at `at` in the words: a count, and behind it `slots` slots, of which the first as many as
// the count hold the regions in ascending order. Every function takes any words, any place and any
// number of slots, and reads and writes none but the words of that set. What is said of the regions
// holds for any words; that a set stays in order, for a set that is. `clear` makes one.
#![tactic(auto)]

ghost use Rattle.std.specs.Prelude.{◌≡◌};
ghost use Rattle.memory_set_changes.specs.declared.NotRemoved.{NotRemoved};
ghost use Rattle.memory_set_changes.specs.Changes.{InsertSays, TakeSays, RemoveSays, ClearSays};

use address::Region;
use set_claims::{Bad, NotInserted};

// Why a region did not go out.
#[derive(Clone, Copy, Debug, PartialEq, Eq)]
pub enum NotRemoved {
    // The set does not have it.
    NotThere,
    Bad(Bad),
}

impl From<Bad> for NotRemoved {
    ghost from_gives = { λ why e. e ≡ NotRemoved.Bad why };

    fn from(why: Bad) -> NotRemoved {
        NotRemoved::Bad(why)
    }
}

// The set does not lie within the words.
#[derive(Clone, Copy, Debug, PartialEq, Eq)]
pub struct NoSet;

// Puts r into the set, before the first region that starts above it.
pub fn insert(words: &mut [u64], at: usize, slots: usize, r: Region) -> Result<(), NotInserted>
    ensures { InsertSays words.old at slots r words.new result }
{
    let n = set_claims::may_insert(words, at, slots, r)?;
    let p = set_slots::first_above(words, at, n, r.guest);
    if !set_claims::is_right(words, at, n, p) {
        return Err(NotInserted::Bad(Bad::Corrupt));
    }
    set_shifts::shift_up(words, at, p, n);
    region_words::put(words, at + 1 + 4 * p, r);
    words[at] = n as u64 + 1;
    Ok(())
}

// Takes the region that starts at a guest address out of the set, and says which it was.
pub fn remove_starting_at(
    words: &mut [u64],
    at: usize,
    slots: usize,
    guest: u64,
) -> Result<Region, NotRemoved>
    ensures { TakeSays words.old at slots guest words.new result }
{
    let n = set_claims::count(words, at, slots)?;
    let i = set_slots::first_starting(words, at, n, guest);
    if n <= i {
        return Err(NotRemoved::NotThere);
    }
    if !set_slots::used_ok(words, at, i) {
        return Err(NotRemoved::Bad(Bad::Corrupt));
    }
    let r = region_words::get(words, at + 1 + 4 * i);
    set_shifts::take_out(words, at, i, n - 1);
    Ok(r)
}

// Takes r out of the set: that very region, the same in every field.
pub fn remove(words: &mut [u64], at: usize, slots: usize, r: Region) -> Result<(), NotRemoved>
    ensures { RemoveSays words.old at slots r words.new result }
{
    let n = set_claims::count(words, at, slots)?;
    let p = set_slots::first_same(words, at, n, r);
    if n <= p {
        return Err(NotRemoved::NotThere);
    }
    if !set_slots::used_ok(words, at, p) {
        return Err(NotRemoved::Bad(Bad::Corrupt));
    }
    set_shifts::take_out(words, at, p, n - 1);
    Ok(())
}

// Makes a set of no region, whatever the words held.
pub fn clear(words: &mut [u64], at: usize, slots: usize) -> Result<(), NoSet>
    ensures { ClearSays words.old at slots words.new result }
{
    if !set_slots::lies(words, at, slots) {
        return Err(NoSet);
    }
    set_shifts::wipe(words, at, slots);
    words[at] = 0;
    Ok(())
}
