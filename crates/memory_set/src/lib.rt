// What a set of regions in memory has: which guest pages a machine has, and which host pages they stand for.
//
// A set lies at `at` in the words: a count, and behind it `slots` slots, of which the first as many as
// the count hold the regions in ascending order. Every function takes any words, any place and any
// number of slots, and reads none but the words of that set. `check` says whether it is in order.
#![tactic(auto)]

ghost use Rattle.std.specs.Prelude.{◌≡◌};
ghost use Rattle.memory_set.specs.declared.NotMapped.{NotMapped};
ghost use Rattle.memory_set.specs.declared.NotInOrder.{NotInOrder};
ghost use Rattle.memory_set.specs.Looks.{EmptySays, OverlapsSays, StartsSays, TranslateSays, CheckSays};

use address::Region;
use set_claims::Bad;

// Why a guest address stands for no host address.
#[derive(Clone, Copy, Debug, PartialEq, Eq)]
pub enum NotMapped {
    // No region has the guest address.
    NoRegion,
    // Corrupt also where the slot of the region that has it is not right.
    Bad(Bad),
}

impl From<Bad> for NotMapped {
    ghost from_gives = { λ why e. e ≡ NotMapped.Bad why };

    fn from(why: Bad) -> NotMapped {
        NotMapped::Bad(why)
    }
}

// Why a set is not in order.
#[derive(Clone, Copy, Debug, PartialEq, Eq)]
pub enum NotInOrder {
    Bad(Bad),
    // The first slot that is not right.
    Wrong(usize),
}

impl From<Bad> for NotInOrder {
    ghost from_gives = { λ why e. e ≡ NotInOrder.Bad why };

    fn from(why: Bad) -> NotInOrder {
        NotInOrder::Bad(why)
    }
}

// Whether the set has no region.
pub fn is_empty(words: &[u64], at: usize, slots: usize) -> Result<bool, Bad>
    ensures { EmptySays words.now at slots result }
{
    let n = set_claims::count(words, at, slots)?;
    Ok(n == 0)
}

// Whether a region of the set has a guest page of r.
pub fn overlaps_vmem(words: &[u64], at: usize, slots: usize, r: Region) -> Result<bool, Bad>
    ensures { OverlapsSays words.now at slots r result }
{
    let n = set_claims::count(words, at, slots)?;
    Ok(set_slots::first_meeting(words, at, n, r) < n)
}

// Whether a region of the set starts at a guest address.
pub fn has_region_starting_at(
    words: &[u64],
    at: usize,
    slots: usize,
    guest: u64,
) -> Result<bool, Bad>
    ensures { StartsSays words.now at slots guest result }
{
    let n = set_claims::count(words, at, slots)?;
    Ok(set_slots::first_starting(words, at, n, guest) < n)
}

// The host address that a guest address stands for.
pub fn translate(words: &[u64], at: usize, slots: usize, addr: u64) -> Result<u64, NotMapped>
    ensures { TranslateSays words.now at slots addr result }
{
    let n = set_claims::count(words, at, slots)?;
    let i = set_slots::first_covering(words, at, n, addr);
    if n <= i {
        return Err(NotMapped::NoRegion);
    }
    if !set_slots::used_ok(words, at, i) {
        return Err(NotMapped::Bad(Bad::Corrupt));
    }
    let r = region_words::get(words, at + 1 + 4 * i);
    Ok(address::translate(r, addr).unwrap())
}

// Whether the set is in order: its regions valid and ascending, no two with a guest page in common, and
// its other slots 0.
pub fn check(words: &[u64], at: usize, slots: usize) -> Result<(), NotInOrder>
    ensures { CheckSays words.now at slots result }
{
    let n = set_claims::count(words, at, slots)?;
    let i = set_slots::first_wrong(words, at, n);
    if i < n {
        return Err(NotInOrder::Wrong(i));
    }
    let j = set_slots::first_left(words, at, n, slots);
    if j < slots {
        return Err(NotInOrder::Wrong(j));
    }
    Ok(())
}
