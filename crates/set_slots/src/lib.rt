// A set of regions in memory: a count at `at`, and behind it slots of four words, of which the first as
// many as the count hold the regions and the others nothing. Here is what reads them: whether the words
// are there, the searches for a slot, and whether a slot is right.
#![tactic(auto)]

ghost use Rattle.std.specs.Prelude.{◌+◌, ◌*◌, ◌≤◌, ◌<◌, length};
ghost use Rattle.base.specs.Says.{Says};
ghost use Rattle.base.specs.Search.{Stops};
ghost use Rattle.set_model.specs.Sets.{same, meets, starts, covers};
ghost use Rattle.set_slots.specs.Slots.{above, Lies, Fails, FirstPassing, Empty, Follows, UsedOk};

use address::{Kind, Region};

// Whether the words of a set with so many slots lie within z.
pub fn lies(z: &[u64], at: usize, slots: usize) -> bool
    ensures { Says result (Lies z.now at slots) }
{
    let n = z.len();
    at < n && slots <= (n - at - 1) / 4
}

// The first of the first n slots whose region passes a test, or n.
fn first<F: Fn(Region) -> bool>(z: &[u64], at: usize, n: usize, test: &F) -> usize
    requires lies { Lies z.now at n }
    requires callable { F.IsAlwaysCallable test.now }
    ensures { FirstPassing (F.post test.now) z.now at n result }
{
    for i in 0..n {
        if test(region_words::get(z, at + 1 + 4 * i)) {
            return i;
        }
    }
    n
}

// The first of the first n slots that has r, or n. These searches answer n and no None, since a region goes in there.
pub fn first_same(z: &[u64], at: usize, n: usize, r: Region) -> usize
    requires { Lies z.now at n }
    ensures { Stops (Fails (same r) z.now at) 0 n result }
{
    let test = |found: Region| r == found;
    first(z, at, n, &test)
}

// The first of the first n slots whose region starts at a guest address, or n.
pub fn first_starting(z: &[u64], at: usize, n: usize, guest: u64) -> usize
    requires { Lies z.now at n }
    ensures { Stops (Fails (starts guest) z.now at) 0 n result }
{
    let test = |found: Region| found.guest == guest;
    first(z, at, n, &test)
}

// The first of the first n slots whose region has a guest address, or n.
pub fn first_covering(z: &[u64], at: usize, n: usize, addr: u64) -> usize
    requires { Lies z.now at n }
    ensures { Stops (Fails (covers addr) z.now at) 0 n result }
{
    let test = |found: Region| address::contains(found, addr);
    first(z, at, n, &test)
}

// The first of the first n slots whose region has a guest page of r, or n.
pub fn first_meeting(z: &[u64], at: usize, n: usize, r: Region) -> usize
    requires { Lies z.now at n }
    ensures { Stops (Fails (meets r) z.now at) 0 n result }
{
    let test = |found: Region| address::overlaps_vmem(r, found);
    first(z, at, n, &test)
}

// The first of the first n slots whose region starts above a guest address, or n.
pub fn first_above(z: &[u64], at: usize, n: usize, guest: u64) -> usize
    requires { Lies z.now at n }
    ensures { Stops (Fails (above guest) z.now at) 0 n result }
{
    let test = |found: Region| guest < found.guest;
    first(z, at, n, &test)
}

// Whether r starts where a region before it ends, or above.
fn follows(before: Region, r: Region) -> bool
    ensures { Says result (Follows before r) }
{
    address::vend(before).is_some_and(|end| end <= r.guest)
}

// Whether slot i, one of those that hold regions, is right.
pub fn used_ok(z: &[u64], at: usize, i: usize) -> bool
    requires { Lies z.now at (i + 1) }
    ensures { Says result (UsedOk z.now at i) }
{
    let r = region_words::get(z, at + 1 + 4 * i);
    region_words::holds(z, at + 1 + 4 * i, r)
        && address::valid(r)
        && (i == 0 || follows(region_words::get(z, at + 1 + 4 * (i - 1)), r))
}

// The first of the first n slots that is not right as one that holds a region, or n.
pub fn first_wrong(z: &[u64], at: usize, n: usize) -> usize
    requires { Lies z.now at n }
    ensures { Stops (UsedOk z.now at) 0 n result }
{
    for i in 0..n {
        if !used_ok(z, at, i) {
            return i;
        }
    }
    n
}

// The first slot from n on that does not hold nothing, or `slots`.
pub fn first_left(z: &[u64], at: usize, n: usize, slots: usize) -> usize
    requires { (n ≤ slots) × Lies z.now at slots }
    ensures { Stops (Empty z.now at) n slots result }
{
    let nothing = Region {
        guest: 0,
        host: 0,
        pages: 0,
        kind: Kind::Ordinary,
    };
    for i in n..slots {
        if !region_words::holds(z, at + 1 + 4 * i, nothing) {
            return i;
        }
    }
    slots
}
