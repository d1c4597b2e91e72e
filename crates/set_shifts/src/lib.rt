// Writing the slots of a set: they move up by one to make room, down by one to close a gap, and are
// wiped. The count is the caller's, except where a region is taken out.
#![tactic(auto)]

ghost use Rattle.std.specs.Prelude.{◌≡◌, ◌+◌, ◌≤◌, length, get_or};
ghost use Rattle.region_words.specs.Words.{nothing, Put};
ghost use Rattle.set_slots.specs.Slots.{Lies};
ghost use Rattle.set_shifts.specs.Shifts.{ShiftedUp, ShiftedDown, LeftOut, Wiped};

use address::{Kind, Region};

// Moves the slots from p up to n up by one. Not `copy_within`, since a slot's kind is written anew.
pub fn shift_up(z: &mut [u64], at: usize, p: usize, n: usize)
    requires { (p ≤ n) × Lies z.old at (n + 1) }
    ensures { ShiftedUp z.old at p n z.new }
{
    for i in (p..n).rev() {
        let r = region_words::get(z, at + 1 + 4 * i);
        region_words::put(z, at + 1 + 4 * (i + 1), r);
    }
}

// Moves the slots behind p, up to the last, down by one.
pub fn shift_down(z: &mut [u64], at: usize, p: usize, last: usize)
    requires { (p ≤ last) × Lies z.old at (last + 1) }
    ensures { ShiftedDown z.old at p last z.new }
{
    for i in p..last {
        let r = region_words::get(z, at + 1 + 4 * (i + 1));
        region_words::put(z, at + 1 + 4 * i, r);
    }
}

// Writes 0 into the four words from p on.
pub fn erase(z: &mut [u64], p: usize)
    requires { p + 4 ≤ length z.old }
    ensures { Put z.old p nothing z.new }
{
    let nothing = Region {
        guest: 0,
        host: 0,
        pages: 0,
        kind: Kind::Ordinary,
    };
    region_words::put(z, p, nothing);
}

// Closes the gap that the region in slot p leaves, where slot `last` has the last one.
pub fn take_out(z: &mut [u64], at: usize, p: usize, last: usize)
    requires { (p ≤ last) × Lies z.old at (last + 1) × (last + 1 ≡ get_or z.old at 0) }
    ensures { LeftOut z.old at p z.new }
{
    shift_down(z, at, p, last);
    erase(z, at + 1 + 4 * last);
    z[at] = last as u64;
}

// Writes 0 into all words of the slots.
pub fn wipe(z: &mut [u64], at: usize, slots: usize)
    requires { Lies z.old at slots }
    ensures { Wiped z.old at slots z.new }
{
    for i in 0..slots {
        erase(z, at + 1 + 4 * i);
    }
}
