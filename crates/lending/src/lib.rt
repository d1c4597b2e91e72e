// How much memory to lend to a monitor: the words of the table, of the machines and of the tree, the bytes
// of the owners, and the frames' own words. The tree is the smallest full one that has so many frames or
// more.
//
// Any numbers are taken. More machines than a configuration has, more slots than a machine has regions,
// and more frames than there are addresses for are refused, each by its own reason.
#![tactic(auto)]

ghost use Rattle.std.specs.Prelude.{◌^◌, ◌≤◌};
ghost use Rattle.lending.specs.Lending.{Smallest, AmountSays};

// How many words and bytes each memory has.
#[derive(Clone, Copy, Debug, PartialEq, Eq)]
pub struct Sizes {
    pub table: usize,
    pub zones: usize,
    pub tree: usize,
    pub owners: usize,
    pub words: usize,
}

// Of what there are too many.
#[derive(Clone, Copy, Debug, PartialEq, Eq)]
pub enum TooMany {
    // There are more than 64 machines.
    Machines,
    // A set has more than 32 slots.
    Slots,
    // There are more than 2^52 frames.
    Frames,
}

// How many words the smallest full tree has that has so many frames or more.
#[tactic(auto, using(crate::proofs::Laws::rises, crate::proofs::Laws::rises_more, crate::proofs::Laws::rising_bound))]
fn tree_for(frames: usize) -> usize
    requires { frames ≤ 2 ^ 52 }
    ensures { Smallest frames result }
{
    let mut w: usize = 1;
    // A `while`, since the next tree is not one word larger.
    while 15 * w + 1 < frames {
        w = 16 * w + 1;
    }
    w
}

// How much to lend for so many machines, whose sets have so many slots each, and so many frames.
pub fn to_lend(machines: usize, slots: usize, frames: usize) -> Result<Sizes, TooMany>
    ensures { AmountSays machines slots frames result }
{
    if 64 < machines {
        return Err(TooMany::Machines);
    }
    if 32 < slots {
        return Err(TooMany::Slots);
    }
    if 4503599627370496 < frames {
        return Err(TooMany::Frames);
    }
    let tree = tree_for(frames);
    Ok(Sizes {
        table: 8325,
        zones: machines * (3 + 8 * slots),
        tree,
        owners: 15 * tree + 1,
        words: 512 * frames,
    })
}
