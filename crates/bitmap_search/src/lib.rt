// The search for one frame: the lowest free one, of all or at or above a number, by the summaries, and
// the first one of a range by its own words. An inner crate: its functions ask what their callers show.
#![tactic(auto, using(bitmap_tree::proofs::Fullness::full_bound))]

ghost use Rattle.std.specs.Prelude.{◌≡◌, ◌+◌, ◌*◌, ◌^◌, ◌≤◌, ◌<◌, length};
ghost use Rattle.base.specs.Search.{Stops};
ghost use Rattle.bitmap_tree.specs.Tree.{free, Full};
ghost use Rattle.bitmap_search.specs.Found.{DownSays, LowestSays, NextSays};
ghost use Rattle.bitmap_search.specs.Heights.{Some};
ghost use Rattle.bitmap_search.specs.declared.Missed.TheVariants.{Corrupt};

// A summary that is set, of a word with no set bit.
#[derive(Clone, Copy, Debug, PartialEq, Eq)]
pub struct Lie;

// Why no free frame is found.
#[derive(Clone, Copy, Debug, PartialEq, Eq)]
pub enum Missed {
    // None is free.
    Nothing,
    // A summary was met that does not agree with its word.
    Corrupt,
}

impl From<Lie> for Missed {
    ghost from_gives = { λ _ m. m ≡ Corrupt };

    fn from(_lie: Lie) -> Missed {
        Missed::Corrupt
    }
}

// From node n, whose bit is set, or from the root, whose word is not 0, down to a frame.
pub fn descend(tree: &[u16], n: usize) -> Result<usize, Lie>
    requires { (n ≤ 16 * length tree.now) × (0 < length tree.now) × (length tree.now < 2 ^ 57) × Some tree.now n }
    ensures { DownSays tree.now n result }
{
    let mut m = n;
    // A `while`, since each word says which is next.
    while m < tree.len() {
        let i = bits16::lowest(tree[m]);
        if i == 16 {
            return Err(Lie);
        }
        m = 16 * m + 1 + i;
    }
    Ok(m)
}

// The lowest free frame: down from the root.
pub fn lowest(tree: &[u16]) -> Result<usize, Missed>
    requires { Full (length tree.now) }
    ensures { LowestSays tree.now result }
{
    if tree[0] == 0 {
        return Err(Missed::Nothing);
    }
    let j = descend(tree, 0)?;
    Ok(j - tree.len())
}

// The lowest free frame at k or above: up from the word of frame k until a word has a set bit behind
// the way that was come, and down from there.
pub fn next_from(tree: &[u16], k: usize) -> Result<usize, Missed>
    requires { Full (length tree.now) × (k ≤ 15 * length tree.now) }
    ensures { NextSays tree.now k result }
{
    let w = tree.len();
    let mut n = w + k;
    let mut end = 16 * w + 1;
    // A `while`, since each word's parent is next, and the row ends elsewhere there.
    while n < end {
        let p = (n - 1) / 16;
        let i = bits16::lowest_from(tree[p], (n - 1) % 16);
        if i < 16 {
            let r = descend(tree, 16 * p + 1 + i)?;
            return Ok(r - w);
        }
        n = p + 1;
        end = (end - 1) / 16;
    }
    Err(Missed::Nothing)
}

// The first free frame from a up to b, or b: a word at a time, whatever the summaries say.
pub fn taken_until(tree: &[u16], a: usize, b: usize) -> usize
    requires { Full (length tree.now) × (a ≤ b) × (b ≤ 15 * length tree.now + 1) }
    ensures { Stops (λ k. free tree.now k ≡ 0) a b result }
{
    let w = tree.len();
    let mut n = w + a;
    // A `while`, since the first step may end within a word, and the others pass one.
    while n < w + b {
        let p = (n - 1) / 16;
        let i = bits16::lowest_from(tree[p], (n - 1) % 16);
        if i < 16 {
            return (16 * p + 1 + i - w).min(b);
        }
        n = 16 * p + 17;
    }
    b
}
