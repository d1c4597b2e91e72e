// A tree of sixteen children to a word, in one slice: bit i of word n speaks for node 16 n + 1 + i.
// A node below the slice's length is a word, and its bit summarises it; the nodes from there on are
// the frames. An inner crate: its functions ask what their callers show.
#![tactic(auto)]

ghost use Rattle.std.specs.Prelude.{◌≡◌, ◌+◌, ◌-◌, ◌*◌, ◌/◌, ◌^◌, ◌≤◌, ◌<◌, length};
ghost use Rattle.base.specs.Ranges.{how_many};
ghost use Rattle.base.specs.Says.{Says};
ghost use Rattle.base.specs.Search.{Stops};
ghost use Rattle.bitmap_tree.specs.Tree.{node_bit, free, cap, Full, Honest};
ghost use Rattle.bitmap_tree.specs.Writes.{Painted, Climbed, Changed, Summary};

// The words do not make a full tree: what the functions on lent words answer of such a length.
#[derive(Clone, Copy, Debug, PartialEq, Eq)]
pub struct NotFull;

// Whether w words make a full tree.
pub fn is_full(w: usize) -> bool
    ensures { Says result (Full w) }
{
    let mut s: usize = 0;
    for _depth in 0..15usize {
        s = 16 * s + 1;
        if s == w {
            return true;
        }
    }
    false
}

// The bit of node j.
pub fn read(tree: &[u16], j: usize) -> u16
    requires { (0 < j) × (j ≤ 16 * length tree.now) }
    ensures { result ≡ node_bit tree.now j }
{
    bits16::get(tree[(j - 1) / 16], (j - 1) % 16)
}

// Gives v to the bit of each node from j up to e, all of which stand in one word.
pub fn write(tree: &mut [u16], j: usize, e: usize, v: u16)
    requires j_nonzero { (0 < j) × (j ≤ e) × (e ≤ 16 * ((j - 1) / 16) + 17) }
    requires e_bound { (e ≤ 16 * length tree.old + 1) × (length tree.old < 2 ^ 57) × (v < 2) }
    ensures { Painted tree.old j e v tree.new }
{
    if j < e {
        let p = (j - 1) / 16;
        tree[p] = bits16::fill(tree[p], (j - 1) % 16, e - 1 - 16 * p, v);
    }
}

// Gives v to the bit of node j, and goes on upwards for as long as that changes what the word's summary
// should be.
pub fn climb(tree: &mut [u16], j: usize, v: u16)
    requires { (0 < j) × (j ≤ 16 * length tree.old) × (length tree.old < 2 ^ 57) × (v < 2) }
    ensures { Climbed tree.old j v tree.new }
{
    let mut n = j;
    let mut u = v;
    // A `while`: each step is to the parent of a node, and not to the next.
    while n > 0 {
        let p = (n - 1) / 16;
        let old = tree[p];
        let new = bits16::put(old, (n - 1) % 16, u);
        tree[p] = new;
        let was = bits16::some(old);
        let is = bits16::some(new);
        if was == is {
            return;
        }
        n = p;
        u = is;
    }
}

// Makes frame k free, where v is 1, or taken, where v is 0.
pub fn change_one(tree: &mut [u16], k: usize, v: u16)
    requires { (k ≤ 15 * length tree.old) × (0 < length tree.old) × (length tree.old < 2 ^ 57) × (v < 2) }
    ensures { Changed tree.old k (k + 1) v tree.new }
{
    let w = tree.len();
    climb(tree, w + k, v);
}

// What word p is to be: the summaries of the sixteen words that it speaks for.
fn summary(tree: &[u16], p: usize) -> u16
    requires { (16 * p + 16 < length tree.now) × (length tree.now < 2 ^ 57) }
    ensures { Summary tree.now p result }
{
    let mut r: u16 = 0;
    for i in 0..16 {
        let s = bits16::some(tree[16 * p + 1 + i]);
        r = bits16::append(r, i, s);
    }
    r
}

// The lowest word with a bit that does not tell whether the word that it speaks for is 0, or the first
// word that speaks for frames.
pub fn first_lie(tree: &[u16]) -> usize
    requires { Full (length tree.now) }
    ensures { Stops (Honest tree.now) 0 ((length tree.now - 1) / 16) result }
{
    let end = (tree.len() - 1) / 16;
    for p in 0..end {
        if summary(tree, p) != tree[p] {
            return p;
        }
    }
    end
}

// How many frames are free, a word at a time.
pub fn count(tree: &[u16]) -> usize
    requires { Full (length tree.now) }
    ensures { result ≡ how_many (free tree.now) (cap tree.now) }
{
    let mut total: usize = 0;
    for p in (tree.len() - 1) / 16..tree.len() {
        total += bits16::ones(tree[p]) as usize;
    }
    total
}
