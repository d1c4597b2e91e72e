// Many frames at once: a stretch of bits is written a word at a time, and the summaries above it are
// mended level by level, of which only the two words at the ends need a look. An inner crate: its
// functions ask what their callers show.
#![tactic(auto)]

ghost use Rattle.std.specs.Prelude.{◌≡◌, ℕ, ◌+◌, ◌*◌, ◌^◌, ◌≤◌, ◌<◌, min, length, get_or};
ghost use Rattle.bitmap_tree.specs.Writes.{Painted, Changed};
ghost use Rattle.bitmap_range.specs.Levels.{Stored, Between, Noted, Mended};

// Writes x into each of the words from p up to q.
fn store(tree: &mut [u16], p: usize, q: usize, x: u16)
    requires { (p ≤ q) × (q ≤ length tree.old) }
    ensures { Stored tree.old p q x tree.new }
{
    tree[p..q].fill(x);
}

// Gives v to every bit of the words from p up to q.
pub fn flood(tree: &mut [u16], p: usize, q: usize, v: u16)
    requires { (p ≤ q) × (q ≤ length tree.old) × (v < 2) }
    ensures { Painted tree.old (16 * p + 1) (16 * q + 1) v tree.new }
{
    if v == 1 {
        store(tree, p, q, 65535);
    } else {
        store(tree, p, q, 0);
    }
}

// Gives v to the bit of each node from a up to b: the words that are wholly among them at once.
fn paint(tree: &mut [u16], a: usize, b: usize, v: u16)
    requires a_nonzero { (0 < a) × (a ≤ b) × (b ≤ 16 * length tree.old + 1) }
    requires tree_len_bound { (length tree.old < 2 ^ 57) × (v < 2) }
    ensures { Painted tree.old a b v tree.new }
{
    let p = (a + 14) / 16;
    let q = (b - 1) / 16;
    if q < p {
        bitmap_tree::write(tree, a, b, v);
        return;
    }
    let first = 16 * p + 1;
    let last = 16 * q + 1;
    bitmap_tree::write(tree, a, first, v);
    flood(tree, p, q, v);
    bitmap_tree::write(tree, last, b, v);
}

// Makes the bit of word n say whether the word has a set bit.
fn note(tree: &mut [u16], n: usize)
    requires { (0 < n) × (n < length tree.old) × (length tree.old < 2 ^ 57) }
    ensures { Painted tree.old n (n + 1) (min 1 (get_or tree.old n 0)) tree.new }
{
    let s = bits16::some(tree[n]);
    bitmap_tree::write(tree, n, n + 1, s);
}

// The same for each word from f to b, where those between the two are all v.
fn note_level(tree: &mut [u16], f: usize, b: usize, v: u16)
    requires f_nonzero { (0 < f) × (f ≤ b) × (b < length tree.old) }
    requires tree_len_bound { (length tree.old < 2 ^ 57) × (v < 2) × Between tree.old f b v }
    ensures { Noted tree.old f b v tree.new }
{
    note(tree, f);
    if f < b {
        note(tree, b);
        paint(tree, f + 1, b, v);
    }
}

// Mends the summaries, where only that of word n may be wrong.
fn settle(tree: &mut [u16], n: usize)
    requires { (n < length tree.old) × (length tree.old < 2 ^ 57) }
    ensures { Mended tree.old n n tree.new }
{
    if 0 < n {
        let s = bits16::some(tree[n]);
        bitmap_tree::climb(tree, n, s);
    }
}

// Mends the summaries, where only those of the words from lo to hi may be wrong: row by row until one
// word is left.
fn mend(tree: &mut [u16], lo: usize, hi: usize, v: u16)
    requires lo_le_hi { (lo ≤ hi) × (hi < length tree.old) }
    requires tree_len_bound { (length tree.old < 2 ^ 57) × (v < 2) × Between tree.old lo hi v }
    ensures { Mended tree.old lo hi tree.new }
{
    let mut a = lo;
    let mut b = hi;
    // A `while`: each step is to the parents of two nodes, and not to the next.
    while a < b {
        let f = a.max(1);
        note_level(tree, f, b, v);
        a = (f - 1) / 16;
        b = (b - 1) / 16;
    }
    settle(tree, b);
}

// Makes the frames from a up to b free, where v is 1, or taken, where v is 0, whatever they were.
pub fn change(tree: &mut [u16], a: usize, b: usize, v: u16)
    requires a_lt_b { (a < b) × (b ≤ 15 * length tree.old + 1) }
    requires tree_nonzero { (0 < length tree.old) × (length tree.old < 2 ^ 57) × (v < 2) }
    ensures { Changed tree.old a b v tree.new }
{
    let w = tree.len();
    paint(tree, w + a, w + b, v);
    mend(tree, (w + a - 1) / 16, (w + b - 2) / 16, v);
}
