// Passes over all frames and their owners: the count of a client's frames, its release, the first frame
// that is not in order, and the start from any bytes. An inner crate: its functions ask what their
// callers show.
#![tactic(auto)]

ghost use Rattle.std.specs.Prelude.{◌≡◌, ◌*◌, ◌+◌, ◌≤◌, ◌<◌, length, get_or};
ghost use Rattle.base.specs.Says.{Says};
ghost use Rattle.base.specs.Search.{Stops};
ghost use Rattle.bitmap_tree.specs.Tree.{cap};
ghost use Rattle.owners.specs.States.{Matched, state, Placed, Right, RightAt};
ghost use Rattle.owner_passes.specs.Passes.{owns, owned_by, Released, Begun};

// 1 if frame k is owned by the client c, and else 0.
pub fn one_if_owned(tree: &[u16], owners: &[u8], k: usize, c: u8) -> usize
    requires { Matched tree.now owners.now × (k ≤ 15 * length tree.now) × (c < 64) }
    ensures { result ≡ owns c (state tree.now owners.now k) }
{
    if owners[k] == c {
        usize::from(bitmap_tree::read(tree, tree.len() + k) == 0)
    } else {
        0
    }
}

// How many frames the client c owns.
pub fn count(tree: &[u16], owners: &[u8], c: u8) -> usize
    requires { Matched tree.now owners.now × (c < 64) }
    ensures { result ≡ owned_by tree.now owners.now c }
{
    let mut total: usize = 0;
    for k in 0..owners.len() {
        total += one_if_owned(tree, owners, k, c);
    }
    total
}

// Whether frame k ends at the last address or before.
pub fn placed(base: usize, k: usize) -> bool
    ensures { Says result (Placed base k) }
{
    k < (usize::MAX - base) / 4096
}

// Whether the bit and the byte c of frame k are in order.
fn in_order(base: usize, k: usize, bit: u16, c: u8) -> bool
    requires { bit < 2 }
    ensures { Says result (Right base k bit c) }
{
    match c {
        // The place first: nearly every frame has one, and the bit follows no pattern.
        255 => placed(base, k) || bit == 0,
        0..=63 => bit == 0 && placed(base, k),
        _ => false,
    }
}

// The first frame that is not in order, or the number of frames.
pub fn right_until(tree: &[u16], owners: &[u8], base: usize) -> usize
    requires { Matched tree.now owners.now }
    ensures { Stops (RightAt base tree.now owners.now) 0 (cap tree.now) result }
{
    let w = tree.len();
    for k in 0..owners.len() {
        let bit = bitmap_tree::read(tree, w + k);
        if !in_order(base, k, bit, owners[k]) {
            return k;
        }
    }
    owners.len()
}

// The first frame from a on whose byte is c, or the number of frames.
fn other_until(owners: &[u8], a: usize, c: u8) -> usize
    requires { a ≤ length owners.now }
    ensures { Stops (λ k. get_or owners.now k 255 ≡ c → ⊥) a (length owners.now) result }
{
    for k in a..owners.len() {
        if owners[k] == c {
            return k;
        }
    }
    owners.len()
}

// Makes every frame of the client c free, a stretch of them at a time.
pub fn release(tree: &mut [u16], owners: &mut [u8], c: u8)
    requires { Matched tree.old owners.old × (c < 64) }
    ensures { Released tree.old owners.old c tree.new owners.new }
{
    let end = owners.len();
    let mut k: usize = 0;
    // A `while`, since a stretch ends where its bytes do.
    while k < end {
        let a = other_until(owners, k, c);
        if a == end {
            return;
        }
        k = owners::byte_until(owners, a, end, c);
        owners::assign(tree, owners, a, k, 1, 255);
    }
}

// Makes the frames below n free and all others reserved, whatever the memories held.
pub fn begin(tree: &mut [u16], owners: &mut [u8], n: usize)
    requires { Matched tree.old owners.old × (n ≤ 15 * length tree.old + 1) }
    ensures { Begun tree.old owners.old n tree.new owners.new }
{
    let w = tree.len();
    let all = owners.len();
    bitmap_range::flood(tree, 0, w, 0);
    owners::fill(owners, 0, all, 255);
    if 0 < n {
        bitmap_range::change(tree, 0, n, 1);
    }
}
