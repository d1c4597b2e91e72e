// What stands in the frames: 512 words of 64 bits for each frame that may become free. An inner crate:
// its functions ask what their callers show.
#![tactic(auto)]

ghost use Rattle.std.specs.Prelude.{◌≡◌, ◌+◌, ◌*◌, ◌/◌, ◌≤◌, ◌<◌, length, get_or};
ghost use Rattle.base.specs.Says.{Says};
ghost use Rattle.base.specs.Search.{Stops};
ghost use Rattle.bitmap_tree.specs.Tree.{free, cap};
ghost use Rattle.owners.specs.States.{Matched, state, State.Reserved, State.Owned};
ghost use Rattle.contents.specs.Contents.{Backed, frames_in, Zero, Wiped, WipedOf};

// Whether the contents are those of whole frames, of as many as there are at most.
pub fn is_backed(owners: &[u8], words: &[u64]) -> bool
    ensures { Says result (Backed owners.now words.now) }
{
    words.len() % 512 == 0 && words.len() / 512 <= owners.len()
}

// Makes every word of the frames from a up to b 0.
pub fn wipe(words: &mut [u64], a: usize, b: usize)
    requires { (a ≤ b) × (b ≤ frames_in words.old) }
    ensures { Wiped words.old a b words.new }
{
    base::zero(words, 512 * a, 512 * b);
}

// Makes every word of the frames of the client c 0.
pub fn wipe_owned(tree: &[u16], owners: &[u8], words: &mut [u64], c: u8)
    requires { Matched tree.now owners.now × Backed owners.now words.old × (c < 64) }
    ensures { WipedOf tree.now owners.now words.old c words.new }
{
    for k in 0..words.len() / 512 {
        let mine = owner_passes::one_if_owned(tree, owners, k, c);
        wipe(words, k, k + mine);
    }
}

// The first frame from n on that the client c owns, or the number of frames.
pub fn others_until(tree: &[u16], owners: &[u8], n: usize, c: u8) -> usize
    requires { Matched tree.now owners.now × (n ≤ cap tree.now) × (c < 64) }
    ensures { Stops (λ k. state tree.now owners.now k ≡ Owned c → ⊥) n (cap tree.now) result }
{
    for k in n..owners.len() {
        if owner_passes::one_if_owned(tree, owners, k, c) == 1 {
            return k;
        }
    }
    owners.len()
}

// The first frame from n on that is not reserved, or the number of frames.
pub fn reserved_until(tree: &[u16], owners: &[u8], n: usize) -> usize
    requires { Matched tree.now owners.now × (n ≤ cap tree.now) }
    ensures { Stops (λ k. state tree.now owners.now k ≡ Reserved) n (cap tree.now) result }
{
    let w = tree.len();
    for k in n..owners.len() {
        if bitmap_tree::read(tree, w + k) == 1 || owners[k] < 64 {
            return k;
        }
    }
    owners.len()
}

// Whether frame k is taken, or all its words are 0.
fn is_clean(tree: &[u16], words: &[u64], k: usize) -> bool
    requires { (k < frames_in words.now) × (k < cap tree.now) × (0 < length tree.now) }
    ensures { Says result (free tree.now k ≡ 1 → Zero words.now k) }
{
    bitmap_tree::read(tree, tree.len() + k) == 0
        || words[512 * k..512 * k + 512].iter().all(|x| *x == 0)
}

// The first frame that is free and has a word that is not 0, or the number of frames with contents.
pub fn clean_until(tree: &[u16], owners: &[u8], words: &[u64]) -> usize
    requires { Matched tree.now owners.now × Backed owners.now words.now }
    ensures { Stops (λ k. free tree.now k ≡ 1 → Zero words.now k) 0 (frames_in words.now) result }
{
    let n = words.len() / 512;
    for k in 0..n {
        if !is_clean(tree, words, k) {
            return k;
        }
    }
    n
}
