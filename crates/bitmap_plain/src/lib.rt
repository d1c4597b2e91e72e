// What the bitmap's library computes, in the plainest way, a frame at a time: for the program that tries
// the library on any words. No memory here has more than 273 words.

#![tactic(auto)]

pub mod random;

// How many frames the words have: none, if they are no full tree.
pub fn frames(tree: &[u16]) -> usize {
    match tree.len() {
        1 => 16,
        17 => 256,
        273 => 4096,
        _ => 0,
    }
}

// Whether frame k is there and free. The last words have the frames' bits, sixteen to a word.
pub fn free(tree: &[u16], k: usize) -> bool {
    let p = tree.len() / 16 + k / 16;
    p < tree.len() && (tree[p] >> (k % 16)) % 2 == 1
}

// How many of n frames are free.
pub fn count(tree: &[u16], n: usize) -> usize {
    (0..n).filter(|k| free(tree, *k)).count()
}

// Whether x, a number of at most 16 bits, is a multiple of 2 to the power of a.
fn multiple(x: usize, a: usize) -> bool {
    if a < 16 { (x >> a) << a == x } else { x == 0 }
}

// Whether `size` frames from s on are there and free, and s is a multiple of 2 to the power of a.
pub fn is_run(tree: &[u16], s: usize, size: usize, a: usize) -> bool {
    let end = s.wrapping_add(size);
    s <= end && end <= frames(tree) && multiple(s, a) && (s..end).all(|k| free(tree, k))
}

// The lowest such s from `from` on.
pub fn run(tree: &[u16], from: usize, size: usize, a: usize) -> Option<usize> {
    (from..frames(tree)).find(|s| is_run(tree, *s, size, a))
}

// Whether the bit of word n + 1 tells whether the word is 0, if there is such a word.
fn told(tree: &[u16], n: usize) -> bool {
    if tree.len() <= n || tree.len() == n + 1 {
        return true;
    }
    let bit = (tree[n / 16] >> (n % 16)) % 2;
    (tree[n + 1] == 0) == (bit == 0)
}

// The lowest n of which that is not so.
pub fn lie(tree: &[u16]) -> Option<usize> {
    (0..tree.len()).find(|n| !told(tree, *n))
}

// Whether the summaries agree.
pub fn sound(tree: &[u16]) -> bool {
    lie(tree).is_none()
}
