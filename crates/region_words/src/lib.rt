// A region in memory: four words, which are its guest start, its host start, its pages, and its flags,
// of which there is the kind so far, as a number. This crate alone knows these words.
#![tactic(auto, unfolding(crate::specs::Words::kind_of, crate::specs::Words::number_of, crate::specs::Words::region_of))]

ghost use Rattle.std.specs.Prelude.{◌≡◌, ◌+◌, ◌≤◌, length};
ghost use Rattle.base.specs.Says.{Says};
ghost use Rattle.region_words.specs.Words.{kind_of, number_of, region_of, HasRegion, Put};

use address::{Kind, Region};

// The kind with a number. Not a TryFrom, since every number is taken: the last kind stands for all others.
pub fn kind_of(w: u64) -> Kind
    ensures { result ≡ kind_of w }
{
    match w {
        0 => Kind::Ordinary,
        1 => Kind::Device,
        _ => Kind::Shared,
    }
}

// The number of a kind. Not a From beside Kind, since this crate alone knows these words.
pub fn number_of(k: Kind) -> u64
    ensures { result ≡ number_of k }
{
    match k {
        Kind::Ordinary => 0,
        Kind::Device => 1,
        Kind::Shared => 2,
    }
}

// The region in the four words from `at` on.
pub fn get(t: &[u64], at: usize) -> Region
    requires { at + 4 ≤ length t.now }
    ensures { result ≡ region_of t.now at }
{
    Region {
        guest: t[at],
        host: t[at + 1],
        pages: t[at + 2],
        kind: kind_of(t[at + 3]),
    }
}

// Writes r into the four words from `at` on.
pub fn put(t: &mut [u64], at: usize, r: Region)
    requires { at + 4 ≤ length t.old }
    ensures { Put t.old at r t.new }
{
    t[at] = r.guest;
    t[at + 1] = r.host;
    t[at + 2] = r.pages;
    t[at + 3] = number_of(r.kind);
}

// Whether the four words from `at` on are those of r.
pub fn holds(t: &[u64], at: usize, r: Region) -> bool
    requires { at + 4 ≤ length t.now }
    ensures { Says result (HasRegion t.now at r) }
{
    t[at] == r.guest
        && t[at + 1] == r.host
        && t[at + 2] == r.pages
        && t[at + 3] == number_of(r.kind)
}
