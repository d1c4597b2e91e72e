// What every crate of the repository shares: clearing words, and in specs/ the words in which the
// contracts speak.
#![tactic(auto)]

ghost use Rattle.std.specs.Prelude.{◌≤◌, length};
ghost use Rattle.base.specs.Ranges.{Emptied};

// Makes the words from p up to q 0.
pub fn zero(words: &mut [u64], p: usize, q: usize)
    requires { (p ≤ q) × (q ≤ length words.old) }
    ensures { Emptied words.old p q words.new }
{
    words[p..q].fill(0);
}
