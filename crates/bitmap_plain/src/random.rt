// Pseudo-random numbers, each made of the one before, and words made of them.
ghost use Rattle.std.specs.Prelude.{◌<◌};

// The number behind s.
pub fn step(s: u64) -> u64 {
    (s % 2147483648 * 1103515245 + 12345) % 2147483648
}

// A number below n that s picks, or 0 if there is none.
fn below(s: u64, n: usize) -> usize {
    if n == 0 {
        return 0;
    }
    (s / 1024) as usize % n
}

// The place among fourteen requests of one that s picks: mostly one that changes the memory, and rarely
// `reset` or damage.
pub fn request(s: u64) -> usize
    ensures { result < 14 }
{
    let pick = below(s, 64);
    if pick < 14 {
        return pick;
    }
    if pick < 29 {
        return 1 + pick % 6;
    }
    8 + pick % 5
}

// A number that s picks for a request: below n, or one of the two behind, or now and then one far from any.
pub fn number(s: u64, n: usize) -> usize {
    if s % 64 == 5 {
        return usize::MAX;
    }
    below(s, n % 65536 + 2)
}

// x, or mostly a smaller number: of a few frames, or of a few words of frames.
pub fn small(s: u64, x: usize) -> usize {
    match s % 4 {
        0 => x,
        1 => x % 40,
        _ => x % 9,
    }
}

// Which words are picked.
#[derive(Clone, Copy, Debug, PartialEq, Eq)]
enum Density {
    Any,
    MostlyZero,
    MostlyOnes,
    Zero,
}

// A word that s picks.
fn word(s: u64, density: Density) -> u16 {
    match density {
        Density::Zero => 0,
        Density::MostlyZero if s / 256 % 8 != 0 => 0,
        Density::MostlyOnes if s / 256 % 8 != 0 => 65535,
        _ => (s / 32768 % 65536) as u16,
    }
}

// The density of word i of w. The words with frames have one of the four, and the summaries above them are
// any words, or always 0 too.
fn density_at(i: usize, w: usize, seed: u64) -> Density {
    match seed % 4 {
        3 => Density::Zero,
        _ if i < w / 16 => Density::Any,
        1 => Density::MostlyZero,
        2 => Density::MostlyOnes,
        _ => Density::Any,
    }
}

// Fills the memory.
pub fn fill(tree: &mut [u16], seed: u64) {
    let mut s = seed;
    let w = tree.len();
    for i in 0..w {
        s = step(s);
        tree[i] = word(s, density_at(i, w, seed));
    }
}
