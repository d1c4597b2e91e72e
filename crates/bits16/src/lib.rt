// One word of sixteen bits: reading a bit, writing a stretch of them, finding the lowest that is set,
// and counting. An inner crate: its functions ask what their callers show.
#![tactic(auto)]

ghost use Rattle.std.specs.Prelude.{◌≡◌, ◌+◌, ◌*◌, ◌^◌, ◌<◌, ◌≤◌, min};
ghost use Rattle.base.specs.Ranges.{how_many};
ghost use Rattle.bits16.specs.Bits.{bit, Filled, Appended, Lowest, SetSince};
ghost use Rattle.bits16.specs.Runs.{Multiples, RunsOf, Starts};

// The bit i of w.
pub fn get(w: u16, i: usize) -> u16
    requires { i < 16 }
    ensures { result ≡ bit w i }
{
    (w >> i) % 2
}

// 1 if some bit of w is set, and else 0.
pub fn some(w: u16) -> u16
    ensures { result ≡ min 1 w }
{
    if w == 0 { 0 } else { 1 }
}

// w with v as its bit i.
pub fn put(w: u16, i: usize, v: u16) -> u16
    requires { (i < 16) × (v < 2) }
    ensures { Filled w i (i + 1) v result }
{
    let m = 1u16 << i;
    if v == 1 { w | m } else { (w | m) ^ m }
}

// w, of which no bit from i on is set, with v as its bit i.
pub fn append(w: u16, i: usize, v: u16) -> u16
    requires { (i < 16) × (w < 2 ^ i) × (v < 2) }
    ensures { Appended w i v result }
{
    w | (v << i)
}

// w with v as each of its bits from i up to e.
pub fn fill(w: u16, i: usize, e: usize, v: u16) -> u16
    requires { (i ≤ e) × (e ≤ 16) × (v < 2) }
    ensures { Filled w i e v result }
{
    let m = ((1u32 << e) - (1u32 << i)) as u16;
    if v == 1 { w | m } else { (w | m) ^ m }
}

// The place of the lowest set bit of w, or 16.
pub fn lowest(w: u16) -> usize
    ensures { Lowest w 0 result }
{
    u16::trailing_zeros(w) as usize
}

// The place of the lowest set bit of w at i or above, or 16.
pub fn lowest_from(w: u16, i: usize) -> usize
    requires { i < 16 }
    ensures { Lowest w i result }
{
    let high = w >> i;
    if high == 0 {
        return 16;
    }
    i + lowest(high)
}

// The lowest place from which on every bit of w below e is set.
pub fn set_since(w: u16, e: usize) -> usize
    requires { e ≤ 16 }
    ensures { SetSince w e result }
{
    let clear = ((65535 - (w as u32)) % (1u32 << e)) as u16;
    (16 - u16::leading_zeros(clear)) as usize
}

// How many bits of w are set.
pub fn ones(w: u16) -> u32
    ensures { result ≡ how_many (bit w) 16 }
{
    u16::count_ones(w)
}

// For each a up to 4, the places in a word that are multiples of 2 to the power of a.
const MULTIPLES: [u16; 5] = [65535, 21845, 4369, 257, 1];

// The places in a word that are multiples of 2 to the power of a.
pub fn multiples(a: usize) -> u16
    requires { a ≤ 4 }
    ensures { Multiples a result }
{
    MULTIPLES[a]
}

// The places of x from which on n bits are set: x and x shifted, by as much as is known already.
fn runs_of(x: u32, n: usize) -> u32
    requires { (0 < n) × (n ≤ 16) }
    ensures { RunsOf x n result }
{
    let mut m = x;
    let mut k: usize = 1;
    // A `while`: k grows by as much as is known already, and not by one.
    while k < n {
        let d = k.min(n - k);
        m = m & (m >> d);
        k += d;
    }
    m
}

// Those of the given places of the word lo from which on n bits are set, where hi is the word behind it.
pub fn starts(lo: u16, hi: u16, n: usize, places: u16) -> u16
    requires { (0 < n) × (n ≤ 16) }
    ensures { Starts (lo + 65536 * hi) n places result }
{
    let x = (lo as u32) + 65536 * (hi as u32);
    ((runs_of(x, n) % 65536) as u16) & places
}
