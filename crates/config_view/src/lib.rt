// A configuration where it lies: in bytes, or in the words of a table. Whatever is decided of a
// configuration is written once, for both. `at` is where the fields of machine m start.
#![tactic(auto)]

ghost use Rattle.std.specs.Prelude.{◌≡◌, suc, ◌+◌, ◌≤◌, ◌<◌, length};
ghost use Rattle.config_view.specs.View.{viewed, place, InView};

use address::{Kind, Region};

// Where a configuration lies.
#[derive(Clone, Copy)]
pub enum View<'a> {
    Bytes(&'a [u8]),
    Table(&'a [u64]),
}

impl View<'_> {
    // How many machines there are.
    pub fn machines(&self) -> usize
        requires { InView self.now }
        ensures { (result ≡ (viewed self.now).machines) × (result ≤ 64) }
    {
        match *self {
            View::Bytes(s) => config_bytes::u16_at(s, 0) as usize,
            View::Table(t) => (t[8320] as usize).min(64),
        }
    }

    // Where the fields of the first machine start.
    pub fn first(&self) -> usize
        ensures { result ≡ place self.now 0 }
    {
        match *self {
            View::Bytes(_) => 2,
            View::Table(_) => 0,
        }
    }

    // Where the fields of the next machine start.
    pub fn next(&self, m: usize, at: usize) -> usize
        requires in_view { InView self.now }
        requires m_bound { (m < (viewed self.now).machines) × (at ≡ place self.now m) }
        ensures { result ≡ place self.now (suc m) }
    {
        match *self {
            View::Bytes(s) => at + (4 + 25 * (config_bytes::u16_at(s, at + 2) as usize)),
            View::Table(_) => at + 130,
        }
    }

    // The number of machine m.
    pub fn number(&self, m: usize, at: usize) -> u64
        requires in_view { InView self.now }
        requires m_bound { (m < (viewed self.now).machines) × (at ≡ place self.now m) }
        ensures { result ≡ (viewed self.now).number m }
    {
        match *self {
            View::Bytes(s) => config_bytes::u16_at(s, at),
            View::Table(t) => t[at] % 65536,
        }
    }

    // How many regions machine m has.
    pub fn count(&self, m: usize, at: usize) -> usize
        requires in_view { InView self.now }
        requires m_bound { (m < (viewed self.now).machines) × (at ≡ place self.now m) }
        ensures { (result ≡ (viewed self.now).count m) × (result ≤ 32) }
    {
        match *self {
            View::Bytes(s) => config_bytes::u16_at(s, at + 2) as usize,
            View::Table(t) => (t[at + 1] as usize).min(32),
        }
    }

    // Region i of machine m.
    pub fn region(&self, m: usize, at: usize, i: usize) -> Region
        requires in_view { InView self.now }
        requires m_bound { (m < (viewed self.now).machines) × (at ≡ place self.now m) }
        requires i_bound { i < (viewed self.now).count m }
        ensures { result ≡ (viewed self.now).region m i }
    {
        match *self {
            View::Bytes(s) => config_bytes::region_at(s, at + (4 + 25 * i)),
            View::Table(t) => region_words::get(t, at + (2 + 4 * i)),
        }
    }

    // Where the fields of the allocator's region start, in bytes.
    pub fn end(&self) -> usize
        requires { InView self.now }
        ensures { result ≡ place self.now (viewed self.now).machines }
    {
        let n = self.machines();
        let mut at = self.first();
        for m in 0..n {
            at = self.next(m, at);
        }
        at
    }

    // The allocator's region.
    pub fn pool(&self) -> Region
        requires { InView self.now }
        ensures { result ≡ (viewed self.now).pool }
    {
        match *self {
            View::Bytes(s) => {
                let at = self.end();
                Region {
                    guest: 0,
                    host: config_bytes::u64_at(s, at),
                    pages: config_bytes::u64_at(s, at + 8),
                    kind: Kind::Ordinary,
                }
            }
            View::Table(t) => region_words::get(t, 8321),
        }
    }
}
