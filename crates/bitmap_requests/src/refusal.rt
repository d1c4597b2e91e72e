// Why a request is refused, whichever it is.
use bitmap_allocator::{BadRange, NotAllocated, NotFreed, RunNotTaken};
use bitmap_looks::{NoNext, NotTested};
use bitmap_tree::NotFull;
use std::fmt;

// Why a request is refused.
#[derive(Clone, Copy, Debug, PartialEq, Eq)]
pub enum Refusal {
    NoSize,
    Nothing,
    NoRoom,
    Corrupt,
    Empty,
    Reversed,
    NotTaken,
    Outside,
    NotFull,
}

// Each refusal once.
pub const REFUSALS: [Refusal; 9] = [
    Refusal::NoSize,
    Refusal::Nothing,
    Refusal::NoRoom,
    Refusal::Corrupt,
    Refusal::Empty,
    Refusal::Reversed,
    Refusal::NotTaken,
    Refusal::Outside,
    Refusal::NotFull,
];

impl Refusal {
    // Its name.
    pub fn name(self) -> &'static str {
        match self {
            Refusal::NoSize => "no size",
            Refusal::Nothing => "nothing",
            Refusal::NoRoom => "no room",
            Refusal::Corrupt => "corrupt",
            Refusal::Empty => "empty",
            Refusal::Reversed => "reversed",
            Refusal::NotTaken => "not taken",
            Refusal::Outside => "outside",
            Refusal::NotFull => "not full",
        }
    }
}

impl fmt::Display for Refusal {
    fn fmt<W: fmt::Write>(&self, f: &mut fmt::Formatter<W>) -> fmt::Result {
        f.write_str(self.name())
    }
}

impl From<NotFull> for Refusal {
    fn from(_: NotFull) -> Refusal {
        Refusal::NotFull
    }
}

impl From<NotTested> for Refusal {
    fn from(why: NotTested) -> Refusal {
        match why {
            NotTested::Outside => Refusal::Outside,
            NotTested::NotFull => Refusal::NotFull,
        }
    }
}

impl From<NoNext> for Refusal {
    fn from(why: NoNext) -> Refusal {
        match why {
            NoNext::Nothing => Refusal::Nothing,
            NoNext::Corrupt => Refusal::Corrupt,
            NoNext::Outside => Refusal::Outside,
            NoNext::NotFull => Refusal::NotFull,
        }
    }
}

impl From<NotAllocated> for Refusal {
    fn from(why: NotAllocated) -> Refusal {
        match why {
            NotAllocated::NoRoom => Refusal::NoRoom,
            NotAllocated::Corrupt => Refusal::Corrupt,
            NotAllocated::NotFull => Refusal::NotFull,
        }
    }
}

impl From<RunNotTaken> for Refusal {
    fn from(why: RunNotTaken) -> Refusal {
        match why {
            RunNotTaken::NoRoom => Refusal::NoRoom,
            RunNotTaken::Corrupt => Refusal::Corrupt,
            RunNotTaken::Empty => Refusal::Empty,
            RunNotTaken::NotFull => Refusal::NotFull,
        }
    }
}

impl From<NotFreed> for Refusal {
    fn from(why: NotFreed) -> Refusal {
        match why {
            NotFreed::NotTaken => Refusal::NotTaken,
            NotFreed::Outside => Refusal::Outside,
            NotFreed::NotFull => Refusal::NotFull,
        }
    }
}

impl From<BadRange> for Refusal {
    fn from(why: BadRange) -> Refusal {
        match why {
            BadRange::Empty => Refusal::Empty,
            BadRange::Reversed => Refusal::Reversed,
            BadRange::Outside => Refusal::Outside,
            BadRange::NotFull => Refusal::NotFull,
        }
    }
}
