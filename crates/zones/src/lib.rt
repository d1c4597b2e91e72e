// Where the machines' presence and sets lie in lent words. The words are those of all machines of the
// configuration, one machine behind the other, and of each machine: whether it is there (0 or 1), the set
// of its processors and the set of its devices. A set is a count and slots of four words; all sets have
// the same number of slots, which the number of words gives.
#![tactic(auto)]

ghost use Rattle.std.specs.Prelude.{◌≡◌, ◌+◌, ◌*◌, ◌^◌, ◌≤◌, ◌<◌};
ghost use Rattle.zones.specs.declared.NotLocated.{NotLocated};
ghost use Rattle.zones.specs.Layout.{set_at, ShapeSays, LookSays, LocateSays, unlisted, not_located};

use config_table::{NoTable, Unlisted};
use machine::{Reason, Refusal, Which};

// A machine: its place in the configuration, where its words begin, and the slots of each of its sets.
#[derive(Clone, Copy, Debug, PartialEq, Eq)]
pub struct Zone {
    pub index: usize,
    pub place: usize,
    pub slots: usize,
}

// A machine of the configuration, and whether it is there.
#[derive(Clone, Copy, Debug, PartialEq, Eq)]
pub enum Located {
    Here(Zone),
    // It has not been added.
    Away(Zone),
}

// Why a machine is not found.
#[derive(Clone, Copy, Debug, PartialEq, Eq)]
pub enum NotLocated {
    // No machine of the configuration has the number.
    NoMachine,
    // The table or the words are not in order.
    Corrupt,
}

impl From<NoTable> for NotLocated {
    ghost from_gives = { λ _ e. e ≡ NotLocated.Corrupt };

    fn from(_why: NoTable) -> NotLocated {
        Self::Corrupt
    }
}

impl From<Unlisted> for NotLocated {
    ghost from_gives = { λ why e. e ≡ unlisted why };

    fn from(why: Unlisted) -> NotLocated {
        match why {
            Unlisted::NoMachine => Self::NoMachine,
            Unlisted::NoTable => Self::Corrupt,
        }
    }
}

impl From<NotLocated> for Refusal {
    ghost from_gives = { λ why e. e ≡ not_located why };

    fn from(why: NotLocated) -> Refusal {
        match why {
            NotLocated::NoMachine => Self::No(Reason::NoMachine),
            NotLocated::Corrupt => Self::Corrupt,
        }
    }
}

// For how many regions each set of n machines has room; none if the words are not those of n machines.
pub fn measure(zones: &[u64], n: usize) -> Option<usize>
    requires { n ≤ 64 }
    ensures { ShapeSays zones.now n result }
{
    let slots = (zones.len() / n.max(1)).saturating_sub(3) / 8;
    if (3 + 8 * slots) * n != zones.len() {
        return None;
    }
    Some(slots)
}

// Where a set begins of the machine whose words begin at a place.
pub fn set_at(place: usize, slots: usize, which: Which) -> usize
    requires { place + 3 + 8 * slots < 2 ^ 64 }
    ensures { result ≡ set_at place slots which }
{
    match which {
        Which::Processors => place + 1,
        Which::Devices => place + 2 + 4 * slots,
    }
}

// Machine m of n: where its words are, and whether it is there.
pub fn look(zones: &[u64], n: usize, m: usize) -> Result<Located, NotLocated>
    requires { (n ≤ 64) × (m < n) }
    ensures { LookSays zones.now n m result }
{
    let Some(slots) = measure(zones, n) else {
        return Err(NotLocated::Corrupt);
    };
    let place = m * (3 + 8 * slots);
    let zone = Zone {
        index: m,
        place,
        slots,
    };
    match zones[place] {
        0 => Ok(Located::Away(zone)),
        1 => Ok(Located::Here(zone)),
        _ => Err(NotLocated::Corrupt),
    }
}

// Finds the machine that has a number.
#[tactic(auto, using(crate::proofs::Laws::not_listed))]
pub fn locate(table: &[u64], zones: &[u64], number: u64) -> Result<Located, NotLocated>
    ensures { LocateSays table.now zones.now number result }
{
    let m = config_table::machine(table, number)?;
    let n = config_table::machines(table)?;
    look(zones, n, m)
}
