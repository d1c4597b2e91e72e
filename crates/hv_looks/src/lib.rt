// What the machines' words say of a machine: whether it is there, and which regions its processors and its
// devices have. The machine is named by its number.
//
// Every function takes any words and any arguments, and changes nothing. The answer is what the words mean
// to the abstract machine, and "corrupt" is answered only where the words of that machine are not in order.
#![tactic(auto)]

ghost use Rattle.std.specs.Prelude.{◌≡◌};
ghost use Rattle.hv_looks.specs.Looks.{Inside, SpotSays, PlaceSays, PresenceSays, SetSizeSays, SetRegionSays, not_seen, no_region};

use address::Region;
use machine::Which;
use zones::{Located, NotLocated, Zone};

// Why a machine's words say nothing of it.
#[derive(Clone, Copy, Debug, PartialEq, Eq)]
pub enum NotSeen {
    // No machine of the configuration has the number.
    NoMachine,
    // The words are not as many as a table has.
    NoTable,
    // The words are not those of the configuration's machines, the first of that machine's is neither 0 nor 1, or
    // the set that is asked about is not in order.
    Corrupt,
}

// Why there is no region to see.
#[derive(Clone, Copy, Debug, PartialEq, Eq)]
pub enum NoRegion {
    // The set has no such region.
    NoRegion,
    // No machine of the configuration has the number.
    NoMachine,
    // The words are not as many as a table has.
    NoTable,
    // The words are not in order, as of `NotSeen`.
    Corrupt,
}

impl From<NotLocated> for NotSeen {
    ghost from_gives = { λ why e. e ≡ not_seen why };

    fn from(why: NotLocated) -> NotSeen {
        match why {
            NotLocated::NoMachine => Self::NoMachine,
            NotLocated::Corrupt => Self::Corrupt,
        }
    }
}

impl From<NotSeen> for NoRegion {
    ghost from_gives = { λ why e. e ≡ no_region why };

    fn from(why: NotSeen) -> NoRegion {
        match why {
            NotSeen::NoMachine => Self::NoMachine,
            NotSeen::NoTable => Self::NoTable,
            NotSeen::Corrupt => Self::Corrupt,
        }
    }
}

// A set of regions: where it begins, and how many it has.
#[derive(Clone, Copy, Debug, PartialEq, Eq)]
struct Spot {
    at: usize,
    count: usize,
}

// A set of the machine whose words are a zone's, if it is in order.
#[tactic(auto, using(crate::proofs::Laws::spot_good, crate::proofs::Laws::spot_bad))]
fn spot_in(zones: &[u64], zone: Zone, which: Which) -> Option<Spot>
    requires { Inside zones.now zone }
    ensures { SpotSays zones.now zone which result }
{
    let at = zones::set_at(zone.place, zone.slots, which);
    match set_claims::count(zones, at, zone.slots) {
        Err(_) => None,
        Ok(count) => Some(Spot { at, count }),
    }
}

// A set of the machine that has a number.
#[tactic(auto, using(crate::proofs::Laws::set_not_seen))]
fn set_of(table: &[u64], zones: &[u64], number: u64, which: Which) -> Result<Spot, NotSeen>
    ensures { PlaceSays table.now zones.now number which result }
{
    if table.len() != 8325 {
        return Err(NotSeen::NoTable);
    }
    let zone = match zones::locate(table, zones, number)? {
        Located::Away(zone) => zone,
        Located::Here(zone) => zone,
    };
    spot_in(zones, zone, which).ok_or(NotSeen::Corrupt)
}

// Whether the machine that has a number is there.
#[tactic(auto, using(crate::proofs::Laws::machine_not_seen))]
pub fn is_there(table: &[u64], zones: &[u64], number: u64) -> Result<bool, NotSeen>
    ensures { PresenceSays table.now zones.now number result }
{
    if table.len() != 8325 {
        return Err(NotSeen::NoTable);
    }
    match zones::locate(table, zones, number)? {
        Located::Away(_) => Ok(false),
        Located::Here(_) => Ok(true),
    }
}

// How many regions a set of the machine that has a number has.
pub fn regions(table: &[u64], zones: &[u64], number: u64, which: Which) -> Result<usize, NotSeen>
    ensures { SetSizeSays table.now zones.now number which result }
{
    Ok(set_of(table, zones, number, which)?.count)
}

// Region i of a set of the machine that has a number, counted from 0.
pub fn region(
    table: &[u64],
    zones: &[u64],
    number: u64,
    which: Which,
    i: usize,
) -> Result<Region, NoRegion>
    ensures { SetRegionSays table.now zones.now number which i result }
{
    let spot = set_of(table, zones, number, which)?;
    if spot.count <= i {
        return Err(NoRegion::NoRegion);
    }
    Ok(region_words::get(zones, spot.at + 1 + 4 * i))
}
