// A machine's requests about a set of its regions, where the set is given as a value. The memories are the
// first two of the order: the table of the configuration and the machines' words. hv_regions has a function for each
// set, as the exported functions do.
//
// Every function takes any words and any arguments, and serves the request, whatever the other memories hold.
#![tactic(auto)]

ghost use Rattle.std.specs.Prelude.{List, ℕ};
ghost use Rattle.machine.specs.declared.Request.TheVariants.{Insert, Remove};
ghost use Rattle.hv_state.specs.Serving.{Served, mem};

use address::Region;
use machine::{Answer, Which};

// Puts a region into a set of the machine.
pub fn insert(table: &[u64], zones: &mut [u64], number: u64, which: Which, region: Region) -> Answer
    ensures { (t o w : List ℕ) → Served (mem table.now zones.old t o w) number (Insert which region) (mem table.now zones.new t o w) result }
{
    match which {
        Which::Processors => hv_regions::insert_region(table, zones, number, region),
        Which::Devices => hv_regions::insert_iommu_region(table, zones, number, region),
    }
}

// Takes a region out of a set of the machine.
pub fn remove(table: &[u64], zones: &mut [u64], number: u64, which: Which, region: Region) -> Answer
    ensures { (t o w : List ℕ) → Served (mem table.now zones.old t o w) number (Remove which region) (mem table.now zones.new t o w) result }
{
    match which {
        Which::Processors => hv_regions::remove_region(table, zones, number, region),
        Which::Devices => hv_regions::remove_iommu_region(table, zones, number, region),
    }
}
