// A machine's requests about its regions: those of its processors, and those of its devices (through the
// IOMMU). The machine that asks is named by its number; it changes its own sets alone, and any region that
// the configuration gives it may enter either. The memories are the first two of the order: the table of
// the configuration and the machines' words.
//
// Every function takes any words and any arguments, and a refusal leaves every word. Where the memories are
// sound, they stay so, whatever the others hold that make them sound, and the answer and what they mean
// afterwards are those of the abstract machine's `step`: a refusal has the first reason that applies.
// "Corrupt" is answered only where they are not.
#![tactic(auto)]

ghost use Rattle.std.specs.Prelude.{List, ℕ};
ghost use Rattle.machine.specs.declared.Which.TheVariants.{Processors, Devices};
ghost use Rattle.machine.specs.declared.Request.TheVariants.{Insert, Remove, Translate};
ghost use Rattle.hv_state.specs.Serving.{Served, mem};

use address::Region;
use machine::{Answer, Reason, Which};
use memory_set::NotMapped;
use memory_set_changes::NotRemoved;

// Puts a region into a set of the machine.
fn enter(table: &[u64], zones: &mut [u64], number: u64, which: Which, region: Region) -> Answer
    ensures { (t o w : List ℕ) → Served (mem table.now zones.old t o w) number (Insert which region) (mem table.now zones.new t o w) result }
{
    match hv_sets::set_that_is_asked(table, zones, number, which) {
        Err(why) => Answer::from(why),
        Ok(spot) => match config_table::is_given(table, spot.index, region) {
            Err(_) => Answer::Corrupt,
            Ok(None) => Answer::No(Reason::NotGiven),
            Ok(Some(_)) => match memory_set_changes::insert(zones, spot.at, spot.slots, region) {
                Ok(()) => Answer::Done,
                Err(why) => hv_sets::of_not_inserted(why),
            },
        },
    }
}

// Takes a region out of a set of the machine.
fn leave(table: &[u64], zones: &mut [u64], number: u64, which: Which, region: Region) -> Answer
    ensures { (t o w : List ℕ) → Served (mem table.now zones.old t o w) number (Remove which region) (mem table.now zones.new t o w) result }
{
    match hv_sets::set_that_is_asked(table, zones, number, which) {
        Err(why) => Answer::from(why),
        Ok(spot) => match memory_set_changes::remove(zones, spot.at, spot.slots, region) {
            Ok(_) => Answer::Done,
            Err(NotRemoved::NotThere) => Answer::No(Reason::NotInSet),
            Err(NotRemoved::Bad(_)) => Answer::Corrupt,
        },
    }
}

// Gives the machine's processors a region.
pub fn insert_region(table: &[u64], zones: &mut [u64], number: u64, region: Region) -> Answer
    ensures { (t o w : List ℕ) → Served (mem table.now zones.old t o w) number (Insert Processors region) (mem table.now zones.new t o w) result }
{
    enter(table, zones, number, Which::Processors, region)
}

// Takes a region from the machine's processors: that very region, the same in every field.
pub fn remove_region(table: &[u64], zones: &mut [u64], number: u64, region: Region) -> Answer
    ensures { (t o w : List ℕ) → Served (mem table.now zones.old t o w) number (Remove Processors region) (mem table.now zones.new t o w) result }
{
    leave(table, zones, number, Which::Processors, region)
}

// Gives the machine's devices a region.
pub fn insert_iommu_region(table: &[u64], zones: &mut [u64], number: u64, region: Region) -> Answer
    ensures { (t o w : List ℕ) → Served (mem table.now zones.old t o w) number (Insert Devices region) (mem table.now zones.new t o w) result }
{
    enter(table, zones, number, Which::Devices, region)
}

// Takes a region from the machine's devices: that very region, the same in every field.
pub fn remove_iommu_region(table: &[u64], zones: &mut [u64], number: u64, region: Region) -> Answer
    ensures { (t o w : List ℕ) → Served (mem table.now zones.old t o w) number (Remove Devices region) (mem table.now zones.new t o w) result }
{
    leave(table, zones, number, Which::Devices, region)
}

// The host address that a guest address stands for, through a set of the machine.
pub fn translate(table: &[u64], zones: &[u64], number: u64, which: Which, addr: u64) -> Answer
    ensures { (t o w : List ℕ) → Served (mem table.now zones.now t o w) number (Translate which addr) (mem table.now zones.now t o w) result }
{
    match hv_sets::set_that_is_asked(table, zones, number, which) {
        Err(why) => Answer::from(why),
        Ok(spot) => match memory_set::translate(zones, spot.at, spot.slots, addr) {
            Ok(host) => Answer::Address(host),
            Err(NotMapped::NoRegion) => Answer::No(Reason::NotMapped),
            Err(NotMapped::Bad(_)) => Answer::Corrupt,
        },
    }
}
