// The machines' functions that programs in other languages link: numbers, and pointers with lengths. The
// memories are, in this order and as far as a function needs them: the table of the configuration, the
// machines' words, the tree, the owners and the frames' own words. The machine that asks is named by its
// number.
//
// Each answers 0 or a reason, which is the first that applies where the memories are sound, and a refusal
// leaves every word and byte, and what stands behind the last pointer. Nothing is demanded of the caller
// beyond the types.
#![tactic(auto)]

ghost use Rattle.std.specs.Prelude.{◌≡◌};
ghost use Rattle.machine.specs.declared.Which.TheVariants.{Processors, Devices};
ghost use Rattle.machine.specs.declared.Request.TheVariants.{AddZone, RemoveZone, RemoveZoneWhole, Insert, Remove, Alloc, AllocContiguous, Dealloc, DeallocContiguous};
ghost use Rattle.hv_state.specs.Serving.{mem};
ghost use Rattle.replayframes_machines.specs.Machines.{ServedCode, ServedValue, ZonesCode, OwnersCode, region_with, RegionCode, TranslateCode};

use address::Region;
use codes::{RF_NO_KIND, RF_NO_SET};

// The region with these fields, its kind by its number.
fn region_with(guest: u64, host: u64, pages: u64, kind: u64) -> Region
    ensures { result ≡ region_with guest host pages kind }
{
    Region {
        guest,
        host,
        pages,
        kind: region_words::kind_of(kind),
    }
}

// Adds the machine.
#[unsafe(no_mangle)]
pub extern "C" fn rf_add_zone(table: &[u64], zones: &mut [u64], number: u64) -> u32
    ensures { ZonesCode table.now zones.old number AddZone zones.new result }
{
    machine_codes::code_of(hv_zones::add_zone(table, zones, number))
}

// Removes the machine, which has no region in either set and no frame.
#[unsafe(no_mangle)]
pub extern "C" fn rf_remove_zone(
    table: &[u64],
    zones: &mut [u64],
    tree: &[u16],
    owners: &[u8],
    number: u64,
) -> u32
    ensures { OwnersCode table.now zones.old tree.now owners.now number RemoveZone zones.new result }
{
    machine_codes::code_of(hv_zones::remove_zone(table, zones, tree, owners, number))
}

// Removes the machine with all its regions and frames, which are cleared.
#[unsafe(no_mangle)]
pub extern "C" fn rf_remove_zone_whole(
    table: &[u64],
    zones: &mut [u64],
    tree: &mut [u16],
    owners: &mut [u8],
    words: &mut [u64],
    number: u64,
) -> u32
    ensures { ServedCode (mem table.now zones.old tree.old owners.old words.old) number RemoveZoneWhole (mem table.now zones.new tree.new owners.new words.new) result }
{
    machine_codes::code_of(hv_whole::remove_zone_whole(table, zones, tree, owners, words, number))
}

// Gives the machine's processors a region.
#[unsafe(no_mangle)]
pub extern "C" fn rf_insert_region(
    table: &[u64],
    zones: &mut [u64],
    number: u64,
    guest: u64,
    host: u64,
    pages: u64,
    kind: u64,
) -> u32
    ensures { RegionCode (Insert Processors) table.now zones.old number guest host pages kind zones.new result }
{
    if kind > 2 {
        return RF_NO_KIND;
    }
    let region = region_with(guest, host, pages, kind);
    machine_codes::code_of(hv_regions::insert_region(table, zones, number, region))
}

// Takes a region from the machine's processors: that very region, the same in every field.
#[unsafe(no_mangle)]
pub extern "C" fn rf_remove_region(
    table: &[u64],
    zones: &mut [u64],
    number: u64,
    guest: u64,
    host: u64,
    pages: u64,
    kind: u64,
) -> u32
    ensures { RegionCode (Remove Processors) table.now zones.old number guest host pages kind zones.new result }
{
    if kind > 2 {
        return RF_NO_KIND;
    }
    let region = region_with(guest, host, pages, kind);
    machine_codes::code_of(hv_regions::remove_region(table, zones, number, region))
}

// Gives the machine's devices a region.
#[unsafe(no_mangle)]
pub extern "C" fn rf_insert_iommu_region(
    table: &[u64],
    zones: &mut [u64],
    number: u64,
    guest: u64,
    host: u64,
    pages: u64,
    kind: u64,
) -> u32
    ensures { RegionCode (Insert Devices) table.now zones.old number guest host pages kind zones.new result }
{
    if kind > 2 {
        return RF_NO_KIND;
    }
    let region = region_with(guest, host, pages, kind);
    machine_codes::code_of(hv_regions::insert_iommu_region(table, zones, number, region))
}

// Takes a region from the machine's devices: that very region, the same in every field.
#[unsafe(no_mangle)]
pub extern "C" fn rf_remove_iommu_region(
    table: &[u64],
    zones: &mut [u64],
    number: u64,
    guest: u64,
    host: u64,
    pages: u64,
    kind: u64,
) -> u32
    ensures { RegionCode (Remove Devices) table.now zones.old number guest host pages kind zones.new result }
{
    if kind > 2 {
        return RF_NO_KIND;
    }
    let region = region_with(guest, host, pages, kind);
    machine_codes::code_of(hv_regions::remove_iommu_region(table, zones, number, region))
}

// Gives the machine the lowest free frame, which is empty, and writes its host address.
#[unsafe(no_mangle)]
pub extern "C" fn rf_alloc(
    table: &[u64],
    zones: &[u64],
    tree: &mut [u16],
    owners: &mut [u8],
    words: &[u64],
    number: u64,
    addr: &mut u64,
) -> u32
    ensures { ServedValue (mem table.now zones.now tree.old owners.old words.now) number Alloc (mem table.now zones.now tree.new owners.new words.now) addr.old addr.new result }
{
    let answer = hv_frames::alloc(table, zones, tree, owners, words, number);
    *addr = machine_codes::address_in(answer, *addr);
    machine_codes::code_of(answer)
}

// Gives the machine the lowest run of `size` free frames whose first is a multiple of 2 to the power of
// `align_log2`; all of them are empty. Writes the host address of the first.
#[unsafe(no_mangle)]
pub extern "C" fn rf_alloc_contiguous(
    table: &[u64],
    zones: &[u64],
    tree: &mut [u16],
    owners: &mut [u8],
    words: &[u64],
    number: u64,
    size: usize,
    align_log2: usize,
    addr: &mut u64,
) -> u32
    ensures { ServedValue (mem table.now zones.now tree.old owners.old words.now) number (AllocContiguous size align_log2)
        (mem table.now zones.now tree.new owners.new words.now) addr.old addr.new result }
{
    let answer = hv_frames::alloc_contiguous(
        table, zones, tree, owners, words, number, size, align_log2,
    );
    *addr = machine_codes::address_in(answer, *addr);
    machine_codes::code_of(answer)
}

// The machine gives back the frame at a host address, which is cleared.
#[unsafe(no_mangle)]
pub extern "C" fn rf_dealloc(
    table: &[u64],
    zones: &[u64],
    tree: &mut [u16],
    owners: &mut [u8],
    words: &mut [u64],
    number: u64,
    addr: usize,
) -> u32
    ensures { ServedCode (mem table.now zones.now tree.old owners.old words.old) number (Dealloc addr) (mem table.now zones.now tree.new owners.new words.new) result }
{
    machine_codes::code_of(hv_frames::dealloc(table, zones, tree, owners, words, number, addr))
}

// The machine gives back the `count` frames from a host address on, all or none; they are cleared.
#[unsafe(no_mangle)]
pub extern "C" fn rf_dealloc_contiguous(
    table: &[u64],
    zones: &[u64],
    tree: &mut [u16],
    owners: &mut [u8],
    words: &mut [u64],
    number: u64,
    addr: usize,
    count: usize,
) -> u32
    ensures { ServedCode (mem table.now zones.now tree.old owners.old words.old) number (DeallocContiguous addr count) (mem table.now zones.now tree.new owners.new words.new) result }
{
    machine_codes::code_of(hv_frames::dealloc_contiguous(
        table, zones, tree, owners, words, number, addr, count,
    ))
}

// Writes the host address that a guest address stands for, through a set of the machine: 0 is that of its
// processors, 1 that of its devices.
#[unsafe(no_mangle)]
pub extern "C" fn rf_translate(
    table: &[u64],
    zones: &[u64],
    number: u64,
    which: u64,
    addr: u64,
    host: &mut u64,
) -> u32
    ensures { TranslateCode table.now zones.now number which addr host.old host.new result }
{
    if which > 1 {
        return RF_NO_SET;
    }
    let set = machine_codes::which_of(which);
    let answer = hv_regions::translate(table, zones, number, set, addr);
    *host = machine_codes::address_in(answer, *host);
    machine_codes::code_of(answer)
}
