// The looks at a configuration's table and at the machines' words that programs in other languages link:
// numbers, and pointers with lengths. Machines are named by their places in the configuration where the
// table alone is looked at, and by their numbers where the machines' words are too. And how much memory to
// lend.
//
// Each answers 0 or a reason, and writes its values through the last pointers, which a refusal leaves
// alone. Nothing is demanded of the caller beyond the types.
#![tactic(auto)]

ghost use Rattle.std.specs.Prelude.{◌≡◌};
ghost use Rattle.replayframes_views.specs.Views.{fields, fields_of, span, MachinesCode, NumberCode, CountCode, RegionCode, PoolCode, ThereCode, SetSizeCode, SetRegionCode, sizes, LendCode};
ghost use Rattle.replayframes_views.specs.Views.{unlisted_code, no_region_code, not_seen_code, unseen_code};

use address::Region;
use codes::{
    RF_CORRUPT, RF_DONE, RF_MANY_MACHINES, RF_MANY_SLOTS, RF_NO_MACHINE, RF_NO_REGION, RF_NO_SET,
    RF_NO_SIZE, RF_NO_TABLE,
};
use config_table::{NoRegion, Unlisted};
use hv_looks::NotSeen;
use lending::TooMany;

// Writes the fields of a region, its kind by its number.
fn write_region(r: Region, guest: &mut u64, host: &mut u64, pages: &mut u64, kind: &mut u64)
    ensures { fields guest.new host.new pages.new kind.new ≡ fields_of r }
{
    let named = r.kind;
    *guest = r.guest;
    *host = r.host;
    *pages = r.pages;
    *kind = region_words::number_of(named);
}

// The code of why nothing is said of a machine of the table.
fn unlisted_code(why: Unlisted) -> u32
    ensures { result ≡ unlisted_code why }
{
    match why {
        Unlisted::NoMachine => RF_NO_MACHINE,
        Unlisted::NoTable => RF_NO_TABLE,
    }
}

// The code of why a region of the table is not found.
fn no_region_code(why: NoRegion) -> u32
    ensures { result ≡ no_region_code why }
{
    match why {
        NoRegion::NoRegion => RF_NO_REGION,
        NoRegion::NoMachine => RF_NO_MACHINE,
        NoRegion::NoTable => RF_NO_TABLE,
    }
}

// The code of why a machine's words say nothing of it.
fn not_seen_code(why: NotSeen) -> u32
    ensures { result ≡ not_seen_code why }
{
    match why {
        NotSeen::NoMachine => RF_NO_MACHINE,
        NotSeen::NoTable => RF_NO_TABLE,
        NotSeen::Corrupt => RF_CORRUPT,
    }
}

// The code of why a machine's words have no such region.
fn unseen_code(why: hv_looks::NoRegion) -> u32
    ensures { result ≡ unseen_code why }
{
    match why {
        hv_looks::NoRegion::NoRegion => RF_NO_REGION,
        hv_looks::NoRegion::NoMachine => RF_NO_MACHINE,
        hv_looks::NoRegion::NoTable => RF_NO_TABLE,
        hv_looks::NoRegion::Corrupt => RF_CORRUPT,
    }
}

// How many machines the configuration has.
#[unsafe(no_mangle)]
pub extern "C" fn rf_config_machines(table: &[u64], machines: &mut u64) -> u32
    ensures { MachinesCode table.now machines.old machines.new result }
{
    match config_table::machines(table) {
        Ok(n) => {
            *machines = n as u64;
            RF_DONE
        }
        Err(_) => RF_NO_TABLE,
    }
}

// The number of the machine at a place.
#[unsafe(no_mangle)]
pub extern "C" fn rf_config_number(table: &[u64], place: u64, number: &mut u64) -> u32
    ensures { NumberCode table.now place number.old number.new result }
{
    match config_table::number(table, place as usize) {
        Ok(n) => {
            *number = n as u64;
            RF_DONE
        }
        Err(why) => unlisted_code(why),
    }
}

// How many regions the machine at a place is given.
#[unsafe(no_mangle)]
pub extern "C" fn rf_config_regions(table: &[u64], place: u64, count: &mut u64) -> u32
    ensures { CountCode table.now place count.old count.new result }
{
    match config_table::count(table, place as usize) {
        Ok(n) => {
            *count = n as u64;
            RF_DONE
        }
        Err(why) => unlisted_code(why),
    }
}

// Region i of those that the machine at a place is given, counted from 0.
#[unsafe(no_mangle)]
pub extern "C" fn rf_config_region(
    table: &[u64],
    place: u64,
    i: u64,
    guest: &mut u64,
    host: &mut u64,
    pages: &mut u64,
    kind: &mut u64,
) -> u32
    ensures { RegionCode table.now place i (fields guest.old host.old pages.old kind.old) (fields guest.new host.new pages.new kind.new) result }
{
    match config_table::region(table, place as usize, i as usize) {
        Ok(region) => {
            write_region(region, guest, host, pages, kind);
            RF_DONE
        }
        Err(why) => no_region_code(why),
    }
}

// The allocator's region: where it begins, and its pages.
#[unsafe(no_mangle)]
pub extern "C" fn rf_config_pool(table: &[u64], host: &mut u64, pages: &mut u64) -> u32
    ensures { PoolCode table.now (span host.old pages.old) (span host.new pages.new) result }
{
    match config_table::pool(table) {
        Ok(region) => {
            *host = region.host;
            *pages = region.pages;
            RF_DONE
        }
        Err(_) => RF_NO_TABLE,
    }
}

// 1 if the machine that has a number is there, and else 0.
#[unsafe(no_mangle)]
pub extern "C" fn rf_zone_there(table: &[u64], zones: &[u64], number: u64, there: &mut u8) -> u32
    ensures { ThereCode table.now zones.now number there.old there.new result }
{
    match hv_looks::is_there(table, zones, number) {
        Ok(answer) => {
            *there = answer as u8;
            RF_DONE
        }
        Err(why) => not_seen_code(why),
    }
}

// How many regions a set of the machine that has a number has: 0 is that of its processors, 1 that of its
// devices.
#[unsafe(no_mangle)]
pub extern "C" fn rf_zone_regions(
    table: &[u64],
    zones: &[u64],
    number: u64,
    which: u64,
    count: &mut u64,
) -> u32
    ensures { SetSizeCode table.now zones.now number which count.old count.new result }
{
    if which > 1 {
        return RF_NO_SET;
    }
    let set = machine_codes::which_of(which);
    match hv_looks::regions(table, zones, number, set) {
        Ok(all) => {
            *count = all as u64;
            RF_DONE
        }
        Err(why) => not_seen_code(why),
    }
}

// Region i of such a set, counted from 0.
#[unsafe(no_mangle)]
pub extern "C" fn rf_zone_region(
    table: &[u64],
    zones: &[u64],
    number: u64,
    which: u64,
    i: u64,
    guest: &mut u64,
    host: &mut u64,
    pages: &mut u64,
    kind: &mut u64,
) -> u32
    ensures { SetRegionCode table.now zones.now number which i (fields guest.old host.old pages.old kind.old) (fields guest.new host.new pages.new kind.new) result }
{
    if which > 1 {
        return RF_NO_SET;
    }
    let set = machine_codes::which_of(which);
    match hv_looks::region(table, zones, number, set, i as usize) {
        Ok(found) => {
            write_region(found, guest, host, pages, kind);
            RF_DONE
        }
        Err(why) => unseen_code(why),
    }
}

// How many words and bytes to lend for so many machines, whose sets have so many slots each, and so many
// frames: the words of the table, of the machines and of the tree, the bytes of the owners, and the
// frames' own words. More than 2^52 frames have no size.
#[unsafe(no_mangle)]
pub extern "C" fn rf_to_lend(
    machines: u64,
    slots: u64,
    frames: u64,
    table: &mut u64,
    zones: &mut u64,
    tree: &mut u64,
    owners: &mut u64,
    words: &mut u64,
) -> u32
    ensures { LendCode machines slots frames (sizes table.old zones.old tree.old owners.old words.old) (sizes table.new zones.new tree.new owners.new words.new) result }
{
    match lending::to_lend(machines as usize, slots as usize, frames as usize) {
        Ok(all) => {
            *table = all.table as u64;
            *zones = all.zones as u64;
            *tree = all.tree as u64;
            *owners = all.owners as u64;
            *words = all.words as u64;
            RF_DONE
        }
        Err(TooMany::Machines) => RF_MANY_MACHINES,
        Err(TooMany::Slots) => RF_MANY_SLOTS,
        Err(TooMany::Frames) => RF_NO_SIZE,
    }
}
