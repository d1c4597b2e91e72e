// A request given as a value, served without the frames' own words. The memories are the first four of the
// order: the table of the configuration, the machines' words, the tree and the owners.
//
// The function takes any words, any bytes and any request, and serves it for whatever words the frames have
// that are all 0: to clear them changes nothing.
#![tactic(auto)]

ghost use Rattle.hv_blind.specs.Blind.{ServedBlind};

use machine::{Answer, Request};

// Does what the machine asks.
pub fn attempt(
    table: &[u64],
    zones: &mut [u64],
    tree: &mut [u16],
    owners: &mut [u8],
    number: u64,
    q: Request,
) -> Answer
    ensures { ServedBlind table.now zones.old tree.old owners.old number q zones.new tree.new owners.new result }
{
    match q {
        Request::AddZone => hv_zones::add_zone(table, zones, number),
        Request::RemoveZone => hv_zones::remove_zone(table, zones, tree, owners, number),
        Request::RemoveZoneWhole => {
            hv_blind_whole::remove_zone_whole(table, zones, tree, owners, number)
        }
        Request::Insert { which, region } => {
            hv_dispatch::insert(table, zones, number, which, region)
        }
        Request::Remove { which, region } => {
            hv_dispatch::remove(table, zones, number, which, region)
        }
        Request::Translate { which, addr } => {
            hv_regions::translate(table, zones, number, which, addr)
        }
        Request::Alloc => hv_blind::alloc(table, zones, tree, owners, number),
        Request::AllocContiguous { size, align_log2 } => {
            hv_blind::alloc_contiguous(table, zones, tree, owners, number, size, align_log2)
        }
        Request::Dealloc { addr } => hv_blind::dealloc(table, zones, tree, owners, number, addr),
        Request::DeallocContiguous { addr, count } => {
            hv_blind::dealloc_contiguous(table, zones, tree, owners, number, addr, count)
        }
    }
}
