// A machine's request given as a value. The machine that asks is named by its number. The memories are, in
// this order: the table of the configuration, the machines' words, the tree, the owners and the frames' own
// words.
//
// The function takes any words, any bytes and any request, and a refusal leaves every word and byte. Where
// the memories are sound, they stay so, and the answer and what they mean afterwards are those of the
// abstract machine's `step`: a refusal has the first reason that applies. "Corrupt" is answered only where
// they are not.
#![tactic(auto)]

ghost use Rattle.hv_state.specs.Serving.{Served, mem};

use machine::{Answer, Request};

// Does what the machine asks.
pub fn serve_request(
    table: &[u64],
    zones: &mut [u64],
    tree: &mut [u16],
    owners: &mut [u8],
    words: &mut [u64],
    number: u64,
    q: Request,
) -> Answer
    ensures { Served (mem table.now zones.old tree.old owners.old words.old) number q (mem table.now zones.new tree.new owners.new words.new) result }
{
    match q {
        Request::AddZone => hv_zones::add_zone(table, zones, number),
        Request::RemoveZone => hv_zones::remove_zone(table, zones, tree, owners, number),
        Request::RemoveZoneWhole => {
            hv_whole::remove_zone_whole(table, zones, tree, owners, words, number)
        }
        Request::Insert { which, region } => {
            hv_dispatch::insert(table, zones, number, which, region)
        }
        Request::Remove { which, region } => {
            hv_dispatch::remove(table, zones, number, which, region)
        }
        Request::Translate { which, addr } => {
            hv_regions::translate(table, zones, number, which, addr)
        }
        Request::Alloc => hv_frames::alloc(table, zones, tree, owners, words, number),
        Request::AllocContiguous { size, align_log2 } => {
            hv_frames::alloc_contiguous(table, zones, tree, owners, words, number, size, align_log2)
        }
        Request::Dealloc { addr } => {
            hv_frames::dealloc(table, zones, tree, owners, words, number, addr)
        }
        Request::DeallocContiguous { addr, count } => {
            hv_frames::dealloc_contiguous(table, zones, tree, owners, words, number, addr, count)
        }
    }
}
