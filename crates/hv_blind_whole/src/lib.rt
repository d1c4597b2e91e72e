// A whole machine is taken away in one step, without the frames' own words: its regions, its frames, and
// itself. The memories are the first four of the order: the table of the configuration, the machines' words,
// the tree and the owners.
//
// The function takes any words, any bytes and any number, and serves the request for whatever words the
// frames have that are all 0: to clear them changes nothing.
#![tactic(auto)]

ghost use Rattle.machine.specs.declared.Request.TheVariants.{RemoveZoneWhole};
ghost use Rattle.hv_blind.specs.Blind.{ServedBlind};

use machine::Answer;

// Removes the machine with all its regions and frames.
pub fn remove_zone_whole(
    table: &[u64],
    zones: &mut [u64],
    tree: &mut [u16],
    owners: &mut [u8],
    number: u64,
) -> Answer
    ensures { ServedBlind table.now zones.old tree.old owners.old number RemoveZoneWhole zones.new tree.new owners.new result }
{
    let c = match hv_asker::client_that_asks(table, zones, number) {
        Ok(c) => c,
        Err(why) => return Answer::from(why),
    };
    match allocator_pool::release_all(tree, owners, c.base, c.client) {
        Ok(()) => {
            base::zero(zones, c.place, c.place + (3 + 8 * c.slots));
            Answer::Done
        }
        Err(_) => Answer::Corrupt,
    }
}
