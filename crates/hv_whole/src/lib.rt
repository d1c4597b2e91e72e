// A whole machine is taken away in one step: its regions, its frames, and itself. The memories are, in this
// order: the table of the configuration, the machines' words, the tree, the owners and the frames' own
// words.
//
// The function takes any words, any bytes and any number, and a refusal leaves every word and byte. Where
// the memories are sound, they stay so, and the answer and what they mean afterwards are those of the
// abstract machine's `step`. "Corrupt" is answered only where they are not.
#![tactic(auto)]

ghost use Rattle.machine.specs.declared.Request.TheVariants.{RemoveZoneWhole};
ghost use Rattle.hv_state.specs.Serving.{Served, mem};
ghost use Rattle.hv_whole.specs.Freeing.{FreedSays};

use machine::Answer;

// Makes all frames of the client c free and clears them, unless the memories are not in order.
fn free_all(tree: &mut [u16], owners: &mut [u8], words: &mut [u64], base: usize, c: u8) -> bool
    ensures { FreedSays base tree.old owners.old words.old c tree.new owners.new words.new result }
{
    frames_pool::release_all(tree, owners, words, base, c).is_ok()
}

// Removes the machine with all its regions and frames, which are cleared.
pub fn remove_zone_whole(
    table: &[u64],
    zones: &mut [u64],
    tree: &mut [u16],
    owners: &mut [u8],
    words: &mut [u64],
    number: u64,
) -> Answer
    ensures { Served (mem table.now zones.old tree.old owners.old words.old) number RemoveZoneWhole (mem table.now zones.new tree.new owners.new words.new) result }
{
    match hv_asker::client_that_asks(table, zones, number) {
        Err(why) => Answer::from(why),
        Ok(c) => {
            if !free_all(tree, owners, words, c.base, c.client) {
                return Answer::Corrupt;
            }
            base::zero(zones, c.place, c.place + (3 + 8 * c.slots));
            Answer::Done
        }
    }
}
