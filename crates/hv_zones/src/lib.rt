// Machines come and go: a machine of the configuration is added, and removed when it is empty. The machine
// that asks is named by its number. The memories are those of the order that the request needs: the table
// of the configuration, the machines' words, the tree and the owners.
//
// Every function takes any words, any bytes and any number, and a refusal leaves every word. Where the
// memories are sound, they stay so, whatever the others hold that make them sound, and the answer and what
// they mean afterwards are those of the abstract machine's `step`: a refusal has the first reason that
// applies. "Corrupt" is answered only where they are not.
#![tactic(auto)]

ghost use Rattle.std.specs.Prelude.{List, ℕ};
ghost use Rattle.machine.specs.declared.Request.TheVariants.{AddZone, RemoveZone};
ghost use Rattle.hv_state.specs.Serving.{Served, mem};

use machine::{Answer, Reason, Refusal};
use zones::Located;

// Adds the machine.
pub fn add_zone(table: &[u64], zones: &mut [u64], number: u64) -> Answer
    ensures { (t o w : List ℕ) → Served (mem table.now zones.old t o w) number AddZone (mem table.now zones.new t o w) result }
{
    match zones::locate(table, zones, number) {
        Err(why) => Answer::from(Refusal::from(why)),
        Ok(Located::Here(_)) => Answer::No(Reason::Present),
        Ok(Located::Away(zone)) => {
            zones[zone.place] = 1;
            Answer::Done
        }
    }
}

// Removes the machine, which has no region in either set and no frame.
pub fn remove_zone(
    table: &[u64],
    zones: &mut [u64],
    tree: &[u16],
    owners: &[u8],
    number: u64,
) -> Answer
    ensures { (w : List ℕ) → Served (mem table.now zones.old tree.now owners.now w) number RemoveZone (mem table.now zones.new tree.now owners.now w) result }
{
    let zone = match hv_asker::who_asks(table, zones, number) {
        Ok(zone) => zone,
        Err(why) => return Answer::from(why),
    };
    match hv_empty::has_no_region(zones, zone.place, zone.slots) {
        Err(_) => Answer::Corrupt,
        Ok(false) => Answer::No(Reason::NotEmpty),
        Ok(true) => match hv_empty::has_no_frame(tree, owners, zone.index as u8) {
            Err(_) => Answer::Corrupt,
            Ok(false) => Answer::No(Reason::NotEmpty),
            Ok(true) => {
                zones[zone.place] = 0;
                Answer::Done
            }
        },
    }
}
