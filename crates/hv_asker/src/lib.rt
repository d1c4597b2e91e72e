// Who asks: the machine that has a number, where its words are, and as which client of the allocator it
// takes and gives back frames.
#![tactic(auto)]

ghost use Rattle.hv_asker.specs.Asking.{AskerSays, ClientSays};

use machine::{Reason, Refusal};
use zones::{Located, Zone};

// A machine as a client of the allocator: its number there, where the allocator's frames begin, and where
// the machine's words begin, with the slots of each of its sets.
#[derive(Clone, Copy, Debug, PartialEq, Eq)]
pub struct Client {
    pub client: u8,
    pub base: usize,
    pub place: usize,
    pub slots: usize,
}

// The machine that has a number and is there.
#[tactic(auto, using(crate::proofs::Laws::unlocated))]
pub fn who_asks(table: &[u64], zones: &[u64], number: u64) -> Result<Zone, Refusal>
    ensures { AskerSays table.now zones.now number result }
{
    match zones::locate(table, zones, number)? {
        Located::Away(_) => Err(Refusal::No(Reason::NotPresent)),
        Located::Here(zone) => Ok(zone),
    }
}

// The client that is the machine that has a number and is there.
pub fn client_that_asks(table: &[u64], zones: &[u64], number: u64) -> Result<Client, Refusal>
    ensures { ClientSays table.now zones.now number result }
{
    let zone = who_asks(table, zones, number)?;
    let Ok(pool) = config_table::pool(table) else {
        return Err(Refusal::Corrupt);
    };
    Ok(Client {
        client: zone.index as u8,
        base: pool.host as usize,
        place: zone.place,
        slots: zone.slots,
    })
}
