// The set that a request is about: which machine asks, and where the words of its set are. And the set's
// reasons as answers to a machine.
#![tactic(auto)]

ghost use Rattle.std.specs.Prelude.{◌≡◌};
ghost use Rattle.hv_sets.specs.Asked.{AskedSays, of_not_inserted};

use machine::{Answer, Reason, Refusal, Which};
use set_claims::NotInserted;

// A set of the machine that asks: the machine's place in the configuration, where the set begins, and
// its slots.
#[derive(Clone, Copy, Debug, PartialEq, Eq)]
pub struct Spot {
    pub index: usize,
    pub at: usize,
    pub slots: usize,
}

// A set of the machine that has a number and is there.
#[tactic(auto, using(crate::proofs::Laws::spot_is))]
pub fn set_that_is_asked(
    table: &[u64],
    zones: &[u64],
    number: u64,
    which: Which,
) -> Result<Spot, Refusal>
    ensures { AskedSays table.now zones.now number which result }
{
    let zone = hv_asker::who_asks(table, zones, number)?;
    let at = zones::set_at(zone.place, zone.slots, which);
    Ok(Spot {
        index: zone.index,
        at,
        slots: zone.slots,
    })
}

// Why a region does not go in. Not a From, since both types are other crates'. A reason that sound memories never give is "corrupt".
pub fn of_not_inserted(why: NotInserted) -> Answer
    ensures { result ≡ of_not_inserted why }
{
    match why {
        NotInserted::Bad(_) => Answer::Corrupt,
        NotInserted::NotValid(_) => Answer::Corrupt,
        NotInserted::Overlap => Answer::No(Reason::Overlap),
        NotInserted::NoRoom => Answer::No(Reason::NoRoom),
    }
}
