// Whose list it is, there or not, and whether the memories are such that a list can be attempted.
#![tactic(auto)]

ghost use Rattle.list_asker.specs.Listing.{ListerSays};

use zones::NotLocated;

// A machine of the configuration as a client of the allocator, and the address of the allocator's first
// frame.
#[derive(Clone, Copy, Debug, PartialEq, Eq)]
pub struct Lister {
    pub client: u8,
    pub first: usize,
}

// The machine that has a number, where the memories can be worked on; else that no machine of the
// configuration has it, or that the memories are not sound.
pub fn who_lists(
    table: &[u64],
    tree: &[u16],
    owners: &[u8],
    words: &[u64],
    number: u64,
) -> Result<Lister, NotLocated>
    ensures { ListerSays table.now tree.now owners.now words.now number result }
{
    if !contents::is_backed(owners, words) {
        return Err(NotLocated::Corrupt);
    }
    match claims::fitting(tree, owners, 0) {
        Err(_) => Err(NotLocated::Corrupt),
        Ok(()) => {
            let m = config_table::machine(table, number)?;
            let pool = config_table::pool(table)?;
            Ok(Lister {
                client: m as u8,
                first: pool.host as usize,
            })
        }
    }
}
