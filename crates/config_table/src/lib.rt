// What the table of a configuration holds: the machines, the regions that each is given, and the
// allocator's region.
//
// Every function takes any words of any length. Of a table as `config::load` writes it the answers are
// those of the configuration; `config::check_table` decides whether words are one.
#![tactic(auto)]

ghost use Rattle.config_table.specs.Holding.{MachinesSays, MachineSays, NumberSays, CountSays, RegionSays, PoolSays, GivenSays, unlisted};
ghost use Rattle.std.specs.Prelude.{◌≡◌};
ghost use Rattle.config_table.specs.declared.Unlisted.{Unlisted};

use address::Region;

// The words are not as many as a table has.
#[derive(Clone, Copy, Debug, PartialEq, Eq)]
pub struct NoTable;

// Why nothing is said of a machine.
#[derive(Clone, Copy, Debug, PartialEq, Eq)]
pub enum Unlisted {
    // There is no such machine.
    NoMachine,
    // The words are not as many as a table has.
    NoTable,
}

// Why a machine's region is not found.
#[derive(Clone, Copy, Debug, PartialEq, Eq)]
pub enum NoRegion {
    // The machine has no such region.
    NoRegion,
    // There is no such machine.
    NoMachine,
    // The words are not as many as a table has.
    NoTable,
}

impl From<NoTable> for Unlisted {
    ghost from_gives = { λ _ e. e ≡ Unlisted.NoTable };

    fn from(_why: NoTable) -> Unlisted {
        Self::NoTable
    }
}

impl From<Unlisted> for NoRegion {
    ghost from_gives = { λ why e. e ≡ unlisted why };

    fn from(why: Unlisted) -> NoRegion {
        match why {
            Unlisted::NoMachine => Self::NoMachine,
            Unlisted::NoTable => Self::NoTable,
        }
    }
}

// How many machines there are.
pub fn machines(table: &[u64]) -> Result<usize, NoTable>
    ensures { MachinesSays table.now result }
{
    if table.len() != 8325 {
        return Err(NoTable);
    }
    Ok((table[8320] as usize).min(64))
}

// The machine that has a number.
pub fn machine(table: &[u64], number: u64) -> Result<usize, Unlisted>
    ensures { MachineSays table.now number result }
{
    let n = machines(table)?;
    for m in 0..n {
        if table[130 * m] % 65536 == number {
            return Ok(m);
        }
    }
    Err(Unlisted::NoMachine)
}

// The number of machine m.
pub fn number(table: &[u64], m: usize) -> Result<usize, Unlisted>
    ensures { NumberSays table.now m result }
{
    let n = machines(table)?;
    if n <= m {
        return Err(Unlisted::NoMachine);
    }
    Ok((table[130 * m] % 65536) as usize)
}

// How many regions machine m has.
pub fn count(table: &[u64], m: usize) -> Result<usize, Unlisted>
    ensures { CountSays table.now m result }
{
    let n = machines(table)?;
    if n <= m {
        return Err(Unlisted::NoMachine);
    }
    Ok((table[130 * m + 1] as usize).min(32))
}

// Region i of machine m.
pub fn region(table: &[u64], m: usize, i: usize) -> Result<Region, NoRegion>
    ensures { RegionSays table.now m i result }
{
    let n = count(table, m)?;
    if n <= i {
        return Err(NoRegion::NoRegion);
    }
    Ok(region_words::get(table, 130 * m + (2 + 4 * i)))
}

// The allocator's region.
pub fn pool(table: &[u64]) -> Result<Region, NoTable>
    ensures { PoolSays table.now result }
{
    if table.len() != 8325 {
        return Err(NoTable);
    }
    Ok(region_words::get(table, 8321))
}

// Which region of machine m is the first that is the same as r in every field, where there is one.
pub fn is_given(table: &[u64], m: usize, r: Region) -> Result<Option<usize>, Unlisted>
    ensures { GivenSays table.now m r result }
{
    let n = count(table, m)?;
    for i in 0..n {
        let found = region_words::get(table, 130 * m + (2 + 4 * i));
        if r == found {
            return Ok(Some(i));
        }
    }
    Ok(None)
}
