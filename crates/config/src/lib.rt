// The configuration: which machines there are and what memory each is given, as bytes.
//
// `check` decides bytes, and `load` writes an accepted configuration into a table in lent words, which
// `check_table` decides. What a table holds is asked of config_table. Every function takes any bytes and any
// words of any length, and asks nothing of its caller.
#![tactic(auto)]

ghost use Rattle.std.specs.Prelude.{◌≡◌};
ghost use Rattle.config.specs.declared.NotLoaded.{NotLoaded};
ghost use Rattle.config.specs.declared.BadTable.{BadTable};
ghost use Rattle.config.specs.declared.NotEncoded.{NotEncoded};
ghost use Rattle.config.specs.Checking.{reason_of, CheckSays};
ghost use Rattle.config.specs.Loading.{LoadSays};
ghost use Rattle.config.specs.Tables.{CheckTableSays};
ghost use Rattle.config.specs.Encoding.{EncodeSays};

use config_bytes::Misread;
pub use config_rules::Reason;
use config_view::View;

// Why nothing was loaded.
#[derive(Clone, Copy, Debug, PartialEq, Eq)]
pub enum NotLoaded {
    // The bytes are refused, for the first reason that there is.
    Refused(Reason),
    // The words are not as many as a table has.
    NoTable,
}

impl From<Reason> for NotLoaded {
    ghost from_gives = { λ r e. e ≡ NotLoaded.Refused r };

    fn from(r: Reason) -> NotLoaded {
        NotLoaded::Refused(r)
    }
}

// Why words are not a table that `load` can write.
#[derive(Clone, Copy, Debug, PartialEq, Eq)]
pub enum BadTable {
    // Some word is not as `load` writes it.
    Stray,
    // The configuration that they mean is not right, for the first reason that there is.
    Refused(Reason),
    // The words are not as many as a table has.
    NoTable,
}

impl From<Reason> for BadTable {
    ghost from_gives = { λ r e. e ≡ BadTable.Refused r };

    fn from(r: Reason) -> BadTable {
        BadTable::Refused(r)
    }
}

// Why the configuration of a table was not written as bytes.
#[derive(Clone, Copy, Debug, PartialEq, Eq)]
pub enum NotEncoded {
    // It takes so many bytes, and there is no room for them.
    NoRoom(usize),
    // The table is refused, as `check_table` refuses it.
    Table(BadTable),
}

impl From<BadTable> for NotEncoded {
    ghost from_gives = { λ b e. e ≡ NotEncoded.Table b };

    fn from(b: BadTable) -> NotEncoded {
        NotEncoded::Table(b)
    }
}

// The reason that a field is refused for. No `From`, since both types are other crates'.
fn reason_of(e: Misread) -> Reason
    ensures { result ≡ reason_of e }
{
    match e {
        Misread::TooShort(at) => Reason::TooShort(at),
        Misread::TooManyMachines => Reason::TooManyMachines,
        Misread::TooManyRegions(m) => Reason::TooManyRegions(m),
        Misread::UnknownKind(m, i) => Reason::UnknownKind(m, i),
    }
}

// Decides whether bytes are a configuration that is right, and answers how many machines it has.
pub fn check(bytes: &[u8]) -> Result<usize, Reason>
    ensures { CheckSays bytes.now result }
{
    if let Err(e) = config_bytes::read_all(bytes) {
        return Err(reason_of(e));
    }
    let v = View::Bytes(bytes);
    config_rules::judge(&v)?;
    let end = v.end();
    if end + 16 < bytes.len() {
        return Err(Reason::LeftOver(end + 16));
    }
    Ok(v.machines())
}

// Writes an accepted configuration into a table, every word of it, or none, and answers how many machines it
// has.
pub fn load(bytes: &[u8], table: &mut [u64]) -> Result<usize, NotLoaded>
    ensures { LoadSays bytes.now table.old table.new result }
{
    if table.len() != 8325 {
        return Err(NotLoaded::NoTable);
    }
    let machines = check(bytes)?;
    config_write::write_table(&View::Bytes(bytes), table);
    Ok(machines)
}

// Decides whether words are a table that `load` can write, and answers how many machines it has.
pub fn check_table(table: &[u64]) -> Result<usize, BadTable>
    ensures { CheckTableSays table.now result }
{
    if table.len() != 8325 {
        return Err(BadTable::NoTable);
    }
    if !config_kept::table_kept(table) {
        return Err(BadTable::Stray);
    }
    let v = View::Table(table);
    config_rules::judge(&v)?;
    Ok(v.machines())
}

// Writes the configuration of a table as bytes, those that `load` makes the table from, and answers how many
// they are.
pub fn encode(table: &[u64], out: &mut [u8]) -> Result<usize, NotEncoded>
    ensures { EncodeSays table.now out.old out.new result }
{
    check_table(table)?;
    let n = config_encode::size_of(table);
    if out.len() < n {
        return Err(NotEncoded::NoRoom(n));
    }
    config_encode::put_all(table, out);
    Ok(n)
}
