// Writes a configuration into a table: every word of it, those that nothing uses too.
#![tactic(auto)]

ghost use Rattle.std.specs.Prelude.{◌≡◌, suc, ◌≤◌, ◌<◌, length};
ghost use Rattle.config_view.specs.Table.{Table, number_in, count_in, region_in};
ghost use Rattle.config_view.specs.View.{viewed, place, InView};
ghost use Rattle.config_write.specs.Writing.{WroteRegions, WroteMachine, WroteMachines};

use address::{Kind, Region};
use config_view::View;

// What the table holds at place i of machine m, which has n regions.
pub fn region_in(v: &View<'_>, m: usize, at: usize, n: usize, i: usize) -> Region
    requires in_view { InView v.now }
    requires n_value { (n ≡ count_in (viewed v.now) m) × (m < (viewed v.now).machines → at ≡ place v.now m) }
    ensures { result ≡ region_in (viewed v.now) m i }
{
    if i < n {
        return v.region(m, at, i);
    }
    Region {
        guest: 0,
        host: 0,
        pages: 0,
        kind: Kind::Ordinary,
    }
}

// Writes the regions of machine m.
fn write_regions(v: &View<'_>, m: usize, at: usize, n: usize, t: &mut [u64])
    requires in_view { InView v.now }
    requires n_value { (n ≡ count_in (viewed v.now) m) × (m < (viewed v.now).machines → at ≡ place v.now m) }
    requires m_bound { (m < 64) × (length t.old ≡ 8325) }
    ensures { WroteRegions (viewed v.now) m t.old t.new }
{
    for i in 0..32 {
        region_words::put(t, 130 * m + (2 + 4 * i), region_in(v, m, at, n, i));
    }
}

// The number that the table holds of machine m.
pub fn number_in(v: &View<'_>, m: usize, at: usize) -> u64
    requires in_view { InView v.now }
    requires at_value { m < (viewed v.now).machines → at ≡ place v.now m }
    ensures { result ≡ number_in (viewed v.now) m }
{
    if m < v.machines() { v.number(m, at) } else { 0 }
}

// The count of regions that the table holds of machine m.
pub fn count_in(v: &View<'_>, m: usize, at: usize) -> usize
    requires in_view { InView v.now }
    requires at_value { m < (viewed v.now).machines → at ≡ place v.now m }
    ensures { (result ≡ count_in (viewed v.now) m) × (result ≤ 32) }
{
    if m < v.machines() { v.count(m, at) } else { 0 }
}

// Where the fields of the machine behind machine m start, if there is one.
fn next_in(v: &View<'_>, m: usize, at: usize) -> usize
    requires in_view { InView v.now }
    requires at_value { m < (viewed v.now).machines → at ≡ place v.now m }
    ensures { suc m < (viewed v.now).machines → result ≡ place v.now (suc m) }
{
    if m < v.machines() { v.next(m, at) } else { at }
}

// Writes the words of machine m.
fn write_machine(v: &View<'_>, m: usize, at: usize, t: &mut [u64])
    requires in_view { InView v.now }
    requires at_value { m < (viewed v.now).machines → at ≡ place v.now m }
    requires m_bound { (m < 64) × (length t.old ≡ 8325) }
    ensures { WroteMachine (viewed v.now) m t.old t.new }
{
    let number = number_in(v, m, at);
    let n = count_in(v, m, at);
    t[130 * m] = number;
    t[130 * m + 1] = n as u64;
    write_regions(v, m, at, n, t);
}

// Writes the words of all 64 machines.
fn write_machines(v: &View<'_>, t: &mut [u64])
    requires in_view { InView v.now }
    requires t_len { length t.old ≡ 8325 }
    ensures { WroteMachines (viewed v.now) 64 t.new }
{
    let mut at = v.first();
    for m in 0..64 {
        write_machine(v, m, at, t);
        at = next_in(v, m, at);
    }
}

// Writes the table of the configuration.
pub fn write_table(v: &View<'_>, t: &mut [u64])
    requires in_view { InView v.now }
    requires t_len { length t.old ≡ 8325 }
    ensures { Table (viewed v.now) t.new }
{
    write_machines(v, t);
    let pool = v.pool();
    t[8320] = v.machines() as u64;
    region_words::put(
        t,
        8321,
        Region {
            guest: 0,
            kind: Kind::Ordinary,
            ..pool
        },
    );
}
