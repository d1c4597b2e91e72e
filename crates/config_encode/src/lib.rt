// Writes the bytes of a configuration that lies in a table, the words t: `p` is where the bytes of
// machine m are written.
#![tactic(auto)]

ghost use Rattle.std.specs.Prelude.{◌≡◌, ℕ, suc, ◌+◌, ◌*◌, ◌≤◌, ◌<◌, length};
ghost use Rattle.config_bytes.specs.Fields.{le16, le32, le64};
ghost use Rattle.config_view.specs.Table.{table_config};
ghost use Rattle.config_encode.specs.Encoding.{Wrote, WroteRegion, WroteRegions, WroteMachine, WroteMachines, WroteAll, start_of, size_of};

use address::Region;
use config_view::View;

// Writes a number into the two bytes from `at` on.
fn put16(o: &mut [u8], at: usize, v: u64)
    requires { (at + 2 ≤ length o.old) × (v < 65536) }
    ensures { Wrote le16 2 o.old at v o.new }
{
    o[at] = (v % 256) as u8;
    o[at + 1] = (v / 256 % 256) as u8;
}

// Writes a number into the four bytes from `at` on.
fn put32(o: &mut [u8], at: usize, v: u64)
    requires { (at + 4 ≤ length o.old) × (v < 4294967296) }
    ensures { Wrote le32 4 o.old at v o.new }
{
    put16(o, at, v % 65536);
    put16(o, at + 2, v / 65536);
}

// Writes a number into the eight bytes from `at` on.
fn put64(o: &mut [u8], at: usize, v: u64)
    requires { at + 8 ≤ length o.old }
    ensures { Wrote le64 8 o.old at v o.new }
{
    put32(o, at, v % 4294967296);
    put32(o, at + 4, v / 4294967296);
}

// Writes a region into the 25 bytes from p on.
fn put_region(o: &mut [u8], p: usize, r: Region)
    requires { p + 25 ≤ length o.old }
    ensures { WroteRegion o.old p r o.new }
{
    put64(o, p, r.guest);
    put64(o, p + 8, r.host);
    put64(o, p + 16, r.pages);
    o[p + 24] = region_words::number_of(r.kind) as u8;
}

// Writes the n regions of machine m.
fn put_regions(t: &[u64], m: usize, n: usize, p: usize, o: &mut [u8])
    requires t_len { length t.now ≡ 8325 }
    requires m_bound { (m < (table_config t.now).machines) × (n ≡ (table_config t.now).count m) }
    requires n_bound { (n ≤ 32) × (p + (4 + 25 * n) ≤ length o.old) }
    ensures { WroteRegions (table_config t.now) m n p o.old o.new }
{
    let v = View::Table(t);
    for i in 0..n {
        put_region(o, p + (4 + 25 * i), v.region(m, 130 * m, i));
    }
}

// Writes the fields of machine m.
fn put_machine(t: &[u64], m: usize, p: usize, o: &mut [u8])
    requires t_len { length t.now ≡ 8325 }
    requires m_bound { m < (table_config t.now).machines }
    requires m_in_bounds { p + (4 + 25 * (table_config t.now).count m) ≤ length o.old }
    ensures { WroteMachine (table_config t.now) m p o.old o.new }
{
    let v = View::Table(t);
    let n = v.count(m, 130 * m);
    put16(o, p, v.number(m, 130 * m));
    put16(o, p + 2, n as u64);
    put_regions(t, m, n, p, o);
}

// Where the fields of the machine behind machine m are written.
fn behind(t: &[u64], m: usize, p: usize) -> usize
    requires t_len { length t.now ≡ 8325 }
    requires m_bound { (m < (table_config t.now).machines) × (p ≡ start_of (table_config t.now) m) }
    ensures { result ≡ start_of (table_config t.now) (suc m) }
{
    p + (4 + 25 * View::Table(t).count(m, 130 * m))
}

// Writes the fields of all machines, and answers where they end.
fn put_machines(t: &[u64], o: &mut [u8]) -> usize
    requires t_len { length t.now ≡ 8325 }
    requires t_in_bounds { size_of (table_config t.now) ≤ length o.old }
    ensures { (result ≡ start_of (table_config t.now) (table_config t.now).machines) × WroteMachines (table_config t.now) (table_config t.now).machines o.old o.new }
{
    let n = View::Table(t).machines();
    let mut p = 2;
    for m in 0..n {
        put_machine(t, m, p, o);
        p = behind(t, m, p);
    }
    p
}

// How many bytes the configuration takes.
pub fn size_of(t: &[u64]) -> usize
    requires { length t.now ≡ 8325 }
    ensures { result ≡ size_of (table_config t.now) }
{
    let n = View::Table(t).machines();
    let mut p = 2;
    for m in 0..n {
        p = behind(t, m, p);
    }
    p + 16
}

// Writes the bytes of the configuration.
pub fn put_all(t: &[u64], o: &mut [u8])
    requires t_len { length t.now ≡ 8325 }
    requires t_in_bounds { size_of (table_config t.now) ≤ length o.old }
    ensures { WroteAll (table_config t.now) o.old o.new }
{
    let v = View::Table(t);
    let pool = v.pool();
    put16(o, 0, v.machines() as u64);
    let p = put_machines(t, o);
    put64(o, p, pool.host);
    put64(o, p + 8, pool.pages);
}
