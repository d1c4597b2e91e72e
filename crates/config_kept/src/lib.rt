// Whether words are those of a table as it is written: whether each is what the configuration that they
// mean has there.
#![tactic(auto)]

ghost use Rattle.std.specs.Prelude.{◌≡◌, ℕ, ◌+◌, ◌*◌, ◌<◌, length};
ghost use Rattle.base.specs.Says.{Says};
ghost use Rattle.region_words.specs.Words.{HasRegion};
ghost use Rattle.config_view.specs.Table.{Table, table_config, count_in, region_in};
ghost use Rattle.config_write.specs.Writing.{MachineIn};
ghost use Rattle.config_kept.specs.Kept.{EndIn};

use address::{Kind, Region};
use config_view::View;

// Whether the words of the regions of machine m, which has n, are as they are written.
fn regions_kept(t: &[u64], m: usize, n: usize) -> bool
    requires t_len { length t.now ≡ 8325 }
    requires m_bound { (m < 64) × (n ≡ count_in (table_config t.now) m) }
    ensures { Says result ((i : ℕ) → i < 32 → HasRegion t.now (130 * m + (2 + 4 * i)) (region_in (table_config t.now) m i)) }
{
    let v = View::Table(t);
    let at = 130 * m;
    for i in 0..32 {
        if !region_words::holds(
            t,
            at + (2 + 4 * i),
            config_write::region_in(&v, m, at, n, i),
        ) {
            return false;
        }
    }
    true
}

// Whether the words of machine m are as they are written.
fn machine_kept(t: &[u64], m: usize) -> bool
    requires t_len { length t.now ≡ 8325 }
    requires m_bound { m < 64 }
    ensures { Says result (MachineIn (table_config t.now) m t.now) }
{
    let v = View::Table(t);
    let at = 130 * m;
    let n = config_write::count_in(&v, m, at);
    t[at] == config_write::number_in(&v, m, at) && t[at + 1] == n as u64 && regions_kept(t, m, n)
}

// Whether the words of all 64 machines are as they are written.
fn machines_kept(t: &[u64]) -> bool
    requires { length t.now ≡ 8325 }
    ensures { Says result ((m : ℕ) → m < 64 → MachineIn (table_config t.now) m t.now) }
{
    for m in 0..64 {
        if !machine_kept(t, m) {
            return false;
        }
    }
    true
}

// Whether the words behind those of the machines are as they are written: how many machines there are, and
// the allocator's region.
fn end_kept(t: &[u64]) -> bool
    requires { length t.now ≡ 8325 }
    ensures { Says result (EndIn (table_config t.now) t.now) }
{
    let v = View::Table(t);
    let r = Region {
        guest: 0,
        kind: Kind::Ordinary,
        ..v.pool()
    };
    t[8320] == v.machines() as u64 && region_words::holds(t, 8321, r)
}

// Whether all words are as they are written.
pub fn table_kept(t: &[u64]) -> bool
    requires { length t.now ≡ 8325 }
    ensures { Says result (Table (table_config t.now) t.now) }
{
    end_kept(t) && machines_kept(t)
}
