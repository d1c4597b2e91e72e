// Whether a set of a machine is right: in order, with none but regions that the configuration gives the
// machine, and empty where the machine is not there. An inner crate: its functions ask what their callers
// show.
#![tactic(auto)]

ghost use Rattle.std.specs.Prelude.{◌≡◌, ℕ, ◌+◌, ◌≤◌, ◌<◌, length};
ghost use Rattle.base.specs.Says.{Says};
ghost use Rattle.config_view.specs.Table.{table_config};
ghost use Rattle.set_slots.specs.Slots.{Lies};
ghost use Rattle.zones.specs.Layout.{stride, set_at};
ghost use Rattle.hv_set_right.specs.Right.{IsGiven, SetRight};

use machine::Which;

// Whether machine m is given each of the first n regions of the set at `at`.
fn all_given(table: &[u64], zones: &[u64], at: usize, n: usize, m: usize) -> bool
    requires { (length table.now ≡ 8325) × (m < (table_config table.now).machines) × Lies zones.now at n }
    ensures { Says result ((k : ℕ) → k < n → IsGiven (table_config table.now) m zones.now at k) }
{
    for i in 0..n {
        let r = region_words::get(zones, at + 1 + 4 * i);
        match config_table::is_given(table, m, r) {
            Ok(Some(_)) => {}
            Ok(None) => return false,
            Err(_) => return false,
        }
    }
    true
}

// Whether a set is right of machine m, whose words begin at a place with `flag`.
pub fn is_right(
    table: &[u64],
    zones: &[u64],
    m: usize,
    place: usize,
    flag: u64,
    slots: usize,
    which: Which,
) -> bool
    requires { (length table.now ≡ 8325) × (m < (table_config table.now).machines) × (place + stride slots ≤ length zones.now) }
    ensures { Says result (SetRight (table_config table.now) zones.now m which flag (set_at place slots which) slots) }
{
    let at = zones::set_at(place, slots, which);
    match memory_set::check(zones, at, slots) {
        Err(_) => false,
        Ok(()) => {
            let n = zones[at] as usize;
            n == 0 || flag == 1 && all_given(table, zones, at, n, m)
        }
    }
}
