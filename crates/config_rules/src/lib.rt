// The rules on a configuration, tried in their order, and the first one that is broken.
#![tactic(auto)]

ghost use Rattle.std.specs.Prelude.{◌≡◌};
ghost use Rattle.config_model.specs.Rules.{OffPool};
ghost use Rattle.config_pairs.specs.Pairs.{SpotSays};
ghost use Rattle.config_view.specs.View.{viewed, InView};
ghost use Rattle.config_rules.specs.Judging.{NotValidSays, JudgeSays};

use address::{Fault, Region};
use config_pairs::{Rule, clash_of};
use config_singles::refused_of;
use config_view::View;

// Why a configuration is refused. Machines and regions are named by their places, counted from 0.
#[derive(Clone, Copy, Debug, PartialEq, Eq)]
pub enum Reason {
    // The field at an offset is not whole.
    TooShort(usize),
    // There are more than 64 machines.
    TooManyMachines,
    // A machine has more than 32 regions.
    TooManyRegions(usize),
    // A region, of a machine, has no known kind.
    UnknownKind(usize, usize),
    // Two machines have one number.
    SameNumber(usize, usize),
    // A region, of a machine, is not valid.
    NotValid(usize, usize, Fault),
    // The allocator's region is not valid.
    PoolNotValid(Fault),
    // An ordinary or device region, of a machine, and another region, of a machine, share a host page.
    HostShared(usize, usize, usize, usize),
    // Two shared regions of two machines share a host page and do not coincide.
    NotCoinciding(usize, usize, usize, usize),
    // Of one machine, two shared regions share a host page.
    OneMachine(usize, usize, usize),
    // Of one machine, two regions share a guest page.
    GuestShared(usize, usize, usize),
    // A region, of a machine, and the allocator's region share a host page.
    PoolShared(usize, usize),
    // Bytes are left over from an offset on.
    LeftOver(usize),
}

// The first region that is not valid, and its fault.
fn not_valid(v: &View<'_>) -> Option<(usize, usize, Fault)>
    requires { InView v.now }
    ensures { NotValidSays (viewed v.now) result }
{
    refused_of(v, &address::validity)
}

// The first region that shares a host page with the allocator's.
fn in_pool(v: &View<'_>, pool: Region) -> Option<(usize, usize)>
    requires in_view { InView v.now }
    requires is_pool { pool ≡ (viewed v.now).pool }
    ensures { SpotSays (OffPool (viewed v.now)) (viewed v.now).count (viewed v.now).machines result }
{
    let off_pool = |r: Region| if address::overlaps_pmem(pool, r) {
        Err(())
    } else {
        Ok(())
    };
    if let Some((m, i, ())) = refused_of(v, &off_pool) {
        return Some((m, i));
    }
    None
}

// Tries the rules in their order.
pub fn judge(v: &View<'_>) -> Result<(), Reason>
    requires { InView v.now }
    ensures { JudgeSays (viewed v.now) result }
{
    if let Some((m, m2)) = config_singles::numbers(v) {
        return Err(Reason::SameNumber(m, m2));
    }
    if let Some((m, i, f)) = not_valid(v) {
        return Err(Reason::NotValid(m, i, f));
    }
    let pool = v.pool();
    if let Err(f) = address::validity(Region { guest: 0, ..pool }) {
        return Err(Reason::PoolNotValid(f));
    }
    if let Some((m, i, m2, i2)) = clash_of(v, Rule::Alone) {
        return Err(Reason::HostShared(m, i, m2, i2));
    }
    if let Some((m, i, m2, i2)) = clash_of(v, Rule::Together) {
        if m == m2 {
            return Err(Reason::OneMachine(m, i, i2));
        }
        return Err(Reason::NotCoinciding(m, i, m2, i2));
    }
    if let Some((m, i, _, i2)) = clash_of(v, Rule::Clear) {
        return Err(Reason::GuestShared(m, i, i2));
    }
    if let Some((m, i)) = in_pool(v, pool) {
        return Err(Reason::PoolShared(m, i));
    }
    Ok(())
}
