// Whether a machine is empty: has no region in either of its sets, and no frame.
#![tactic(auto)]

ghost use Rattle.std.specs.Prelude.{◌≡◌, ◌+◌, ◌*◌, ◌≤◌, ◌<◌, length};
ghost use Rattle.hv_empty.specs.Empty.{RegionsSay, FramesSay};

use claims::Unfit;
use machine::Which;
use set_claims::Bad;

// The words, or the memories of the allocator, are not in order.
#[derive(Clone, Copy, Debug, PartialEq, Eq)]
pub struct Corrupt;

impl From<Bad> for Corrupt {
    ghost from_gives = { λ _ e. e ≡ record {} };

    fn from(_why: Bad) -> Corrupt {
        Corrupt
    }
}

impl From<Unfit> for Corrupt {
    ghost from_gives = { λ _ e. e ≡ record {} };

    fn from(_why: Unfit) -> Corrupt {
        Corrupt
    }
}

// Whether the machine whose words begin at a place has no region.
pub fn has_no_region(zones: &[u64], place: usize, slots: usize) -> Result<bool, Corrupt>
    requires { place + (3 + 8 * slots) ≤ length zones.now }
    ensures { RegionsSay zones.now place slots result }
{
    let processors = memory_set::is_empty(
        zones,
        zones::set_at(place, slots, Which::Processors),
        slots,
    )?;
    if !processors {
        return Ok(false);
    }
    let devices = memory_set::is_empty(zones, zones::set_at(place, slots, Which::Devices), slots)?;
    Ok(devices)
}

// Whether the client c owns no frame.
pub fn has_no_frame(tree: &[u16], owners: &[u8], c: u8) -> Result<bool, Corrupt>
    requires { c < 64 }
    ensures { FramesSay tree.now owners.now c result }
{
    claims::fitting(tree, owners, 0)?;
    if contents::others_until(tree, owners, 0, c) < owners.len() {
        return Ok(false);
    }
    Ok(true)
}
