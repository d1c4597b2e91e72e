// The start and the check of the memories that programs in other languages link: pointers with lengths,
// and 0 or a reason. The reasons of the configuration are those of config_codes. Nothing is demanded of
// the caller beyond the types.
#![tactic(auto)]

ghost use Rattle.std.specs.Prelude.{◌≡◌};
ghost use Rattle.hv_state.specs.Serving.{mem};
ghost use Rattle.replayframes_start.specs.Start.{zones_code, frames_code, not_started_code, StartCode, fault_code, not_sound_code, CheckCode};

use codes::{
    RF_CORRUPT, RF_DONE, RF_FEW_SLOTS, RF_FRAMES_TOO_MANY, RF_NO_TABLE, RF_POOL_TOO_LARGE,
    RF_UNBACKED, RF_ZONES,
};
use hv_check::{Fault, NotSound};
use hv_start::{BadFrames, BadZones, NotStarted};

// Why the machines' words are not those of a configuration.
fn zones_code(why: BadZones) -> u32
    ensures { result ≡ zones_code why }
{
    match why {
        BadZones::Wrong => RF_ZONES,
        BadZones::FewSlots(_) => RF_FEW_SLOTS,
    }
}

// Why the tree, the owners and the frames' words are not those of a configuration.
fn frames_code(why: BadFrames) -> u32
    ensures { result ≡ frames_code why }
{
    match why {
        BadFrames::Unfit(unfit) => reason_codes::unfit(unfit),
        BadFrames::Unbacked => RF_UNBACKED,
        BadFrames::FewFrames => RF_POOL_TOO_LARGE,
        BadFrames::FewPages => RF_FRAMES_TOO_MANY,
    }
}

// Why nothing was started.
fn not_started(why: NotStarted) -> u32
    ensures { result ≡ not_started_code why }
{
    match why {
        NotStarted::NoTable => RF_NO_TABLE,
        NotStarted::Config(reason) => config_codes::code_of(reason),
        NotStarted::Zones(zones) => zones_code(zones),
        NotStarted::Frames(frames) => frames_code(frames),
    }
}

// Starts a monitor: whatever the memories held, they are those of the configuration, with no machine. A
// refusal leaves every word and byte.
#[unsafe(no_mangle)]
pub extern "C" fn rf_start(
    bytes: &[u8],
    table: &mut [u64],
    zones: &mut [u64],
    tree: &mut [u16],
    owners: &mut [u8],
    words: &mut [u64],
) -> u32
    ensures { StartCode bytes.now (mem table.old zones.old tree.old owners.old words.old) (mem table.new zones.new tree.new owners.new words.new) result }
{
    match hv_start::start(bytes, table, zones, tree, owners, words) {
        Ok(()) => RF_DONE,
        Err(why) => not_started(why),
    }
}

// Why a machine's words are not right.
fn fault_code(why: Fault) -> u32
    ensures { result ≡ fault_code why }
{
    match why {
        Fault::FewSlots => RF_FEW_SLOTS,
        Fault::Presence => RF_CORRUPT,
        Fault::Processors => RF_CORRUPT,
        Fault::Devices => RF_CORRUPT,
    }
}

// Why the memories are not sound.
fn not_sound(why: NotSound) -> u32
    ensures { result ≡ not_sound_code why }
{
    match why {
        NotSound::Table => RF_CORRUPT,
        NotSound::Zones => RF_ZONES,
        NotSound::Machine(_, fault) => fault_code(fault),
        NotSound::Frames => RF_CORRUPT,
        NotSound::FewFrames => RF_POOL_TOO_LARGE,
        NotSound::FewPages => RF_FRAMES_TOO_MANY,
        NotSound::Frame(_) => RF_CORRUPT,
    }
}

// Whether the memories are sound: 0 exactly if they are.
#[unsafe(no_mangle)]
pub extern "C" fn rf_check(
    table: &[u64],
    zones: &[u64],
    tree: &[u16],
    owners: &[u8],
    words: &[u64],
) -> u32
    ensures { CheckCode (mem table.now zones.now tree.now owners.now words.now) result }
{
    match hv_check::check(table, zones, tree, owners, words) {
        Ok(()) => RF_DONE,
        Err(why) => not_sound(why),
    }
}
