// Whether the memories are in order: the table of the configuration, the machines' words, the tree, the
// owners and the frames' own words, from any words and bytes. `check` answers that they are sound exactly
// if they are, and else where they are not.
#![tactic(auto)]

ghost use Rattle.std.specs.Prelude.{◌≡◌, ◌+◌, ◌≤◌, ◌<◌, length};
ghost use Rattle.base.specs.Says.{Says};
ghost use Rattle.base.specs.Search.{Stops};
ghost use Rattle.bitmap_tree.specs.Tree.{cap};
ghost use Rattle.owners.specs.States.{Matched, state};
ghost use Rattle.contents.specs.Contents.{Clean};
ghost use Rattle.config_view.specs.Table.{table_config};
ghost use Rattle.zones.specs.Layout.{stride, place_of};
ghost use Rattle.hv_state.specs.Memory.{present_in};
ghost use Rattle.hv_state.specs.Serving.{mem};
ghost use Rattle.hv_check.specs.Checking.{Laid, JudgeSays, AllSays, FrameRight, Machines, CheckSays};

use machine::Which;

// Why a machine's words are not right.
#[derive(Clone, Copy, Debug, PartialEq, Eq)]
pub enum Fault {
    // Its sets have fewer slots than the configuration gives it regions.
    FewSlots,
    // Its first word, which says whether it is there, is neither 0 nor 1.
    Presence,
    // The set of its processors is not in order, has a region that the machine is not given, or has one
    // though the machine is not there.
    Processors,
    // Nor is the set of its devices.
    Devices,
}

// Why the memories are not in order: the first reason.
#[derive(Clone, Copy, Debug, PartialEq, Eq)]
pub enum NotSound {
    // The words are not a table that `config::load` writes.
    Table,
    // The machines' words are not as many as the machines have.
    Zones,
    // The words of this machine are not right, the first such.
    Machine(usize, Fault),
    // The tree, the owners and the frames' words are not an allocator's and clean, as `frames_pool::check`
    // says.
    Frames,
    // There are fewer frames than the allocator's region has pages.
    FewFrames,
    // More frames have contents than the allocator's region has pages.
    FewPages,
    // This frame has contents, and is reserved or owned by a client that is not there; the first such.
    Frame(usize),
}

// Whether the sets of machine m have room for the regions that it is given.
fn has_room(table: &[u64], m: usize, slots: usize) -> bool
    requires { (length table.now ≡ 8325) × (m < (table_config table.now).machines) }
    ensures { Says result ((table_config table.now).count m ≤ slots) }
{
    match config_table::count(table, m) {
        Ok(n) => n <= slots,
        Err(_) => false,
    }
}

// Whether the words of machine m are right.
fn judge(table: &[u64], zones: &[u64], slots: usize, m: usize) -> Result<(), Fault>
    requires { (length table.now ≡ 8325) × (m < (table_config table.now).machines) × (place_of slots m + stride slots ≤ length zones.now) }
    ensures { JudgeSays (table_config table.now) zones.now slots m result }
{
    if !has_room(table, m, slots) {
        return Err(Fault::FewSlots);
    }
    let place = m * (3 + 8 * slots);
    let flag = zones[place];
    if flag > 1 {
        return Err(Fault::Presence);
    }
    if !hv_set_right::is_right(table, zones, m, place, flag, slots, Which::Processors) {
        return Err(Fault::Processors);
    }
    if !hv_set_right::is_right(table, zones, m, place, flag, slots, Which::Devices) {
        return Err(Fault::Devices);
    }
    Ok(())
}

// Whether the words of all n machines are right, and else the first machine whose words are not.
fn judge_all(table: &[u64], zones: &[u64], n: usize, slots: usize) -> Result<(), (usize, Fault)>
    requires { (length table.now ≡ 8325) × (n ≡ (table_config table.now).machines) × Laid zones.now n slots }
    ensures { AllSays (table_config table.now) zones.now slots result }
{
    for m in 0..n {
        if let Err(why) = judge(table, zones, slots, m) {
            return Err((m, why));
        }
    }
    Ok(())
}

// Whether frame k is free, or owned by one of the n machines that is there.
fn is_frame_right(
    zones: &[u64],
    n: usize,
    slots: usize,
    tree: &[u16],
    owners: &[u8],
    k: usize,
) -> bool
    requires { Laid zones.now n slots × Matched tree.now owners.now × (k < cap tree.now) }
    ensures { Says result (FrameRight (present_in zones.now n) (state tree.now owners.now k)) }
{
    if bitmap_tree::read(tree, tree.len() + k) == 1 {
        return true;
    }
    let m = owners[k] as usize;
    if n <= m {
        return false;
    }
    zones[m * (3 + 8 * slots)] == 1
}

// The first frame below `end` that is reserved or owned by a client that is not there, or `end`.
fn right_until(
    zones: &[u64],
    n: usize,
    slots: usize,
    tree: &[u16],
    owners: &[u8],
    end: usize,
) -> usize
    requires { Laid zones.now n slots × Matched tree.now owners.now × (end ≤ cap tree.now) }
    ensures { Stops (λ j. FrameRight (present_in zones.now n) (state tree.now owners.now j)) 0 end result }
{
    for k in 0..end {
        if !is_frame_right(zones, n, slots, tree, owners, k) {
            return k;
        }
    }
    end
}

// Whether the tree, the owners and the frames' words are an allocator's and clean.
fn is_clean(tree: &[u16], owners: &[u8], words: &[u64], base: usize) -> bool
    ensures { Says result (Clean base tree.now owners.now words.now) }
{
    frames_pool::check(tree, owners, words, base).is_ok()
}

// Whether the memories are in order, where the table and the words of its n machines are.
fn check_frames(
    table: &[u64],
    zones: &[u64],
    tree: &[u16],
    owners: &[u8],
    words: &[u64],
    n: usize,
    slots: usize,
) -> Result<(), NotSound>
    requires { Machines table.now zones.now n slots }
    ensures { CheckSays (mem table.now zones.now tree.now owners.now words.now) result }
{
    let pool = region_words::get(table, 8321);
    let pages = pool.pages as usize;
    if !is_clean(tree, owners, words, pool.host as usize) {
        return Err(NotSound::Frames);
    }
    if owners.len() < pages {
        return Err(NotSound::FewFrames);
    }
    let end = words.len() / 512;
    if pages < end {
        return Err(NotSound::FewPages);
    }
    let k = right_until(zones, n, slots, tree, owners, end);
    if k < end {
        return Err(NotSound::Frame(k));
    }
    Ok(())
}

// Whether the memories are in order, and else the first reason why not.
pub fn check(
    table: &[u64],
    zones: &[u64],
    tree: &[u16],
    owners: &[u8],
    words: &[u64],
) -> Result<(), NotSound>
    ensures { CheckSays (mem table.now zones.now tree.now owners.now words.now) result }
{
    let Ok(n) = config::check_table(table) else {
        return Err(NotSound::Table);
    };
    let Some(slots) = zones::measure(zones, n) else {
        return Err(NotSound::Zones);
    };
    if let Err((m, why)) = judge_all(table, zones, n, slots) {
        return Err(NotSound::Machine(m, why));
    }
    check_frames(table, zones, tree, owners, words, n, slots)
}
