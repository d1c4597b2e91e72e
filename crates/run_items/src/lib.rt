// The calls of a sequence, one after the other. An inner crate: its function asks what its caller shows.
#![tactic(auto)]

ghost use Rattle.std.specs.Prelude.{List, ◌*◌, ◌/◌, ◌≤◌, length};
ghost use Rattle.call_bytes.specs.Framing.{Item, Framed};
ghost use Rattle.hv_state.specs.Serving.{mem};
ghost use Rattle.hv_calls.specs.Calling.{SpareFits};
ghost use Rattle.run_items.specs.Running.{Transcript};

// Serves all items.
pub fn serve_items(
    table: &[u64],
    zones: &mut [u64],
    tree: &mut [u16],
    owners: &mut [u8],
    words: &mut [u64],
    spare_zones: &mut [u64],
    spare_tree: &mut [u16],
    spare_owners: &mut [u8],
    bytes: &[u8],
    replies: &mut [u64],
    answers: &mut [u64],
)
    requires spare { SpareFits zones.old tree.old owners.old spare_zones.old spare_tree.old spare_owners.old }
    requires replies { 3 * (length bytes.now / 16) ≤ length replies.old }
    requires answers { 2 * (length bytes.now / 33) ≤ length answers.old }
    requires framed { (items : List Item) × Framed bytes.now 0 items }
    ensures { Transcript bytes.now (mem table.now zones.old tree.old owners.old words.old)
        (mem table.now zones.new tree.new owners.new words.new)
        replies.old answers.old replies.new answers.new }
{
    let mut p = 0;
    let mut r = 0;
    let mut at = 0;
    // No `for`: how far the next item is, each item says.
    // A `while`, since each call says how long it is.
    while p < bytes.len() {
        let len = run_item::serve_item(
            table,
            zones,
            tree,
            owners,
            words,
            spare_zones,
            spare_tree,
            spare_owners,
            bytes,
            p,
            replies,
            r,
            answers,
            at,
        );
        p += 16 + len;
        r += 3;
        at += 2 * (len / 33);
    }
}
