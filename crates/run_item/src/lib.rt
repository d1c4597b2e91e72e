// One call of a sequence. An inner crate: its function asks what its caller shows.
#![tactic(auto)]

ghost use Rattle.std.specs.Prelude.{◌≡◌, ◌+◌, ◌*◌, ◌/◌, ◌≤◌, length};
ghost use Rattle.config_bytes.specs.Fields.{le64};
ghost use Rattle.call_bytes.specs.Framing.{behind};
ghost use Rattle.hv_state.specs.Serving.{mem};
ghost use Rattle.hv_calls.specs.Calling.{SpareFits};
ghost use Rattle.run_item.specs.Serving.{ItemServed};

// Serves the item at p, writes its reply from word r on and the answers to its members from word `at` on, and
// answers how long its call is.
pub fn serve_item(
    table: &[u64],
    zones: &mut [u64],
    tree: &mut [u16],
    owners: &mut [u8],
    words: &mut [u64],
    spare_zones: &mut [u64],
    spare_tree: &mut [u16],
    spare_owners: &mut [u8],
    bytes: &[u8],
    p: usize,
    replies: &mut [u64],
    r: usize,
    answers: &mut [u64],
    at: usize,
) -> usize
    requires spare { SpareFits zones.old tree.old owners.old spare_zones.old spare_tree.old spare_owners.old }
    requires whole { behind bytes.now p ≤ length bytes.now }
    requires reply { r + 3 ≤ length replies.old }
    requires room { at + 2 * (le64 bytes.now (p + 8) / 33) ≤ length answers.old }
    ensures len { result ≡ le64 bytes.now (p + 8) }
    ensures served { ItemServed bytes.now p (mem table.now zones.old tree.old owners.old words.old)
        (mem table.now zones.new tree.new owners.new words.new)
        replies.old r replies.new answers.old at answers.new }
{
    let number = config_bytes::u64_at(bytes, p);
    let len = config_bytes::u64_at(bytes, p + 8) as usize;
    let said = hv_calls::serve_call(
        table,
        zones,
        tree,
        owners,
        words,
        spare_zones,
        spare_tree,
        spare_owners,
        number,
        bytes,
        p + 16,
        len,
        answers,
        at,
    );
    reply_words::write_reply(replies, r, said);
    len
}
