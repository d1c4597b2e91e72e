// Serving a sequence of calls, in bytes, before each of which stands the number of the machine that asks.
// docs/FORMAT.md has the bytes. The memories are, in this order: the table of the configuration, the machines'
// words, the tree, the owners and the frames' own words; then spare memory for the machines' words, the tree
// and the owners, and at the end the words for the replies and for the answers to members of lists.
//
// The function takes any words and any bytes. Bytes that are no sequence of calls are refused before anything
// is done; a malformed request in a sequence is replied to so, and changes nothing. The spare memory may
// change in any case, of the words for replies and answers none but three for each call and those of lists'
// members. Where the memories are sound, they stay so, and mean what the calls make of what they meant.
#![tactic(auto)]

ghost use Rattle.std.specs.Prelude.{◌≡◌};
ghost use Rattle.hv_state.specs.Serving.{mem};
ghost use Rattle.hv_run.specs.Sequence.{RanSays};
ghost use Rattle.hv_run.specs.declared.NotRun.{NotRun};

use call_bytes::Broken;

// Why no call of a sequence was served.
#[derive(Clone, Copy, Debug, PartialEq, Eq)]
pub enum NotRun {
    // At an offset an item is not whole.
    Broken(usize),
    // There are fewer than three words for the reply to each call, or than two for the answer to each request,
    // that the bytes have room for.
    FewWords,
    // The spare memory is not as long as what it is to hold.
    Spare,
}

impl From<Broken> for NotRun {
    ghost from_gives = { λ e r. r ≡ NotRun.Broken e.0 };

    fn from(e: Broken) -> NotRun {
        NotRun::Broken(e.0)
    }
}

// Serves the calls one after the other, and answers how many they are.
pub fn run(
    table: &[u64],
    zones: &mut [u64],
    tree: &mut [u16],
    owners: &mut [u8],
    words: &mut [u64],
    spare_zones: &mut [u64],
    spare_tree: &mut [u16],
    spare_owners: &mut [u8],
    bytes: &[u8],
    replies: &mut [u64],
    answers: &mut [u64],
) -> Result<usize, NotRun>
    ensures { RanSays bytes.now replies.old answers.old spare_zones.old spare_tree.old spare_owners.old
        (mem table.now zones.old tree.old owners.old words.old)
        (mem table.now zones.new tree.new owners.new words.new) replies.new answers.new result }
{
    let len = bytes.len();
    if replies.len() < 3 * (len / 16) {
        return Err(NotRun::FewWords);
    }
    if answers.len() < 2 * (len / 33) {
        return Err(NotRun::FewWords);
    }
    if !hv_calls::fits_spare(zones, tree, owners, spare_zones, spare_tree, spare_owners) {
        return Err(NotRun::Spare);
    }
    let n = call_bytes::framing_of(bytes)?;
    run_items::serve_items(
        table,
        zones,
        tree,
        owners,
        words,
        spare_zones,
        spare_tree,
        spare_owners,
        bytes,
        replies,
        answers,
    );
    Ok(n)
}
