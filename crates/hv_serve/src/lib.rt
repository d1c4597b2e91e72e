// Serving what a machine calls for, in bytes: one request, or a list of requests that are all done or none.
// docs/FORMAT.md has the bytes. The memories are, in this order: the table of the configuration, the machines'
// words, the tree, the owners and the frames' own words; then spare memory for the machines' words, the tree
// and the owners, and at the end the words for the answers to a list.
//
// The function takes any words, any bytes and any number. What is not done leaves every word and byte of the
// five memories; the spare memory and the answers' words may change. Where the memories are sound, they stay
// so, and the reply and what they mean afterwards are those of the abstract machine's `call`.
#![tactic(auto)]

ghost use Rattle.hv_state.specs.Serving.{mem};
ghost use Rattle.hv_serve.specs.Called.{CalledSays};

use hv_calls::Replied;

// Why a call was not looked at.
#[derive(Clone, Copy, Debug, PartialEq, Eq)]
pub enum NotServed {
    // There are fewer than two words for the answers to each request that the bytes have room for.
    FewWords,
    // The spare memory is not as long as what it is to hold.
    Spare,
}

// Serves the call of the machine that has a number.
pub fn serve(
    table: &[u64],
    zones: &mut [u64],
    tree: &mut [u16],
    owners: &mut [u8],
    words: &mut [u64],
    spare_zones: &mut [u64],
    spare_tree: &mut [u16],
    spare_owners: &mut [u8],
    number: u64,
    bytes: &[u8],
    answers: &mut [u64],
) -> Result<Replied, NotServed>
    ensures { CalledSays bytes.now answers.old spare_zones.old spare_tree.old spare_owners.old
        (mem table.now zones.old tree.old owners.old words.old) number
        (mem table.now zones.new tree.new owners.new words.new) answers.new result }
{
    let len = bytes.len();
    if answers.len() < 2 * (len / 33) {
        return Err(NotServed::FewWords);
    }
    if !hv_calls::fits_spare(zones, tree, owners, spare_zones, spare_tree, spare_owners) {
        return Err(NotServed::Spare);
    }
    Ok(hv_calls::serve_call(
        table,
        zones,
        tree,
        owners,
        words,
        spare_zones,
        spare_tree,
        spare_owners,
        number,
        bytes,
        0,
        len,
        answers,
        0,
    ))
}
