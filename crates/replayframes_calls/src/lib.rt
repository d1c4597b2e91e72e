// The function for one call that programs in other languages link: numbers, and pointers with lengths.
// docs/FORMAT.md has the bytes. The memories are, in this order: the table of the configuration, the machines'
// words, the tree, the owners and the frames' own words; then spare memory for the machines' words, the tree
// and the owners, and after the bytes the words for the answers to members of lists.
//
// It answers 0 or a reason. What is not done leaves every word and byte of the five memories; the spare memory
// may change, and of the words for answers those of a list's members. Nothing is demanded of the caller beyond
// the types.
#![tactic(auto)]

ghost use Rattle.std.specs.Prelude.{◌≡◌};
ghost use Rattle.hv_state.specs.Serving.{mem};
ghost use Rattle.replayframes_calls.specs.Calls.{called_code, called_index, called_address, ServeCode};

use codes::{RF_FEW_WORDS, RF_SPARE};
use hv_calls::Replied;
use hv_serve::NotServed;

// The code of what is replied to a call.
fn code_of_call(answer: Result<Replied, NotServed>) -> u32
    ensures { result ≡ called_code answer }
{
    match answer {
        Ok(said) => reply_words::code_in(said),
        Err(NotServed::FewWords) => RF_FEW_WORDS,
        Err(NotServed::Spare) => RF_SPARE,
    }
}

// Which request the reply is of, or `old` where it is of none.
fn index_of_call(answer: Result<Replied, NotServed>, old: u64) -> u64
    ensures { result ≡ called_index answer old }
{
    match answer {
        Ok(said) => reply_words::index_in(said, old),
        Err(_) => old,
    }
}

// The address in the reply, or `old` where there is none.
fn address_of_call(answer: Result<Replied, NotServed>, old: u64) -> u64
    ensures { result ≡ called_address answer old }
{
    match answer {
        Ok(said) => reply_words::place_in(said, old),
        Err(_) => old,
    }
}

// Serves the call of the machine that has a number: one request, or a list of requests that are all done or
// none. Writes the address in the reply to one request, and the place of a request that is malformed, or of
// the member of a list that is refused: the first has place 0.
#[unsafe(no_mangle)]
pub extern "C" fn rf_serve(
    table: &[u64],
    zones: &mut [u64],
    tree: &mut [u16],
    owners: &mut [u8],
    words: &mut [u64],
    spare_zones: &mut [u64],
    spare_tree: &mut [u16],
    spare_owners: &mut [u8],
    number: u64,
    bytes: &[u8],
    answers: &mut [u64],
    index: &mut u64,
    address: &mut u64,
) -> u32
    ensures { ServeCode bytes.now answers.old spare_zones.old spare_tree.old spare_owners.old
        (mem table.now zones.old tree.old owners.old words.old) number
        (mem table.now zones.new tree.new owners.new words.new) answers.new
        index.old index.new address.old address.new result }
{
    let answer = hv_serve::serve(
        table,
        zones,
        tree,
        owners,
        words,
        spare_zones,
        spare_tree,
        spare_owners,
        number,
        bytes,
        answers,
    );
    *index = index_of_call(answer, *index);
    *address = address_of_call(answer, *address);
    code_of_call(answer)
}
