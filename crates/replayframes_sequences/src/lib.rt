// The function for sequences of calls that programs in other languages link: numbers, and pointers with lengths.
// docs/FORMAT.md has the bytes. The memories are, in this order: the table of the configuration, the machines'
// words, the tree, the owners and the frames' own words; then spare memory for the machines' words, the tree
// and the owners, and after the bytes the words for the replies and for the answers to members of lists.
//
// It answers 0 or a reason. A sequence that is not begun leaves every word and byte of the five memories; the
// spare memory may change, and of the words for replies and answers three for each call and those of lists'
// members. Nothing is demanded of the caller beyond the types.
#![tactic(auto)]

ghost use Rattle.std.specs.Prelude.{◌≡◌};
ghost use Rattle.hv_state.specs.Serving.{mem};
ghost use Rattle.replayframes_sequences.specs.Sequences.{ran_code, ran_offset, RunCode};

use codes::{RF_BROKEN, RF_DONE, RF_FEW_WORDS, RF_SPARE};
use hv_run::NotRun;

// The code of what came of a sequence of calls.
fn code_of_run(answer: Result<usize, NotRun>) -> u32
    ensures { result ≡ ran_code answer }
{
    match answer {
        Ok(_) => RF_DONE,
        Err(NotRun::Broken(_)) => RF_BROKEN,
        Err(NotRun::FewWords) => RF_FEW_WORDS,
        Err(NotRun::Spare) => RF_SPARE,
    }
}

// How many calls were served, or where the bytes are no sequence, or `old` where they were not looked at.
fn offset_of_run(answer: Result<usize, NotRun>, old: u64) -> u64
    ensures { result ≡ ran_offset answer old }
{
    match answer {
        Ok(n) => n as u64,
        Err(NotRun::Broken(q)) => q as u64,
        Err(NotRun::FewWords | NotRun::Spare) => old,
    }
}

// Serves a sequence of calls, before each of which stands the number of the machine that asks. Writes how many
// were served, or the offset at which the bytes are no sequence of calls: then nothing was done.
#[unsafe(no_mangle)]
pub extern "C" fn rf_run(
    table: &[u64],
    zones: &mut [u64],
    tree: &mut [u16],
    owners: &mut [u8],
    words: &mut [u64],
    spare_zones: &mut [u64],
    spare_tree: &mut [u16],
    spare_owners: &mut [u8],
    bytes: &[u8],
    replies: &mut [u64],
    answers: &mut [u64],
    offset: &mut u64,
) -> u32
    ensures { RunCode bytes.now replies.old answers.old spare_zones.old spare_tree.old spare_owners.old
        (mem table.now zones.old tree.old owners.old words.old)
        (mem table.now zones.new tree.new owners.new words.new) replies.new answers.new
        offset.old offset.new result }
{
    let answer = hv_run::run(
        table,
        zones,
        tree,
        owners,
        words,
        spare_zones,
        spare_tree,
        spare_owners,
        bytes,
        replies,
        answers,
    );
    *offset = offset_of_run(answer, *offset);
    code_of_run(answer)
}
