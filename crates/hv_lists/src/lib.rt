// A list of requests of one machine, all done or none: they are attempted, and once all are done the frames
// that they freed are cleared. An inner crate: its functions ask what their callers show.
#![tactic(auto)]

ghost use Rattle.std.specs.Prelude.{◌+◌, ◌*◌, ◌≤◌, length};
ghost use Rattle.base.specs.Ranges.{Only};
ghost use Rattle.request_bytes.specs.Requests.{nth_request, MeansAll};
ghost use Rattle.list_undo.specs.Undoing.{SpareFits};
ghost use Rattle.hv_lists.specs.Listing.{ListSays};

use list_attempt::Halted;
use machine::{Answer, Reason};
use zones::NotLocated;

// Serves the list of the n requests in the bytes from p on, of the machine that has a number, and writes
// their answers into the buffer from `at` on. Where a request is refused nothing is done, and it is answered
// which is the first.
pub fn serve_list(
    table: &[u64],
    zones: &mut [u64],
    tree: &mut [u16],
    owners: &mut [u8],
    words: &mut [u64],
    spare_zones: &mut [u64],
    spare_tree: &mut [u16],
    spare_owners: &mut [u8],
    number: u64,
    bytes: &[u8],
    p: usize,
    n: usize,
    answers: &mut [u64],
    at: usize,
) -> Result<(), Halted>
    requires spare { SpareFits zones.old tree.old owners.old spare_zones.old spare_tree.old spare_owners.old }
    requires members { MeansAll bytes.now p n }
    requires room { at + 2 * n ≤ length answers.old }
    ensures says { ListSays table.now zones.old tree.old owners.old words.old number (nth_request bytes.now p) n
        zones.new tree.new owners.new words.new answers.new at result }
    ensures told { Only answers.old at (at + 2 * n) answers.new }
{
    match list_asker::who_lists(table, tree, owners, words, number) {
        Err(NotLocated::Corrupt) => Err(Halted {
            index: 0,
            answer: Answer::Corrupt,
        }),
        Err(NotLocated::NoMachine) => {
            if n == 0 {
                return Ok(());
            }
            Err(Halted {
                index: 0,
                answer: Answer::No(Reason::NoMachine),
            })
        }
        Ok(l) => {
            list_undo::attempt_or_undo(
                table,
                zones,
                tree,
                owners,
                spare_zones,
                spare_tree,
                spare_owners,
                number,
                bytes,
                p,
                n,
                answers,
                at,
            )?;
            list_clearing::clear_all(
                spare_tree,
                spare_owners,
                words,
                l.first,
                l.client,
                bytes,
                p,
                n,
            );
            Ok(())
        }
    }
}
