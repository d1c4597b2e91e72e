// A call of a machine, one request or a list of them, in bytes. An inner crate: its functions ask what their
// callers show.
#![tactic(auto)]

ghost use Rattle.std.specs.Prelude.{◌+◌, ◌*◌, ◌/◌, ◌≤◌, length};
ghost use Rattle.base.specs.Says.{Says};
ghost use Rattle.base.specs.Ranges.{Only};
ghost use Rattle.hv_state.specs.Serving.{mem};
ghost use Rattle.hv_calls.specs.Calling.{answer_words, ReplySays};
ghost use Rattle.list_undo.specs.Undoing.{SpareFits};

use call_bytes::{Malformed, Shape};
use list_attempt::Halted;
use machine::Answer;

// What is replied to a call. No Result: `call` and what is proved of it speak of these four.
#[derive(Clone, Copy)]
pub enum Replied {
    // What one request is answered.
    Answered(Answer),
    // All members of a list were done; where the memories are sound, their answers are written.
    Done,
    // A member of a list is the first that is refused, and what it is answered; nothing was done.
    Stopped(usize, Answer),
    // A request is malformed, in a list the lowest such member; nothing was done.
    Malformed(usize),
}

// Whether the spare memory is as long as what it is to hold.
pub fn fits_spare(
    zones: &[u64],
    tree: &[u16],
    owners: &[u8],
    spare_zones: &[u64],
    spare_tree: &[u16],
    spare_owners: &[u8],
) -> bool
    ensures { Says result (SpareFits zones.now tree.now owners.now spare_zones.now spare_tree.now spare_owners.now) }
{
    spare_zones.len() == zones.len()
        && spare_tree.len() == tree.len()
        && spare_owners.len() == owners.len()
}

// Serves the call in the `len` bytes from `from` on, of the machine that has a number, and writes the answers
// to the members of a list into the buffer from `at` on.
pub fn serve_call(
    table: &[u64],
    zones: &mut [u64],
    tree: &mut [u16],
    owners: &mut [u8],
    words: &mut [u64],
    spare_zones: &mut [u64],
    spare_tree: &mut [u16],
    spare_owners: &mut [u8],
    number: u64,
    bytes: &[u8],
    from: usize,
    len: usize,
    answers: &mut [u64],
    at: usize,
) -> Replied
    requires spare { SpareFits zones.old tree.old owners.old spare_zones.old spare_tree.old spare_owners.old }
    requires call { from + len ≤ length bytes.now }
    requires room { at + 2 * (len / 33) ≤ length answers.old }
    ensures says { ReplySays bytes.now from len (mem table.now zones.old tree.old owners.old words.old) number
        (mem table.now zones.new tree.new owners.new words.new) answers.new at result }
    ensures told { Only answers.old at (at + answer_words len result) answers.new }
{
    match call_bytes::shape_of(bytes, from, len) {
        Ok(Shape::One) => {
            let q = request_bytes::read_at(bytes, from).unwrap();
            let a = hv_request::serve_request(table, zones, tree, owners, words, number, q);
            Replied::Answered(a)
        }
        Ok(Shape::List(n)) => match hv_lists::serve_list(
            table,
            zones,
            tree,
            owners,
            words,
            spare_zones,
            spare_tree,
            spare_owners,
            number,
            bytes,
            from + 1,
            n,
            answers,
            at,
        ) {
            Ok(()) => Replied::Done,
            Err(Halted { index, answer }) => Replied::Stopped(index, answer),
        },
        Err(Malformed(i)) => Replied::Malformed(i),
    }
}
