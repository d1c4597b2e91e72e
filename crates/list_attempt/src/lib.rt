// The requests of a list are attempted one by one, without the frames' contents, up to the first that is
// refused. An inner crate: its functions ask what their callers show.
#![tactic(auto)]

ghost use Rattle.std.specs.Prelude.{◌≡◌, ◌+◌, ◌*◌, ◌≤◌, length};
ghost use Rattle.base.specs.Ranges.{Only};
ghost use Rattle.machine.specs.Lists.{is_done};
ghost use Rattle.request_bytes.specs.Requests.{request_at, nth_request, Means, MeansAll};
ghost use Rattle.hv_blind.specs.Blind.{ServedBlind};
ghost use Rattle.list_attempt.specs.Attempting.{Told, AttemptSays};

use machine::Answer;

// The request of a list that is the first that is refused, and what it is answered.
#[derive(Clone, Copy)]
pub struct Halted {
    pub index: usize,
    pub answer: Answer,
}

// Whether an answer is no refusal.
fn is_done(a: Answer) -> bool
    ensures { result ≡ is_done a }
{
    matches!(a, Answer::Done | Answer::Address(_))
}

// Writes the answer to request k into the buffer from `at` on.
fn write_answer(answers: &mut [u64], at: usize, k: usize, a: Answer)
    requires { at + 2 * k + 2 ≤ length answers.old }
    ensures { Only answers.old (at + 2 * k) (at + 2 * k + 2) answers.new × Told answers.new at k a }
{
    answers[at + 2 * k] = machine_codes::code_of(a) as u64;
    answers[at + 2 * k + 1] = machine_codes::address_in(a, 0);
}

// Attempts the request in the 33 bytes from p on.
fn attempt_read(
    table: &[u64],
    zones: &mut [u64],
    tree: &mut [u16],
    owners: &mut [u8],
    number: u64,
    bytes: &[u8],
    p: usize,
) -> Answer
    requires { Means bytes.now p (request_at bytes.now p) }
    ensures { ServedBlind table.now zones.old tree.old owners.old number (request_at bytes.now p) zones.new tree.new owners.new result }
{
    let q = request_bytes::read_at(bytes, p).unwrap();
    hv_attempt::attempt(table, zones, tree, owners, number, q)
}

// Attempts the n requests in the bytes from p on, 33 for each, up to the first that is refused, and writes
// what they are answered into the buffer from `at` on.
pub fn attempt_all(
    table: &[u64],
    zones: &mut [u64],
    tree: &mut [u16],
    owners: &mut [u8],
    number: u64,
    bytes: &[u8],
    p: usize,
    n: usize,
    answers: &mut [u64],
    at: usize,
) -> Result<(), Halted>
    requires members { MeansAll bytes.now p n }
    requires room { at + 2 * n ≤ length answers.old }
    ensures says { AttemptSays table.now zones.old tree.old owners.old number (nth_request bytes.now p) n
        zones.new tree.new owners.new answers.new at result }
    ensures told { Only answers.old at (at + 2 * n) answers.new }
{
    for i in 0..n {
        let a = attempt_read(table, zones, tree, owners, number, bytes, p + 33 * i);
        if !is_done(a) {
            return Err(Halted {
                index: i,
                answer: a,
            });
        }
        write_answer(answers, at, i, a);
    }
    Ok(())
}
