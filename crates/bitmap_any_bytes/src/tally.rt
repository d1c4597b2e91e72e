// How often each kind of answer was given, and how often one was wrong.
ghost use Rattle.std.specs.Prelude.{◌<◌};

use bitmap_judge::Reply;
use bitmap_requests::refusal::{REFUSALS, Refusal};
use bitmap_requests::{ANSWERS, Answer};
use std::io;
use std::io::Write;

// The counts, in the order of ANSWERS and REFUSALS.
#[derive(Drop)]
pub struct Tally {
    answers: [u64; 9],
    refusals: [u64; 9],
    wrong: u64,
}

// The place of an answer's kind among ANSWERS.
fn place(answer: Answer) -> usize
    ensures { result < 9 }
{
    match answer {
        Answer::Number(_) => 0,
        Answer::Frame(_) => 1,
        Answer::Lie(_) => 2,
        Answer::Done => 3,
        Answer::Yes => 4,
        Answer::No => 5,
        Answer::Free => 6,
        Answer::Taken => 7,
        Answer::Sound => 8,
    }
}

// The place of a refusal among REFUSALS.
fn place_of(refusal: Refusal) -> usize
    ensures { result < 9 }
{
    match refusal {
        Refusal::NoSize => 0,
        Refusal::Nothing => 1,
        Refusal::NoRoom => 2,
        Refusal::Corrupt => 3,
        Refusal::Empty => 4,
        Refusal::Reversed => 5,
        Refusal::NotTaken => 6,
        Refusal::Outside => 7,
        Refusal::NotFull => 8,
    }
}

impl Tally {
    // Nothing is counted yet.
    pub fn new() -> Tally {
        Tally {
            answers: [0; 9],
            refusals: [0; 9],
            wrong: 0,
        }
    }

    // Counts what was answered, if that is right.
    pub fn note(&mut self, reply: Reply, right: bool) {
        match reply {
            _ if !right => self.wrong = self.wrong.wrapping_add(1),
            Ok(answer) => {
                let k = place(answer);
                self.answers[k] = self.answers[k].wrapping_add(1);
            }
            Err(refusal) => {
                let k = place_of(refusal);
                self.refusals[k] = self.refusals[k].wrapping_add(1);
            }
        }
    }

    // Prints a line for each kind of answer, and for what was wrong.
    pub fn print(&self, out: &mut impl Write) -> io::Result<()> {
        for k in 0..9 {
            writeln!(out, "{} {}", self.answers[k], ANSWERS[k].name())?;
        }
        for k in 0..9 {
            writeln!(out, "{} {}", self.refusals[k], REFUSALS[k].name())?;
        }
        writeln!(out, "{} inconsistent", self.wrong)
    }
}
