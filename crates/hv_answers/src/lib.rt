// The allocator's reasons as answers to a machine. A reason that sound memories never give is "corrupt".
// These are functions and no From, since the types on both sides are other crates'.
#![tactic(auto)]

ghost use Rattle.std.specs.Prelude.{◌≡◌};
ghost use Rattle.hv_answers.specs.Answers.{of_no_frame, of_no_run, of_not_freed, of_run_not_freed};

use claims::{NoFrame, NoRun, NotFreed, RunNotFreed};
use machine::{Answer, Reason};

// Why no frame is given.
pub fn of_no_frame(why: NoFrame) -> Answer
    ensures { result ≡ of_no_frame why }
{
    match why {
        NoFrame::Unfit(_) => Answer::Corrupt,
        NoFrame::NoClient => Answer::Corrupt,
        NoFrame::NoRoom => Answer::No(Reason::NoRoom),
        NoFrame::Corrupt => Answer::Corrupt,
    }
}

// Why no run of frames is given.
pub fn of_no_run(why: NoRun) -> Answer
    ensures { result ≡ of_no_run why }
{
    match why {
        NoRun::Unfit(_) => Answer::Corrupt,
        NoRun::NoClient => Answer::Corrupt,
        NoRun::Empty => Answer::No(Reason::NoFrames),
        NoRun::NoRoom => Answer::No(Reason::NoRoom),
        NoRun::Corrupt => Answer::Corrupt,
    }
}

// Why a frame can't be given back.
pub fn of_not_freed(why: NotFreed) -> Answer
    ensures { result ≡ of_not_freed why }
{
    match why {
        NotFreed::Unfit(_) => Answer::Corrupt,
        NotFreed::NoClient => Answer::Corrupt,
        NotFreed::Below => Answer::No(Reason::Below),
        NotFreed::NotAtFrame => Answer::No(Reason::NotAtFrame),
        NotFreed::Outside => Answer::No(Reason::Outside),
        NotFreed::NotTaken => Answer::No(Reason::NotTaken),
        NotFreed::NotYours => Answer::No(Reason::NotYours),
    }
}

// Why a run of frames can't be given back.
pub fn of_run_not_freed(why: RunNotFreed) -> Answer
    ensures { result ≡ of_run_not_freed why }
{
    match why {
        RunNotFreed::Unfit(_) => Answer::Corrupt,
        RunNotFreed::NoClient => Answer::Corrupt,
        RunNotFreed::Below => Answer::No(Reason::Below),
        RunNotFreed::NotAtFrame => Answer::No(Reason::NotAtFrame),
        RunNotFreed::Empty => Answer::No(Reason::NoFrames),
        RunNotFreed::Outside => Answer::No(Reason::Outside),
        RunNotFreed::NotTaken(_) => Answer::No(Reason::NotTaken),
        RunNotFreed::NotYours(_) => Answer::No(Reason::NotYours),
    }
}
