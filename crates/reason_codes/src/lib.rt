// The codes of the shared allocator's reasons, for the exported functions. An inner crate.
#![tactic(auto)]

ghost use Rattle.std.specs.Prelude.{◌≡◌};
ghost use Rattle.reason_codes.specs.Reasons.{unfit_code, no_frame_code, no_run_code, not_freed_code, run_not_freed_code, run_not_freed_at, not_changed_code, not_changed_at};

use claims::{NoFrame, NoRun, NotChanged, NotFreed, RunNotFreed, Unfit};
use codes::{
    RF_BAD_BASE, RF_BELOW, RF_CORRUPT, RF_EMPTY, RF_NO_CLIENT, RF_NO_ROOM, RF_NOT_AT_FRAME,
    RF_NOT_FULL, RF_NOT_TAKEN, RF_NOT_YOURS, RF_OUTSIDE, RF_REVERSED, RF_TAKEN, RF_UNMATCHED,
};

// Why memories do not fit.
pub fn unfit(why: Unfit) -> u32
    ensures { result ≡ unfit_code why }
{
    match why {
        Unfit::NotFull => RF_NOT_FULL,
        Unfit::Unmatched => RF_UNMATCHED,
        Unfit::BadBase => RF_BAD_BASE,
    }
}

// Why no frame was given.
pub fn no_frame(why: NoFrame) -> u32
    ensures { result ≡ no_frame_code why }
{
    match why {
        NoFrame::Unfit(u) => unfit(u),
        NoFrame::NoClient => RF_NO_CLIENT,
        NoFrame::NoRoom => RF_NO_ROOM,
        NoFrame::Corrupt => RF_CORRUPT,
    }
}

// Why no run of frames was given.
pub fn no_run(why: NoRun) -> u32
    ensures { result ≡ no_run_code why }
{
    match why {
        NoRun::Unfit(u) => unfit(u),
        NoRun::NoClient => RF_NO_CLIENT,
        NoRun::Empty => RF_EMPTY,
        NoRun::NoRoom => RF_NO_ROOM,
        NoRun::Corrupt => RF_CORRUPT,
    }
}

// Why a frame was not given back.
pub fn not_freed(why: NotFreed) -> u32
    ensures { result ≡ not_freed_code why }
{
    match why {
        NotFreed::Unfit(u) => unfit(u),
        NotFreed::NoClient => RF_NO_CLIENT,
        NotFreed::Below => RF_BELOW,
        NotFreed::NotAtFrame => RF_NOT_AT_FRAME,
        NotFreed::Outside => RF_OUTSIDE,
        NotFreed::NotTaken => RF_NOT_TAKEN,
        NotFreed::NotYours => RF_NOT_YOURS,
    }
}

// Why a run of frames was not given back; the frame at fault is written, where there is one.
pub fn run_not_freed(why: RunNotFreed, at: &mut usize) -> u32
    ensures { (result ≡ run_not_freed_code why) × (at.new ≡ run_not_freed_at why at.old) }
{
    match why {
        RunNotFreed::Unfit(u) => unfit(u),
        RunNotFreed::NoClient => RF_NO_CLIENT,
        RunNotFreed::Below => RF_BELOW,
        RunNotFreed::NotAtFrame => RF_NOT_AT_FRAME,
        RunNotFreed::Empty => RF_EMPTY,
        RunNotFreed::Outside => RF_OUTSIDE,
        RunNotFreed::NotTaken(k) => {
            *at = k;
            RF_NOT_TAKEN
        }
        RunNotFreed::NotYours(k) => {
            *at = k;
            RF_NOT_YOURS
        }
    }
}

// Why a range of frames was not changed; the frame at fault is written, where there is one.
pub fn not_changed(why: NotChanged, at: &mut usize) -> u32
    ensures { (result ≡ not_changed_code why) × (at.new ≡ not_changed_at why at.old) }
{
    match why {
        NotChanged::Unfit(u) => unfit(u),
        NotChanged::Empty => RF_EMPTY,
        NotChanged::Reversed => RF_REVERSED,
        NotChanged::Outside => RF_OUTSIDE,
        NotChanged::Taken(k) => {
            *at = k;
            RF_TAKEN
        }
    }
}
