// The answers to a machine as numbers, for the exported functions: a code, and the host address that an
// answer has. And a set of regions by its number. An inner crate. Assumes nothing.
#![tactic(auto)]

ghost use Rattle.std.specs.Prelude.{◌≡◌};
ghost use Rattle.machine_codes.specs.Codes.{reason_code, answer_code, address_in, which_of};

use codes::{
    RF_BELOW, RF_CORRUPT, RF_DONE, RF_EMPTY, RF_NO_MACHINE, RF_NO_ROOM, RF_NOT_AT_FRAME,
    RF_NOT_EMPTY, RF_NOT_GIVEN, RF_NOT_IN_SET, RF_NOT_MAPPED, RF_NOT_PRESENT, RF_NOT_TAKEN,
    RF_NOT_YOURS, RF_OUTSIDE, RF_OVERLAP, RF_PRESENT,
};
use machine::{Answer, Reason, Which};

// The code of a reason.
fn reason_code(why: Reason) -> u32
    ensures { result ≡ reason_code why }
{
    match why {
        Reason::NoMachine => RF_NO_MACHINE,
        Reason::Present => RF_PRESENT,
        Reason::NotPresent => RF_NOT_PRESENT,
        Reason::NotEmpty => RF_NOT_EMPTY,
        Reason::NotGiven => RF_NOT_GIVEN,
        Reason::Overlap => RF_OVERLAP,
        Reason::NoRoom => RF_NO_ROOM,
        Reason::NotInSet => RF_NOT_IN_SET,
        Reason::NotMapped => RF_NOT_MAPPED,
        Reason::NoFrames => RF_EMPTY,
        Reason::Below => RF_BELOW,
        Reason::NotAtFrame => RF_NOT_AT_FRAME,
        Reason::Outside => RF_OUTSIDE,
        Reason::NotTaken => RF_NOT_TAKEN,
        Reason::NotYours => RF_NOT_YOURS,
    }
}

// The code of an answer.
pub fn code_of(a: Answer) -> u32
    ensures { result ≡ answer_code a }
{
    match a {
        Answer::Done => RF_DONE,
        Answer::Address(_) => RF_DONE,
        Answer::No(why) => reason_code(why),
        Answer::Corrupt => RF_CORRUPT,
    }
}

// The address of an answer, or `old` where it has none.
pub fn address_in(a: Answer, old: u64) -> u64
    ensures { result ≡ address_in a old }
{
    match a {
        Answer::Address(at) => at,
        _ => old,
    }
}

// The set with a number.
pub fn which_of(n: u64) -> Which
    ensures { result ≡ which_of n }
{
    match n {
        0 => Which::Processors,
        _ => Which::Devices,
    }
}
