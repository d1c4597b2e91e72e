// The answers about a configuration as numbers, for programs in other languages: a code for each reason,
// and up to four numbers, which are its places in their order and 0 behind them.
#![tactic(auto, unfolding(crate::specs::Codes::fault_number, crate::specs::Codes::reason_code, crate::specs::Codes::reason_numbers))]

ghost use Rattle.std.specs.Prelude.{◌≡◌};
ghost use Rattle.config_codes.specs.Codes.{fault_number, four_of, reason_code, reason_numbers};

use address::Fault;
use config_rules::Reason;

// Four numbers.
#[derive(Drop)]
pub struct Four {
    pub first: usize,
    pub second: usize,
    pub third: usize,
    pub fourth: usize,
}

// The number of a fault.
fn fault_number(f: Fault) -> usize
    ensures { result ≡ fault_number f }
{
    match f {
        Fault::NoPage => 1,
        Fault::GuestStart => 2,
        Fault::HostStart => 3,
        Fault::GuestEnd => 4,
        Fault::HostEnd => 5,
    }
}

// The code of a reason.
pub fn code_of(r: Reason) -> u32
    ensures { result ≡ reason_code r }
{
    match r {
        Reason::TooShort(_) => 32,
        Reason::TooManyMachines => 33,
        Reason::TooManyRegions(_) => 34,
        Reason::UnknownKind(_, _) => 35,
        Reason::SameNumber(_, _) => 36,
        Reason::NotValid(_, _, _) => 37,
        Reason::PoolNotValid(_) => 38,
        Reason::HostShared(_, _, _, _) => 39,
        Reason::NotCoinciding(_, _, _, _) => 40,
        Reason::OneMachine(_, _, _) => 41,
        Reason::GuestShared(_, _, _) => 42,
        Reason::PoolShared(_, _) => 43,
        Reason::LeftOver(_) => 44,
    }
}

// The numbers of a reason.
pub fn numbers_of(r: Reason) -> Four
    ensures { result ≡ reason_numbers r }
{
    match r {
        Reason::TooShort(at) => together(at, 0, 0, 0),
        Reason::TooManyMachines => together(0, 0, 0, 0),
        Reason::TooManyRegions(m) => together(m, 0, 0, 0),
        Reason::UnknownKind(m, i) => together(m, i, 0, 0),
        Reason::SameNumber(m, n) => together(m, n, 0, 0),
        Reason::NotValid(m, i, f) => together(m, i, fault_number(f), 0),
        Reason::PoolNotValid(f) => together(fault_number(f), 0, 0, 0),
        Reason::HostShared(m, i, n, j) => together(m, i, n, j),
        Reason::NotCoinciding(m, i, n, j) => together(m, i, n, j),
        Reason::OneMachine(m, i, j) => together(m, i, j, 0),
        Reason::GuestShared(m, i, j) => together(m, i, j, 0),
        Reason::PoolShared(m, i) => together(m, i, 0, 0),
        Reason::LeftOver(at) => together(at, 0, 0, 0),
    }
}

// Four numbers as one value.
fn together(first: usize, second: usize, third: usize, fourth: usize) -> Four
    ensures { result ≡ four_of first second third fourth }
{
    Four {
        first,
        second,
        third,
        fourth,
    }
}
