// The abstract machine: what a state is, what a request of a machine does to it and is answered, and the
// theorems that hold of every sequence of requests. There is no code here but the requests and answers:
// the definitions are in specs/ and the theorems in proofs/. The crates hv_* do what `step` says, in memory.
#![tactic(auto)]

ghost use Rattle.std.specs.Prelude.{◌≡◌};
ghost use Rattle.machine.specs.Refusals.{refused};

use address::Region;

// Which of a machine's two sets of regions.
#[derive(Clone, Copy)]
pub enum Which {
    Processors,
    Devices,
}

// What a machine can ask. It acts on itself alone: who asks is no part of a request.
#[derive(Clone, Copy)]
pub enum Request {
    AddZone,
    RemoveZone,
    RemoveZoneWhole,
    Insert { which: Which, region: Region },
    Remove { which: Which, region: Region },
    Translate { which: Which, addr: u64 },
    Alloc,
    AllocContiguous { size: usize, align_log2: usize },
    Dealloc { addr: usize },
    DeallocContiguous { addr: usize, count: usize },
}

// Why a request is refused.
#[derive(Clone, Copy, Debug, PartialEq, Eq)]
pub enum Reason {
    // No machine of the configuration has the asker's number.
    NoMachine,
    // The machine is there already.
    Present,
    // The machine is not there: it has not been added.
    NotPresent,
    // The machine still has a region or a frame.
    NotEmpty,
    // The configuration does not give the machine that region.
    NotGiven,
    // The region has a guest page in common with one of the set.
    Overlap,
    // There is no room: in the set for another region, or among the free frames for what was asked.
    NoRoom,
    // That very region is not in the set.
    NotInSet,
    // No region of the set has the guest address.
    NotMapped,
    // No frame was asked for, or was to be given back.
    NoFrames,
    // The address is below the allocator's first frame.
    Below,
    // No frame starts at the address.
    NotAtFrame,
    // A frame is behind the allocator's last.
    Outside,
    // A frame is free already.
    NotTaken,
    // A frame is another machine's, or reserved for the monitor.
    NotYours,
}

// What is answered. No Result: `step` and what is proved of it speak of these four.
#[derive(Clone, Copy, Debug, PartialEq, Eq)]
pub enum Answer {
    Done,
    // A host address: that of a frame, or the one that a guest address stands for.
    Address(u64),
    No(Reason),
    // The memories are not sound. No request of sound memories is answered so.
    Corrupt,
}

// Why nothing is done for a machine: a reason, or memories that are not sound.
#[derive(Clone, Copy, Debug, PartialEq, Eq)]
pub enum Refusal {
    No(Reason),
    // The memories are not sound.
    Corrupt,
}

impl From<Refusal> for Answer {
    ghost from_gives = { λ why a. a ≡ refused why };

    fn from(why: Refusal) -> Answer {
        match why {
            Refusal::No(reason) => Self::No(reason),
            Refusal::Corrupt => Self::Corrupt,
        }
    }
}
