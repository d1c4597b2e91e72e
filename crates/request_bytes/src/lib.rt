// Requests in bytes. Bytes are read as an operation and four numbers, these as a request, and the request
// stands if its own numbers are those that were read. An interface crate: any bytes are taken. Assumes nothing.
#![tactic(auto)]

ghost use Rattle.std.specs.Prelude.{◌≡◌, ◌+◌, ◌≤◌, length};
ghost use Rattle.request_bytes.specs.Requests.{five, of_region, numbers_of, numbers_at, region_in, request_of, ReadSays};

use address::Region;
use config_bytes::{byte, u64_at};
use machine::{Request, Which};
use machine_codes::which_of;
use region_words::{kind_of, number_of};

// An operation and its four numbers.
#[derive(Clone, Copy, Debug, PartialEq, Eq)]
pub struct Numbers {
    pub op: u64,
    pub a: u64,
    pub b: u64,
    pub c: u64,
    pub d: u64,
}

// An operation and its four numbers, as one value.
fn five(op: u64, a: u64, b: u64, c: u64, d: u64) -> Numbers
    ensures { result ≡ five op a b c d }
{
    Numbers { op, a, b, c, d }
}

// The numbers of an operation on a region.
fn of_region(op: u64, r: Region) -> Numbers
    ensures { result ≡ of_region op r }
{
    five(op, r.guest, r.host, r.pages, number_of(r.kind))
}

// The numbers of a request.
fn numbers_of(q: Request) -> Numbers
    ensures { result ≡ numbers_of q }
{
    match q {
        Request::AddZone => five(0, 0, 0, 0, 0),
        Request::RemoveZone => five(1, 0, 0, 0, 0),
        Request::RemoveZoneWhole => five(2, 0, 0, 0, 0),
        Request::Insert { which, region } => match which {
            Which::Processors => of_region(3, region),
            Which::Devices => of_region(5, region),
        },
        Request::Remove { which, region } => match which {
            Which::Processors => of_region(4, region),
            Which::Devices => of_region(6, region),
        },
        Request::Translate { which, addr } => match which {
            Which::Processors => five(7, addr, 0, 0, 0),
            Which::Devices => five(7, addr, 1, 0, 0),
        },
        Request::Alloc => five(8, 0, 0, 0, 0),
        Request::AllocContiguous { size, align_log2 } => five(
            9,
            size as u64,
            align_log2 as u64,
            0,
            0,
        ),
        Request::Dealloc { addr } => five(10, addr as u64, 0, 0, 0),
        Request::DeallocContiguous { addr, count } => five(11, addr as u64, count as u64, 0, 0),
    }
}

// The numbers in the 33 bytes from `at` on.
#[tactic(auto, unfolding(crate::specs::Requests::numbers_at))]
fn numbers_at(bytes: &[u8], at: usize) -> Numbers
    requires { at + 33 ≤ length bytes.now }
    ensures { result ≡ numbers_at bytes.now at }
{
    let op = byte(bytes, at);
    let a = u64_at(bytes, at + 1);
    let b = u64_at(bytes, at + 9);
    let c = u64_at(bytes, at + 17);
    let d = u64_at(bytes, at + 25);
    five(op, a, b, c, d)
}

// The region that the four numbers are read as.
fn region_in(n: Numbers) -> Region
    ensures { result ≡ region_in n }
{
    let kind = kind_of(n.d);
    Region {
        guest: n.a,
        host: n.b,
        pages: n.c,
        kind,
    }
}

// The request that numbers are read as.
#[tactic(auto, unfolding(crate::specs::Requests::request_of))]
fn request_of(n: Numbers) -> Request
    ensures { result ≡ request_of n }
{
    match n.op {
        0 => Request::AddZone,
        1 => Request::RemoveZone,
        2 => Request::RemoveZoneWhole,
        3 => Request::Insert {
            which: Which::Processors,
            region: region_in(n),
        },
        4 => Request::Remove {
            which: Which::Processors,
            region: region_in(n),
        },
        5 => Request::Insert {
            which: Which::Devices,
            region: region_in(n),
        },
        6 => Request::Remove {
            which: Which::Devices,
            region: region_in(n),
        },
        7 => Request::Translate {
            which: which_of(n.b),
            addr: n.a,
        },
        8 => Request::Alloc,
        9 => Request::AllocContiguous {
            size: n.a as usize,
            align_log2: n.b as usize,
        },
        10 => Request::Dealloc { addr: n.a as usize },
        _ => Request::DeallocContiguous {
            addr: n.a as usize,
            count: n.b as usize,
        },
    }
}

// The request that the bytes from `at` on mean, if they mean one.
pub fn read_at(bytes: &[u8], at: usize) -> Option<Request>
    ensures { ReadSays bytes.now at result }
{
    if bytes.len() < 33 || bytes.len() - 33 < at {
        return None;
    }
    let n = numbers_at(bytes, at);
    let q = request_of(n);
    if numbers_of(q) == n { Some(q) } else { None }
}
