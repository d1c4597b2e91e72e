// Addresses, and regions of a machine's memory: which guest pages stand for which host pages.
//
// Every function takes any 64-bit numbers, those of regions that are not valid too, and asks nothing
// of its caller. A page has 4,096 bytes. A range of pages is a set of page numbers in specs/, and what
// the functions answer is said of that set.
#![tactic(auto)]

ghost use Rattle.std.specs.Prelude.{◌/◌, ◌≡◌};
ghost use Rattle.base.specs.Says.{Says};
ghost use Rattle.address.specs.Pages.{Multiple, Fits, EndSays, Contains, Share};
ghost use Rattle.address.specs.Regions.{Valid, ValiditySays, TranslateSays};

const TOP: u64 = 18446744073709551615;

// What a region is for.
#[derive(Clone, Copy, Debug, PartialEq, Eq)]
pub enum Kind {
    // Memory of one machine.
    Ordinary,
    // The registers of a device, given to one machine.
    Device,
    // Memory that a machine shares with others.
    Shared,
}

// `pages` pages of guest memory from the address `guest` on, which are the host's pages from `host` on.
#[derive(Clone, Copy, Debug, PartialEq, Eq)]
pub struct Region {
    pub guest: u64,
    pub host: u64,
    pub pages: u64,
    pub kind: Kind,
}

// The first condition of a valid region that a region breaks.
#[derive(Clone, Copy, Debug, PartialEq, Eq)]
pub enum Fault {
    // It has no page.
    NoPage,
    // Its guest start is no multiple of a page.
    GuestStart,
    // Its host start is no multiple of a page.
    HostStart,
    // Its guest end passes 2^64 - 1.
    GuestEnd,
    // Its host end passes 2^64 - 1.
    HostEnd,
}

// Why a guest address stands for no host address.
#[derive(Clone, Copy, Debug, PartialEq, Eq)]
pub enum Untranslated {
    // The region does not have the guest address.
    Outside,
    // The host address passes 2^64 - 1: the region is not valid.
    Beyond,
}

// The number of the page that has an address.
pub fn page_of(addr: u64) -> u64
    ensures { result ≡ addr / 4096 }
{
    addr / 4096
}

// Whether an address is a multiple of a size. Of the size 0 only the address 0 is one.
pub fn aligned(addr: u64, size: u64) -> bool
    ensures { Says result (Multiple size addr) }
{
    addr.is_multiple_of(size)
}

// Whether the end of a range is at most 2^64 - 1.
fn fits(start: u64, pages: u64) -> bool
    ensures { Says result (Fits start pages) }
{
    pages <= (TOP - start) / 4096
}

// The first condition of a valid region that r breaks, if it breaks one.
pub fn validity(r: Region) -> Result<(), Fault>
    ensures { ValiditySays r.guest r.host r.pages result }
{
    if r.pages == 0 {
        return Err(Fault::NoPage);
    }
    if r.guest % 4096 != 0 {
        return Err(Fault::GuestStart);
    }
    if r.host % 4096 != 0 {
        return Err(Fault::HostStart);
    }
    if !fits(r.guest, r.pages) {
        return Err(Fault::GuestEnd);
    }
    if !fits(r.host, r.pages) {
        return Err(Fault::HostEnd);
    }
    Ok(())
}

// Whether r is valid.
pub fn valid(r: Region) -> bool
    ensures { Says result (Valid r.guest r.host r.pages) }
{
    validity(r).is_ok()
}

// The address behind a range of pages. None: it passes 2^64 - 1.
fn end_of(start: u64, pages: u64) -> Option<u64>
    ensures { EndSays start pages result }
{
    if fits(start, pages) {
        return Some(start + 4096 * pages);
    }
    None
}

// The guest address behind r. None: it passes 2^64 - 1.
pub fn vend(r: Region) -> Option<u64>
    ensures { EndSays r.guest r.pages result }
{
    end_of(r.guest, r.pages)
}

// The host address behind r. None: it passes 2^64 - 1.
pub fn pend(r: Region) -> Option<u64>
    ensures { EndSays r.host r.pages result }
{
    end_of(r.host, r.pages)
}

// Whether two ranges of pages share one.
fn share(start1: u64, pages1: u64, start2: u64, pages2: u64) -> bool
    ensures { Says result (Share start1 pages1 start2 pages2) }
{
    let a = start1 / 4096;
    let b = start2 / 4096;
    if a <= b {
        0 < pages2 && b - a < pages1
    } else {
        0 < pages1 && a - b < pages2
    }
}

// Whether two regions share a guest page.
pub fn overlaps_vmem(a: Region, b: Region) -> bool
    ensures { Says result (Share a.guest a.pages b.guest b.pages) }
{
    share(a.guest, a.pages, b.guest, b.pages)
}

// Whether two regions share a host page.
pub fn overlaps_pmem(a: Region, b: Region) -> bool
    ensures { Says result (Share a.host a.pages b.host b.pages) }
{
    share(a.host, a.pages, b.host, b.pages)
}

// Whether r has a guest address.
pub fn contains(r: Region, addr: u64) -> bool
    ensures { Says result (Contains r.guest r.pages addr) }
{
    r.guest <= addr && (addr - r.guest) / 4096 < r.pages
}

// The host address that a guest address stands for.
pub fn translate(r: Region, addr: u64) -> Result<u64, Untranslated>
    ensures { TranslateSays r.guest r.host r.pages addr result }
{
    if !contains(r, addr) {
        return Err(Untranslated::Outside);
    }
    r.host
        .checked_add(addr - r.guest)
        .ok_or(Untranslated::Beyond)
}
