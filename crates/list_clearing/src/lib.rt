// The frames that the requests of a list freed are cleared, once all of them were done. An inner crate: its
// functions ask what their callers show.
#![tactic(auto)]

ghost use Rattle.std.specs.Prelude.{◌≡◌, ◌-◌, ◌/◌, ◌%◌, ◌<◌, length};
ghost use Rattle.base.specs.Choices.{within};
ghost use Rattle.contents.specs.Contents.{Backed};
ghost use Rattle.owners.specs.States.{state, Matched};
ghost use Rattle.request_bytes.specs.Requests.{request_at, nth_request, Means, MeansAll};
ghost use Rattle.list_model.specs.Carrying.{frees};
ghost use Rattle.list_clearing.specs.Clearing.{ClearedWhere, ClearedAll};

use machine::Request;

// Clears the n frames from frame k on, as far as they have contents.
fn clear_run(words: &mut [u64], k: usize, n: usize)
    requires { length words.old % 512 ≡ 0 }
    ensures { ClearedWhere (within k n) words.old words.new }
{
    let frames = words.len() / 512;
    if k < frames {
        contents::wipe(words, k, k + n.min(frames - k));
    }
}

// Clears the n frames from an address on, where the first frame's is `first`, as far as they have contents.
fn clear_from(words: &mut [u64], first: usize, addr: usize, n: usize)
    requires { length words.old % 512 ≡ 0 }
    ensures { ClearedWhere (within ((addr - first) / 4096) n) words.old words.new }
{
    clear_run(words, addr.saturating_sub(first) / 4096, n);
}

// Clears the frames that a request of the client c, which was done, freed: the tree and the owners are those
// from before the list.
fn clear_freed(tree: &[u16], owners: &[u8], words: &mut [u64], first: usize, c: u8, q: Request)
    requires { Matched tree.now owners.now × Backed owners.now words.old × (c < 64) }
    ensures { ClearedWhere (frees first (state tree.now owners.now) c q) words.old words.new }
{
    match q {
        Request::AddZone => {}
        Request::RemoveZone => {}
        Request::RemoveZoneWhole => contents::wipe_owned(tree, owners, words, c),
        Request::Insert { .. } => {}
        Request::Remove { .. } => {}
        Request::Translate { .. } => {}
        Request::Alloc => {}
        Request::AllocContiguous { .. } => {}
        Request::Dealloc { addr } => clear_from(words, first, addr, 1),
        Request::DeallocContiguous { addr, count } => clear_from(words, first, addr, count),
    }
}

// Clears the frames that the request in the 33 bytes from p on freed.
fn clear_read(
    tree: &[u16],
    owners: &[u8],
    words: &mut [u64],
    first: usize,
    c: u8,
    bytes: &[u8],
    p: usize,
)
    requires { Matched tree.now owners.now × Backed owners.now words.old × (c < 64) × Means bytes.now p (request_at bytes.now p) }
    ensures { ClearedWhere (frees first (state tree.now owners.now) c (request_at bytes.now p)) words.old words.new }
{
    let q = request_bytes::read_at(bytes, p).unwrap();
    clear_freed(tree, owners, words, first, c, q);
}

// Clears every frame that one of the n requests in the bytes from p on freed, 33 bytes for each.
pub fn clear_all(
    tree: &[u16],
    owners: &[u8],
    words: &mut [u64],
    first: usize,
    c: u8,
    bytes: &[u8],
    p: usize,
    n: usize,
)
    requires matched { Matched tree.now owners.now }
    requires backed { Backed owners.now words.old }
    requires client { c < 64 }
    requires members { MeansAll bytes.now p n }
    ensures { ClearedAll first (state tree.now owners.now) c (nth_request bytes.now p) n words.old words.new }
{
    for i in 0..n {
        clear_read(tree, owners, words, first, c, bytes, p + 33 * i);
    }
}
