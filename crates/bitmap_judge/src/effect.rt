// Whether a request changed what its answer says, by `test` of every frame before and after.
use super::Reply;
use bitmap_requests::{Answer, Request};

// Whether `test` says that frame k is free; nothing, where it says neither that nor that it is taken.
fn tested(tree: &[u16], k: usize) -> Option<bool> {
    bitmap_looks::test(tree, k).ok()
}

// Whether `test` says of frame k that it is free, where `free` holds, or that it is taken, where not, if k is one from
// a up to b; and else what it said before.
fn became(old: &[u16], tree: &[u16], k: usize, a: usize, b: usize, free: bool) -> bool {
    let said = if a <= k && k < b {
        Some(free)
    } else {
        tested(old, k)
    };
    tested(tree, k) == said
}

// Whether that is so of every frame.
fn all_became(old: &[u16], tree: &[u16], a: usize, b: usize, free: bool) -> bool {
    (0..bitmap_plain::frames(tree)).all(|k| became(old, tree, k, a, b, free))
}

// The frames that a request changed, where it was done or found frame f: the first, and the one behind the
// last.
fn changed(request: Request, a: usize, b: usize, f: usize) -> (usize, usize) {
    match request {
        Request::Reset => (0, 4096),
        Request::Alloc => (f, f.wrapping_add(1)),
        Request::AllocContiguous => (f, f.wrapping_add(a)),
        Request::Dealloc => (a, a.wrapping_add(1)),
        _ => (a, b),
    }
}

// Whether the frames changed as the answer says; or no word did, where nothing was done.
pub fn right(
    old: &[u16],
    tree: &[u16],
    request: Request,
    a: usize,
    b: usize,
    reply: Reply,
) -> bool {
    let f = match reply {
        _ if request == Request::Put => return true,
        Ok(Answer::Done) => 0,
        Ok(Answer::Frame(f)) if request != Request::Next => f,
        _ => return old == tree,
    };
    let (start, end) = changed(request, a, b, f);
    let free = request == Request::Dealloc || request == Request::Insert;
    all_became(old, tree, start, end, free)
}

// Whether the summaries agree, if they did before, or if all was reset.
pub fn sound(old: &[u16], tree: &[u16], request: Request, reply: Reply) -> bool {
    if request == Request::Put {
        return true;
    }
    if request == Request::Reset && reply == Ok(Answer::Done) || bitmap_plain::sound(old) {
        return bitmap_plain::sound(tree);
    }
    true
}
