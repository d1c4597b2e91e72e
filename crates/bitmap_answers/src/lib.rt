// What the allocator answers, as a file of answers has it, and the numbers that stand in such a file. A
// library for programs that replay requests; nothing here prints.
#![tactic(auto)]

use bitmap_requests::refusal::Refusal;
use bitmap_requests::{Answer, Request};

// The number that stands in the file for the answer that there is no such frame.
const NONE: usize = 4294967295;

// The request for which a number stands in the file.
pub fn request(kind: usize) -> Option<Request> {
    match kind {
        0 => Some(Request::Alloc),
        1 => Some(Request::Next),
        2 => Some(Request::AllocContiguous),
        3 => Some(Request::Dealloc),
        4 => Some(Request::Insert),
        5 => Some(Request::Remove),
        _ => None,
    }
}

// The number that stands in the file for what the tree answers to a request; none does for a refusal.
pub fn ask(tree: &mut [u16], request: Request, a: usize, b: usize) -> Option<usize> {
    match bitmap_requests::make(tree, request, a, b) {
        Ok(Answer::Frame(k)) => Some(k),
        Ok(Answer::Done) => Some(0),
        Err(Refusal::Nothing | Refusal::NoRoom) => Some(NONE),
        _ => None,
    }
}

// The bit k of the words that stand at a place, or 0 past the end. A word's low byte comes first.
pub fn bit_at(bytes: &[u8], at: usize, k: usize) -> bool {
    (byte_at(bytes, at.saturating_add(k / 8)) >> (k % 8)) % 2 == 1
}

// The number of four bytes that stands at a place; bytes past the end are 0.
pub fn u32_at(bytes: &[u8], at: usize) -> usize {
    let four = [
        byte_at(bytes, at),
        byte_at(bytes, at.saturating_add(1)),
        byte_at(bytes, at.saturating_add(2)),
        byte_at(bytes, at.saturating_add(3)),
    ];
    u32::from_le_bytes(four) as usize
}

// The byte at a place, or 0 past the end.
fn byte_at(bytes: &[u8], at: usize) -> u8 {
    bytes.get(at).copied().unwrap_or(0)
}
