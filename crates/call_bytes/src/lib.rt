// Calls in bytes: whether a call is one request or a list and what of it is malformed, and where the calls
// of a sequence are. An inner crate. Assumes nothing.
#![tactic(auto)]

ghost use Rattle.std.specs.Prelude.{◌≡◌, true, ◌+◌, ◌≤◌, ◌<◌, length};
ghost use Rattle.base.specs.Says.{Says};
ghost use Rattle.call_bytes.specs.Calls.{is_list, WellFormed, ShapeSays};
ghost use Rattle.call_bytes.specs.Framing.{FramingSays};

use config_bytes::u64_at;
use request_bytes::read_at;

// What a call is that is not malformed.
#[derive(Clone, Copy, Debug, PartialEq, Eq)]
pub enum Shape {
    // One request.
    One,
    // A list of so many requests.
    List(usize),
}

// The request with that number is the first that is malformed.
#[derive(Clone, Copy, Debug, PartialEq, Eq)]
pub struct Malformed(pub usize);

// The item at that offset is the first that is not whole.
#[derive(Clone, Copy, Debug, PartialEq, Eq)]
pub struct Broken(pub usize);

// Whether the bytes from `at` on mean a request.
fn is_request(bytes: &[u8], at: usize) -> bool
    ensures { Says result (WellFormed bytes.now at) }
{
    read_at(bytes, at).is_some()
}

// Whether the call is a list.
#[tactic(auto, unfolding(crate::specs::Calls::is_list))]
fn is_list(bytes: &[u8], from: usize, len: usize) -> bool
    requires { from + len ≤ length bytes.now }
    ensures { result ≡ is_list bytes.now from len }
{
    0 < len && bytes[from] == 255
}

// The shape of a call that is a list.
fn list_shape(bytes: &[u8], from: usize, len: usize) -> Result<Shape, Malformed>
    requires { (from + len ≤ length bytes.now) × (is_list bytes.now from len ≡ true) }
    ensures { ShapeSays bytes.now from len result }
{
    let n = (len - 1) / 33;
    for i in 0..n {
        if !is_request(bytes, from + (1 + 33 * i)) {
            return Err(Malformed(i));
        }
    }
    if len == 1 + 33 * n {
        Ok(Shape::List(n))
    } else {
        Err(Malformed(n))
    }
}

// The shape of the call in the `len` bytes from `from` on.
pub fn shape_of(bytes: &[u8], from: usize, len: usize) -> Result<Shape, Malformed>
    requires { from + len ≤ length bytes.now }
    ensures { ShapeSays bytes.now from len result }
{
    if is_list(bytes, from, len) {
        list_shape(bytes, from, len)
    } else if len == 33 && is_request(bytes, from) {
        Ok(Shape::One)
    } else {
        Err(Malformed(0))
    }
}

// How many items the bytes are, or where the first is that is not whole.
pub fn framing_of(bytes: &[u8]) -> Result<usize, Broken>
    ensures { FramingSays bytes.now result }
{
    let mut n = 0;
    let mut p = 0;
    // No `for`: how far the next item is, each item says.
    while p < bytes.len() {
        let have = bytes.len() - p;
        if have < 16 {
            return Err(Broken(p));
        }
        let len = u64_at(bytes, p + 8) as usize;
        if have - 16 < len {
            return Err(Broken(p));
        }
        p += 16 + len;
        n += 1;
    }
    Ok(n)
}
