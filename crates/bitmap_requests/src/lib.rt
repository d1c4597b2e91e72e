// Every function of bitmap_allocator and bitmap_looks behind one door, for the programs that test it: a
// request is a value, and so is what it is answered.
#![tactic(auto)]

pub mod refusal;

use bitmap_looks::Unsound;
use refusal::Refusal;
use std::fmt;

// What can be asked.
#[derive(Clone, Copy, Debug, PartialEq, Eq)]
pub enum Request {
    WordsFor,
    Cap,
    CountFree,
    Any,
    Test,
    Next,
    Check,
    Reset,
    Alloc,
    AllocContiguous,
    Dealloc,
    Insert,
    Remove,
    // Not a function of the library: writes a word past it, as damage would.
    Put,
}

// Each request once.
pub const REQUESTS: [Request; 14] = [
    Request::WordsFor,
    Request::Cap,
    Request::CountFree,
    Request::Any,
    Request::Test,
    Request::Next,
    Request::Check,
    Request::Reset,
    Request::Alloc,
    Request::AllocContiguous,
    Request::Dealloc,
    Request::Insert,
    Request::Remove,
    Request::Put,
];

// No request has that name.
#[derive(Clone, Copy, Debug, PartialEq, Eq)]
pub struct NoRequest;

impl Request {
    // Its name.
    pub fn name(self) -> &'static str {
        match self {
            Request::WordsFor => "words_for",
            Request::Cap => "cap",
            Request::CountFree => "count_free",
            Request::Any => "any",
            Request::Test => "test",
            Request::Next => "next",
            Request::Check => "check",
            Request::Reset => "reset",
            Request::Alloc => "alloc",
            Request::AllocContiguous => "alloc_contiguous",
            Request::Dealloc => "dealloc",
            Request::Insert => "insert",
            Request::Remove => "remove",
            Request::Put => "put",
        }
    }
}

impl TryFrom<&[u8]> for Request {
    type Error = NoRequest;

    fn try_from(name: &[u8]) -> Result<Request, NoRequest> {
        for request in REQUESTS {
            if request.name().as_bytes() == name {
                return Ok(request);
            }
        }
        Err(NoRequest)
    }
}

// What a request is answered that is not refused.
#[derive(Clone, Copy, Debug, PartialEq, Eq)]
pub enum Answer {
    Number(usize),
    Frame(usize),
    Lie(usize),
    Done,
    Yes,
    No,
    Free,
    Taken,
    Sound,
}

// Each kind of answer once.
pub const ANSWERS: [Answer; 9] = [
    Answer::Number(0),
    Answer::Frame(0),
    Answer::Lie(0),
    Answer::Done,
    Answer::Yes,
    Answer::No,
    Answer::Free,
    Answer::Taken,
    Answer::Sound,
];

impl Answer {
    // The name of its kind.
    pub fn name(self) -> &'static str {
        match self {
            Answer::Number(_) => "number",
            Answer::Frame(_) => "frame",
            Answer::Lie(_) => "lie in word",
            Answer::Done => "done",
            Answer::Yes => "yes",
            Answer::No => "no",
            Answer::Free => "free",
            Answer::Taken => "taken",
            Answer::Sound => "sound",
        }
    }
}

impl fmt::Display for Answer {
    fn fmt<W: fmt::Write>(&self, f: &mut fmt::Formatter<W>) -> fmt::Result {
        match *self {
            Answer::Number(n) => write!(f, "{n}"),
            Answer::Frame(k) => write!(f, "frame {k}"),
            Answer::Lie(p) => write!(f, "lie in word {p}"),
            other => f.write_str(other.name()),
        }
    }
}

// Makes a request, with up to two numbers.
pub fn make(tree: &mut [u16], request: Request, a: usize, b: usize) -> Result<Answer, Refusal> {
    match request {
        Request::WordsFor => match bitmap_looks::words_for(a) {
            Some(w) => Ok(Answer::Number(w)),
            None => Err(Refusal::NoSize),
        },
        Request::Cap => Ok(Answer::Number(bitmap_looks::cap(tree)?)),
        Request::CountFree => Ok(Answer::Number(bitmap_looks::count_free(tree)?)),
        Request::Any => match bitmap_looks::any(tree)? {
            true => Ok(Answer::Yes),
            false => Ok(Answer::No),
        },
        Request::Test => match bitmap_looks::test(tree, a)? {
            true => Ok(Answer::Free),
            false => Ok(Answer::Taken),
        },
        Request::Next => Ok(Answer::Frame(bitmap_looks::next(tree, a)?)),
        Request::Check => match bitmap_looks::check(tree) {
            Ok(()) => Ok(Answer::Sound),
            Err(Unsound::Lie(p)) => Ok(Answer::Lie(p)),
            Err(Unsound::NotFull) => Err(Refusal::NotFull),
        },
        Request::Alloc => Ok(Answer::Frame(bitmap_allocator::alloc(tree)?)),
        Request::AllocContiguous => Ok(Answer::Frame(bitmap_allocator::alloc_contiguous(
            tree, a, b,
        )?)),
        _ => change(tree, request, a, b),
    }
}

// The same, for a request that tells no more than that it is done.
fn change(tree: &mut [u16], request: Request, a: usize, b: usize) -> Result<Answer, Refusal> {
    match request {
        Request::Reset => bitmap_allocator::reset(tree)?,
        Request::Dealloc => bitmap_allocator::dealloc(tree, a)?,
        Request::Insert => bitmap_allocator::insert(tree, a, b)?,
        Request::Remove => bitmap_allocator::remove(tree, a, b)?,
        _ => put(tree, a, b)?,
    }
    Ok(Answer::Done)
}

// Writes a word past the library.
fn put(tree: &mut [u16], i: usize, word: usize) -> Result<(), Refusal> {
    if tree.len() <= i {
        return Err(Refusal::Outside);
    }
    tree[i] = (word % 65536) as u16;
    Ok(())
}
