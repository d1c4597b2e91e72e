// Whether what a request answered and did is right, by the words before and after: for the program that
// makes requests on any words.
#![tactic(auto)]

use bitmap_requests::refusal::Refusal;
use bitmap_requests::{Answer, Request};

mod effect;

// What a request answers.
pub type Reply = Result<Answer, Refusal>;

// Whether both are right.
pub fn right(
    old: &[u16],
    tree: &[u16],
    request: Request,
    a: usize,
    b: usize,
    reply: Reply,
) -> bool {
    answered(old, request, a, b, reply)
        && effect::right(old, tree, request, a, b, reply)
        && effect::sound(old, tree, request, reply)
}

// Whether an answer is right: as a plain array answers, or where the summaries do not agree, as a search
// may answer that was led astray. `alloc` finds no room only if the first word is 0.
fn answered(old: &[u16], request: Request, a: usize, b: usize, reply: Reply) -> bool {
    if reply == expected(old, request, a, b) {
        return reply != Err(Refusal::NoRoom) || request != Request::Alloc || !any(old);
    }
    !bitmap_plain::sound(old) && astray(old, request, a, b, reply)
}

// What a request answers, where the summaries agree.
fn expected(old: &[u16], request: Request, a: usize, b: usize) -> Reply {
    let n = bitmap_plain::frames(old);
    match request {
        Request::WordsFor => words_for(a),
        Request::Put => put(old, a),
        _ if n == 0 => Err(Refusal::NotFull),
        Request::Cap => Ok(Answer::Number(n)),
        Request::CountFree => Ok(Answer::Number(bitmap_plain::count(old, n))),
        Request::Any => Ok(if any(old) { Answer::Yes } else { Answer::No }),
        Request::Test => of_frame(old, a, Ok(Answer::Free), Ok(Answer::Taken)),
        Request::Next => next(old, a),
        Request::Check => Ok(check(old)),
        Request::Reset => Ok(Answer::Done),
        Request::Alloc => run(old, 1, 0),
        Request::AllocContiguous => run(old, a, b),
        Request::Dealloc => of_frame(old, a, Err(Refusal::NotTaken), Ok(Answer::Done)),
        Request::Insert | Request::Remove => range(a, b, n),
    }
}

// Whether a search may answer so where the summaries do not agree: with a run that is free and not the
// lowest, with none though there is one, or that they do not agree.
fn astray(old: &[u16], request: Request, a: usize, b: usize, reply: Reply) -> bool {
    match request {
        Request::Next => {
            a < bitmap_plain::frames(old) && found(old, a, 1, 0, reply, Refusal::Nothing)
        }
        Request::Alloc => {
            found(old, 0, 1, 0, reply, Refusal::Corrupt)
                || reply == Err(Refusal::NoRoom) && !any(old)
        }
        Request::AllocContiguous => 0 < a && found(old, 0, a, b, reply, Refusal::NoRoom),
        _ => false,
    }
}

// Whether the answer is a run at `from` or above it, or `none`, or that the summaries do not agree.
fn found(old: &[u16], from: usize, size: usize, a: usize, reply: Reply, none: Refusal) -> bool {
    match reply {
        Ok(Answer::Frame(s)) => from <= s && bitmap_plain::is_run(old, s, size, a),
        Ok(_) => false,
        Err(why) => why == none || why == Refusal::Corrupt,
    }
}

// What `words_for` answers, for the trees that there are here.
fn words_for(frames: usize) -> Reply {
    match frames {
        16 => Ok(Answer::Number(1)),
        256 => Ok(Answer::Number(17)),
        4096 => Ok(Answer::Number(273)),
        _ => Err(Refusal::NoSize),
    }
}

// What `any` answers: what the first word tells.
fn any(old: &[u16]) -> bool {
    !old.is_empty() && old[0] != 0
}

// One answer if frame k is free, and another if it is taken.
fn of_frame(old: &[u16], k: usize, free: Reply, taken: Reply) -> Reply {
    if bitmap_plain::frames(old) <= k {
        return Err(Refusal::Outside);
    }
    if bitmap_plain::free(old, k) {
        free
    } else {
        taken
    }
}

// What `next` answers.
fn next(old: &[u16], k: usize) -> Reply {
    if bitmap_plain::frames(old) <= k {
        return Err(Refusal::Outside);
    }
    match bitmap_plain::run(old, k, 1, 0) {
        Some(f) => Ok(Answer::Frame(f)),
        None => Err(Refusal::Nothing),
    }
}

// What `alloc_contiguous` answers.
fn run(old: &[u16], size: usize, a: usize) -> Reply {
    if size == 0 {
        return Err(Refusal::Empty);
    }
    match bitmap_plain::run(old, 0, size, a) {
        Some(s) => Ok(Answer::Frame(s)),
        None => Err(Refusal::NoRoom),
    }
}

// What `check` answers: the word with the bit of the lowest word that is not summarised.
fn check(old: &[u16]) -> Answer {
    match bitmap_plain::lie(old) {
        Some(n) => Answer::Lie(n / 16),
        None => Answer::Sound,
    }
}

// What is answered to damage at word i.
fn put(old: &[u16], i: usize) -> Reply {
    if i < old.len() {
        Ok(Answer::Done)
    } else {
        Err(Refusal::Outside)
    }
}

// What `insert` and `remove` answer.
fn range(from: usize, to: usize, n: usize) -> Reply {
    if from == to {
        return Err(Refusal::Empty);
    }
    if to < from {
        return Err(Refusal::Reversed);
    }
    if n < to {
        return Err(Refusal::Outside);
    }
    Ok(Answer::Done)
}
