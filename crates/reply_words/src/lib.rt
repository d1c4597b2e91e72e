// A reply to a call as three words: a code, which request it is of, and an address. An inner crate: its
// functions ask what their callers show.
#![tactic(auto)]

ghost use Rattle.std.specs.Prelude.{◌≡◌, ◌+◌, ◌≤◌, length};
ghost use Rattle.base.specs.Ranges.{Only};
ghost use Rattle.reply_words.specs.Replies.{code_in, index_in, place_in, Wrote};

use codes::{RF_DONE, RF_MALFORMED};
use hv_calls::Replied;

// The code of a reply.
pub fn code_in(said: Replied) -> u32
    ensures { result ≡ code_in said }
{
    match said {
        Replied::Answered(a) => machine_codes::code_of(a),
        Replied::Done => RF_DONE,
        Replied::Stopped(_, a) => machine_codes::code_of(a),
        Replied::Malformed(_) => RF_MALFORMED,
    }
}

// Which request a reply is of, or `old` where it is of none.
pub fn index_in(said: Replied, old: u64) -> u64
    ensures { result ≡ index_in said old }
{
    match said {
        Replied::Answered(_) => old,
        Replied::Done => old,
        Replied::Stopped(i, _) => i as u64,
        Replied::Malformed(i) => i as u64,
    }
}

// The address in a reply to one request, or `old` where there is none.
pub fn place_in(said: Replied, old: u64) -> u64
    ensures { result ≡ place_in said old }
{
    match said {
        Replied::Answered(a) => machine_codes::address_in(a, old),
        Replied::Done => old,
        Replied::Stopped(_, _) => old,
        Replied::Malformed(_) => old,
    }
}

// Writes a reply into the three words from r on.
pub fn write_reply(replies: &mut [u64], r: usize, said: Replied)
    requires { r + 3 ≤ length replies.old }
    ensures { Only replies.old r (r + 3) replies.new × Wrote replies.new r said }
{
    replies[r] = code_in(said) as u64;
    replies[r + 1] = index_in(said, 0);
    replies[r + 2] = place_in(said, 0);
}
