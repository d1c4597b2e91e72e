// Sequences of requests whose answers are known, replayed on a tree and compared. A library for the
// program that prints what came of it; nothing here prints.
#![tactic(auto)]

// What was read and compared so far.
#[derive(Clone, Copy, Debug, PartialEq, Eq)]
pub struct Tally {
    // Where the next part of the file stands.
    pub at: usize,
    // How many requests were replayed.
    pub requests: usize,
    // How many answers differ.
    pub answers: usize,
    // How many frames differ.
    pub frames: usize,
}

// The file is damaged: where the first part stands that is.
#[derive(Clone, Copy, Debug, PartialEq, Eq)]
pub struct Damaged(pub usize);

impl Tally {
    // The same, with the next part so many bytes further on, if the file has them.
    fn passed(mut self, bytes: &[u8], many: usize) -> Result<Self, Damaged> {
        let at = self.at.saturating_add(many);
        if bytes.len() < at {
            return Err(Damaged(self.at));
        }
        self.at = at;
        Ok(self)
    }
}

// Replays so many sequences; what is left of the file behind them is damage.
pub fn replay(bytes: &[u8], count: usize) -> Result<Tally, Damaged> {
    let mut tally = Tally {
        at: 4,
        requests: 0,
        answers: 0,
        frames: 0,
    };
    for _ in 0..count {
        tally = sequence(bytes, tally)?;
    }
    if bytes.len() == tally.at {
        Ok(tally)
    } else {
        Err(Damaged(tally.at))
    }
}

// Replays the sequence that stands where the tally says, in memory for up to 256 frames. Every bit of
// it is set at first, so that `reset` has something to wipe.
fn sequence(bytes: &[u8], tally: Tally) -> Result<Tally, Damaged> {
    let after = tally.passed(bytes, 8)?;
    let mut memory = [65535u16; 17];
    let frames = bitmap_answers::u32_at(bytes, tally.at);
    let w = match bitmap_looks::words_for(frames) {
        Some(w) if w <= memory.len() => w,
        _ => return Err(Damaged(tally.at)),
    };
    if bitmap_allocator::reset(&mut memory[0..w]).is_err() {
        return Err(Damaged(tally.at));
    }
    let count = bitmap_answers::u32_at(bytes, tally.at.saturating_add(4));
    let asked = requests(&mut memory[0..w], bytes, count, after)?;
    all_frames(&memory[0..w], bytes, frames, asked)
}

// Replays so many requests.
fn requests(tree: &mut [u16], bytes: &[u8], count: usize, before: Tally) -> Result<Tally, Damaged> {
    let mut tally = before;
    for _ in 0..count {
        tally = request(tree, bytes, tally)?;
    }
    Ok(tally)
}

// Replays the request that stands where the tally says.
fn request(tree: &mut [u16], bytes: &[u8], tally: Tally) -> Result<Tally, Damaged> {
    let at = tally.at;
    let mut after = tally.passed(bytes, 16)?;
    let Some(request) = bitmap_answers::request(bitmap_answers::u32_at(bytes, at)) else {
        return Err(Damaged(at));
    };
    let a = bitmap_answers::u32_at(bytes, at.saturating_add(4));
    let b = bitmap_answers::u32_at(bytes, at.saturating_add(8));
    let expected = bitmap_answers::u32_at(bytes, at.saturating_add(12));
    after.requests = after.requests.saturating_add(1);
    if bitmap_answers::ask(tree, request, a, b) != Some(expected) {
        after.answers = after.answers.saturating_add(1);
    }
    Ok(after)
}

// Compares all frames with those that stand where the tally says.
fn all_frames(tree: &[u16], bytes: &[u8], count: usize, before: Tally) -> Result<Tally, Damaged> {
    let mut after = before.passed(bytes, count / 8)?;
    for k in 0..count {
        if bitmap_looks::test(tree, k) != Ok(bitmap_answers::bit_at(bytes, before.at, k)) {
            after.frames = after.frames.saturating_add(1);
        }
    }
    Ok(after)
}
