// The numbers of a request.

// The number of the digits that a word begins with, of nineteen at most, or 0.
fn decimal(word: &[u8]) -> usize {
    let mut value: usize = 0;
    for c in word {
        if !c.is_ascii_digit() {
            return value;
        }
        value = value % 1000000000000000000 * 10 + usize::from(*c - b'0');
    }
    value
}

// x, or x with the number behind a sign added to it or taken off.
fn near(x: usize, word: &[u8]) -> usize {
    match word {
        [b'+', digits @ ..] => x.wrapping_add(decimal(digits)),
        [b'-', digits @ ..] => x.wrapping_sub(decimal(digits)),
        _ => x,
    }
}

// A number: digits; or `n`, the number of frames, `h`, half of it, `w`, the number of words, or `m`, the
// largest number that there is, each with a number added or taken off if it is to be near.
pub fn number(word: &[u8], n: usize, w: usize) -> usize {
    match word {
        [b'n', behind @ ..] => near(n, behind),
        [b'h', behind @ ..] => near(n / 2, behind),
        [b'w', behind @ ..] => near(w, behind),
        [b'm', behind @ ..] => near(usize::MAX, behind),
        _ => decimal(word),
    }
}
