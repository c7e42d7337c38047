// Numbers written in text, a space before each.

// No file of the cases has more bytes.
pub(super) const MOST: usize = 400;

// The value of a digit. A letter is a digit above 9: it stands at 64 or above, and its low half is 9 less.
fn digit(c: u8) -> u64 {
    u64::from(c % 16 + 9 * (c / 64 % 2))
}

// The number that a word says in a base.
fn value(word: &[u8], base: u64) -> u64 {
    word.iter().fold(0, |x: u64, c| x.wrapping_mul(base).wrapping_add(digit(*c)))
}

// The number at a place, from 1 on, of those that a text says; 0 if it says fewer.
pub(super) fn number(text: &[u8], place: usize) -> u64 {
    text.split(|c| *c == b' ')
        .nth(place)
        .map(|word| value(word, 10))
        .unwrap_or(0)
}

// The bytes that a text says, in hexadecimal.
pub(super) fn bytes(text: &[u8]) -> [u8; MOST] {
    let mut file = [0u8; MOST];
    let words = text.split(|c| *c == b' ').skip(1);
    for (byte, word) in file.iter_mut().zip(words) {
        *byte = (value(word, 16) % 256) as u8;
    }
    file
}
