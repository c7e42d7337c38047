// Words and numbers written in text, with a space between two.

// A word's value with one character more: of a number its value, of another word its first letter. The remainder changes no number of 64 bits.
fn more(x: usize, c: u8) -> usize {
    if c < b':' {
        return (x % 1844674407370955162 * 10).wrapping_add(usize::from(c % 16));
    }
    if x == 0 { usize::from(c) } else { x }
}

// The value of a word.
pub(super) fn value(word: &[u8]) -> usize {
    word.iter().fold(0, |x, c| more(x, *c))
}

// The value of word k of a line, 0 where there is none.
pub(super) fn number(line: &[u8], k: usize) -> usize {
    line.split(|c| *c == b' ').nth(k).map(value).unwrap_or(0)
}

// How many words a line has.
pub(super) fn words(line: &[u8]) -> usize {
    line.split(|c| *c == b' ').count()
}

pub(super) fn byte(x: usize) -> u8 {
    (x % 256) as u8
}

pub(super) fn word(x: usize) -> u16 {
    (x % 65536) as u16
}

pub(super) fn session_number(x: usize) -> u32 {
    (x % 4294967296) as u32
}
