// What the programs share of reading: an input into a lent buffer, and the lines of a text.
#![tactic(auto)]

ghost use Rattle.std.specs.Prelude.{◌≡◌, ◌≢◌, ℕ, ◌<◌, ◌≤◌, length, take, slice_index};
ghost use Rattle.streams.specs.Counts.{IsPrefixLen, AreZeros};
ghost use Rattle.streams.specs.Cases.{IsCase};
ghost use Rattle.std.specs.Io.KnownBytes.{Consumes};

use std::io::Read;

// So many zeros: room for the call bytes that count, or for the cases of a test program.
pub fn zeros<const N: usize>() -> [u8; N]
    ensures long { N ≡ length result }
    ensures zeros { AreZeros N result }
{
    [0; N]
}

// Reads until the buffer is full, the input ends or a read fails. Returns how many bytes stand at
// the start of the buffer: those that the input gave.
pub fn read_full<R: Read>(input: &mut R, buffer: &mut [u8]) -> usize
    ensures prefix { IsPrefixLen result buffer.new }
    ensures given { Consumes (R.remaining input.old) (R.remaining input.new) (take result buffer.new) }
{
    let mut done = 0;
    // Kept: `done` grows by what a read gives, so no range counts it.
    while done < buffer.len() {
        match input.read(&mut buffer[done..]) {
            Ok(0) | Err(_) => break,
            Ok(n) => done += n,
        }
    }
    done
}

// The first place of a byte between two places of a text, or the second place where there is none.
// Kept: a place and no Option, since four of its five uses cut the text at the end then.
pub fn find(text: &[u8], from: usize, to: usize, byte: u8) -> usize
    requires { (from ≤ to) × (to ≤ length text.now) }
    ensures within { (from ≤ result) × (result ≤ to) }
    ensures before { (k : ℕ) → from ≤ k → k < result → slice_index text.now k ≢ byte }
    ensures found { result < to → slice_index text.now result ≡ byte }
{
    for i in from..to {
        if text[i] == byte {
            return i;
        }
    }
    to
}

// A line of a test program's cases: its name up to the colon, and what stands from there to the
// comment. Where no colon is before the comment, the line is no case.
pub fn case(line: &[u8]) -> Option<(&[u8], &[u8])>
    ensures { IsCase line.now result }
{
    let end = find(line, 0, line.len(), b';');
    let at = find(line, 0, end, b':');
    if at == end {
        return None;
    }
    Some((&line[..at + 1], &line[at + 1..end]))
}
