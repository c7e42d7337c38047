// The network file of document 01: files read, networks written, and networks given as values checked, a line for each case.
// The cases are the lines of the file stdin, which says how they are written.
// A line of a file has `ok` with T and K, Z, closed frames and Y of each link, or `no` with the refusal; what was read is also written back.
// A line of a network given as values has what its checks say, then what the writer says, and whether the rest of the buffer is as before.
// The expected lines, in the file stdout, are written by hand from the document.
#![tactic(auto)]

mod image;
mod lines;
mod reading;
mod values;

use std::io;
use std::io::Write;

// A case: its name, and what becomes of its numbers.
fn case(rt: &HostRuntime, name: &[u8], numbers: &[u8]) -> io::Result<()> {
    io::writer(rt).write_all(name)?;
    match name.first() {
        Some(b'r') => reading::read(rt, numbers)?,
        Some(b'v') => values::value(rt, numbers)?,
        _ => values::least(rt, numbers)?,
    }
    println!(rt)
}

// Every line of standard input: a case has its name up to the colon, and its numbers from there to the comment.
fn main(rt: HostRuntime) -> io::Result<()> {
    let mut buffer = streams::zeros::<65536>();
    let n = streams::read_full(&mut rt.stdin(), &mut buffer);
    for line in buffer[..n].split(|b| *b == b'\n') {
        if let Some((name, numbers)) = streams::case(line) {
            case(&rt, name, numbers)?;
        }
    }
    Ok(())
}
