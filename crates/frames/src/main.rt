// The program frames (document 01): net.bin and the call records of standard input in, a line for each call out. All that it writes is stated
// and proved in the crate `report`; this is the reading and the writing.
#![tactic(auto)]

ghost use Rattle.std.specs.Prelude.{IfOk};
ghost use Rattle.streams.specs.Counts.{IsPrefixLen};

use std::fs::File;
use std::io;
use std::io::{Read, Write};

// The bytes of net.bin, at the start of `file`, and how many, unless it can't be opened or read. The longest network file has 387 bytes, so that
// 388 tell what the whole file says (`first_bytes`).
fn read_file(rt: &HostRuntime, file: &mut [u8]) -> io::Result<usize>
    ensures { IfOk result (λ n. IsPrefixLen n file.new) }
{
    let mut opened = File::open(rt, "net.bin")?;
    let n = streams::read_full(&mut opened, file);
    let mut more = [0u8; 1];
    opened.read(&mut more)?;
    Ok(n)
}

// Writes the text of a run. The buffer has room for every text (`bound_most`), so that no run is refused.
fn run(rt: &HostRuntime, file: &[u8], calls: &[u8]) -> io::Result<()> {
    let mut out = streams::zeros::<720918>();
    match report::report(file, calls, &mut out) {
        Ok(n) => io::writer(rt).write_all(&out[..n]),
        Err(_) => Ok(()),
    }
}

// A file that can't be read counts as one of no byte.
fn main(rt: HostRuntime) -> io::Result<()> {
    let mut file = [0u8; 388];
    let n = read_file(&rt, &mut file).unwrap_or(0);
    let mut calls = streams::zeros::<65536>();
    let m = streams::read_full(&mut rt.stdin(), &mut calls);
    run(&rt, &file[..n], &calls[..m])
}
