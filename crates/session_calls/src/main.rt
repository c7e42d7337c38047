// The calls on sessions of document 01, on states that calls made and on states built by hand.
// The file stdin has the cases and says how they are written: at most 131,072 bytes.
// The file stdout has their answers, written by hand from the document.
#![tactic(auto)]

mod broken;
mod calls;
mod lines;
mod show;

use std::io;

fn main(rt: HostRuntime) -> io::Result<()> {
    let mut cases = streams::zeros::<131072>();
    let n = streams::read_full(&mut rt.stdin(), &mut cases);
    calls::run(&rt, &cases[..n])
}
