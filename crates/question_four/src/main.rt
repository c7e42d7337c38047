// Question four of document 01: its cases, starred or not, in the document's order, each a quote on a fresh network of its links, a line for each.
// The cases are the lines of the file stdin, which says how they are written.
// A line has the case as the document writes it, then `ok` with delay, count and frames / cycles, or `no` with the refusal, for 18 also the count; then `ways`
// with the number of ways, or `no` with the refusal of that call.
// The expected lines, in the file stdout, are written by hand from the document, the cycles by W-202, the ways by W-203.
#![tactic(auto)]

ghost use Rattle.std.specs.Prelude.{◌<◌, ◌≤◌};

use network::{Link, Network};
use refusals::Refusal;
use state::Quoted;
use std::io;
use std::io::Write;

// The free frames of a link as a route says them, as a word: those that the braces after its letter name, and all where it has none. `bit` is the word
// of the frame whose digits, from 48 on, are read.
fn free_frames(text: &[u8], letter: u8) -> u64 {
    let at = streams::find(text, 0, text.len(), letter);
    let named = text[at..].split(|c| *c == b' ').next().unwrap_or(b"");
    let mut free = u64::MAX;
    let mut frame: u64 = 0;
    let mut bit: u64 = 0;
    for c in named {
        if c / 16 == 3 {
            frame = (10 * frame + u64::from(c % 16)) % 64;
            bit = 1 << frame;
        } else {
            free = if *c == b'{' { 0 } else { free | bit };
            frame = 0;
            bit = 0;
        }
    }
    free
}

// A link with K, Z and Y, on which all frames are closed but those that a route says are free.
fn link(text: &[u8], letter: u8, frames: u16, range: u16, least: u16) -> Link
    requires { (0 < frames) × (frames ≤ 64) }
{
    Link {
        frames,
        range,
        least,
        closed: words::ones_below(frames) & !free_frames(text, letter),
    }
}

// The network of a route: the links A to F, G, which is B with Z 8, and H, which is B with Y 0 (W-206). Every other Y is 1.
fn network(text: &[u8]) -> Network {
    let mut links = [link(text, b'A', 8, 2, 1); 32];
    links[1] = link(text, b'B', 8, 2, 1);
    links[2] = link(text, b'C', 16, 4, 1);
    links[3] = link(text, b'D', 4, 2, 1);
    links[4] = link(text, b'E', 8, 2, 1);
    links[5] = link(text, b'F', 6, 2, 1);
    links[6] = link(text, b'G', 8, 8, 1);
    links[7] = link(text, b'H', 8, 2, 0);
    Network {
        ticks: 48,
        count: 8,
        links,
    }
}

// Frames or cycles, one for each hop, a space before each.
fn show_places(rt: &HostRuntime, places: &[u8]) -> io::Result<()> {
    for place in places {
        print!(rt; " {place}")?;
    }
    Ok(())
}

// The answer to a quote over a route of n hops.
fn show_answer(rt: &HostRuntime, answer: Result<Quoted, Refusal>, n: usize) -> io::Result<()>
    requires { n ≤ 8 }
{
    match answer {
        Ok(quoted) => {
            let held = quoted.held;
            let frames = held.frames;
            let cycles = held.cycles;
            print!(rt; " ok {} {}", held.delay.0, quoted.count)?;
            show_places(rt, &frames[..n])?;
            print!(rt; " /")?;
            show_places(rt, &cycles[..n])
        }
        Err(refusal) => print!(rt; " no {refusal}"),
    }
}

// The number of ways over a route.
fn show_ways(rt: &HostRuntime, answer: Result<u64, Refusal>) -> io::Result<()> {
    print!(rt; " ways")?;
    match answer {
        Ok(ways) => print!(rt; " {ways}"),
        Err(refusal) => print!(rt; " no {refusal}"),
    }
}

// A quote of a route on its fresh network, and the number of ways over it there; A is link 0. No route of the cases has more than 8 links.
fn quote(rt: &HostRuntime, text: &[u8]) -> io::Result<()> {
    let mut links = [0u8; 8];
    let mut hops = 0;
    for c in text {
        if c.is_ascii_uppercase() {
            links[hops % 8] = c - b'A';
            hops = hops % 8 + 1;
        }
    }
    let route = &links[..hops];
    let begun = sessions::begin(network(text));
    let quoted = sessions::quote(begun.state, route);
    show_answer(rt, quoted.answer, hops)?;
    let numbered = sessions::number_of_ways(quoted.state, route);
    show_ways(rt, numbered.answer)
}

// Every line of standard input: a case has its name up to the colon, and its route from there to the comment.
fn main(rt: HostRuntime) -> io::Result<()> {
    let mut buffer = streams::zeros::<65536>();
    let n = streams::read_full(&mut rt.stdin(), &mut buffer);
    for line in buffer[..n].split(|b| *b == b'\n') {
        if let Some((name, route)) = streams::case(line) {
            io::writer(&rt).write_all(name)?;
            quote(&rt, route)?;
            println!(rt)?;
        }
    }
    Ok(())
}
