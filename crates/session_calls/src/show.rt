// What is shown of a line, and of the answer to its call.
use forwarding::Held;
use refusals::Refusal;
use sessions::Shown;
use state::Quoted;
use std::io;
use std::io::Write;

// Shows a line up to its comment or its colon, and gives its words: those from the colon on, if it has one.
pub(super) fn said<'a>(rt: &HostRuntime, line: &'a [u8]) -> io::Result<&'a [u8]> {
    let end = streams::find(line, 0, line.len(), b';');
    let colon = streams::find(line, 0, end, b':');
    io::writer(rt).write_all(&line[..colon])?;
    if colon < end {
        print!(rt; ":")?;
        return Ok(&line[colon..end]);
    }
    Ok(&line[..end])
}

// The end of a line, unless it is empty or a comment alone.
pub(super) fn end(rt: &HostRuntime, line: &[u8]) -> io::Result<()> {
    match line.first() {
        None | Some(b';') => Ok(()),
        Some(_) => println!(rt),
    }
}

// What a call answers that gives nothing else.
pub(super) fn passed(rt: &HostRuntime, answer: Result<(), Refusal>) -> io::Result<()> {
    match answer {
        Ok(()) => print!(rt; " ok"),
        Err(refusal) => print!(rt; " no {refusal}"),
    }
}

// What a call answers that gives a number: of free frames, or of ways.
pub(super) fn counted(rt: &HostRuntime, answer: Result<u64, Refusal>) -> io::Result<()> {
    match answer {
        Ok(count) => print!(rt; " ok {count}"),
        Err(refusal) => print!(rt; " no {refusal}"),
    }
}

// The first n of eight places, and of the others those that don't hold 0.
// Kept: a place past n is shown too where it holds another number, so that a slice of n places would not do.
fn places(rt: &HostRuntime, eight: [u8; 8], n: usize) -> io::Result<()> {
    for (j, x) in eight.iter().enumerate() {
        if j < n || *x != 0 {
            print!(rt; " {x}")?;
        }
    }
    Ok(())
}

// The frames and the cycles of n hops. Each link has one colour, so every colour must be 0.
fn hops(rt: &HostRuntime, held: Held, n: usize) -> io::Result<()> {
    places(rt, held.frames, n)?;
    print!(rt; " /")?;
    places(rt, held.cycles, n)?;
    places(rt, held.colours, 0)
}

// The answer to a set-up or a quote over a route of n links.
pub(super) fn answer(
    rt: &HostRuntime,
    answer: Result<Quoted, Refusal>,
    n: usize,
) -> io::Result<()> {
    match answer {
        Ok(quoted) => {
            print!(rt; " ok {} {}", quoted.held.delay.0, quoted.count)?;
            hops(rt, quoted.held, n)
        }
        Err(refusal) => print!(rt; " no {refusal}"),
    }
}

// What a lookup shows; where `whole` is true, all eight places of its route, its frames and its cycles.
pub(super) fn session(
    rt: &HostRuntime,
    answer: Result<Shown, Refusal>,
    whole: bool,
) -> io::Result<()> {
    match answer {
        Ok(shown) => {
            let n = if whole { 8 } else { shown.hops };
            print!(rt; " ok")?;
            places(rt, shown.route, n)?;
            print!(rt; " /")?;
            hops(rt, shown.held, n)?;
            print!(rt; " / {}", shown.held.delay.0)
        }
        Err(refusal) => print!(rt; " no {refusal}"),
    }
}

// Whether two states are the same.
pub(super) fn kept(rt: &HostRuntime, same: bool) -> io::Result<()> {
    if same {
        print!(rt; " same")
    } else {
        print!(rt; " changed")
    }
}

// Says where a call changed what it must leave.
pub(super) fn after(rt: &HostRuntime, same: bool) -> io::Result<()> {
    if same {
        return Ok(());
    }
    print!(rt; " changed")
}
