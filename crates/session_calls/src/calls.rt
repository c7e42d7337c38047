// The calls that the lines of the file stdin tell: a line is shown, and after it what its call answers.
ghost use Rattle.std.specs.Prelude.{◌<◌, ◌≤◌};

use super::{broken, lines, show};
use network::{Link, Network};
use state::{Served, State};
use std::io;

// The link whose values are the words from word k on: K, Z, closed frames and, where a link has four words, Y; where it has three, Y is 1.
fn link_at(line: &[u8], k: usize, many: usize) -> Link
    requires { k ≤ 130 }
{
    let least = if many == 4 {
        lines::word(lines::number(line, k + 3))
    } else {
        1
    };
    Link {
        frames: lines::word(lines::number(line, k)),
        range: lines::word(lines::number(line, k + 1)),
        least,
        closed: lines::number(line, k + 2) as u64,
    }
}

// The state on the fresh network that a line tells: the letter, T, and so many words for each link. The places that are not in use hold the first link.
fn begin(line: &[u8], many: usize) -> Served<()>
    requires { (0 < many) × (many ≤ 4) }
{
    let count = lines::words(line) / many % 33;
    let mut links = [link_at(line, 2, many); 32];
    for i in 0..count {
        links[i] = link_at(line, 2 + many * i, many);
    }
    sessions::begin(Network {
        ticks: lines::word(lines::number(line, 1)),
        count,
        links,
    })
}

// The same state, and what the network's checks say.
fn fresh(rt: &HostRuntime, line: &[u8], many: usize) -> io::Result<State>
    requires { (0 < many) × (many ≤ 4) }
{
    let begun = begin(line, many);
    show::passed(rt, begun.answer)?;
    Ok(begun.state)
}

// Whether a call left what it must leave, places that are not in use too: the whole state where it was refused, the network where it was accepted.
fn left(accepted: bool, one: State, other: State) -> bool {
    if accepted {
        one.network == other.network
    } else {
        one == other
    }
}

// A set-up.
pub(super) fn set_up(rt: &HostRuntime, st: State, number: u32, route: &[u8]) -> io::Result<State> {
    let served = sessions::set_up(st, number, route);
    show::answer(rt, served.answer, route.len())?;
    show::after(rt, left(served.answer.is_ok(), st, served.state))?;
    Ok(served.state)
}

// A quote, which never changes a state.
pub(super) fn quote(rt: &HostRuntime, st: State, route: &[u8]) -> io::Result<State> {
    let served = sessions::quote(st, route);
    show::answer(rt, served.answer, route.len())?;
    show::after(rt, served.state == st)?;
    Ok(served.state)
}

// The number of ways over a route, a call which never changes a state.
pub(super) fn number_of_ways(rt: &HostRuntime, st: State, route: &[u8]) -> io::Result<State> {
    let served = sessions::number_of_ways(st, route);
    show::counted(rt, served.answer)?;
    show::after(rt, served.state == st)?;
    Ok(served.state)
}

// A release.
pub(super) fn release(rt: &HostRuntime, st: State, x: usize) -> io::Result<State> {
    let served = sessions::release(st, lines::session_number(x));
    show::passed(rt, served.answer)?;
    show::after(rt, left(served.answer.is_ok(), st, served.state))?;
    Ok(served.state)
}

// A lookup, which never changes a state; `whole` where all eight places of the route are shown.
pub(super) fn lookup(rt: &HostRuntime, st: State, x: usize, whole: bool) -> io::Result<State> {
    let served = sessions::lookup(st, lines::session_number(x));
    show::session(rt, served.answer, whole)?;
    show::after(rt, served.state == st)?;
    Ok(served.state)
}

// The number of free frames of a link, a call which never changes a state.
pub(super) fn free_frames(rt: &HostRuntime, st: State, x: usize) -> io::Result<State> {
    let served = sessions::free_frames(st, lines::byte(x));
    show::counted(rt, served.answer.map(u64::from))?;
    show::after(rt, served.state == st)?;
    Ok(served.state)
}

// The route that stands after k words of a line, and how many links it has. No line has a route of more than 40 links.
fn route_of(line: &[u8], k: usize) -> ([u8; 40], usize)
    ensures { result.1 ≤ 40 }
{
    let mut links = [0u8; 40];
    let words = line.split(|c| *c == b' ').skip(k);
    for (link, word) in links.iter_mut().zip(words) {
        *link = lines::byte(lines::value(word));
    }
    (links, lines::words(line).wrapping_sub(k) % 41)
}

// A call for each number from one to before another, and how many of them were accepted. The state is compared after each of them.
fn many<F: Fn(State, u32) -> Served<()>>(
    rt: &HostRuntime,
    st: State,
    line: &[u8],
    call: F,
) -> io::Result<State>
    requires { F.IsAlwaysCallable call }
{
    let from = lines::session_number(lines::number(line, 1));
    let to = lines::session_number(lines::number(line, 2));
    let mut next = st;
    let mut accepted: u64 = 0;
    let mut same = true;
    for number in from..to {
        let served = call(next, number);
        let passed = served.answer.is_ok();
        accepted += u64::from(passed);
        same &= left(passed, next, served.state);
        next = served.state;
    }
    print!(rt; " ok {accepted}")?;
    show::after(rt, same)?;
    Ok(next)
}

// A set-up over one link for each number of a line.
fn many_set_ups(rt: &HostRuntime, st: State, line: &[u8]) -> io::Result<State> {
    let route = [lines::byte(lines::number(line, 3)); 1];
    many(rt, st, line, |st, number| {
        let served = sessions::set_up(st, number, &route);
        Served {
            answer: served.answer.map(|_| ()),
            state: served.state,
        }
    })
}

// The call of a line. A line with a colon, whose words begin there, is a state built by hand; any other letter leaves the state.
fn call(rt: &HostRuntime, st: State, line: &[u8]) -> io::Result<State> {
    let x = lines::number(line, 1);
    match lines::byte(lines::number(line, 0)) {
        b'N' => fresh(rt, line, 3),
        b'Y' => fresh(rt, line, 4),
        b'S' => {
            let (links, n) = route_of(line, 2);
            set_up(rt, st, lines::session_number(x), &links[..n])
        }
        b'Q' => {
            let (links, n) = route_of(line, 1);
            quote(rt, st, &links[..n])
        }
        b'H' => {
            let (links, n) = route_of(line, 1);
            number_of_ways(rt, st, &links[..n])
        }
        b'R' => release(rt, st, x),
        b'L' => lookup(rt, st, x, false),
        b'E' => lookup(rt, st, x, true),
        b'F' => free_frames(rt, st, x),
        b'M' => many_set_ups(rt, st, line),
        b'D' => many(rt, st, line, sessions::release),
        b'W' => {
            let route = [0u8; 200];
            let st = set_up(rt, st, 5, &route)?;
            let st = quote(rt, st, &route)?;
            number_of_ways(rt, st, &route)
        }
        b'P' => broken::put(rt, st, line),
        b':' => broken::case(rt, st, line),
        _ => Ok(st),
    }
}

// The lines of a text, each on the state that the one before it left. The first network is of no account: a line tells another.
pub(super) fn run(rt: &HostRuntime, text: &[u8]) -> io::Result<()> {
    let mut st = begin(text, 3).state;
    for line in text.split(|b| *b == b'\n') {
        st = call(rt, st, show::said(rt, line)?)?;
        show::end(rt, line)?;
    }
    Ok(())
}
