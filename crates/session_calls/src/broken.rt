// States built by hand. A change is four words: a field, the link or table place that has it, the
// place in the route, in the frames, cycles or colours, and the new value; 0 where a field needs no
// place. A field's first letter says which it is: C a cycle, c closed frames, w a hop's colour.
ghost use Rattle.std.specs.Prelude.{◌<◌, ◌≤◌};

use super::{calls, lines, show};
use forwarding::Held;
use network::Network;
use state::State;
use std::io;
use table::{Place, Table};

// A network with a new number of links, T, or K, Z, Y or closed frames of a link.
fn changed_network(network: Network, field: u8, at: usize, value: usize) -> Network
    requires { at < 32 }
{
    let mut next = network;
    match field {
        b'l' => next.count = value,
        b't' => next.ticks = lines::word(value),
        b'K' => next.links[at].frames = lines::word(value),
        b'Z' => next.links[at].range = lines::word(value),
        b'Y' => next.links[at].least = lines::word(value),
        b'c' => next.links[at].closed = value as u64,
        _ => {}
    }
    next
}

// What is held with a new delay, or frame, cycle or colour of a hop.
fn changed_held(held: Held, field: u8, index: usize, value: usize) -> Held
    requires { index < 8 }
{
    let mut next = held;
    match field {
        b'd' => next.delay.0 = lines::word(value),
        b'f' => next.frames[index] = lines::byte(value),
        b'C' => next.cycles[index] = lines::byte(value),
        b'w' => next.colours[index] = lines::byte(value),
        _ => {}
    }
    next
}

// A session with a new number, number of hops or link of a hop, or a change of what it holds.
fn changed_place(place: Place, field: u8, index: usize, value: usize) -> Place
    requires { index < 8 }
{
    let mut next = place;
    match field {
        b'n' => next.number = lines::session_number(value),
        b'h' => next.hops = lines::byte(value),
        b'r' => next.route[index] = lines::byte(value),
        _ => {}
    }
    let route = next.route;
    let held = changed_held(place.held, field, index, value);
    Place {
        route,
        number: next.number,
        hops: next.hops,
        held,
    }
}

// A table with a new number of live sessions, or a change of a session.
fn changed_table(table: Table, field: u8, at: usize, index: usize, value: usize) -> Table
    requires { (at < 96) × (index < 8) }
{
    let place = table.places[at];
    let mut next = table;
    next.places[at] = changed_place(place, field, index, value);
    if field == b's' {
        next.live = value;
    }
    next
}

// The state with the change whose words stand from word k on. Where there is none, no field has the name.
fn with_change(st: State, line: &[u8], k: usize) -> State
    requires { k ≤ 5 }
{
    let field = lines::byte(lines::number(line, k));
    let at = lines::number(line, k + 1);
    let index = lines::number(line, k + 2);
    let value = lines::number(line, k + 3);
    State {
        network: changed_network(st.network, field, at % 32, value),
        table: changed_table(st.table, field, at % 96, index % 8, value),
    }
}

// A state built by hand, by one change, in place of a state; whether the comparison tells the two apart.
pub(super) fn put(rt: &HostRuntime, st: State, line: &[u8]) -> io::Result<State> {
    let next = with_change(st, line, 1);
    print!(rt; " live {}", next.table.live)?;
    show::kept(rt, st == next)?;
    Ok(next)
}

// A state built by hand, by one change or two, and handed to six calls, each on what the one before returned; whether all of it is as it was after them,
// and it isn't the state that was changed. The state itself stays.
pub(super) fn case(rt: &HostRuntime, st: State, line: &[u8]) -> io::Result<State> {
    let route = [0u8; 1];
    let built = with_change(with_change(st, line, 1), line, 5);
    let first = calls::set_up(rt, built, 9, &route)?;
    let second = calls::quote(rt, first, &route)?;
    let third = calls::release(rt, second, 5)?;
    let fourth = calls::lookup(rt, third, 5, false)?;
    let fifth = calls::free_frames(rt, fourth, 0)?;
    let sixth = calls::number_of_ways(rt, fifth, &route)?;
    show::kept(rt, built == sixth && built != st)?;
    Ok(st)
}
