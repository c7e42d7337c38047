// The checks of a route, 12 to 15; what a route's links are to the search, its hops; and what frames over them are: a schedule with its delay and its cycles, or none.
// Kept: that a network passed its checks is a clause; a type would ask more of the callers of `check_route` and `route_hops`.
#![tactic(auto)]

ghost use Rattle.std.specs.Prelude.{◌≡◌, false, ◌&&◌, ◌<◌, ◌≤◌, length, nat_le};
ghost use Rattle.std.specs.List.{list_any};
ghost use Rattle.places.specs.Places.{firsts};
ghost use Rattle.refusals.specs.Refusals.{given, pass, ruling};
ghost use Rattle.network.specs.Network.{topology_of};
ghost use Rattle.network.specs.Checks.{network_check};
ghost use Rattle.forwarding.specs.Forwarding.{is_free, may_turn};
ghost use Rattle.forwarding.specs.Hops.{blank_hop, HopReady, Ready};
ghost use Rattle.forwarding.specs.Schedule.{in_colours, is_on};
ghost use Rattle.forwarding.specs.Cycles.{schedule_cycles};
ghost use Rattle.ledger.specs.Sessions.{link_colours, link_turn};
ghost use Rattle.ledger.specs.Routes.{bad_length, unknown_link, link_twice, apart, rates_apart, rates_of, route_check};
ghost use Rattle.routes.specs.Hops.{free_from, hop_from, hops_from, delay_if, walked_delay};
ghost use Rattle.routes.specs.Inner.{spot_of, IsAt, step_if, FramesLaid};

use forwarding::{Delay, Hop};
use network::{Link, Network};
use refusals::Refusal;
use words::{BANK, COLOURS};

// Whether check 12 refuses a number of links.
#[tactic(auto, unfolding(ledger::specs::Routes::bad_length))]
fn bad_length(n: usize) -> bool
    ensures { result ≡ bad_length n }
{
    n == 0 || 8 < n
}

// Whether check 13 refuses a link of the route.
fn unknown_link(count: usize, route: &[u8]) -> bool
    ensures { result ≡ list_any (λ l. nat_le count l) route.now }
{
    route.iter().any(|&link| count <= usize::from(link))
}

// Whether check 14 refuses the route: a link stands again after its place.
#[tactic(auto, using(crate::proofs::Sought::stands_from), unfolding(ledger::specs::Routes::link_twice))]
fn link_twice(route: &[u8]) -> bool
    ensures { result ≡ link_twice route.now }
{
    // Kept: by any the proof didn't close.
    for (j, link) in route.iter().enumerate() {
        if route[j + 1..].contains(link) {
            return true;
        }
    }
    false
}

// Whether of two links neither number of frames divides the other. Check 7: neither is 0.
#[tactic(auto, unfolding(ledger::specs::Routes::apart))]
fn frames_apart(one: u16, other: u16) -> bool
    requires { (0 < one) × (0 < other) }
    ensures { result ≡ apart one other }
{
    one % other != 0 && other % one != 0
}

// Whether check 15 refuses the route. The network passed its checks, and check 13 guarantees that it has the route's links.
#[tactic(auto, using(crate::proofs::Links::known_place, crate::proofs::Links::at_frames, crate::proofs::Routes::two_apart, crate::proofs::Routes::two_agree, crate::proofs::Routes::all_agree))]
fn rates_apart(network: Network, route: &[u8]) -> bool
    requires { (network_check (topology_of network) ≡ given pass) × (unknown_link (topology_of network) route.now ≡ false) }
    ensures { result ≡ rates_apart (rates_of (topology_of network) route.now) }
{
    // Kept: by any the proof didn't close.
    for j in 1..route.len() {
        let one = network.links[usize::from(route[j - 1])];
        let other = network.links[usize::from(route[j])];
        if frames_apart(one.frames, other.frames) {
            return true;
        }
    }
    false
}

// The checks of a route, 12 to 15, over a network that passed its own.
#[tactic(auto, using(crate::proofs::Routes::link_told), unfolding(ledger::specs::Routes::route_check))]
pub fn check_route(network: Network, route: &[u8]) -> Result<(), Refusal>
    requires { network_check (topology_of network) ≡ given pass }
    ensures { ruling result ≡ route_check (topology_of network) route.now }
{
    if bad_length(route.len()) {
        return Err(Refusal::RouteLength);
    }
    if unknown_link(network.count, route) {
        return Err(Refusal::UnknownLink);
    }
    if link_twice(route) {
        return Err(Refusal::LinkTwice);
    }
    if rates_apart(network, route) {
        return Err(Refusal::RatesApart);
    }
    Ok(())
}

// The colours of a link (C).
#[tactic(auto, unfolding(ledger::specs::Sessions::link_colours))]
fn colours_of(link: Link) -> u16
    ensures { result ≡ link_colours link }
{
    1
}

// The conversion range of a link (R).
#[tactic(auto, unfolding(ledger::specs::Sessions::link_turn))]
fn turn_of(link: Link) -> u16
    ensures { result ≡ link_turn link }
{
    0
}

// The free frames of link l, a word for each of its colours, by the bank of held frames.
// Check 7 bounds its frames, check 2 its number.
fn free_words(link: Link, l: u8, held: &[u64; BANK]) -> [u64; COLOURS]
    requires { (0 < link.frames) × (link.frames ≤ 64) × (l < 32) }
    ensures { result ≡ free_from link l held.now }
{
    let mut free = [0u64; COLOURS];
    for c in 0..colours_of(link) {
        let at = words::bank(l, c as u8);
        free[usize::from(c)] = words::free_word(link.frames, link.closed, held[at]);
    }
    free
}

// Link l as a hop, by the bank of held frames. Check 7 bounds its frames, check 2 its number.
fn hop_of(link: Link, l: u8, held: &[u64; BANK]) -> Hop
    requires { (0 < link.frames) × (link.frames ≤ 64) × (l < 32) }
    ensures { result ≡ hop_from link l held.now }
{
    let free = free_words(link, l, held);
    Hop {
        frames: link.frames,
        range: link.range,
        least: link.least,
        colours: colours_of(link),
        turn: turn_of(link),
        free,
    }
}

// The hops of a route that passed its checks, by the bank of held frames.
// Unused places hold no hop. Kept: eight places, since nothing is on the heap.
#[tactic(auto, using(crate::proofs::Hops::one_laid, crate::proofs::Routes::route_long))]
pub fn route_hops(network: Network, held: &[u64; BANK], route: &[u8]) -> [Hop; 8]
    requires { (network_check (topology_of network) ≡ given pass) × (route_check (topology_of network) route.now ≡ given pass) }
    ensures { result ≡ firsts 8 (hops_from network.links held.now route.now) blank_hop }
{
    let mut hops = [forwarding::no_hop(); 8];
    for (j, &l) in route.iter().enumerate() {
        hops[j] = hop_of(network.links[usize::from(l)], l, held);
    }
    hops
}

// A frame in a colour.
#[derive(Clone, Copy)]
struct Spot {
    frame: u16,
    colour: u16,
}

// The spot at place j of frames and their colours.
fn spot_at(frames: [u8; 8], colours: [u8; 8], j: usize) -> Spot
    requires { j < 8 }
    ensures { IsAt frames colours j result }
{
    Spot {
        frame: u16::from(frames[j]),
        colour: u16::from(colours[j]),
    }
}

// Whether the spot is on the hop, and free. Check 7: a hop has at most 64 frames; check 23: at most 4 colours.
#[tactic(auto, unfolding(forwarding::specs::Forwarding::is_free))]
fn spot_free(hop: Hop, at: Spot) -> bool
    requires { (hop.frames ≤ 64) × (hop.colours ≤ 4) }
    ensures { result ≡ (is_on hop (spot_of at) && is_free hop (spot_of at)) }
{
    at.frame < hop.frames
        && at.colour < hop.colours
        && words::has_bit(hop.free[usize::from(at.colour)], at.frame)
}

// Whether colour c of the hop before may become colour d of the hop.
#[tactic(auto, unfolding(forwarding::specs::Forwarding::may_turn))]
fn may_turn(hop: Hop, c: u16, d: u16) -> bool
    ensures { result ≡ may_turn hop c d }
{
    c.abs_diff(d) <= hop.turn
}

// The transition from a spot of the hop before to a spot of a hop: its delay, if it is allowed.
// Checks 3, 7, 8, 21, 23 and 24 guarantee what is required; the walk has found the first spot free.
#[tactic(auto, using(crate::proofs::Steps::spot_in, crate::proofs::Steps::hold_lasts, forwarding::proofs::Holds::least_in), unfolding(crate::specs::Inner::step_if, forwarding::specs::Forwarding::may_hold))]
fn step(t: u16, before: Hop, from: Spot, hop: Hop, to: Spot) -> Option<Delay>
    requires { (t ≤ 960) × (from.frame < before.frames) × (before.frames ≤ 64) × HopReady t hop }
    ensures { walked_delay result ≡ step_if t before hop (spot_of from) (spot_of to) }
{
    if !spot_free(hop, to) {
        return None;
    }
    if !may_turn(hop, from.colour, to.colour) {
        return None;
    }
    let hold = forwarding::hold_into(from.frame, before, hop, to.frame);
    if hop.range < hold.0 {
        return None;
    }
    let time = forwarding::frame_time(t, hop.frames);
    Some(forwarding::delay_of(hold, time))
}

// Whether the frames in their colours, one for each hop, are a schedule over the hops, and its delay. Checks 3, 7, 8, 21, 23, 24 and 12 guarantee what is required.
// Kept: frames and colours in eight places; slices would ask callers for as many as hops.
pub fn walk(t: u16, hops: &[Hop], frames: [u8; 8], colours: [u8; 8]) -> Option<Delay>
    requires { Ready t hops.now (length hops.now) }
    ensures { walked_delay result ≡ delay_if t hops.now (in_colours (firsts (length hops.now) frames 0) (firsts (length hops.now) colours 0)) }
{
    if !spot_free(hops[0], spot_at(frames, colours, 0)) {
        return None;
    }
    let mut total = Delay(0);
    for j in 1..hops.len() {
        let from = spot_at(frames, colours, j - 1);
        let to = spot_at(frames, colours, j);
        let delay = step(t, hops[j - 1], from, hops[j], to)?;
        total = forwarding::sum(total, delay);
    }
    Some(total)
}

// The cycles of frames, one for each hop; unused places hold 0. Checks 7, 8, 21 and 12 bound the hops, and a schedule has frames of theirs.
// Kept: frames in eight places; a slice would ask callers for as many as hops.
pub fn cycles(hops: &[Hop], frames: [u8; 8]) -> [u8; 8]
    requires { FramesLaid hops.now frames (length hops.now) }
    ensures { result ≡ firsts 8 (schedule_cycles hops.now (firsts (length hops.now) frames 0)) 0 }
{
    let mut cycles = [0u8; 8];
    for at in 1..hops.len() {
        let k = u16::from(frames[at - 1]);
        let i = u16::from(frames[at]);
        cycles[at] = forwarding::next_cycle(k, hops[at - 1], hops[at], i, cycles[at - 1]);
    }
    cycles
}
