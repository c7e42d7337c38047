// The calls on sessions (document 01, "Calls on sessions"), for every state and every argument: check 0 comes first, and what a call refuses
// it leaves as it was. The stored sessions stand in the order of set-up. What the rules leave free is what stands in the places of the table past the live
// sessions and in the places of a stored session past its hops; no answer goes by it (`ArrangementFree`).
// Kept: what is known of a network or a state is a clause, as in `state` and `routes`: a value of a type that says so would be unwrapped at each call.
#![tactic(auto)]

ghost use Rattle.std.specs.Prelude.{◌≡◌, true, ◌≤◌};
ghost use Rattle.refusals.specs.Refusals.{ruling};
ghost use Rattle.ledger.specs.Sound.{intact, broken_check};
ghost use Rattle.ledger.specs.Calls.{SetUp, Quote, reply, lookup, free_count};
ghost use Rattle.ledger.specs.Ways.{ways_of};
ghost use Rattle.table.specs.Table.{session_of};
ghost use Rattle.state.specs.State.{view_of, Quotes, Serves, Releases};
ghost use Rattle.sessions.specs.Calls.{shut_network, Begins, Tells, shown_of, Looks, Tallies};
ghost use Rattle.sessions.specs.Ways.{Surveys};

use forwarding::Held;
use network::{Link, Network};
use refusals::Refusal;
use state::{Quoted, Served, State};
use table::Place;

// What a lookup shows: the session's hops, their links, hop 0 first, and what it holds; unused places hold 0.
// Kept: eight places and the number of hops, since nothing is on the heap.
#[derive(Clone, Copy)]
pub struct Shown {
    pub hops: usize,
    pub route: [u8; 8],
    pub held: Held,
}

// A network that passes its checks and on which nothing can be held: one link of one frame, which is closed.
fn shut_network() -> Network
    ensures { result ≡ shut_network }
{
    let link = Link {
        frames: 1,
        range: 1,
        least: 1,
        closed: 1,
    };
    Network {
        ticks: 1,
        count: 1,
        links: [link; 32],
    }
}

// The state of a fresh network: its checks, and no sessions. Where the network is refused, the state is one that can hold nothing, so that no caller who
// built no state by hand meets 0.
pub fn begin(network: Network) -> Served<()>
    ensures { Begins network result }
{
    let answer = network::check_network(network);
    let state = match answer {
        Ok(()) => state::fresh_state(network),
        Err(_) => state::fresh_state(shut_network()),
    };
    Served { answer, state }
}

// Check 0 of a state.
fn check_state(st: &State) -> Result<(), Refusal>
    ensures { ruling result ≡ broken_check (view_of st.now) }
{
    if state_check::broken(*st) {
        return Err(Refusal::BrokenState);
    }
    Ok(())
}

// Set-up: holds the frames of the least-delay schedule over the route for a session of this number. Refuses with 0, 12 to 17, or 18 with
// the count.
pub fn set_up(st: State, number: u32, route: &[u8]) -> Served<Quoted>
    ensures { Serves st (SetUp number route.now) result }
{
    if let Err(refusal) = check_state(&st) {
        return Served {
            answer: Err(refusal),
            state: st,
        };
    }
    state::set_up(st, number, route)
}

// A quote's answer.
fn answer_quote(st: &State, route: &[u8]) -> Result<Quoted, Refusal>
    ensures { Quotes (reply (view_of st.now) (Quote route.now)) result }
{
    check_state(st)?;
    state::quote(*st, route)
}

// Quote: the same answer, nothing held. Refuses with 0, 12 to 15, or 18 with the count.
pub fn quote(st: State, route: &[u8]) -> Served<Quoted>
    ensures { Serves st (Quote route.now) result }
{
    Served {
        answer: answer_quote(&st, route),
        state: st,
    }
}

// Release: frees exactly the frames of the session with the number. Refuses with 0 or 19.
pub fn release(st: State, number: u32) -> Served<()>
    ensures { Releases st number result }
{
    if let Err(refusal) = check_state(&st) {
        return Served {
            answer: Err(refusal),
            state: st,
        };
    }
    state::release(st, number)
}

// What a lookup shows of a stored session, the places not in use cleared. Check 0: it has at most 8 hops.
fn shown_place(place: Place) -> Shown
    requires { place.hops ≤ 8 }
    ensures { result ≡ shown_of (session_of place) }
{
    let hops = usize::from(place.hops);
    let route = table::in_eight(&place.route[..hops]);
    let held = table::cleared(place.held, hops);
    Shown { hops, route, held }
}

// A lookup's answer.
fn answer_lookup(st: &State, number: u32) -> Result<Shown, Refusal>
    ensures { Tells shown_of (lookup (view_of st.now) number) result }
{
    check_state(st)?;
    let table = st.table;
    let Some(at) = table::place_of(table, number) else {
        return Err(Refusal::NumberNotLive);
    };
    Ok(shown_place(table.places[at]))
}

// Lookup: the route, frames, cycles and delay of the live session with the number. Refuses with 0 or 19.
pub fn lookup(st: State, number: u32) -> Served<Shown>
    ensures { Looks st number result }
{
    Served {
        answer: answer_lookup(&st, number),
        state: st,
    }
}

// The answer of free frames.
fn answer_free_frames(st: &State, link: u8) -> Result<u32, Refusal>
    ensures { Tells (λ n. n) (free_count (view_of st.now) link) result }
{
    check_state(st)?;
    let network = st.network;
    let at = usize::from(link);
    if network.count <= at {
        return Err(Refusal::UnknownLink);
    }
    let held = table::held_words(&st.table);
    let of = network.links[at];
    let place = words::bank(link, 0);
    Ok(words::free_frames(of.frames, of.closed, held[place]))
}

// Free frames of a link: how many of its frames are neither closed nor held. Refuses with 0 or 13.
pub fn free_frames(st: State, link: u8) -> Served<u32>
    ensures { Tallies st link result }
{
    Served {
        answer: answer_free_frames(&st, link),
        state: st,
    }
}

// The number of ways where check 0 has passed: the quote's other checks, and the schedules over the frames now free, counted.
fn count_ways(st: &State, route: &[u8]) -> Result<u64, Refusal>
    requires { intact (view_of st.now) ≡ true }
    ensures { Tells (λ n. n) (ways_of (view_of st.now) route.now) result }
{
    routes::check_route(st.network, route)?;
    let eight = state::free_hops(st, route);
    Ok(ways::number_over(&eight[..route.len()]))
}

// The answer of how many ways through.
fn answer_ways(st: &State, route: &[u8]) -> Result<u64, Refusal>
    ensures { Tells (λ n. n) (ways_of (view_of st.now) route.now) result }
{
    check_state(st)?;
    count_ways(st, route)
}

// How many ways through: the number of schedules over the route in the frames now free, nothing held. Refuses with 0 or 12 to 15, as a quote does; where that is
// blocked the number is 0.
pub fn number_of_ways(st: State, route: &[u8]) -> Served<u64>
    ensures { Surveys st route.now result }
{
    Served {
        answer: answer_ways(&st, route),
        state: st,
    }
}
