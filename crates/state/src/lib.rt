// The stored state, and the calls of the program on a state that isn't broken: check 0 has passed, which is what each call's `requires` asks.
// The crate `sessions` offers these calls on every state, and those that the program doesn't make.
// Kept: that a state isn't broken, and that a network passed, are clauses; a type would ask more of the callers of `set_up`, `quote`, `release` and `fresh_state`.
#![tactic(auto)]

ghost use Rattle.std.specs.Prelude.{◌≡◌, true, ◌≤◌, leb, length};
ghost use Rattle.places.specs.Places.{firsts};
ghost use Rattle.refusals.specs.Refusals.{given, pass, ruling};
ghost use Rattle.network.specs.Network.{topology_of};
ghost use Rattle.network.specs.Checks.{network_check};
ghost use Rattle.forwarding.specs.Hops.{blank_hop, Ready};
ghost use Rattle.ledger.specs.Held.{holding_of};
ghost use Rattle.ledger.specs.Sessions.{is_live, hops_of};
ghost use Rattle.ledger.specs.Routes.{route_check};
ghost use Rattle.ledger.specs.Sound.{intact};
ghost use Rattle.ledger.specs.Calls.{SetUp, Quote, answer_over, call_check, reply};
ghost use Rattle.routes.specs.Inner.{FramesLaid};
ghost use Rattle.table.specs.Table.{session_of, live_of};
ghost use Rattle.state.specs.State.{view_of, empty_table, fresh_state, Quotes, Serves, Releases};
ghost use Rattle.state.specs.Inner.{found_quoted};

use forwarding::{Held, Hop};
use network::Network;
use refusals::Refusal;
use search::Schedule;
use table::{Place, Table};

// The stored state: a network and its live sessions.
#[derive(Clone, Copy, PartialEq, Eq)]
pub struct State {
    pub network: Network,
    pub table: Table,
}

// What a quote gives, and a set-up: the count of transitions considered, and what the schedule holds.
#[derive(Clone, Copy)]
pub struct Quoted {
    pub count: u32,
    pub held: Held,
}

// A call's answer, or its refusal, and the state after the call.
#[derive(Clone, Copy)]
pub struct Served<T> {
    pub answer: Result<T, Refusal>,
    pub state: State,
}

// A table without sessions.
fn no_sessions() -> Table
    ensures { result ≡ empty_table }
{
    let held = table::nothing_held();
    let none = Place {
        route: [0u8; 8],
        number: 0,
        hops: 0,
        held,
    };
    Table {
        live: 0,
        places: [none; 96],
    }
}

// The state of a network that passed its checks, without sessions.
pub fn fresh_state(network: Network) -> State
    requires { network_check (topology_of network) ≡ given pass }
    ensures { result ≡ fresh_state network }
{
    State {
        network,
        table: no_sessions(),
    }
}

// What a set-up or a quote gives of a schedule that a search found over the hops: the one place where what is held is made.
fn scheduled(hops: &[Hop], schedule: Schedule, count: u32) -> Quoted
    requires { FramesLaid hops.now schedule.frames (length hops.now) }
    ensures { result ≡ found_quoted hops.now (length hops.now) schedule count }
{
    let frames = schedule.frames;
    let cycles = routes::cycles(hops, frames);
    let delay = schedule.delay;
    let colours = schedule.colours;
    let held = Held {
        frames,
        cycles,
        delay,
        colours,
    };
    Quoted { count, held }
}

// The answer over the hops: the least-delay schedule, or 18 where none exists. Checks 3, 7, 8, 21 and 12 guarantee what is required.
fn answer_over(t: u16, hops: &[Hop]) -> Result<Quoted, Refusal>
    requires { Ready t hops.now (length hops.now) }
    ensures { Quotes (answer_over t hops.now) result }
{
    let finding = search::search(t, hops);
    let schedule = finding.schedule.ok_or(Refusal::NoSchedule(finding.count))?;
    Ok(scheduled(hops, schedule, finding.count))
}

// The hops of a route that passed 12 to 15, over the frames now free.
// Kept: eight places, since nothing is on the heap.
pub fn free_hops(st: &State, route: &[u8]) -> [Hop; 8]
    requires { (intact (view_of st.now) ≡ true) × (route_check (topology_of st.now.network) route.now ≡ given pass) }
    ensures { result ≡ firsts 8 (hops_of (topology_of st.now.network) (live_of st.now.table) route.now) blank_hop }
{
    let held = table::held_words(&st.table);
    routes::route_hops(st.network, &held, route)
}

// Quote: the least-delay schedule over the route in the frames now free.
pub fn quote(st: State, route: &[u8]) -> Result<Quoted, Refusal>
    requires { intact (view_of st) ≡ true }
    ensures { Quotes (reply (view_of st) (Quote route.now)) result }
{
    routes::check_route(st.network, route)?;
    let eight = free_hops(&st, route);
    answer_over(st.network.ticks, &eight[..route.len()])
}

// Whether the number is live.
fn is_live(table: Table, number: u32) -> bool
    requires { table.live ≤ 96 }
    ensures { result ≡ is_live number (live_of table) }
{
    table::place_of(table, number).is_some()
}

// Whether check 17 refuses so many live sessions.
fn is_full(live: usize) -> bool
    ensures { result ≡ leb 96 live }
{
    96 <= live
}

// The checks of a set-up after 0: 12 to 17.
fn check_set_up(st: &State, number: u32, route: &[u8]) -> Result<(), Refusal>
    requires { intact (view_of st.now) ≡ true }
    ensures { ruling result ≡ call_check (topology_of st.now.network) (live_of st.now.table) (SetUp number route.now) }
{
    let network = st.network;
    routes::check_route(network, route)?;
    let live = is_live(st.table, number);
    let full = is_full(st.table.live);
    if live {
        return Err(Refusal::NumberLive);
    }
    if full {
        return Err(Refusal::PlacesFull);
    }
    Ok(())
}

// A session of this number over the route, as it is stored. Check 12: the route has at most 8 links.
fn new_place(number: u32, route: &[u8], held: Held) -> Place
    requires { length route.now ≤ 8 }
    ensures { session_of result ≡ record { number = number; route = route.now; held = holding_of (length route.now) held } }
{
    // Kept: `as`, since check 12 leaves no length that a TryFrom could refuse.
    let hops = route.len() as u8;
    Place {
        route: table::in_eight(route),
        number,
        hops,
        held,
    }
}

// Set-up: holds the frames of the least-delay schedule over the route, or refuses and leaves all as it was.
// Form: the search's enum is taken apart by `let .. else`, and its refusal passed on before anything is held.
pub fn set_up(st: State, number: u32, route: &[u8]) -> Served<Quoted>
    requires { intact (view_of st) ≡ true }
    ensures { Serves st (SetUp number route.now) result }
{
    if let Err(refusal) = check_set_up(&st, number, route) {
        return Served {
            answer: Err(refusal),
            state: st,
        };
    }
    let eight = free_hops(&st, route);
    let hops = &eight[..route.len()];
    let finding = search::search(st.network.ticks, hops);
    let Some(schedule) = finding.schedule else {
        return Served {
            answer: Err(Refusal::NoSchedule(finding.count)),
            state: st,
        };
    };
    let quoted = scheduled(hops, schedule, finding.count);
    let place = new_place(number, route, quoted.held);
    let after = State {
        table: table::with_place(st.table, place),
        ..st
    };
    Served {
        answer: Ok(quoted),
        state: after,
    }
}

// Release: frees exactly the frames of the session with the number.
pub fn release(st: State, number: u32) -> Served<()>
    requires { intact (view_of st) ≡ true }
    ensures { Releases st number result }
{
    if !is_live(st.table, number) {
        return Served {
            answer: Err(Refusal::NumberNotLive),
            state: st,
        };
    }
    let after = State {
        table: table::without(st.table, number),
        ..st
    };
    Served {
        answer: Ok(()),
        state: after,
    }
}
