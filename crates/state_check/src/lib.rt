// Refusal 0: whether a stored state is broken, for every state that a caller could build by hand.
// Kept: what is known of a network or a state is a clause, as in `state` and `routes`: a value of a type that says so would be unwrapped at each call.
#![tactic(auto)]

ghost use Rattle.std.specs.Prelude.{◌≡◌, not, ◌&&◌, ◌≤◌, nat_eq, take};
ghost use Rattle.std.specs.List.{list_all};
ghost use lib.Pointwise.{pointwise};
ghost use Rattle.refusals.specs.Refusals.{given, pass};
ghost use Rattle.network.specs.Network.{topology_of};
ghost use Rattle.network.specs.Checks.{network_check};
ghost use Rattle.ledger.specs.Sound.{good_session, intact};
ghost use Rattle.table.specs.Table.{session_of};
ghost use Rattle.state.specs.State.{view_of};

use forwarding::{Delay, Held};
use network::Network;
use state::State;
use table::{Place, Table};
use words::BANK;

// Whether these cycles and this delay are held: what is stored beside the frames and their colours, by the rule that gives it.
// Kept: eight places and a number, as a session is stored.
fn same_held(held: Held, cycles: [u8; 8], delay: Delay, n: usize) -> bool
    requires { n ≤ 8 }
    ensures { result ≡ (pointwise nat_eq (take n held.cycles) (take n cycles) && nat_eq held.delay.0 delay.0) }
{
    held.cycles[..n] == cycles[..n] && held.delay == delay
}

// Whether a session's route passes 12 to 15, its frames in their colours are a schedule over unclosed frames, and what it holds is what that schedule holds.
fn good_session(network: Network, place: Place) -> bool
    requires { network_check (topology_of network) ≡ given pass }
    ensures { result ≡ good_session (topology_of network) (session_of place) }
{
    // Kept: usize::from answers a new number, and eight goals must be rewritten to the hops by it.
    let hops = place.hops as usize;
    if 8 < hops {
        return false;
    }
    let route = &place.route[..hops];
    if routes::check_route(network, route).is_err() {
        return false;
    }
    let eight = routes::route_hops(network, &[0; BANK], route);
    let laid = &eight[..hops];
    let held = place.held;
    match routes::walk(network.ticks, laid, held.frames, held.colours) {
        Some(delay) => {
            let cycles = routes::cycles(laid, held.frames);
            same_held(held, cycles, delay, hops)
        }
        None => false,
    }
}

// Whether each live session is so.
fn good_sessions(network: Network, table: Table) -> bool
    requires { (network_check (topology_of network) ≡ given pass) × (table.live ≤ 96) }
    ensures { result ≡ list_all (λ place. good_session (topology_of network) (session_of place)) (take table.live table.places) }
{
    let live = &table.places[..table.live];
    live.iter().all(|place| good_session(network, *place))
}

// Whether the stored state handed to a call is broken: check 0.
#[tactic(auto, using(crate::proofs::Sessions::check_fails, crate::proofs::Sessions::check_passes, table::proofs::Live::in_length), unfolding(ledger::specs::Sound::intact, ledger::specs::Sound::sound, ledger::specs::Sound::good_network, ledger::specs::Sound::few_sessions))]
pub fn broken(st: State) -> bool
    ensures { result ≡ not (intact (view_of st)) }
{
    let network = st.network;
    let table = st.table;
    if network::check_network(network).is_err() {
        return true;
    }
    if 96 < table.live {
        return true;
    }
    if table::number_twice(table) {
        return true;
    }
    if !good_sessions(network, table) {
        return true;
    }
    table::frame_twice(table)
}
