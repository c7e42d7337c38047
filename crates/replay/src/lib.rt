// The state after the calls of call records (document 01, "The program frames"), without the text of their lines.
// A state is known not to be broken from the fresh network on, so the calls are made on it without check 0.
// Kept: what is known of a network or a state is a clause, as in `state` and `routes`: a value of a type that says so would be unwrapped at each call.
#![tactic(auto)]

ghost use Rattle.std.specs.Prelude.{◌≡◌, true};
ghost use Rattle.refusals.specs.Refusals.{given, pass};
ghost use Rattle.network.specs.Network.{topology_of};
ghost use Rattle.network.specs.Checks.{network_check};
ghost use Rattle.ledger.specs.Sound.{intact};
ghost use Rattle.ledger.specs.Demand.{fresh};
ghost use Rattle.call_records.specs.Records.{calls_in, counted};
ghost use Rattle.call_records.specs.Served.{view_after, view_after_all};
ghost use Rattle.call_records.specs.Reading.{call_of};
ghost use Rattle.state.specs.State.{view_of};
ghost use Rattle.replay.specs.Replayed.{Becomes};

use call_records::{Call, Calls};
use network::Network;
use state::State;

// The state after a call. A quote changes nothing.
fn made(st: State, call: Call<'_>) -> State
    requires { intact (view_of st) ≡ true }
    ensures { Becomes st.network (view_after (view_of st) (given (call_of call.entry))) result }
{
    match call {
        Call::SetUp(number, route) => state::set_up(st, number, route).state,
        Call::Quote(_) => st,
        Call::Release(number) => state::release(st, number).state,
    }
}

// The state after all calls. A record that can't be read makes no call.
fn run(first: State, calls: &[u8]) -> State
    requires { intact (view_of first) ≡ true }
    ensures { Becomes first.network (view_after_all (view_of first) (calls_in calls.now)) result }
{
    let mut st = first;
    for call in Calls(calls) {
        if let Ok(call) = call {
            st = made(st, call);
        }
    }
    st
}

// The state after the calls of the call bytes that count, from a network that passed its checks, without sessions.
// The places of the table that no session stands in, and those of a stored session past its hops, are left free: the inner arrangement of stored sessions,
// named at `Leaves` in crates/state/specs/State.antt.
pub fn state_after(network: Network, calls: &[u8]) -> State
    requires { network_check (topology_of network) ≡ given pass }
    ensures { Becomes network (view_after_all (fresh (topology_of network)) (calls_in (counted calls.now))) result }
{
    let first = state::fresh_state(network);
    let n = call_records::counted(calls.len());
    run(first, &calls[..n])
}
