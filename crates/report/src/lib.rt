// The run of the program frames (document 01, "The program frames"), from bytes to text: net.bin and the call records in, a line for each call out.
// A state is known not to be broken from the fresh network on, so the calls are made on it without check 0.
// Kept: what is known of a network or a state is a clause, as in `state` and `routes`: a value of a type that says so would be unwrapped at each call.
#![tactic(auto)]

ghost use Rattle.std.specs.Prelude.{◌≡◌, true, ◌≤◌, length};
ghost use Rattle.refusals.specs.Refusals.{refusal_number, refusal_count, given};
ghost use Rattle.ledger.specs.Sound.{intact};
ghost use Rattle.ledger.specs.Calls.{SetUp, Quote, Release};
ghost use Rattle.ledger.specs.Calls as rules;
ghost use Rattle.call_records.specs.Records.{calls_in};
ghost use Rattle.call_records.specs.Reading.{call_of};
ghost use Rattle.state.specs.State.{view_of, quoted_in, released_in};
ghost use Rattle.text.specs.Characters.{letter_r};
ghost use Rattle.text.specs.Lines.{line};
ghost use Rattle.text.specs.Inner.{HasRoom, Adds};
ghost use Rattle.report.specs.Transcript.{line_of, lines_of, transcript};
ghost use Rattle.report.specs.Reports.{text_bound, Reports};
ghost use Rattle.report.specs.Inner.{InPlaces, Turns};

use call_records::{Call, Calls};
use refusals::Refusal;
use state::{Quoted, State};
use text::Page;

// The line of a refusal.
fn put_refusal(page: &mut Page<'_>, place: u32, letter: u8, refusal: Refusal)
    requires { HasRoom (line place letter (rules.refusal (refusal_number refusal) (refusal_count refusal))) page.old }
    ensures { Adds (line place letter (rules.refusal (refusal_number refusal) (refusal_count refusal))) page.old page.new }
{
    let number = u8::from(refusal);
    let count = refusals::count(refusal);
    page.put_refused(place, letter, number, count);
}

// The line of a set-up or a quote over as many links.
fn put_answer(
    page: &mut Page<'_>,
    place: u32,
    letter: u8,
    answer: Result<Quoted, Refusal>,
    hops: usize,
)
    requires { InPlaces answer hops × HasRoom (line place letter (quoted_in hops answer)) page.old }
    ensures { Adds (line place letter (quoted_in hops answer)) page.old page.new }
{
    match answer {
        Ok(quoted) => page.put_scheduled(place, letter, quoted.count, quoted.held, hops),
        Err(refusal) => put_refusal(page, place, letter, refusal),
    }
}

// The line of a release.
fn put_release(page: &mut Page<'_>, place: u32, answer: Result<(), Refusal>)
    requires { HasRoom (line place letter_r (released_in answer)) page.old }
    ensures { Adds (line place letter_r (released_in answer)) page.old page.new }
{
    match answer {
        Ok(()) => page.put_freed(place, b'R'),
        Err(refusal) => put_refusal(page, place, b'R', refusal),
    }
}

// A set-up and its line.
fn set_up(page: &mut Page<'_>, place: u32, st: State, number: u32, route: &[u8]) -> State
    requires { (intact (view_of st) ≡ true) × HasRoom (line_of place (view_of st) (given (SetUp number route.now))) page.old }
    ensures { Turns st (given (SetUp number route.now)) place page.old page.new result }
{
    let served = state::set_up(st, number, route);
    put_answer(page, place, b'S', served.answer, route.len());
    served.state
}

// The line of a quote.
fn quote(page: &mut Page<'_>, place: u32, st: State, route: &[u8])
    requires { (intact (view_of st) ≡ true) × HasRoom (line_of place (view_of st) (given (Quote route.now))) page.old }
    ensures { Turns st (given (Quote route.now)) place page.old page.new st }
{
    let answer = state::quote(st, route);
    put_answer(page, place, b'Q', answer, route.len());
}

// A release and its line.
fn release(page: &mut Page<'_>, place: u32, st: State, number: u32) -> State
    requires { (intact (view_of st) ≡ true) × HasRoom (line_of place (view_of st) (given (Release number))) page.old }
    ensures { Turns st (given (Release number)) place page.old page.new result }
{
    let served = state::release(st, number);
    put_release(page, place, served.answer);
    served.state
}

// A call and its line. Each arm has a function of its own, so that a call lays no state of another arm in memory.
fn serve(page: &mut Page<'_>, place: u32, st: State, call: Call<'_>) -> State
    requires { (intact (view_of st) ≡ true) × HasRoom (line_of place (view_of st) (given (call_of call))) page.old }
    ensures { Turns st (given (call_of call.entry)) place page.old page.new result }
{
    match call {
        Call::SetUp(number, route) => set_up(page, place, st, number, route),
        Call::Quote(route) => {
            quote(page, place, st, route);
            st
        }
        Call::Release(number) => release(page, place, st, number),
    }
}

// The calls on a state, a line for each, and the last line. A record that can't be read makes no call.
fn run(page: &mut Page<'_>, first: State, calls: &[u8])
    requires { (intact (view_of first) ≡ true) × (length calls.now ≤ 65536) × HasRoom (lines_of 1 (view_of first) (calls_in calls.now)) page.old }
    ensures { Adds (lines_of 1 (view_of first) (calls_in calls.now)) page.old page.new }
{
    let mut st = first;
    for (i, call) in Calls(calls).enumerate() {
        let place = i as u32 + 1;
        match call {
            Ok(call) => st = serve(page, place, st, call),
            Err(refusal) => page.put_refused(place, b'?', u8::from(refusal), 0),
        }
    }
    page.put_live(st.table.live as u32);
}

// As many bytes serve for every text on so many call bytes.
fn text_bound(n: usize) -> usize
    ensures { result ≡ text_bound n }
{
    22 + 11 * call_records::counted(n)
}

// The text on a page that has room for it.
fn put_text(page: &mut Page<'_>, file: &[u8], calls: &[u8])
    requires { HasRoom (transcript file.now calls.now) page.old }
    ensures { Adds (transcript file.now calls.now) page.old page.new }
{
    match network_file::read_network(file) {
        Ok(network) => {
            let first = state::fresh_state(network);
            let n = call_records::counted(calls.len());
            run(page, first, &calls[..n])
        }
        Err(refusal) => page.put_network(u8::from(refusal)),
    }
}

// The run of the program frames: the text at the start of a buffer, and its length. A buffer below 22 bytes and 11 for each call byte that counts, which serve
// for every text (`text_bound_lem`), is refused with 20 before any call is made, and left as it is.
pub fn report(file: &[u8], calls: &[u8], out: &mut [u8]) -> Result<usize, Refusal>
    ensures { Reports file.now calls.now out.old out.new result }
{
    if out.len() < text_bound(calls.len()) {
        return Err(Refusal::ShortBuffer);
    }
    let mut page = Page { out, at: 0 };
    put_text(&mut page, file, calls);
    Ok(page.at)
}
