// The live sessions as they are stored: a table of 96 places, the first of them used, in the order of set-up.
// What gives each `requires`: check 0, that at most 96 sessions are live (`place_of`, `without`, `number_twice`) and that the links, frames and colours of each are
// within the arrays (`held_words`, `frame_twice` and what these call); check 17, that a place is left (`with_place`); check 12, that a route has at most 8
// links, and check 0 that a stored one has (`in_eight`, `cleared`).
#![tactic(auto)]

ghost use Rattle.std.specs.Prelude.{◌≡◌, [], ◌∷◌, ◌++◌, ◌<◌, ◌≤◌, length, eqb};
ghost use Rattle.places.specs.Places.{firsts};
ghost use Rattle.ledger.specs.Lists.{any_of, keep};
ghost use Rattle.ledger.specs.Held.{no_holding, holding_of, held_places};
ghost use Rattle.ledger.specs.Sessions.{slots_at, slots_of};
ghost use Rattle.ledger.specs.Inner.{HeldWords};
ghost use Rattle.ledger.specs.Sound.{number_twice, frame_twice};
ghost use Rattle.ledger.specs.Calls.{other_than};
ghost use Rattle.table.specs.Table.{session_of, live_of, place_of};
ghost use Rattle.table.specs.Inner.{IsSlot, PlaceWithin, AllWithin, Marked, marked_in};

use forwarding::{Delay, Held};
use words::BANK;

// A session as it is stored ("Calls on sessions"; W-205: "A session stores 32 bits"): its links,
// hop 0 first, its number, its number of hops and what it holds.
// A place has 40 bytes. Only the byte after `hops` is padding: `held` begins at an even offset.
#[derive(Clone, Copy, PartialEq, Eq)]
pub struct Place {
    pub route: [u8; 8],
    pub number: u32,
    pub hops: u8,
    pub held: Held,
}

// The live sessions: how many, and their places.
// Kept: both numbers beside places, since check 0 (`intact`) refuses one above them.
#[derive(Clone, Copy, PartialEq, Eq)]
pub struct Table {
    pub live: usize,
    pub places: [Place; 96],
}

// The place of the session with the number, if some session has it.
pub fn place_of(table: Table, number: u32) -> Option<usize>
    requires { table.live ≤ 96 }
    ensures { result ≡ place_of number (live_of table) }
{
    let live = &table.places[..table.live];
    live.iter().position(|place| place.number == number)
}

// The table with one session more, after the others.
pub fn with_place(table: Table, place: Place) -> Table
    requires { table.live < 96 }
    ensures { live_of result ≡ live_of table ++ (session_of place ∷ []) }
{
    let at = table.live;
    let mut next = table;
    next.places[at] = place;
    next.live = at + 1;
    next
}

// The table without the session of the number, the others in their order.
pub fn without(table: Table, number: u32) -> Table
    requires { table.live ≤ 96 }
    ensures { live_of result ≡ keep (other_than number) (live_of table) }
{
    let mut next = table;
    // Kept: no range counts the places that stay.
    let mut kept = 0;
    for place in &table.places[..table.live] {
        if place.number != number {
            next.places[kept] = *place;
            kept += 1;
        }
    }
    next.live = kept;
    next
}

impl Place {
    // The place in a bank of the word of hop j's link and colour, and hop j's frame.
    fn slot(&self, j: usize) -> (usize, u16)
        requires { PlaceWithin self.now × (j < self.now.hops) }
        ensures { IsSlot self.now j result.0 result.1 }
    {
        let at = words::bank(self.route[j], self.held.colours[j]);
        (at, u16::from(self.held.frames[j]))
    }
}

// Marks what a session holds in a bank.
fn mark(words: &mut [u64; BANK], place: &Place)
    requires { PlaceWithin place.now }
    ensures { Marked (slots_of (session_of place.now)) words.old words.new }
{
    for j in 0..usize::from(place.hops) {
        let (at, frame) = place.slot(j);
        words[at] = words::set_bit(words[at], frame);
    }
}

// The bank of held frames.
pub fn held_words(table: &Table) -> [u64; BANK]
    requires { AllWithin table.now }
    ensures { HeldWords result (live_of table.now) }
{
    let mut words = [0u64; BANK];
    for place in &table.places[..table.live] {
        mark(&mut words, place);
    }
    words
}

// Whether some of what a session holds is marked.
fn meets(words: &[u64; BANK], place: &Place) -> bool
    requires { PlaceWithin place.now }
    ensures { result ≡ any_of (marked_in words.now) (slots_of (session_of place.now)) }
{
    // Kept: by any the proof didn't close.
    for j in 0..usize::from(place.hops) {
        let (at, frame) = place.slot(j);
        if words::has_bit(words[at], frame) {
            return true;
        }
    }
    false
}

// Whether two sessions hold one frame.
pub fn frame_twice(table: Table) -> bool
    requires { AllWithin table }
    ensures { result ≡ frame_twice (live_of table) }
{
    let mut marks = [0u64; BANK];
    for place in &table.places[..table.live] {
        if meets(&marks, place) {
            return true;
        }
        mark(&mut marks, place);
    }
    false
}

// Whether a number is one of the list. Kept: each is compared, so that the compiler compares several
// at a time; `contains` ends at the first and takes three times as long.
fn among(number: u32, numbers: &[u32]) -> bool
    ensures { result ≡ any_of (eqb number) numbers.now }
{
    let mut met = false;
    for x in numbers {
        met |= number == *x;
    }
    met
}

// Whether a number is live twice: each is compared with those before it, by all its 32 bits.
pub fn number_twice(table: Table) -> bool
    requires { table.live ≤ 96 }
    ensures { result ≡ number_twice (live_of table) }
{
    let mut numbers = [0u32; 96];
    for (i, place) in table.places[..table.live].iter().enumerate() {
        if among(place.number, &numbers[..i]) {
            return true;
        }
        numbers[i] = place.number;
    }
    false
}

// A route, or the frames, cycles or colours of its hops, in eight places, the others 0.
pub fn in_eight(route: &[u8]) -> [u8; 8]
    requires { length route.now ≤ 8 }
    ensures { result ≡ firsts 8 route.now 0 }
{
    let mut out = [0u8; 8];
    out[..route.len()].copy_from_slice(route);
    out
}

// What the first n places hold, the others 0.
pub fn cleared(held: Held, n: usize) -> Held
    requires { n ≤ 8 }
    ensures { result ≡ held_places (holding_of n held) }
{
    Held {
        frames: in_eight(&held.frames[..n]),
        cycles: in_eight(&held.cycles[..n]),
        delay: held.delay,
        colours: in_eight(&held.colours[..n]),
    }
}

// What an unused place of a table holds: nothing.
pub fn nothing_held() -> Held
    ensures { result ≡ held_places no_holding }
{
    Held {
        frames: [0u8; 8],
        cycles: [0u8; 8],
        delay: Delay(0),
        colours: [0u8; 8],
    }
}
