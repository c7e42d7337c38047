// Forwarding: holds, delays, reference frames and cycles of the hops of a route (document 01,
// "Forwarding"; W-201, W-202, W-206).
#![tactic(auto)]

ghost use Rattle.std.specs.Prelude.{◌≡◌, ◌+◌, ◌*◌, ◌<◌, ◌≤◌};
ghost use Rattle.forwarding.specs.Forwarding.{reference_into, least_hold, hold_into, choices, frame_time, IsDelay};
ghost use Rattle.forwarding.specs.Hops.{blank_hop};
ghost use Rattle.forwarding.specs.Cycles.{next_cycle};

// A hold counts frames of the outgoing link.
// Form: a hold and a delay are tuple structs, so holds of unequal links are never summed as delays.
#[derive(Clone, Copy, PartialEq, Eq)]
pub struct Hold(pub u16);

// A delay counts ticks.
#[derive(Clone, Copy, PartialEq, Eq)]
pub struct Delay(pub u16);

// An answer's, a session's and a lookup's schedule: a frame, its cycle and its colour for each hop,
// hop 0 first, in eight places, and the delay.
#[derive(Clone, Copy, PartialEq, Eq)]
pub struct Held {
    pub frames: [u8; 8],
    pub cycles: [u8; 8],
    pub delay: Delay,
    pub colours: [u8; 8],
}

// A hop of a route: its link's frames per cycle (K), forwarding range (Z), least hold (Y), colours
// (C) and conversion range (R), and its free frames: bit i of word c for frame i in colour c.
#[derive(Clone, Copy, PartialEq, Eq)]
pub struct Hop {
    pub frames: u16,
    pub range: u16,
    pub least: u16,
    pub colours: u16,
    pub turn: u16,
    pub free: [u64; 4],
}

// The hop in unused places of an array.
pub fn no_hop() -> Hop
    ensures { result ≡ blank_hop }
{
    Hop {
        frames: 0,
        range: 0,
        least: 0,
        colours: 0,
        turn: 0,
        free: [0; 4],
    }
}

// The reference frame, on a hop, of frame k of the hop before: the one in which k's last bit
// arrives. Check 7 bounds both links' frames; k is a frame of the hop before.
pub fn reference_frame(k: u16, before: Hop, hop: Hop) -> u16
    requires { (k < before.frames) × (before.frames ≤ 64) × (0 < hop.frames) × (hop.frames ≤ 64) }
    ensures { result ≡ reference_into before hop k }
{
    let frames = hop.frames;
    ((k + 1) * frames - 1) / before.frames
}

// The least hold into a hop.
pub fn least_hold(hop: Hop) -> u16
    ensures { result ≡ least_hold hop }
{
    hop.least
}

// The number of holds into a hop, from the least to Z. Checks 7 and 8 bound Z, check 21 the least
// hold.
pub fn choices(hop: Hop) -> u16
    requires { (least_hold hop ≤ hop.range) × (hop.range ≤ 64) }
    ensures { result ≡ choices hop }
{
    hop.range - least_hold(hop) + 1
}

// The hold from frame k of the hop before to frame i of a hop.
// Check 7 bounds both links' frames, checks 8 and 21 the least hold; k and i are frames of theirs.
pub fn hold_into(k: u16, before: Hop, hop: Hop, i: u16) -> Hold
    requires { (k < before.frames) × (before.frames ≤ 64) × (i < hop.frames) × (hop.frames ≤ 64) × (least_hold hop ≤ hop.frames) }
    ensures { result.0 ≡ hold_into before hop k i }
{
    let from = reference_frame(k, before, hop);
    let least = least_hold(hop);
    let frames = hop.frames;
    Hold((i + 2 * frames - (from + least)) % frames + least)
}

// The cycle of frame i of a hop, where frame k of the hop before lies in this one.
// Check 7 bounds both links' frames, checks 8 and 21 the least hold; k and i are frames of theirs.
// Check 12: there are at most 8 hops, and no hop's cycle is above its number.
pub fn next_cycle(k: u16, before: Hop, hop: Hop, i: u16, cycle: u8) -> u8
    requires { (k < before.frames) × (before.frames ≤ 64) × (i < hop.frames) × (hop.frames ≤ 64) × (least_hold hop ≤ hop.frames) × (cycle < 8) }
    ensures { result ≡ next_cycle before hop k i cycle }
{
    let from = reference_frame(k, before, hop);
    let hold = hold_into(k, before, hop, i);
    if from + hold.0 < hop.frames {
        return cycle;
    }
    cycle + 1
}

// How long a frame of a link lasts: T / K ticks. Check 7: K is not 0.
pub fn frame_time(t: u16, frames: u16) -> Delay
    requires { 0 < frames }
    ensures { result.0 ≡ frame_time t frames }
{
    Delay(t / frames)
}

// The delay of a hold by its link's frame time: the one place where a hold becomes a delay.
// Checks 3, 7, 8 and 21: a hold is at most Z, Z at most K, and K frames last T ticks, at most 960.
pub fn delay_of(hold: Hold, frame: Delay) -> Delay
    requires { hold.0 * frame.0 ≤ 960 }
    ensures { IsDelay hold.0 frame.0 result.0 }
{
    Delay(hold.0 * frame.0)
}

// The delay of one part of a schedule and then another. No delay passes 7 × 960.
pub fn sum(first: Delay, then: Delay) -> Delay
    requires { first.0 + then.0 ≤ 6720 }
    ensures { result.0 ≡ first.0 + then.0 }
{
    Delay(first.0 + then.0)
}
