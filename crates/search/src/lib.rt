// The least-delay search of a route: survivor search over its hops (document 01,
// "Least-delay schedule"; source document 000).
//
// A row has a lane of 64 cells for each colour of a hop: the cell of frame i in colour c is at
// place 64 × c + i. A cell is the least delay to its frame in its colour, or NEVER. Two rows are
// kept, of the hop before and of the hop entered (W-204). The place before place p of hop j + 1
// is at p of the predecessors' row j.
//
// A hop is entered colour by colour. Of each frame of the hop before, the best colour from which
// the colour entered may be reached is chosen first; then a lane is searched over frames alone.
// The work of a lane is linear in its frames, for every Z: frames of the hop before are gathered
// by the frame that the least hold leads to; each further hold leads one frame on. So the best
// way into a frame is the best of a window of gathered frames, and windows go round the cycle.
#![tactic(auto)]

ghost use Rattle.std.specs.Prelude.{◌≡◌, cond, ◌++◌, reverse, ℕ, ◌+◌, ◌-◌, ◌*◌, ◌%◌, ◌<◌, ◌≤◌, ltb, get_or, length, drop, take};
ghost use Rattle.lists.specs.Count.{one_if};
ghost use Rattle.trellis.specs.Paths.{reached};
ghost use Rattle.trellis.proofs.Survivor.{best_of};
ghost use Rattle.forwarding.specs.Forwarding.{reference_into};
ghost use Rattle.forwarding.specs.Hops.{no_hop, Ready};
ghost use Rattle.forwarding.specs.Route.{nodes, stage};
ghost use Rattle.forwarding.proofs.Windows.{first_frame};
ghost use Rattle.search.specs.Reading.{Finds};
ghost use Rattle.search.specs.Inner.{cell_reach, way_of, cell_if, Keys, Trail, Windows, Entered, Gathers, leadings, Gathering, Settled, Settling, Lane, LaneSet, low_turn, high_turn, near_span, NearRow, NearLane, LanePut, Coloured, Colouring, Kept, Entering, Advanced, by_node, FirstLane, FirstRow, Sweeps, Swept, end_offers, end_sooner, EndOf, EndFound, chain_of, ChainFits, Parts};

use forwarding::{Delay, Hold, Hop};

// The cell of a frame that no schedule leads to. No delay passes 6,720.
// Kept: two bytes a cell (W-204), so no Option.
const NEVER: u16 = 32768;

// The key of a frame that nothing leads to yet: no key of a frame that some cell leads to is larger, since a cycle has at most 960 ticks.
const EMPTY: u16 = 33728;

// A schedule: its delay, its frames and their colours, hop 0 first; unused places hold 0.
#[derive(Clone, Copy)]
pub struct Schedule {
    pub delay: Delay,
    pub frames: [u8; 8],
    pub colours: [u8; 8],
}

// What a search found: the least-delay schedule, where there is one, and the count of
// transitions considered.
#[derive(Clone, Copy)]
pub struct Finding {
    pub schedule: Option<Schedule>,
    pub count: u32,
}

// A place, and the key that it is chosen by. Of a frame that the least hold leads to, the key is the delay as it would be at the end of the cycle without a hold: the cell of the frame
// before and the time from the frame to the end. So two keys compare wherever a hold ends. Of a lane and of an end of the route it is the cell.
#[derive(Clone, Copy)]
struct Choice {
    key: u16,
    place: u8,
}

// The first of two, unless the key of the other is smaller. Kept: by `if` and `else` as the last
// expression the search took 10 to 20 of 100 instructions more.
fn sooner(first: Choice, other: Choice) -> Choice
    ensures { (result.key ≡ cond (ltb other.key first.key) other.key first.key) × (result.place ≡ cond (ltb other.key first.key) other.place first.place) }
{
    if other.key < first.key {
        return other;
    }
    first
}

// The cell of frame i, where it is free. Check 7: a frame is below 64. Kept beside that of `ways`:
// one function over both types would take what stands where it isn't free at each call.
fn if_free(free: u64, i: u16, cell: u16) -> u16
    requires { i < 64 }
    ensures { result ≡ cell_if free i cell }
{
    if words::has_bit(free, i) { cell } else { NEVER }
}

// 1 for a cell that some schedule leads to.
fn one_reached(cell: u16) -> u8
    ensures { result ≡ one_if (reached (cell_reach cell)) }
{
    u8::from(cell < NEVER)
}

// The transitions from a frame that some schedule leads to in so many colours, each of which leads to so many free frames. W-211: there are at most four.
fn leaving(many: u8, ones: u8) -> u32
    requires { (many ≤ 4) × (ones ≤ 64) }
    ensures { result ≡ many * ones }
{
    u32::from(many) * u32::from(ones)
}

// The reference frame of frame k of the hop before: between links of one rate k itself, without a division. Check 7 bounds both links' frames; k is a frame of the hop before.
fn reference(k: u16, before: Hop, hop: Hop) -> u16
    requires { (k < before.frames) × (before.frames ≤ 64) × (0 < hop.frames) × (hop.frames ≤ 64) }
    ensures { result ≡ reference_into before hop k }
{
    if before.frames == hop.frames {
        return k;
    }
    forwarding::reference_frame(k, before, hop)
}

// Of each frame of the hop before, over the colours from which a colour of the hop may be
// reached: the least cell, the first lane that has it, and in how many of them schedules end.
#[derive(Drop)]
struct Near {
    cells: [u16; 64],
    lanes: [u8; 64],
    many: [u8; 64],
}

// The frames of a hop as a cycle of so many ticks: of each frame the least key that leads to it,
// and the frame before that it is of. Checks 3 and 7.
#[derive(Drop)]
struct Ring {
    frames: u16,
    cycle: Delay,
    keys: [u16; 64],
    froms: [u8; 64],
    ghost fits: { Keys cycle.0 frames keys },
}

impl Ring {
    // Frame i is offered the key of frame k of the hop before. Check 7: both are below 64.
    fn enter(&mut self, i: u16, key: u16, k: u16)
        requires { (i < 64) × (k < 64) }
        ensures { Entered i key k self.old.keys self.old.froms self.new.keys self.new.froms × (self.new.frames ≡ self.old.frames) × (self.new.cycle ≡ self.old.cycle) }
    {
        let at = i as usize;
        let kept = Choice {
            key: self.keys[at],
            place: self.froms[at],
        };
        let offered = Choice {
            key,
            place: k as u8,
        };
        let choice = sooner(kept, offered);
        self.keys[at] = choice.key;
        self.froms[at] = choice.place;
    }

    // Frame i with its key.
    fn own(&self, i: u16) -> Choice
        requires { i < 64 }
        ensures { (result.key ≡ get_or self.now.keys i 0) × (result.place ≡ i) }
    {
        Choice {
            key: self.keys[i as usize],
            place: i as u8,
        }
    }

    // The key of frame i as seen from another: where it lies after that one it is meant in the cycle before, and has a cycle more. Check 7: a frame is below 64.
    fn seen(&self, i: u16, from: u16) -> u16
        requires { (i < 64) × (get_or self.now.keys i 0 + self.now.cycle.0 ≤ 65535) }
        ensures { result ≡ get_or self.now.keys i 0 + cond (ltb from i) self.now.cycle.0 0 }
    {
        let key = self.keys[i as usize];
        if from < i { key + self.cycle.0 } else { key }
    }

    // The frame that lies o frames before frame `end`, with its key as seen from there: a frame of
    // the cycle before has a cycle more.
    fn back(&self, end: u16, o: u16) -> Choice
        requires { (end < self.now.frames) × (o < self.now.frames) }
        ensures { (result.place ≡ (end + (self.now.frames - o)) % self.now.frames) × (result.key ≡ get_or self.now.keys result.place 0 + cond (ltb end result.place) self.now.cycle.0 0) }
    {
        if o <= end {
            return self.own(end - o);
        }
        let i = end + self.frames - o;
        Choice {
            key: self.keys[i as usize] + self.cycle.0,
            place: i as u8,
        }
    }

    // The picks of the windows that end with frame `end`, of 1 to `width` frames: that of o + 1 frames at o. Checks 3, 7, 8 and 21, also of the two below.
    fn trail(&self, end: u16, width: u16, behind: &mut [u8; 64])
        requires { (end < self.now.frames) × (0 < width) × (width ≤ self.now.frames) }
        ensures { Trail self.now.cycle.0 self.now.frames self.now.keys end width behind.new }
    {
        let mut kept = self.own(end);
        behind[0] = kept.place;
        for o in 1..width {
            kept = sooner(kept, self.back(end, o));
            behind[o as usize] = kept.place;
        }
    }

    // The picks of the windows of `width` frames that end with the `span` frames from `first` on: each has a part up to `first`, whose picks `behind` has, and one from there on.
    fn block(&self, width: u16, first: u16, span: u16, behind: &[u8; 64], preds: &mut [u8; 64])
        requires { Trail self.now.cycle.0 self.now.frames self.now.keys first width behind.now × (width ≤ self.now.frames) × (0 < span) × (span ≤ width) × (first + span ≤ self.now.frames) × Windows self.now.cycle.0 self.now.frames self.now.keys width first preds.old }
        ensures { Windows self.now.cycle.0 self.now.frames self.now.keys width (first + span) preds.new }
    {
        let mut run = self.own(first);
        preds[first as usize] = behind[(width - 1) as usize];
        for j in 1..span {
            let i = first + j;
            run = sooner(self.own(i), run);
            let place = behind[(width - 1 - j) as usize];
            let far = Choice {
                key: self.seen(u16::from(place), first),
                place,
            };
            let pick = sooner(run, far);
            preds[i as usize] = pick.place;
        }
    }

    // The picks of the windows of `width` frames, each at the frame that it ends with, block by block; `behind` is lent.
    fn windows(&self, width: u16, behind: &mut [u8; 64], preds: &mut [u8; 64])
        requires { (0 < width) × (width ≤ self.now.frames) }
        ensures { Windows self.now.cycle.0 self.now.frames self.now.keys width self.now.frames preds.new }
    {
        let mut first = 0;
        // Kept: by `step_by` the search took 3 of 100 instructions more at Z 4, 23 at Z 1.
        while first < self.frames {
            let span = width.min(self.frames - first);
            self.trail(first, width, behind);
            self.block(width, first, span, behind, preds);
            first += span;
        }
    }
}

// Gathers the frames of the hop before by the frame that the least hold leads each to: the least
// key, and the smallest frame that has it. Answers how many transitions there are. `ones` has for
// each frame the free ones in the window that begins with it, `time` is the time of its frame.
fn gather(near: &Near, before: Hop, hop: Hop, time: Delay, ones: &[u8; 64], ring: &mut Ring) -> u32
    requires { Gathering before hop time.0 near.now.cells near.now.many ones.now ring.old.keys ring.old.froms }
    ensures { Gathers (first_frame before hop) time.0 hop.frames near.now.cells before.frames ring.new.keys ring.new.froms × (ring.new.frames ≡ ring.old.frames) × (ring.new.cycle ≡ ring.old.cycle) × (result ≡ leadings (first_frame before hop) near.now.many ones.now before.frames) }
{
    let frames = hop.frames;
    let least = forwarding::least_hold(hop);
    let mut count: u32 = 0;
    for k in 0..before.frames {
        let cell = near.cells[k as usize];
        let i = words::frame_on(reference(k, before, hop), least, frames);
        let wait = forwarding::delay_of(Hold(frames - i), time);
        count += leaving(near.many[k as usize], ones[i as usize]);
        ring.enter(i, cell + wait.0, k);
    }
    count
}

// The cells of a lane, each over the frame that is picked for it, whose frame before, in the
// lane chosen for that one, is the predecessor. From the key the time from the frame to the end
// of the cycle is subtracted; the time of the least hold, `lead`, is added.
fn settle(ring: &Ring, time: Delay, lead: Delay, free: u64, near: &mut Near, preds: &mut [u8; 64])
    requires { (ring.now.cycle.0 ≡ ring.now.frames * time.0) × ((w : ℕ) × Settling time.0 lead.0 ring.now.frames free w ring.now.keys ring.now.froms near.old.lanes near.old.cells preds.old) }
    ensures { (w : ℕ) → Settling time.0 lead.0 ring.now.frames free w ring.now.keys ring.now.froms near.old.lanes near.old.cells preds.old → Settled time.0 lead.0 ring.now.frames free w ring.now.keys ring.now.froms near.old.lanes ring.now.frames near.new.cells preds.new }
{
    let frames = ring.frames;
    for i in 0..frames {
        let at = i as usize;
        let frame = u16::from(preds[at]);
        let key = ring.seen(frame, i);
        let wait = forwarding::delay_of(Hold(frames - i), time);
        let cell = key + lead.0 - wait.0;
        near.cells[at] = if_free(free, i, cell.min(NEVER));
        let from = ring.froms[frame as usize];
        preds[at] = near.lanes[usize::from(from)] + from;
    }
}

// The lane of a hop in one colour, whose free word this is, in the place of the cells of the hop
// before; the places before go to `preds`. Answers the number of transitions.
fn lane(near: &mut Near, t: u16, before: Hop, hop: Hop, free: u64, preds: &mut [u8; 64]) -> u32
    requires { Lane t before hop near.old.cells near.old.many near.old.lanes preds.old }
    ensures { LaneSet t before hop free near.old.cells near.old.many near.old.lanes near.new.cells preds.new result }
{
    let frames = hop.frames;
    let time = forwarding::frame_time(t, frames);
    let cycle = forwarding::delay_of(Hold(frames), time);
    let lead = forwarding::delay_of(Hold(forwarding::least_hold(hop)), time);
    let width = forwarding::choices(hop);
    let mut lent = [0u8; 64];
    words::window_ones(free, frames, width, &mut lent);
    let keys = [EMPTY; 64];
    let froms = [0u8; 64];
    let mut ring = Ring {
        frames,
        cycle,
        keys,
        froms,
    };
    let count = gather(near, before, hop, time, &lent, &mut ring);
    ring.windows(width, &mut lent, preds);
    settle(&ring, time, lead, free, near, preds);
    count
}

// The smallest colour from which colour c of a hop may be reached.
fn low_turn(hop: Hop, c: u16) -> u16
    ensures { result ≡ low_turn hop c }
{
    c.saturating_sub(hop.turn)
}

// One above the largest such colour of the hop before. Checks 23 and 24.
fn high_turn(before: Hop, hop: Hop, c: u16) -> u16
    requires { (c < 4) × (hop.turn < 4) }
    ensures { result ≡ high_turn before hop c }
{
    before.colours.min(c + hop.turn + 1)
}

// Offers each of the frames its cell in one lane of a row.
fn near_lane(row: &[u16; 256], lane: u8, frames: u16, near: &mut Near)
    requires { (lane ≤ 192) × (frames ≤ 64) × ((k : ℕ) → k < frames → get_or near.old.many k 0 ≤ 3) }
    ensures { NearLane lane row.now frames near.old.cells near.old.lanes near.old.many near.new.cells near.new.lanes near.new.many }
{
    let first = usize::from(lane);
    for k in 0..frames {
        let at = k as usize;
        let cell = row[first + at];
        let kept = Choice {
            key: near.cells[at],
            place: near.lanes[at],
        };
        let other = Choice {
            key: cell,
            place: lane,
        };
        let choice = sooner(kept, other);
        near.cells[at] = choice.key;
        near.lanes[at] = choice.place;
        near.many[at] += one_reached(cell);
    }
}

// For colour c of a hop, the frames of the hop before: `near` begins with no colour.
fn near_row(row: &[u16; 256], before: Hop, hop: Hop, c: u16, near: &mut Near)
    requires { (before.frames ≤ 64) × (before.colours ≤ 4) × (c < 4) × (hop.turn < 4) × NearRow before.colours (low_turn hop c) 0 row.now before.frames near.old.cells near.old.lanes near.old.many }
    ensures { NearRow before.colours (low_turn hop c) (near_span before hop c) row.now before.frames near.new.cells near.new.lanes near.new.many }
{
    let frames = before.frames;
    let high = high_turn(before, hop, c);
    let low = low_turn(hop, c);
    for d in low..high {
        near_lane(row, (64 * d) as u8, frames, near);
    }
}

// Puts the cells of a lane and the places before into the row and the predecessors, as colour c.
// All 64 are put, so that they are copied at once; those past K are not read.
fn put_lane(
    cells: &[u16; 64],
    froms: &[u8; 64],
    c: u16,
    next: &mut [u16; 256],
    preds: &mut [u8; 256],
)
    requires { (c < 4) }
    ensures { LanePut c cells.now froms.now next.old preds.old next.new preds.new }
{
    let first = 64 * c as usize;
    next[first..first + 64].copy_from_slice(cells);
    preds[first..first + 64].copy_from_slice(froms);
}

// Enters a hop in colour c: its lane and the places before. Answers the number of transitions
// into this colour and the colours before it, `count` being that of those.
fn colour(
    row: &[u16; 256],
    t: u16,
    before: Hop,
    hop: Hop,
    c: u16,
    count: u32,
    next: &mut [u16; 256],
    preds: &mut [u8; 256],
) -> u32
    requires { Colouring t before hop c row.now next.old preds.old count }
    ensures { Coloured t before hop (c + 1) (by_node before row.now) next.new preds.new result }
{
    let cells = [NEVER; 64];
    let lanes = [0u8; 64];
    let many = [0u8; 64];
    let mut near = Near { cells, lanes, many };
    near_row(row, before, hop, c, &mut near);
    let mut froms = [0u8; 64];
    let free = hop.free;
    let more = lane(&mut near, t, before, hop, free[c as usize], &mut froms);
    put_lane(&near.cells, &froms, c, next, preds);
    count + more
}

// Enters a hop colour by colour: its row, and the places before. Answers the number of
// transitions. Kept: with t and both hops in one struct, by value or lent, the search took 3 to 4
// of 100 instructions more.
fn advance(
    row: &[u16; 256],
    t: u16,
    before: Hop,
    hop: Hop,
    next: &mut [u16; 256],
    preds: &mut [u8; 256],
) -> u32
    requires { Entering t before hop row.now preds.old }
    ensures { Coloured t before hop hop.colours (by_node before row.now) next.new preds.new result }
{
    let mut count: u32 = 0;
    for c in 0..hop.colours {
        count = colour(row, t, before, hop, c, count, next, preds);
    }
    count
}

// Copies the lanes of a row to another row.
fn keep(next: &[u16; 256], colours: u16, row: &mut [u16; 256])
    requires { (colours ≤ 4) }
    ensures { Kept next.now (64 * colours) row.new }
{
    let end = 64 * colours as usize;
    row[..end].copy_from_slice(&next[..end]);
}

// The lane of hop 0 in colour c, whose free word this is: a free frame has delay 0.
fn first_lane(free: u64, frames: u16, c: u16, cells: &mut [u16; 256])
    requires { (frames ≤ 64) × (c < 4) }
    ensures { FirstLane free c frames cells.old cells.new }
{
    let first = 64 * c as usize;
    for i in 0..frames {
        cells[first + i as usize] = if_free(free, i, 0);
    }
}

// The row of hop 0. Checks 7 and 23: at most 64 frames in at most 4 colours.
fn first_row(hop: Hop, cells: &mut [u16; 256])
    requires { (hop.frames ≤ 64) × (hop.colours ≤ 4) }
    ensures { FirstRow hop.free hop.frames hop.colours cells.new }
{
    let frames = hop.frames;
    let free = hop.free;
    for c in 0..hop.colours {
        first_lane(free[c as usize], frames, c, cells);
    }
}

// The rows of the hops, from a first row that is handed over; the places before go to `preds`.
// Answers the transitions considered.
fn sweep(t: u16, hops: &[Hop], row: &mut [u16; 256], preds: &mut [[u8; 256]; 7]) -> u32
    requires { (0 < length hops.now) × Sweeps t hops.now (length hops.now - 1) row.old preds.old }
    ensures { Swept t hops.now row.old (length hops.now - 1) row.new preds.new result }
{
    let mut next = [NEVER; 256];
    let mut count: u32 = 0;
    for j in 0..hops.len() - 1 {
        let hop = hops[j + 1];
        count += advance(row, t, hops[j], hop, &mut next, &mut preds[j]);
        keep(&next, hop.colours, row);
    }
    count
}

// The least cell of the frames of a lane, and the smallest frame that has it.
fn best_frame(lane: &[u16]) -> Choice
    requires { length lane.now ≤ 64 }
    ensures { (way_of result.key 0 result.place ≡ best_of (end_offers lane.now) (length lane.now)) × (result.place < 64) }
{
    let mut end = Choice {
        key: NEVER,
        place: 0,
    };
    for (f, cell) in lane.iter().enumerate() {
        let choice = Choice {
            key: *cell,
            place: f as u8,
        };
        end = sooner(end, choice);
    }
    end
}

// The end kept so far, unless the cell of the other is smaller, or the same with a smaller frame.
// The other has the larger colour.
fn sooner_end(kept: Choice, other: Choice) -> Choice
    ensures { (result.key ≡ cond (end_sooner kept.key kept.place other.key other.place) other.key kept.key) × (result.place ≡ cond (end_sooner kept.key kept.place other.key other.place) other.place kept.place) }
{
    if (other.key, other.place % 64) < (kept.key, kept.place % 64) {
        other
    } else {
        kept
    }
}

// The end of the best schedule: the least cell of the last hop, then the smallest frame that has
// it, then the smallest colour; none where no schedule leads to the last hop. Checks 7 and 23.
fn best_end(row: &[u16; 256], frames: u16, colours: u16) -> Option<Choice>
    requires { (frames ≤ 64) × (colours ≤ 4) }
    ensures { EndFound row.now frames colours result }
{
    let mut end = Choice {
        key: NEVER,
        place: 0,
    };
    for c in 0..colours {
        let first = 64 * c as usize;
        let best = best_frame(&row[first..first + frames as usize]);
        let other = Choice {
            key: best.key,
            place: (64 * c) as u8 + best.place,
        };
        end = sooner_end(end, other);
    }
    if end.key < NEVER { Some(end) } else { None }
}

// The places of hops j to 0, from place p of hop j back over the stored predecessors.
// Check 12: j is below 8. Form: the frames are recovered from the last hop back to the first by
// recursion, the hop number falling at each call.
fn recover(preds: &[[u8; 256]; 7], j: usize, p: u8, out: &mut [u8; 8])
    requires { (j < 8) × ChainFits preds.now j p }
    ensures { out.new ≡ reverse (chain_of preds.now j p) ++ drop (j + 1) out.old }
{
    out[j] = p;
    if j == 0 {
        return;
    }
    recover(preds, j - 1, preds[j - 1][usize::from(p)], out)
}

// The schedule with this delay and the frame and the colour at each of these places; unused ones
// hold 0. Check 12.
fn apart(delay: Delay, places: &[u8]) -> Schedule
    requires { length places.now ≤ 8 }
    ensures { (result.delay ≡ delay) × Parts (length places.now) places.now result.frames result.colours }
{
    let mut frames = [0u8; 8];
    let mut colours = [0u8; 8];
    for (j, place) in places.iter().enumerate() {
        frames[j] = *place % 64;
        colours[j] = *place / 64;
    }
    Schedule {
        delay,
        frames,
        colours,
    }
}

// The least-delay schedule over the hops, for a cycle of t ticks. Checks 3, 7, 8, 21, 23, 24 and 12
// guarantee what is required. Form: the search counts as it goes.
pub fn search(t: u16, hops: &[Hop]) -> Finding
    requires { Ready t hops.now (length hops.now) }
    ensures { Finds t hops.now (length hops.now) result }
{
    let last = hops.len() - 1;
    let start = hops[0];
    let mut row = [NEVER; 256];
    first_row(start, &mut row);
    let mut preds = [[0u8; 256]; 7];
    let count = sweep(t, hops, &mut row, &mut preds);
    let hop = hops[last];
    let Some(end) = best_end(&row, hop.frames, hop.colours) else {
        return Finding {
            schedule: None,
            count,
        };
    };
    let mut places = [0u8; 8];
    recover(&preds, last, end.place, &mut places);
    let schedule = Some(apart(Delay(end.key), &places[..hops.len()]));
    Finding { schedule, count }
}
