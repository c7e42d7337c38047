// The number of ways through a route (W-203): its schedules in the frames that are free. Processes
// hops from last to first; a row has the ways on from each frame of a hop. A frame leads to a
// window of the next hop's frames, a difference of running sums: the work does not grow with Z.
#![tactic(auto)]

ghost use Rattle.std.specs.Prelude.{◌≡◌, ℕ, ◌+◌, ◌*◌, ◌%◌, ◌<◌, ◌≤◌, get_or, length};
ghost use Rattle.lists.specs.Count.{one_if, sum_below};
ghost use Rattle.words.specs.Word.{bit_of};
ghost use Rattle.forwarding.specs.Hops.{no_hop, Ready};
ghost use Rattle.forwarding.specs.Ways.{route_ways};
ghost use Rattle.ways.specs.Inner.{free_ways, SmallRow, CycleSums, LeadsInto, RowBefore};

use forwarding::Hop;

// The ways on from frame i of a hop, none where it is not free. Check 7: a frame is below 64. Kept
// beside that of `search`: one function over both would take a value for none at each call.
fn if_free(free: u64, i: u16, ways: u64) -> u64
    requires { i < 64 }
    ensures { result ≡ one_if (bit_of free i) * ways }
{
    if words::has_bit(free, i) { ways } else { 0 }
}

// Running sums: place m has the ways on from all free frames below m, in colour 0. Check 7: a hop
// has at most 64 frames.
fn running_sums(row: &[u64; 64], hop: Hop) -> [u64; 65]
    requires { (hop.frames ≤ 64) × SmallRow hop.frames row.now }
    ensures { CycleSums (free_ways (get_or hop.free 0 0) row.now) hop.frames result }
{
    let mut sums = [0u64; 65];
    let free = hop.free[0];
    let mut sum: u64 = 0;
    for i in 0..hop.frames {
        let at = usize::from(i);
        sum += if_free(free, i, row[at]);
        sums[at + 1] = sum;
    }
    sums
}

// The sum over `count` places of a cycle from the place `first` on, by running sums. Check 7: a
// cycle has at most 64 frames.
fn window(sums: &[u64; 65], first: u16, count: u16, frames: u16) -> u64
    requires { (first < frames) × (count ≤ frames) × (frames ≤ 64) × ((f : ℕ → ℕ) × CycleSums f frames sums.now) }
    ensures { (f : ℕ → ℕ) → CycleSums f frames sums.now → result ≡ sum_below count (λ d. f ((first + d) % frames)) }
{
    let end = first + count;
    let before = sums[usize::from(first)];
    if end <= frames {
        return sums[usize::from(end)] - before;
    }
    sums[usize::from(frames)] + sums[usize::from(end - frames)] - before
}

// The row of the hop before, from the row of a hop. Callers guarantee checks 7, 8 and 21.
fn row_before(row: &[u64; 64], before: Hop, hop: Hop) -> [u64; 64]
    requires { LeadsInto before hop row.now }
    ensures { RowBefore before hop row.now before.frames result }
{
    let sums = running_sums(row, hop);
    let frames = hop.frames;
    let least = forwarding::least_hold(hop);
    let choices = forwarding::choices(hop);
    let mut ways = [0u64; 64];
    for k in 0..before.frames {
        let first = (forwarding::reference_frame(k, before, hop) + least) % frames;
        ways[usize::from(k)] = window(&sums, first, choices, frames);
    }
    ways
}

// The number of schedules over the hops, each of one colour. Callers guarantee checks 7, 8, 12 and
// 21.
pub fn number_over(hops: &[Hop]) -> u64
    requires { ((T : ℕ) × Ready T hops.now (length hops.now)) × ((j : ℕ) → j < length hops.now → (get_or hops.now j no_hop).colours ≡ 1) }
    ensures { result ≡ route_ways hops.now }
{
    let mut row = [1u64; 64];
    for j in (1..hops.len()).rev() {
        row = row_before(&row, hops[j - 1], hops[j]);
    }
    let start = hops[0];
    let sums = running_sums(&row, start);
    sums[usize::from(start.frames)]
}
