// The network of document 01 as values, with the least holds of W-206, and the checks that it meets: 2, 3, then for each link 7, 8, 21 and 9 before the next.
#![tactic(auto)]

ghost use Rattle.std.specs.Prelude.{◌≡◌, ◌≤◌};
ghost use Rattle.places.specs.Places.{firsts};
ghost use Rattle.refusals.specs.Refusals.{ruling};
ghost use Rattle.network.specs.Network.{no_link, topology_of};
ghost use Rattle.network.specs.Checks.{bad_count, bad_cycle, bad_frames, bad_range, bad_least, bad_closed, link_check, links_check, network_check};

use refusals::Refusal;

// A link ("Network"): K, Z, its least hold Y (W-206) and the word of its closed frames.
#[derive(Clone, Copy, PartialEq, Eq)]
pub struct Link {
    pub frames: u16,
    pub range: u16,
    pub least: u16,
    pub closed: u64,
}

// A network ("Network"): T, the number of links, and their places, of which as many are used.
// Kept: the number beside the places, since `check_network` refuses one above them with 2.
#[derive(Clone, Copy, PartialEq, Eq)]
pub struct Network {
    pub ticks: u16,
    pub count: usize,
    pub links: [Link; 32],
}

// What stands in a place of an array that no link stands in.
pub fn no_link() -> Link
    ensures { result ≡ no_link }
{
    Link {
        frames: 0,
        range: 0,
        least: 0,
        closed: 0,
    }
}

// Whether check 2 refuses a number of links.
pub fn bad_count(count: usize) -> bool
    ensures { result ≡ bad_count count }
{
    count == 0 || 32 < count
}

// Whether check 3 refuses a cycle.
pub fn bad_cycle(ticks: u16) -> bool
    ensures { result ≡ bad_cycle ticks }
{
    ticks == 0 || 960 < ticks
}

// Whether check 7 refuses a number of frames.
fn bad_frames(ticks: u16, frames: u16) -> bool
    ensures { result ≡ bad_frames ticks frames }
{
    if frames == 0 {
        return true;
    }
    64 < frames || ticks % frames != 0
}

// Whether check 8 refuses a forwarding range.
fn bad_range(frames: u16, range: u16) -> bool
    ensures { result ≡ bad_range frames range }
{
    range == 0 || frames < range
}

// Whether check 21 refuses a least hold.
fn bad_least(frames: u16, range: u16, least: u16) -> bool
    ensures { result ≡ bad_least frames range least }
{
    range < least || (least == 0 && range == frames)
}

// Whether check 9 refuses the word of closed frames. Check 7 guarantees what it requires.
fn bad_closed(frames: u16, closed: u64) -> bool
    requires { frames ≤ 64 }
    ensures { result ≡ bad_closed frames closed }
{
    frames < 64 && closed >> frames != 0
}

// The checks of a link, 7, 8, 21 and 9, on reading, on writing and on a network given as values.
pub fn check_link(ticks: u16, link: Link) -> Result<(), Refusal>
    ensures { ruling result ≡ link_check ticks link }
{
    if bad_frames(ticks, link.frames) {
        return Err(Refusal::FrameCount);
    }
    if bad_range(link.frames, link.range) {
        return Err(Refusal::RangeOutside);
    }
    if bad_least(link.frames, link.range, link.least) {
        return Err(Refusal::LeastOutside);
    }
    if bad_closed(link.frames, link.closed) {
        return Err(Refusal::ClosedOutside);
    }
    Ok(())
}

// The checks of some links, one link after the other.
fn check_links(ticks: u16, links: &[Link]) -> Result<(), Refusal>
    ensures { ruling result ≡ links_check ticks links.now }
{
    for link in links {
        check_link(ticks, *link)?;
    }
    Ok(())
}

// The checks of a network given as values.
pub fn check_network(network: Network) -> Result<(), Refusal>
    ensures { ruling result ≡ network_check (topology_of network) }
{
    if bad_count(network.count) {
        return Err(Refusal::LinkCount);
    }
    if bad_cycle(network.ticks) {
        return Err(Refusal::CycleLength);
    }
    let links = network.links;
    check_links(network.ticks, &links[..network.count])
}
