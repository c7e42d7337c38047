// The functions for callers in other languages, on numbers and slices of numbers; `exports_c` gives them to C. They stand in a crate of their own, so that the static library is built from
// what is proved already. Each answers a length or a count, or 1,000,000 and the number of the refusal; a refused call leaves every lent buffer as it is.
#![tactic(auto)]

ghost use Rattle.std.specs.Prelude.{◌≡◌, [], ◌∷◌, ◌+◌, ◌≤◌, min, length};
ghost use Rattle.places.specs.Places.{firsts};
ghost use Rattle.places.specs.Put.{put_at};
ghost use Rattle.network.specs.Network.{no_link};
ghost use Rattle.network_file.specs.Lent.{in_room, length_read, Writes};
ghost use Rattle.report.specs.Transcript.{transcript};
ghost use Rattle.report.specs.Reports.{text_bound, reported};
ghost use Rattle.exports.specs.Exported.{as_number, Exports, lookup_after, free_after, ways_after, written_again, links_from, written_of};
ghost use Rattle.exports.specs.Inner.{place_numbers};

use network::{Link, Network};
use refusals::Refusal;
use sessions::Shown;

// An answer as one number.
fn as_number(answer: Result<usize, Refusal>) -> u64
    ensures { result ≡ as_number (length_read answer) }
{
    match answer {
        Ok(n) => n as u64,
        Err(refusal) => 1000000 + u64::from(u8::from(refusal)),
    }
}

// The run of the program frames: the text's length, or 1,000,020 where the buffer is below the bound, 22 bytes and 11 for each call byte that counts.
pub fn frames_report(file: &[u8], calls: &[u8], out: &mut [u8]) -> u64
    ensures { Exports (reported file.now calls.now (length out.old)) out.old out.new result × (length (transcript file.now calls.now) ≤ text_bound (length calls.now)) }
{
    as_number(report::report(file, calls, out))
}

// The image of the network that a file says.
fn image(file: &[u8], out: &mut [u8]) -> Result<usize, Refusal>
    ensures { Writes (written_again file.now (length out.old)) out.old out.new result }
{
    let network = network_file::read_network(file)?;
    network_file::write_network(network, out)
}

// A network file read, and the network written again: the image's length, or the refusal.
pub fn frames_image(file: &[u8], out: &mut [u8]) -> u64
    ensures { Exports (written_again file.now (length out.old)) out.old out.new result }
{
    as_number(image(file, out))
}

// Places as numbers of 16 bits, from a place of a buffer on.
fn put_places(out: &mut [u16], at: usize, places: &[u8])
    requires { at + length places.now ≤ length out.old }
    ensures { out.new ≡ put_at at places.now out.old }
{
    for (i, place) in places.iter().enumerate() {
        out[at + i] = u16::from(*place);
    }
}

// What a lookup shows, at the start of a buffer: how many numbers, or 20 where the buffer is shorter.
fn put_session(out: &mut [u16], shown: Shown) -> Result<usize, Refusal>
    requires { shown.hops ≤ 8 }
    ensures { Writes (in_room (length (place_numbers shown)) (length out.old) (place_numbers shown)) out.old out.new result }
{
    let hops = shown.hops;
    let held = shown.held;
    let length = 2 + 3 * hops;
    if out.len() < length {
        return Err(Refusal::ShortBuffer);
    }
    out[0] = hops as u16;
    out[1] = held.delay.0;
    put_places(out, 2, &shown.route[..hops]);
    put_places(out, 2 + hops, &held.frames[..hops]);
    put_places(out, 2 + 2 * hops, &held.cycles[..hops]);
    Ok(length)
}

// What a lookup shows on the state after call records, from the network that a file says. Here and in the two functions like it the state goes from one call
// into the other: in a Result of a function between them it would be copied.
fn lookup(file: &[u8], calls: &[u8], number: u32, out: &mut [u16]) -> Result<usize, Refusal>
    ensures { Writes (lookup_after file.now calls.now number (length out.old)) out.old out.new result }
{
    let network = network_file::read_network(file)?;
    let looked = sessions::lookup(replay::state_after(network, calls), number);
    put_session(out, looked.answer?)
}

// Lookup on the state after call records: how many hops the live session with the number has, its delay, and the link, the frame and the cycle of each hop.
pub fn frames_lookup(file: &[u8], calls: &[u8], number: u32, out: &mut [u16]) -> u64
    ensures { Exports (lookup_after file.now calls.now number (length out.old)) out.old out.new result }
{
    as_number(lookup(file, calls, number, out))
}

// The number of free frames of a link on that state.
fn free_frames(file: &[u8], calls: &[u8], link: u8) -> Result<usize, Refusal>
    ensures { length_read result ≡ free_after file.now calls.now link }
{
    let network = network_file::read_network(file)?;
    let counted = sessions::free_frames(replay::state_after(network, calls), link);
    Ok(counted.answer? as usize)
}

// Free frames of a link on the state after call records.
pub fn frames_free_frames(file: &[u8], calls: &[u8], link: u8) -> u64
    ensures { result ≡ as_number (free_after file.now calls.now link) }
{
    as_number(free_frames(file, calls, link))
}

// A number at the start of a buffer: how many it is, 1, or 20 where the buffer has no place.
fn put_number(out: &mut [u64], number: u64) -> Result<usize, Refusal>
    ensures { Writes (in_room 1 (length out.old) (number ∷ [])) out.old out.new result }
{
    if out.is_empty() {
        return Err(Refusal::ShortBuffer);
    }
    out[0] = number;
    Ok(1)
}

// The number of ways through a route on that state.
fn ways(file: &[u8], calls: &[u8], route: &[u8], out: &mut [u64]) -> Result<usize, Refusal>
    ensures { Writes (ways_after file.now calls.now route.now (length out.old)) out.old out.new result }
{
    let network = network_file::read_network(file)?;
    let numbered = sessions::number_of_ways(replay::state_after(network, calls), route);
    put_number(out, numbered.answer?)
}

// The number of ways through a route, given as its link numbers, on the state after call records. It is put into a buffer, since it can be larger than an answer that is a refusal.
pub fn frames_ways(file: &[u8], calls: &[u8], route: &[u8], out: &mut [u64]) -> u64
    ensures { Exports (ways_after file.now calls.now route.now (length out.old)) out.old out.new result }
{
    as_number(ways(file, calls, route, out))
}

// The links of a network given as values.
fn links_of(
    frames: &[u16],
    range: &[u16],
    closed: &[u64],
    least: &[u16],
    count: usize,
) -> [Link; 32]
    requires { (count ≤ 32) × (count ≡ min (length frames.now) (min (length range.now) (min (length closed.now) (length least.now)))) }
    ensures { result ≡ firsts 32 (links_from frames.now range.now closed.now least.now) no_link }
{
    let mut links = [network::no_link(); 32];
    for i in 0..count {
        links[i] = Link {
            frames: frames[i],
            range: range[i],
            least: least[i],
            closed: closed[i],
        };
    }
    links
}

// The file of a network given as values.
fn write(
    ticks: u16,
    frames: &[u16],
    range: &[u16],
    closed: &[u64],
    least: &[u16],
    out: &mut [u8],
) -> Result<usize, Refusal>
    ensures { Writes (written_of ticks frames.now range.now closed.now least.now (length out.old)) out.old out.new result }
{
    let count = frames
        .len()
        .min(range.len().min(closed.len().min(least.len())));
    if 32 < count {
        return Err(Refusal::LinkCount);
    }
    let links = links_of(frames, range, closed, least, count);
    let network = Network {
        ticks,
        count,
        links,
    };
    network_file::write_network(network, out)
}

// The file of a network given as values: T, and for each link its K, its Z, the word of its closed frames and its Y. There are as many links as the shortest slice has numbers.
pub fn frames_write(
    ticks: u16,
    frames: &[u16],
    range: &[u16],
    closed: &[u64],
    least: &[u16],
    out: &mut [u8],
) -> u64
    ensures { Exports (written_of ticks frames.now range.now closed.now least.now (length out.old)) out.old out.new result }
{
    as_number(write(ticks, frames, range, closed, least, out))
}
