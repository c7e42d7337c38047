// The network file of document 01, with the least hold of W-206 in each link record: read and written.
#![tactic(auto)]

ghost use Rattle.std.specs.Prelude.{◌≡◌, [], ◌++◌, ◌+◌, ◌<◌, ◌≤◌, length, get_or, drop};
ghost use Rattle.places.specs.Places.{firsts};
ghost use Rattle.places.specs.Put.{put_at};
ghost use Rattle.network.specs.Network.{no_link, topology_of};
ghost use Rattle.network_file.specs.Fields.{link_layout, values_of, link_of};
ghost use Rattle.network_file.specs.Reading.{read_link, read_links, read_network, link_read, Reads, within};
ghost use Rattle.network_file.specs.Lent.{Writes};
ghost use Rattle.network_file.specs.Writing.{link_bytes, links_bytes, image_of, write_network};

use network::{Link, Network};
use records::{Field, Layout};
use refusals::Refusal;

// The number of fields of a link record.
const FIELDS: usize = 4;

// The layout of a link record: K, Z, closed frames, Y.
fn link_layout() -> Layout<FIELDS>
    ensures { result.fields ≡ link_layout }
{
    Layout {
        fields: [
            Field {
                bit: 0,
                size: 1,
                absent: 16,
            },
            Field {
                bit: 1,
                size: 1,
                absent: 4,
            },
            Field {
                bit: 2,
                size: 8,
                absent: 0,
            },
            Field {
                bit: 3,
                size: 1,
                absent: 1,
            },
        ],
    }
}

// The values of a link's fields, in the order of the layout.
fn values_of(link: Link) -> [u64; FIELDS]
    ensures { result ≡ values_of link }
{
    [
        u64::from(link.frames),
        u64::from(link.range),
        link.closed,
        u64::from(link.least),
    ]
}

// The link of a record's values. K, Z and Y are read from a byte each.
fn link_of(values: [u64; FIELDS]) -> Link
    requires { (get_or values 0 0 < 256) × (get_or values 1 0 < 256) × (get_or values 3 0 < 256) }
    ensures { result ≡ link_of values }
{
    Link {
        frames: values[0] as u16,
        range: values[1] as u16,
        least: values[3] as u16,
        closed: values[2],
    }
}

// The link record that starts `rest`, with the checks of its values. The form asked for: "The record reader is handed the file's remaining part and
// answers fields and length used".
pub fn read_link(ticks: u16, rest: &[u8]) -> Result<(Link, usize), Refusal>
    ensures { link_read result ≡ read_link ticks rest.now }
{
    let record = link_layout().read_record(rest)?;
    let link = link_of(record.values);
    network::check_link(ticks, link)?;
    Ok((link, record.used))
}

// The places of a network without links.
fn no_links() -> [Link; 32]
    ensures { result ≡ firsts 32 [] no_link }
{
    [network::no_link(); 32]
}

// The links of a file, from its records on, which are to fill it. Check 2 guarantees what it requires.
fn read_links(records: &[u8], ticks: u16, count: usize) -> Result<Network, Refusal>
    requires { count ≤ 32 }
    ensures { Reads (within ticks (read_links ticks count records.now)) result }
{
    let mut links = no_links();
    let mut at = 0;
    for i in 0..count {
        let (link, used) = read_link(ticks, &records[at..])?;
        links[i] = link;
        at += used;
    }
    if at < records.len() {
        return Err(Refusal::BytesFollow);
    }
    Ok(Network {
        ticks,
        count,
        links,
    })
}

// The network that a file says, or the refusal.
pub fn read_network(file: &[u8]) -> Result<Network, Refusal>
    ensures { Reads (read_network file.now) result }
{
    if file.len() < 3 {
        return Err(Refusal::ShortFile);
    }
    let count = usize::from(file[2]);
    if network::bad_count(count) {
        return Err(Refusal::LinkCount);
    }
    let ticks = numbers::read_number(file, 2) as u16;
    if network::bad_cycle(ticks) {
        return Err(Refusal::CycleLength);
    }
    read_links(&file[3..], ticks, count)
}

// The length of a link's record.
fn link_length(link: Link) -> usize
    ensures { (result ≡ length (link_bytes link)) × (result ≤ 65) }
{
    link_layout().record_length(&values_of(link))
}

// The length of the records of some links. Check 2 guarantees what it requires.
fn links_length(links: &[Link]) -> usize
    requires { length links.now ≤ 32 }
    ensures { (result ≡ length (links_bytes links.now)) × (result ≤ 2080) }
{
    links.iter().map(|link| link_length(*link)).sum()
}

// A link's record at the start of `rest`, and its length. The form asked for: "Each link record is written by a function lent the rest of the image
// buffer".
fn write_link(rest: &mut [u8], link: Link) -> usize
    requires { length (link_bytes link) ≤ length rest.old }
    ensures { (result ≡ length (link_bytes link)) × (rest.new ≡ link_bytes link ++ drop result rest.old) }
{
    link_layout().write_record(rest, &values_of(link))
}

// The records of some links, from place 3 of a buffer on.
fn write_links(buffer: &mut [u8], links: &[Link])
    requires { 3 + length (links_bytes links.now) ≤ length buffer.old }
    ensures { buffer.new ≡ put_at 3 (links_bytes links.now) buffer.old }
{
    let mut at = 3;
    for link in links {
        at += write_link(&mut buffer[at..], *link);
    }
}

// A network's file at the start of a buffer, and its length. A refused call leaves the buffer as it is. A buffer of 387 bytes serves for every
// network (`image_bound`).
pub fn write_network(network: Network, buffer: &mut [u8]) -> Result<usize, Refusal>
    ensures { Writes (write_network (topology_of network) (length buffer.old)) buffer.old buffer.new result }
{
    network::check_network(network)?;
    let places = network.links;
    let links = &places[..network.count];
    let length = 3 + links_length(links);
    if buffer.len() < length {
        return Err(Refusal::ShortBuffer);
    }
    numbers::write_number(buffer, 2, u64::from(network.ticks));
    buffer[2] = network.count as u8;
    write_links(buffer, links);
    Ok(length)
}
