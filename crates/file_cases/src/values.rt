// Networks given as values: what the checks say, and what the writer says and does.
ghost use Rattle.std.specs.Prelude.{◌≤◌};

use super::{image, lines};
use network::{Link, Network};
use refusals::Refusal;
use std::io;

// The first bytes of an image that are shown.
const SHOWN: usize = 16;

// A number of 16 bits at a place.
fn short(text: &[u8], place: usize) -> u16 {
    (lines::number(text, place) % 65536) as u16
}

// The link whose K, Z and closed frames are the numbers from a place on.
fn link(text: &[u8], place: usize, least: u16) -> Link
    requires { place ≤ 7 }
{
    Link {
        frames: short(text, place),
        range: short(text, place + 1),
        least,
        closed: lines::number(text, place + 2),
    }
}

// The image's length, and its bytes up to the first ones.
fn show_bytes(rt: &HostRuntime, buffer: &[u8; image::ROOM], length: usize) -> io::Result<()> {
    print!(rt; " ok {length}:")?;
    for byte in buffer.iter().take(length).take(SHOWN) {
        print!(rt; " {byte:02x}")?;
    }
    if SHOWN <= length {
        print!(rt; " ..")?;
    }
    Ok(())
}

// What the writer says, and whether it left the rest of the buffer, or after a refusal all of it, as it was.
fn show_written(
    rt: &HostRuntime,
    buffer: &[u8; image::ROOM],
    written: Result<usize, Refusal>,
) -> io::Result<()> {
    let from = match written {
        Ok(length) => {
            show_bytes(rt, buffer, length)?;
            print!(rt; ", rest ")?;
            length
        }
        Err(refusal) => {
            print!(rt; " no {refusal}, buffer ")?;
            0
        }
    };
    image::compare(rt, buffer, from, b"")
}

// A network, and how many of the buffer's first bytes are lent to the writer.
fn check_and_write(rt: &HostRuntime, network: Network, room: usize) -> io::Result<()>
    requires { room ≤ 400 }
{
    match network::check_network(network) {
        Ok(()) => print!(rt; " check passed, write")?,
        Err(refusal) => print!(rt; " check no {refusal}, write")?,
    }
    let mut buffer = [image::FILL; image::ROOM];
    let written = network_file::write_network(network, &mut buffer[..room]);
    show_written(rt, &buffer, written)
}

// A network whose values are written in text, with these Y of link 0 and of every other link.
fn given(rt: &HostRuntime, text: &[u8], first: u16, others: u16) -> io::Result<()> {
    let mut links = [link(text, 7, others); 32];
    links[0] = link(text, 4, first);
    let network = Network {
        ticks: short(text, 1),
        count: lines::number(text, 2) as usize,
        links,
    };
    check_and_write(rt, network, (lines::number(text, 3) % 401) as usize)
}

// One whose every Y is 1.
pub(super) fn value(rt: &HostRuntime, text: &[u8]) -> io::Result<()> {
    given(rt, text, 1, 1)
}

// One whose Y are written in text, after the other values.
pub(super) fn least(rt: &HostRuntime, text: &[u8]) -> io::Result<()> {
    given(rt, text, short(text, 10), short(text, 11))
}
