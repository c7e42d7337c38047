// Files that are read, and what was read written back.
use super::{image, lines};
use network::{Link, Network};
use std::io;

// K, Z, closed frames and Y of each link, with a stroke between two.
fn show_links(rt: &HostRuntime, links: &[Link]) -> io::Result<()> {
    for (i, link) in links.iter().enumerate() {
        let before = if i == 0 { "links" } else { "/" };
        print!(rt;
            " {before} {} {} {} {}",
            link.frames, link.range, link.closed, link.least
        )?;
    }
    Ok(())
}

// What was read, and whether writing it makes the file again.
fn show_network(rt: &HostRuntime, network: Network, file: &[u8]) -> io::Result<()> {
    print!(rt; " ok T {}", network.ticks)?;
    show_links(rt, &network.links[..network.count.min(32)])?;
    print!(rt; ", written back ")?;
    let mut buffer = [image::FILL; image::ROOM];
    match network_file::write_network(network, &mut buffer) {
        Ok(length) if length == file.len() => image::compare(rt, &buffer, 0, file),
        _ => print!(rt; "changed"),
    }
}

// A file whose bytes are written in text, three characters for each.
pub(super) fn read(rt: &HostRuntime, text: &[u8]) -> io::Result<()> {
    let n = text.len() / 3 % (lines::MOST + 1);
    let bytes = lines::bytes(text);
    let file = &bytes[..n];
    match network_file::read_network(file) {
        Ok(network) => show_network(rt, network, file),
        Err(refusal) => print!(rt; " no {refusal}"),
    }
}
