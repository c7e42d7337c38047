// The buffer that images are written to. It is filled with one byte first, so that a changed byte shows.
use std::io;

// More than the 387 bytes of the longest image.
pub(super) const ROOM: usize = 400;

pub(super) const FILL: u8 = 165;

// Shows whether the buffer, from a place on, is as a file stands in it: the file's bytes, and then what the buffer was filled with.
pub(super) fn compare(
    rt: &HostRuntime,
    buffer: &[u8; ROOM],
    from: usize,
    file: &[u8],
) -> io::Result<()> {
    let mut places = buffer.iter().enumerate().skip(from);
    if places.all(|(i, byte)| byte == file.get(i).unwrap_or(&FILL)) {
        print!(rt; "same")
    } else {
        print!(rt; "changed")
    }
}
