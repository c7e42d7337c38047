// The static library: the functions of `exports` under their names for C. Each calls its own and states the same.
#![tactic(auto)]

ghost use Rattle.std.specs.Prelude.{◌≡◌, ◌≤◌, length};
ghost use Rattle.report.specs.Transcript.{transcript};
ghost use Rattle.report.specs.Reports.{text_bound, reported};
ghost use Rattle.exports.specs.Exported.{as_number, Exports, lookup_after, free_after, ways_after, written_again, written_of};

#[unsafe(no_mangle)]
pub extern "C" fn frames_report(file: &[u8], calls: &[u8], out: &mut [u8]) -> u64
    ensures { Exports (reported file.now calls.now (length out.old)) out.old out.new result × (length (transcript file.now calls.now) ≤ text_bound (length calls.now)) }
{
    exports::frames_report(file, calls, out)
}

#[unsafe(no_mangle)]
pub extern "C" fn frames_image(file: &[u8], out: &mut [u8]) -> u64
    ensures { Exports (written_again file.now (length out.old)) out.old out.new result }
{
    exports::frames_image(file, out)
}

#[unsafe(no_mangle)]
pub extern "C" fn frames_lookup(file: &[u8], calls: &[u8], number: u32, out: &mut [u16]) -> u64
    ensures { Exports (lookup_after file.now calls.now number (length out.old)) out.old out.new result }
{
    exports::frames_lookup(file, calls, number, out)
}

#[unsafe(no_mangle)]
pub extern "C" fn frames_free_frames(file: &[u8], calls: &[u8], link: u8) -> u64
    ensures { result ≡ as_number (free_after file.now calls.now link) }
{
    exports::frames_free_frames(file, calls, link)
}

#[unsafe(no_mangle)]
pub extern "C" fn frames_ways(file: &[u8], calls: &[u8], route: &[u8], out: &mut [u64]) -> u64
    ensures { Exports (ways_after file.now calls.now route.now (length out.old)) out.old out.new result }
{
    exports::frames_ways(file, calls, route, out)
}

#[unsafe(no_mangle)]
pub extern "C" fn frames_write(
    ticks: u16,
    frames: &[u16],
    range: &[u16],
    closed: &[u64],
    least: &[u16],
    out: &mut [u8],
) -> u64
    ensures { Exports (written_of ticks frames.now range.now closed.now least.now (length out.old)) out.old out.new result }
{
    exports::frames_write(ticks, frames, range, closed, least, out)
}
