// The refusal list of document 01 with the refusals of document 02. A check answers `Ok(())`, or its refusal.
#![tactic(auto)]

ghost use Rattle.std.specs.Prelude.{◌≡◌, Some};
ghost use Rattle.refusals.specs.Refusals.{refusal_number, refusal_count, refusal_text};

use std::error::Error;
use std::fmt;

// A refusal ("Refusal list"): a variant for each number, from 0 on.
#[derive(Clone, Copy, Debug, PartialEq, Eq)]
pub enum Refusal {
    // 0. The stored state handed to a call is broken.
    BrokenState,
    // 1. The file has fewer than three bytes.
    ShortFile,
    // 2. The number of links is 0 or above 32.
    LinkCount,
    // 3. T is 0 or above 960.
    CycleLength,
    // 4. No map byte is left, or fewer bytes than its bits 0 to 3 need (W-206).
    ShortRecord,
    // 5. A map byte has a bit above bit 3 (W-206).
    StrayBit,
    // 6. A written field equals its absent value.
    AbsentWritten,
    // 7. K is 0, above 64 or no divisor of T.
    FrameCount,
    // 8. Z is 0 or above K.
    RangeOutside,
    // 9. A closed bit stands at K or above.
    ClosedOutside,
    // 10. Bytes follow the last record.
    BytesFollow,
    // 11. A call record's kind isn't 1 to 5 (W-205), or the record runs past the end.
    UnreadableCall,
    // 12. The route is empty or has over 8 links.
    RouteLength,
    // 13. A link number isn't below the number of links.
    UnknownLink,
    // 14. A link appears twice in the route.
    LinkTwice,
    // 15. Of two adjacent links neither K divides the other.
    RatesApart,
    // 16. Set-up: the number is live.
    NumberLive,
    // 17. Set-up: 96 sessions are live.
    PlacesFull,
    // 18. No schedule exists; with the count of transitions considered.
    NoSchedule(u32),
    // 19. Release or lookup: the number isn't live.
    NumberNotLive,
    // 20. Write: the buffer is shorter than what is to be written.
    ShortBuffer,
    // 21. Y is above Z, or Y is 0 and Z equals K (W-206); checked after 8.
    LeastOutside,
}

// A refusal's number.
impl From<Refusal> for u8 {
    ghost from_gives = { λ refusal n. n ≡ refusal_number refusal };

    fn from(refusal: Refusal) -> u8 {
        match refusal {
            Refusal::BrokenState => 0,
            Refusal::ShortFile => 1,
            Refusal::LinkCount => 2,
            Refusal::CycleLength => 3,
            Refusal::ShortRecord => 4,
            Refusal::StrayBit => 5,
            Refusal::AbsentWritten => 6,
            Refusal::FrameCount => 7,
            Refusal::RangeOutside => 8,
            Refusal::ClosedOutside => 9,
            Refusal::BytesFollow => 10,
            Refusal::UnreadableCall => 11,
            Refusal::RouteLength => 12,
            Refusal::UnknownLink => 13,
            Refusal::LinkTwice => 14,
            Refusal::RatesApart => 15,
            Refusal::NumberLive => 16,
            Refusal::PlacesFull => 17,
            Refusal::NoSchedule(_) => 18,
            Refusal::NumberNotLive => 19,
            Refusal::ShortBuffer => 20,
            Refusal::LeastOutside => 21,
        }
    }
}

// A refusal as a line shows it: its number, and of 18 the count ("A refusal returns its number, 18 also the count").
impl fmt::Display for Refusal {
    ghost output = { λ refusal. Some (refusal_text refusal) };

    fn fmt<W: fmt::Write>(&self, f: &mut fmt::Formatter<W>) -> fmt::Result {
        write!(f, "{}", u8::from(*self))?;
        if let Refusal::NoSchedule(count) = self {
            write!(f, " {count}")?;
        }
        Ok(())
    }
}

impl Error for Refusal {}

// A refusal's count, which only 18 has.
pub fn count(refusal: Refusal) -> u32
    ensures { result ≡ refusal_count refusal }
{
    match refusal {
        Refusal::NoSchedule(count) => count,
        _ => 0,
    }
}
