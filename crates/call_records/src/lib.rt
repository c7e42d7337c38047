// Call records (document 01, "The program frames", and W-205 of document 02): the calls that some call bytes say, one after the other.
#![tactic(auto)]

ghost use Rattle.std.specs.Prelude.{◌≡◌, ◌≤◌, min};
ghost use Rattle.std.specs.Iterator.{YieldsFirstBy, item_count};
ghost use Rattle.refusals.specs.Refusals.{answered};
ghost use Rattle.call_records.specs.Records.{set_up_said, quote_said, release_said, first_call, calls_in};
ghost use Rattle.call_records.specs.Reading.{call_of, Reads};
ghost use Rattle.call_records.specs.Inner.{told, Numbered, Routed};

use refusals::Refusal;

// A call, with its session's number and its route.
// The form asked for: "The call reader returns a part of the caller's slice as the route, without a copy".
#[derive(Clone, Copy)]
pub enum Call<'a> {
    SetUp(u32, &'a [u8]),
    Quote(&'a [u8]),
    Release(u32),
}

// What a record says, and the bytes after it.
#[derive(Clone, Copy)]
pub struct Record<'a> {
    pub call: Call<'a>,
    pub rest: &'a [u8],
}

// The calls of some bytes, in their order; the last is refusal 11 where a record can't be read.
#[derive(Drop)]
pub struct Calls<'a>(pub &'a [u8]);

impl<'a> Iterator for Calls<'a> {
    type Item = Result<Call<'a>, Refusal>;

    ghost next_gives = { YieldsFirstBy (answered call_of) (λ s. calls_in s.0.now) };

    ghost remaining = { item_count (λ s. calls_in s.0.now) };

    fn next(&mut self) -> Option<Result<Call<'a>, Refusal>> {
        if self.0.is_empty() {
            return None;
        }
        match read_record(self.0) {
            Ok(Record { call, rest }) => {
                self.0 = rest;
                Some(Ok(call))
            }
            Err(refusal) => {
                self.0 = &[];
                Some(Err(refusal))
            }
        }
    }
}

// How many of so many call bytes count: the first 65,536.
pub fn counted(n: usize) -> usize
    ensures { result ≡ min n 65536 }
{
    n.min(65536)
}

// A session's number in so many bytes, and the bytes after it.
fn split_number(bytes: &[u8], width: usize) -> Option<(u32, &[u8])>
    requires { width ≤ 4 }
    ensures { Numbered width bytes.now result }
{
    let (_, after) = bytes.split_at_checked(width)?;
    let number = numbers::read_number(bytes, width) as u32;
    Some((number, after))
}

// A route after its length, and the bytes after it.
fn split_route(bytes: &[u8]) -> Option<(&[u8], &[u8])>
    ensures { Routed bytes.now result }
{
    let (links, after) = bytes.split_first()?;
    after.split_at_checked(usize::from(*links))
}

// A set-up, from its number on.
fn read_set_up(bytes: &[u8], width: usize) -> Option<Record<'_>>
    requires { width ≤ 4 }
    ensures { told result ≡ set_up_said width bytes.now }
{
    let (number, after) = split_number(bytes, width)?;
    let (route, rest) = split_route(after)?;
    Some(Record {
        call: Call::SetUp(number, route),
        rest,
    })
}

// A quote, from its route's length on.
fn read_quote(bytes: &[u8]) -> Option<Record<'_>>
    ensures { told result ≡ quote_said bytes.now }
{
    let (route, rest) = split_route(bytes)?;
    Some(Record {
        call: Call::Quote(route),
        rest,
    })
}

// A release, from its number on.
fn read_release(bytes: &[u8], width: usize) -> Option<Record<'_>>
    requires { width ≤ 4 }
    ensures { told result ≡ release_said width bytes.now }
{
    let (number, rest) = split_number(bytes, width)?;
    Some(Record {
        call: Call::Release(number),
        rest,
    })
}

// The record at the start of `bytes`, by its kind.
fn read_call(bytes: &[u8]) -> Option<Record<'_>>
    ensures { told result ≡ first_call bytes.now }
{
    let (kind, rest) = bytes.split_first()?;
    match *kind {
        1 => read_set_up(rest, 2),
        2 => read_quote(rest),
        3 => read_release(rest, 2),
        4 => read_set_up(rest, 4),
        5 => read_release(rest, 4),
        _ => None,
    }
}

// The record at the start of `bytes`, or refusal 11.
pub fn read_record(bytes: &[u8]) -> Result<Record<'_>, Refusal>
    ensures { Reads bytes.now result }
{
    read_call(bytes).ok_or(Refusal::UnreadableCall)
}
