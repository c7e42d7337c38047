// The text of the program frames, put into a buffer that the caller lends: its callers know the room. Each function puts its text after what was put before,
// and leaves every other byte.
#![tactic(auto)]

ghost use Rattle.std.specs.Prelude.{◌≡◌, [], ◌∷◌, ◌++◌, ◌≤◌};
ghost use Rattle.ledger.specs.Held.{holding_of};
ghost use Rattle.ledger.specs.Calls.{schedule, freed, refusal};
ghost use Rattle.text.specs.Characters.{newline};
ghost use Rattle.text.specs.Digits.{dec, spaced, spaced_all};
ghost use Rattle.text.specs.Lines.{count_text, groups_of, groups_text, schedule_text, line_head, line, live_line, network_line};
ghost use Rattle.text.specs.Inner.{HasRoom, Adds};

use forwarding::Held;

// A text at the start of a lent buffer, and the place after it.
#[derive(Drop)]
pub struct Page<'a> {
    pub out: &'a mut [u8],
    pub at: usize,
}

impl Page<'_> {
    // One byte.
    fn put_byte(&mut self, byte: u8)
        requires { HasRoom (byte ∷ []) self.old }
        ensures { Adds (byte ∷ []) self.old self.new }
    {
        self.out[self.at] = byte;
        self.at += 1;
    }

    // Some bytes.
    fn put_bytes(&mut self, bytes: &[u8])
        requires { HasRoom bytes.now self.old }
        ensures { Adds bytes.now self.old self.new }
    {
        let end = self.at + bytes.len();
        self.out[self.at..end].copy_from_slice(bytes);
        self.at = end;
    }

    // The decimal digits of n. Kept: `write!` can fail, and these functions can't.
    fn put_decimal(&mut self, n: u32)
        requires { HasRoom (dec n) self.old }
        ensures { Adds (dec n) self.old self.new }
    {
        if n >= 10 {
            self.put_decimal(n / 10);
        }
        self.put_byte(b'0' + (n % 10) as u8);
    }

    // A space and the digits of n.
    fn put_spaced(&mut self, n: u32)
        requires { HasRoom (spaced n) self.old }
        ensures { Adds (spaced n) self.old self.new }
    {
        self.put_byte(b' ');
        self.put_decimal(n);
    }

    // Each number after a space.
    fn put_all(&mut self, ns: &[u8])
        requires { HasRoom (spaced_all ns.now) self.old }
        ensures { Adds (spaced_all ns.now) self.old self.new }
    {
        for n in ns {
            self.put_spaced(u32::from(*n));
        }
    }

    // A call's place and its letter.
    fn put_head(&mut self, place: u32, letter: u8)
        requires { HasRoom (line_head place letter) self.old }
        ensures { Adds (line_head place letter) self.old self.new }
    {
        self.put_decimal(place);
        self.put_byte(b' ');
        self.put_byte(letter);
    }

    // The groups of a schedule, its frames and its cycles, parted by a slash. Check 12: a route has at most 8 hops.
    fn put_groups(&mut self, held: Held, hops: usize)
        requires { (hops ≤ 8) × HasRoom (groups_text (groups_of (holding_of hops held))) self.old }
        ensures { Adds (groups_text (groups_of (holding_of hops held))) self.old self.new }
    {
        self.put_all(&held.frames[..hops]);
        self.put_bytes(b" /");
        self.put_all(&held.cycles[..hops]);
    }

    // Delay, count and groups of a schedule. Check 12: a route has at most 8 hops.
    fn put_schedule(&mut self, count: u32, held: Held, hops: usize)
        requires { (hops ≤ 8) × HasRoom (schedule_text (holding_of hops held) count) self.old }
        ensures { Adds (schedule_text (holding_of hops held) count) self.old self.new }
    {
        self.put_spaced(u32::from(held.delay.0));
        self.put_spaced(count);
        self.put_groups(held, hops);
    }

    // The count of a refusal, which only 18 has. Kept: its number, as at `put_refused`.
    fn put_count(&mut self, number: u8, count: u32)
        requires { HasRoom (count_text number count) self.old }
        ensures { Adds (count_text number count) self.old self.new }
    {
        let counted = number == 18;
        if counted {
            self.put_spaced(count)
        }
    }

    // The number of a refusal, and the count of 18. Kept: its number, as at `put_refused`.
    fn put_refusal(&mut self, number: u8, count: u32)
        requires { HasRoom (spaced number ++ count_text number count) self.old }
        ensures { Adds (spaced number ++ count_text number count) self.old self.new }
    {
        self.put_spaced(u32::from(number));
        self.put_count(number, count);
    }

    // A line of some words and a number.
    fn put_words(&mut self, words: &[u8], number: u32)
        requires { HasRoom (words.now ++ (spaced number ++ (newline ∷ []))) self.old }
        ensures { Adds (words.now ++ (spaced number ++ (newline ∷ []))) self.old self.new }
    {
        self.put_bytes(words);
        self.put_spaced(number);
        self.put_byte(b'\n');
    }

    // The line of a call that was answered by a schedule. Check 12: a route has at most 8 hops.
    pub fn put_scheduled(&mut self, place: u32, letter: u8, count: u32, held: Held, hops: usize)
        requires { (hops ≤ 8) × HasRoom (line place letter (schedule (holding_of hops held) count)) self.old }
        ensures { Adds (line place letter (schedule (holding_of hops held) count)) self.old self.new }
    {
        self.put_head(place, letter);
        self.put_bytes(b" ok");
        self.put_schedule(count, held, hops);
        self.put_byte(b'\n');
    }

    // The line of a release that wasn't refused.
    pub fn put_freed(&mut self, place: u32, letter: u8)
        requires { HasRoom (line place letter freed) self.old }
        ensures { Adds (line place letter freed) self.old self.new }
    {
        self.put_head(place, letter);
        self.put_bytes(b" ok\n");
    }

    // The line of a call that was refused.
    // Kept: a number and a count, since a `Refusal` would ask more of callers.
    pub fn put_refused(&mut self, place: u32, letter: u8, number: u8, count: u32)
        requires { HasRoom (line place letter (refusal number count)) self.old }
        ensures { Adds (line place letter (refusal number count)) self.old self.new }
    {
        self.put_head(place, letter);
        self.put_bytes(b" no");
        self.put_refusal(number, count);
        self.put_byte(b'\n');
    }

    // The last line.
    pub fn put_live(&mut self, live: u32)
        requires { HasRoom (live_line live) self.old }
        ensures { Adds (live_line live) self.old self.new }
    {
        self.put_words(b"live", live);
    }

    // The single line of a network file that is refused.
    // Kept: a number, since a `Refusal` would ask more of callers.
    pub fn put_network(&mut self, number: u8)
        requires { HasRoom (network_line number) self.old }
        ensures { Adds (network_line number) self.old self.new }
    {
        self.put_words(b"net no", u32::from(number));
    }
}
