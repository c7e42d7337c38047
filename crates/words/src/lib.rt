// Words of frames: bit i of a word stands for frame i. A bank has a word for each link and colour.
// Callers guarantee 1 ≤ frames ≤ 64 and a frame number below K (check 7).
#![tactic(auto)]

ghost use Rattle.std.specs.Prelude.{◌≡◌, ◌+◌, ◌%◌, ◌≤◌, ◌<◌, length};
ghost use Rattle.lists.specs.Count.{one_if, count_below};
ghost use Rattle.words.specs.Word.{bit_of, ones_below, with_bit, without_bit, free_at, free_word};
ghost use Rattle.words.specs.Bank.{most_colours, bank_at};
ghost use Rattle.words.specs.Inner.{WindowOnes};

// The most colours of a link.
pub const COLOURS: usize = 4;

// The words of a bank: one for each of 32 links in each colour.
pub const BANK: usize = 32 * COLOURS;

// The place of a link's word of a colour.
pub fn bank(link: u8, colour: u8) -> usize
    requires { (link < 32) × (colour < most_colours) }
    ensures { result ≡ bank_at link colour }
{
    COLOURS * usize::from(link) + usize::from(colour)
}

// Whether bit i of a word stands.
pub fn has_bit(word: u64, i: u16) -> bool
    requires { i < 64 }
    ensures { result ≡ bit_of word i }
{
    (word >> i) % 2 == 1
}

// The word of all frames of a link.
pub fn ones_below(frames: u16) -> u64
    requires { (0 < frames) × (frames ≤ 64) }
    ensures { result ≡ ones_below frames }
{
    u64::MAX >> (64 - frames)
}

// The word with bit i.
pub fn set_bit(word: u64, i: u16) -> u64
    requires { i < 64 }
    ensures { result ≡ with_bit 64 word i }
{
    word | (1 << i)
}

// The word without bit i.
pub fn clear_bit(word: u64, i: u16) -> u64
    requires { i < 64 }
    ensures { result ≡ without_bit 64 word i }
{
    word & !(1 << i)
}

// The free frames of a link as a word, whatever stands at K or above in the words of closed and of held frames.
pub fn free_word(frames: u16, closed: u64, held: u64) -> u64
    requires { (0 < frames) × (frames ≤ 64) }
    ensures { result ≡ free_word frames closed held }
{
    ones_below(frames) & !(closed | held)
}

// The number of free frames of a link. The form asked for: "A link's free word is counted by the count of ones, equal to
// counting frames one by one".
pub fn free_frames(frames: u16, closed: u64, held: u64) -> u32
    requires { (0 < frames) × (frames ≤ 64) }
    ensures { result ≡ count_below frames (free_at closed held) }
{
    free_word(frames, closed, held).count_ones()
}

// The frame that lies d frames after frame i of a cycle.
pub fn frame_on(i: u16, d: u16, frames: u16) -> u16
    requires { (i < frames) × (d ≤ frames) × (frames ≤ 64) }
    ensures { result ≡ (i + d) % frames }
{
    if i + d < frames {
        i + d
    } else {
        i + d - frames
    }
}

// 1 where bit i of a word stands, and else 0.
fn one_at(word: u64, i: u16) -> u32
    requires { i < 64 }
    ensures { result ≡ one_if (bit_of word i) }
{
    u32::from(has_bit(word, i))
}

// How many of the first n bits of a word stand.
fn ones_among(word: u64, n: u16) -> u32
    requires { (0 < n) × (n ≤ 64) }
    ensures { result ≡ count_below n (bit_of word) }
{
    (ones_below(n) & word).count_ones()
}

// For each frame of a cycle, the ones of a word in the window of so many frames that begins with it, going round the cycle: each window has the one before it
// without its first frame and with the frame after its last.
pub fn window_ones(word: u64, frames: u16, width: u16, ones: &mut [u8; 64])
    requires { (0 < width) × (width ≤ frames) × (frames ≤ 64) × (length ones.old ≡ 64) }
    ensures { WindowOnes word frames width frames ones.old ones.new }
{
    let mut n = ones_among(word, width);
    for a in 0..frames {
        ones[usize::from(a)] = n as u8;
        n = n + one_at(word, frame_on(a, width, frames)) - one_at(word, a);
    }
}
