// Numbers of up to eight bytes, low byte first ("T in two bytes, low first"), read from the start of a slice and written there.
#![tactic(auto)]

ghost use Rattle.std.specs.Prelude.{◌≡◌, ◌++◌, ◌≤◌, length, drop};
ghost use Rattle.numbers.specs.Numbers.{number_in, bytes_of};

// The number that the first n bytes of s say. Its callers know the size of the field.
pub fn read_number(s: &[u8], n: usize) -> u64
    requires { (n ≤ length s.now) × (n ≤ 8) }
    ensures { result ≡ number_in n s.now }
{
    let mut x: u64 = 0;
    for i in (0..n).rev() {
        x = x * 256 + u64::from(s[i]);
    }
    x
}

// Puts the low n bytes of x at the start of s, and leaves the rest.
pub fn write_number(s: &mut [u8], n: usize, x: u64)
    requires { n ≤ length s.old }
    ensures { s.new ≡ bytes_of n x ++ drop n s.old }
{
    let mut rest = x;
    for i in 0..n {
        s[i] = (rest % 256) as u8;
        rest /= 256;
    }
}
