// Numbers as the wire has them, big-endian: read at a place of a slice, written to the front of a lent rest.
// These are the layer below the calls that a host makes: each asks that the bytes are there, and its callers show it.
#![tactic(auto)]

ghost use Rattle.std.specs.Prelude.{◌≡◌, ℕ, ◌+◌, ◌*◌, ◌≤◌, length};
ghost use Rattle.terms.specs.Lists.{◌at_front_of◌};
ghost use Rattle.wire.specs.BigEndian.{number_at, bytes_of, bytes_of_each};

// A number that the wire has in so many bytes as its type.
pub trait Number: Copy {
    ghost width: { ℕ };

    ghost value: { Self → ℕ };

    // The bytes from at as a number.
    fn read(s: &[u8], at: usize) -> Self
        requires { at + width ≤ length s.now }
        ensures { value result ≡ number_at width at s.now };

    // Writes it to the front of the rest.
    fn put(self, rest: &mut [u8])
        requires { width ≤ length rest.old }
        ensures { rest.new ≡ bytes_of width (value self) at_front_of rest.old };
}

impl Number for u8 {
    ghost width = { 1 };

    ghost value = { λ x. x };

    fn read(s: &[u8], at: usize) -> u8 {
        s[at]
    }

    fn put(self, rest: &mut [u8]) {
        rest[0] = self;
    }
}

impl Number for u16 {
    ghost width = { 2 };

    ghost value = { λ x. x };

    fn read(s: &[u8], at: usize) -> u16 {
        u16::from_be_bytes([s[at], s[at + 1]])
    }

    fn put(self, rest: &mut [u8]) {
        put_bytes(rest, &u16::to_be_bytes(self));
    }
}

impl Number for u32 {
    ghost width = { 4 };

    ghost value = { λ x. x };

    fn read(s: &[u8], at: usize) -> u32 {
        u32::from_be_bytes([s[at], s[at + 1], s[at + 2], s[at + 3]])
    }

    fn put(self, rest: &mut [u8]) {
        put_bytes(rest, &u32::to_be_bytes(self));
    }
}

// Copies all of src. By a loop, and not by `copy_from_slice`, which calls memmove: the library for hosts in C needs memcpy and memset alone.
pub fn put_bytes(rest: &mut [u8], src: &[u8])
    requires { length src.now ≤ length rest.old }
    ensures { rest.new ≡ src.now at_front_of rest.old }
{
    for (i, &x) in src.iter().enumerate() {
        rest[i] = x;
    }
}

// Writes numbers of four bytes, one behind the other.
pub fn put_numbers(rest: &mut [u8], xs: &[u32])
    requires { 4 * length xs.now ≤ length rest.old }
    ensures { rest.new ≡ bytes_of_each 4 xs.now at_front_of rest.old }
{
    let mut at = 0;
    for &x in xs {
        x.put(&mut rest[at..]);
        at += 4;
    }
}
