// Flag bits, and what stands on them: an option is there where its bit is set.
ghost use Rattle.std.specs.Prelude.{◌≡◌, true, ◌+◌, ◌/◌, ◌%◌, ◌≤◌, ◌<◌, eqb, length};
ghost use Rattle.terms.specs.Ladder.{◌when◌else◌};
ghost use Rattle.wire.specs.BigEndian.{number_at};

use wire::Number;

// The weights of the bits that an option stands on.
pub const SIGNATURE: u16 = 8;

pub const FROM: u16 = 32;

pub const DELAY: u16 = 64;

pub const MAX_SIZE: u16 = 128;

pub const OFFLINE: u16 = 2048;

// Whether the bit of this weight is set. By division, since the promise is told of every weight above 0, and a mask would keep it for powers of 2 alone.
pub fn has(flags: u16, weight: u16) -> bool
    requires { 0 < weight }
    ensures { result ≡ eqb (flags / weight % 2) 1 }
{
    flags / weight % 2 == 1
}

// An option's size: none where it is absent.
pub fn size_if(there: bool, size: usize) -> usize
    ensures { (result ≡ (size when there else 0)) × (result ≤ size) }
{
    if there { size } else { 0 }
}

// An option's number of two bytes: 0 where it is absent.
pub(super) fn number_if(there: bool, packet: &[u8], at: usize) -> u16
    requires { there ≡ true → at + 2 ≤ length packet.now }
    ensures { result ≡ (number_at 2 at packet.now when there else 0) }
{
    if there { u16::read(packet, at) } else { 0 }
}
