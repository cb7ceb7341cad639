// What feeding a serial line's reader gives a host in C, which knows numbers and no enum. The exported calls are in `host_library`.
#![tactic(auto)]

ghost use Rattle.std.specs.Prelude.{◌≡◌};
ghost use Rattle.serial_feed.specs.Feed.{heard_said, feed_of};
ghost use Rattle.host_serial.specs.Line.{line_heard, hosted_feed, host_fed};

use serial_feed::Fed;
use serial_state::LineReader;

// The reader after the call; a refusal's number, or 0; the length of the packet at the buffer's front, 0 where more is wanted; and how many bytes of the
// portion were used. The zeros for none are the C interface's.
#[repr(C)]
#[derive(Clone, Copy)]
pub struct LineHeard {
    pub reader: LineReader,
    pub refusal: u32,
    pub length: usize,
    pub used: usize,
}

impl From<Fed> for LineHeard {
    ghost from_gives = { λ done heard. heard ≡ line_heard (heard_said done.answer) done.used done.state };

    fn from(done: Fed) -> LineHeard {
        let (refusal, length) = match done.answer {
            Ok(size) => (0, size.unwrap_or(0)),
            Err(why) => (why.number(), 0),
        };
        LineHeard {
            reader: done.state,
            refusal,
            length,
            used: done.used,
        }
    }
}

// `serial_feed::feed`, in numbers.
pub fn feed(r: LineReader, portion: &[u8], buffer: &mut [u8]) -> LineHeard
    ensures { host_fed result buffer.new ≡ hosted_feed (feed_of r portion.now buffer.old) }
{
    LineHeard::from(serial_feed::feed(r, portion, buffer))
}
