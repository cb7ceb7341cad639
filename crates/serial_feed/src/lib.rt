// Packets over a serial line: a reader is fed portions as the line gives them, keeps the unfinished packet in a buffer that the host lends, and answers each
// full packet once.
#![tactic(auto)]

ghost use Rattle.std.specs.Prelude.{◌≡◌, true, ◌≤◌, ◌<◌, length, drop, Err};
ghost use Rattle.portions.specs.Stops.{until_given, used_before};
ghost use Rattle.serial_state.specs.Frames.{after_length, read_byte};
ghost use Rattle.serial_state.specs.Rules.{coming_of, line_rules};
ghost use Rattle.serial_feed.specs.Feed.{heard_by, feed_of, fed};

use serial_state::LineReader;
use terms::Refusal;

// The length of the packet that stands at the buffer's front, or none where all bytes are used and more are wanted; how many bytes of the portion were used,
// which the host does not offer again; and the reader after the call.
#[derive(Clone, Copy)]
pub struct Fed {
    pub answer: Result<Option<usize>, Refusal>,
    pub used: usize,
    pub state: LineReader,
}

// A refused call uses nothing.
fn refused(state: LineReader, why: Refusal) -> Fed
    ensures { result ≡ record { answer = Err why; used = 0; state = state } }
{
    Fed {
        answer: Err(why),
        used: 0,
        state,
    }
}

// Within a packet: copies as many of the portion's bytes from at on as it lacks, or as there are.
#[tactic(auto, unfolding(serial_state::specs::Rules::line_rules, crate::specs::Feed::heard_by))]
fn fill(r: LineReader, portion: &[u8], at: usize, buffer: &mut [u8]) -> Fed
    requires ruled { line_rules r ≡ true }
    requires within { r.phase ≡ 2 }
    requires own { length buffer.old ≡ r.room }
    requires inside { at ≤ length portion.now }
    ensures { fed result buffer.new
        ≡ heard_by r.room buffer.old (used_before at (until_given (read_byte r.room) (coming_of r buffer.old) (drop at portion.now))) }
{
    let lacks = r.size - r.there;
    let count = lacks.min(portion.len() - at);
    let end = at + count;
    if count < lacks {
        wire::put_bytes(&mut buffer[r.there..], &portion[at..]);
        let state = LineReader {
            there: r.there + count,
            ..r
        };
        return Fed {
            answer: Ok(None),
            used: end,
            state,
        };
    }
    wire::put_bytes(&mut buffer[r.there..], &portion[at..end]);
    Fed {
        answer: Ok(Some(r.size)),
        used: end, // the byte that completes it too
        state: serial_state::start(buffer), // it is answered once, and nothing of the next is there
    }
}

// Once a length is there: refused, or the packet's bytes follow from at on.
#[tactic(auto, unfolding(serial_state::specs::Rules::line_rules, crate::specs::Feed::heard_by))]
fn measured(size: usize, portion: &[u8], at: usize, buffer: &mut [u8]) -> Fed
    requires small { size ≤ 65535 }
    requires inside { at ≤ length portion.now }
    ensures { fed result buffer.new
        ≡ heard_by (length buffer.old) buffer.old (used_before at (until_given (read_byte (length buffer.old)) (after_length (length buffer.old) size) (drop at portion.now))) }
{
    if size < 22 || buffer.len() < size {
        let stopped = LineReader {
            phase: 3,
            ..serial_state::start(buffer)
        };
        return refused(stopped, Refusal::LengthUnfit);
    }
    let within = LineReader {
        phase: 2,
        size,
        ..serial_state::start(buffer)
    };
    fill(within, portion, at, buffer)
}

// What a reader that keeps its rules makes of a portion.
#[tactic(auto, unfolding(serial_state::specs::Rules::line_rules, crate::specs::Feed::heard_by))]
fn hear(r: LineReader, portion: &[u8], buffer: &mut [u8]) -> Fed
    requires ruled { line_rules r ≡ true }
    requires own { length buffer.old ≡ r.room }
    ensures { fed result buffer.new
        ≡ heard_by r.room buffer.old (until_given (read_byte r.room) (coming_of r buffer.old) portion.now) }
{
    if r.phase == 3 {
        return refused(r, Refusal::LengthUnfit);
    }
    if r.phase == 2 {
        return fill(r, portion, 0, buffer);
    }
    match portion {
        [] => Fed {
            answer: Ok(None), // of nothing
            used: 0,
            state: r,
        },
        [low, ..] if r.phase == 1 => {
            let size = (r.high * 256 + u32::from(*low)) as usize; // there is no `From` from a u32 to a usize
            measured(size, portion, 1, buffer)
        }
        [high] => Fed {
            answer: Ok(None),
            used: 1,
            state: LineReader {
                phase: 1,
                high: u32::from(*high),
                ..r
            },
        },
        [high, low, ..] => {
            let size = usize::from(u16::from_be_bytes([*high, *low]));
            measured(size, portion, 2, buffer)
        }
    }
}

// Feeds a reader a portion of any length, none too, with the buffer that it was started over. It stops at the first full packet, and the host offers again the
// bytes that were not used.
#[tactic(auto, unfolding(crate::specs::Feed::feed_of))]
pub fn feed(r: LineReader, portion: &[u8], buffer: &mut [u8]) -> Fed
    ensures { fed result buffer.new ≡ feed_of r portion.now buffer.old }
{
    if !serial_state::keeps_rules(r) {
        return refused(r, Refusal::StateBroken);
    }
    if buffer.len() != r.room {
        return refused(r, Refusal::SizeWrong);
    }
    hear(r, portion, buffer)
}
