// Reads a line of packets, each behind its length, from standard input, in portions as odd as a serial line gives, and tells each packet's fields. It ends with the
// input, or with a length that is refused.
#![tactic(auto)]

mod tell;

use program_lines::part;
use serial_state::LineReader;
use std::io::Read;
use terms::Refusal;

type Buffer = [u8; 2048];

// Tells an answer; whether it is a packet, so that what was not used is offered again.
fn told(
    rt: &(impl Print + Eprint),
    answer: Result<Option<usize>, Refusal>,
    buffer: &Buffer,
) -> bool {
    match answer {
        Ok(Some(n)) => {
            tell::packet(rt, part::front(buffer, n));
            true
        }
        Ok(None) => false,
        Err(why) => {
            tell::refused(rt, why);
            false
        }
    }
}

// Offers a portion, and again what is not used of it, until no packet is answered: 16 bytes have one end of a packet at most.
fn offer(
    rt: &(impl Print + Eprint),
    first: LineReader,
    portion: &[u8],
    buffer: &mut Buffer,
) -> LineReader {
    let fed = serial_feed::feed(first, portion, buffer);
    if !told(rt, fed.answer, buffer) {
        return fed.state;
    }
    let again = serial_feed::feed(fed.state, part::after(portion, fed.used), buffer);
    told(rt, again.answer, buffer);
    again.state
}

// The next portion from the line, of up to 13 bytes, each length in its turn and in no order; of no byte at the line's end, or where it
// cannot be read, which ends the line as well.
fn next<'a>(line: &mut impl Read, portion: &'a mut [u8; 16], turn: u64) -> &'a [u8] {
    let n = (turn % 13 * 7 % 13 + 1) as usize;
    let got = line.read(&mut portion[..n]).unwrap_or(0);
    part::front(portion, got)
}

// Nothing says that a line ends, so the turns have a limit, which no line uses up.
fn main(rt: HostRuntime) {
    let mut line = rt.reader();
    let mut portion = [0u8; 16];
    let mut buffer = [0u8; 2048];
    let mut reader = serial_state::start(&buffer);
    for turn in 0..u64::MAX {
        let got = next(&mut line, &mut portion, turn);
        reader = offer(&rt, reader, got, &mut buffer);
        if got.is_empty() || reader.phase == 3 {
            tell::end(&rt, reader);
            return;
        }
    }
}
