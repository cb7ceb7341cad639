// The bytes of a packet: each part is written into the rest of the output that starts where the last part ended.
ghost use Rattle.std.specs.Prelude.{◌≡◌, true, ◌++◌, ◌+◌, ◌*◌, ◌≤◌, length};
ghost use Rattle.terms.specs.Ladder.{◌when◌else◌};
ghost use Rattle.terms.specs.Lists.{◌at_front_of◌, joined};
ghost use Rattle.wire.specs.BigEndian.{bytes_of, bytes_of_each};
ghost use Rattle.packet_read.specs.Flags.{bit};
ghost use Rattle.packet_write.specs.Writing.{head_parts, option_parts, packet_bytes, if_there, Fitting};

use super::{Fields, Parts, judge};
use packet_read::flags;
use wire::Number;

// How many NACKs there are, and the NACKs.
fn counted(rest: &mut [u8], nacks: &[u32])
    requires { (length nacks.now ≤ 255) × (1 + 4 * length nacks.now ≤ length rest.old) }
    ensures { rest.new ≡ (bytes_of 1 (length nacks.now) ++ bytes_of_each 4 nacks.now) at_front_of rest.old }
{
    (nacks.len() as u8).put(rest);
    wire::put_numbers(&mut rest[1..], nacks);
}

// The resend delay, the flags, and how many option bytes follow.
fn flagged(rest: &mut [u8], resend: u8, flags: u16, options: u16)
    requires { 5 ≤ length rest.old }
    ensures { rest.new ≡ (bytes_of 1 resend ++ bytes_of 2 flags ++ bytes_of 2 options) at_front_of rest.old }
{
    resend.put(rest);
    flags.put(&mut rest[1..]);
    options.put(&mut rest[3..]);
}

// A number of two bytes where its option is there.
fn put16_if(rest: &mut [u8], there: bool, x: u16)
    requires { there ≡ true → 2 ≤ length rest.old }
    ensures { rest.new ≡ if_there there x at_front_of rest.old }
{
    if there {
        x.put(rest);
    }
}

// The packet up to its options.
fn head(rest: &mut [u8], f: Fields, nacks: &[u32], options: u16)
    requires { (length nacks.now ≤ 255) × (22 + 4 * length nacks.now ≤ length rest.old) }
    ensures { rest.new ≡ joined (head_parts f nacks.now options) at_front_of rest.old }
{
    let ids_and_numbers = [
        f.send_stream_id.0,
        f.recv_stream_id.0,
        f.seq_nro.0,
        f.ack_through.0,
    ];
    wire::put_numbers(rest, &ids_and_numbers);
    counted(&mut rest[16..], nacks);
    flagged(
        &mut rest[17 + 4 * nacks.len()..],
        f.resend_delay,
        f.flags,
        options,
    );
}

// The options.
fn options(rest: &mut [u8], f: Fields, parts: Parts)
    requires { length (joined (option_parts f parts.destination.now parts.signature.now)) ≤ length rest.old }
    ensures { rest.new ≡ joined (option_parts f parts.entry.destination.now parts.entry.signature.now) at_front_of rest.old }
{
    let delayed = flags::has(f.flags, flags::DELAY);
    let sized = flags::has(f.flags, flags::MAX_SIZE);
    put16_if(rest, delayed, f.delay);
    let destination_at = flags::size_if(delayed, 2);
    wire::put_bytes(&mut rest[destination_at..], parts.destination);
    let max_at = destination_at + parts.destination.len();
    put16_if(&mut rest[max_at..], sized, f.max_size);
    let signature_at = max_at + flags::size_if(sized, 2);
    wire::put_bytes(&mut rest[signature_at..], parts.signature);
}

// The whole packet.
pub(super) fn packet(f: Fields, parts: Parts, output: &mut [u8])
    requires { Fitting f parts.nacks.now parts.destination.now parts.signature.now parts.payload.now (length output.old) }
    ensures { output.new
        ≡ packet_bytes f parts.entry.nacks.now parts.entry.destination.now parts.entry.signature.now parts.entry.payload.now at_front_of output.old }
{
    let size = judge::numbers_size(f.flags) + parts.destination.len() + parts.signature.len();
    head(output, f, parts.nacks, size as u16);
    let options_at = 22 + 4 * parts.nacks.len();
    options(&mut output[options_at..], f, parts);
    wire::put_bytes(&mut output[options_at + size..], parts.payload);
}
