// Reading I2P streaming packets: any bytes are answered, with every field or with the refusal that document 01 gives.
// Ports `Packet::parse` and `Flags::new` of emissary. The packet stays the caller's: the record holds where each part stands,
// and the parts themselves are returned as parts of the packet by the calls of `packet_parts`.
#![tactic(auto)]

mod area;
pub mod flags;

ghost use Rattle.std.specs.Prelude.{◌≡◌, ◌+◌, ◌*◌, ◌≤◌, length};
ghost use Rattle.terms.specs.Answers.{saying};
ghost use Rattle.terms.specs.Ladder.{◌when◌else◌};
ghost use Rattle.packet_read.specs.Destination.{signs_of, is_destination};
ghost use Rattle.packet_read.specs.Reading.{read_of, fields_read};

use terms::{Refusal, SeqNo, StreamId};
use wire::Number;

// Where a part of the packet stands. An absent part has no byte, and stands where it would have stood. Places, and not lent parts, since the C interface gives them so.
#[derive(Clone, Copy, Debug, Default, PartialEq, Eq)]
pub struct Span {
    pub at: usize,
    pub len: usize,
}

// Every field of a packet, in wire order; options that are absent are 0 or empty.
#[derive(Clone, Copy, Default)]
pub struct Packet {
    pub send_stream_id: StreamId,
    pub recv_stream_id: StreamId,
    pub seq_nro: SeqNo,
    pub ack_through: SeqNo,
    pub nacks: Span,
    pub resend_delay: u8,
    pub flags: u16,
    pub delay: u16,
    pub destination: Span,
    pub max_size: u16,
    pub signature: Span,
    // option bytes after the last option
    pub leftover: usize,
    pub payload: Span,
}

// A destination: how long it is, and how long its signatures are.
#[derive(Clone, Copy, Debug, PartialEq, Eq)]
pub struct Destination {
    pub size: usize,
    pub signs: usize,
}

// What the option area holds.
#[derive(Clone, Copy)]
pub struct Found {
    pub delay: u16,
    pub destination: Span,
    pub max_size: u16,
    pub signature: Span,
    pub leftover: usize,
}

// How long the signatures of this destination are, where the bytes are exactly one destination, with no byte behind it.
#[tactic(auto, using(crate::proofs::Moved::one_whole), unfolding(crate::specs::Destination::signs_of))]
pub fn signature_length(bytes: &[u8]) -> Option<usize>
    ensures { result ≡ (Some (signs_of bytes.now) when is_destination bytes.now else None) }
{
    match area::destination_in(bytes, 0) {
        Ok(d) if d.size == bytes.len() => Some(d.signs),
        _ => None,
    }
}

// The record of a packet whose options are found.
fn fields(packet: &[u8], nack_count: usize, end: usize, flags: u16, found: Found) -> Packet
    requires { (22 + 4 * nack_count ≤ length packet.now) × (end ≤ length packet.now) }
    ensures { result ≡ fields_read packet.now nack_count end flags found }
{
    Packet {
        send_stream_id: StreamId(u32::read(packet, 0)),
        recv_stream_id: StreamId(u32::read(packet, 4)),
        seq_nro: SeqNo(u32::read(packet, 8)),
        ack_through: SeqNo(u32::read(packet, 12)),
        nacks: Span {
            at: 17,
            len: 4 * nack_count,
        },
        resend_delay: u8::read(packet, 17 + 4 * nack_count),
        flags,
        delay: found.delay,
        destination: found.destination,
        max_size: found.max_size,
        signature: found.signature,
        leftover: found.leftover,
        payload: Span {
            at: end,
            len: packet.len() - end,
        },
    }
}

// Reads a packet. Refusals in document 01's order: 2, 1, then 3 to 6 as the options come.
#[tactic(auto, unfolding(crate::specs::Reading::read_of))]
pub fn read(packet: &[u8]) -> Result<Packet, Refusal>
    ensures { saying result ≡ read_of packet.now }
{
    let size = packet.len();
    if size > 65535 {
        return Err(Refusal::PacketLong);
    }
    if size < 22 {
        return Err(Refusal::PacketShort);
    }
    let count = usize::from(u8::read(packet, 16));
    let options_at = 22 + 4 * count;
    if size < options_at {
        return Err(Refusal::PacketShort);
    }
    let end = options_at + usize::from(u16::read(packet, 20 + 4 * count));
    if size < end {
        return Err(Refusal::PacketShort);
    }
    let flags = u16::read(packet, 18 + 4 * count);
    let found = area::options(&packet[..end], options_at, flags)?;
    Ok(fields(packet, count, end, flags, found))
}
