// The parts of a packet: NACKs, destination, signature and payload, each as the bytes of the packet itself, where `packet_read::read` says that they
// stand.
#![tactic(auto)]

ghost use Rattle.std.specs.Prelude.{◌≡◌, ◌+◌, ◌≤◌, length};
ghost use Rattle.packet_read.specs.Reading.{fields_of, spanned, payload_of, nacks_of, destination_of, signature_of};
ghost use Rattle.packet_parts.specs.Laid.{Laid};

use packet_read::{Packet, Span};

// The fields, or those of no packet where the read is refused.
fn fields_or_none(packet: &[u8]) -> Packet
    ensures fields { result ≡ fields_of packet.now }
    ensures laid { Laid packet.now result }
{
    packet_read::read(packet).unwrap_or_default()
}

// A part of the packet.
fn part(packet: &[u8], span: Span) -> &[u8]
    requires { span.at + span.len ≤ length packet.now }
    ensures { result.now ≡ spanned packet.now span }
{
    &packet[span.at..span.at + span.len]
}

// The NACKs, four bytes each, as they stand in the packet.
pub fn nacks(packet: &[u8]) -> &[u8]
    ensures { result.now ≡ nacks_of packet.now }
{
    part(packet, fields_or_none(packet).nacks)
}

// The destination, empty where there is none or the read is refused.
pub fn destination(packet: &[u8]) -> &[u8]
    ensures { result.now ≡ destination_of packet.now }
{
    part(packet, fields_or_none(packet).destination)
}

// The signature, empty where there is none or the read is refused.
pub fn signature(packet: &[u8]) -> &[u8]
    ensures { result.now ≡ signature_of packet.now }
{
    part(packet, fields_or_none(packet).signature)
}

// The payload, empty where there is none or the read is refused.
pub fn payload(packet: &[u8]) -> &[u8]
    ensures { result.now ≡ payload_of packet.now }
{
    part(packet, fields_or_none(packet).payload)
}
