// The sender's side: a packet with its number and its payload.
use packet_write::Fields;
use program_lines::part;
use terms::{SeqNo, StreamId};

// The stream ids that the lamp and the sender chose.
pub const LAMP_ID: StreamId = StreamId(16909060);

pub const SENDER_ID: StreamId = StreamId(168496141);

// Writes the packet, into room for 128 bytes of payload.
pub fn send<'a>(number: u32, payload: &[u8], out: &'a mut [u8; 256]) -> &'a [u8] {
    let fields = Fields {
        send_stream_id: LAMP_ID,
        recv_stream_id: SENDER_ID,
        seq_nro: SeqNo(number),
        ack_through: SeqNo(0),
        resend_delay: 0,
        flags: 0,
        delay: 0,
        max_size: 0,
    };
    let written = packet_write::write(fields, &[], b"", b"", payload, out);
    // no packet of this program is refused: 128 bytes of payload fit
    part::front(out, written.map_or(0, |packet| packet.length))
}
