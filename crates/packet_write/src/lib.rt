// Writing I2P streaming packets: the fields that the reader gives, written so that each undoes the other.
// Ports `PacketBuilder::build`, `build_and_sign` and `FlagsBuilder::build` of emissary.
//
// There is no panic for a signature flag, and no signing here. A host that signs calls `write` with zeros in the signature's
// place, signs the bytes written, and calls `write` again with the signature: nothing else changes, since no length does.
#![tactic(auto)]

mod judge;
mod put;

ghost use Rattle.std.specs.Prelude.{◌≡◌, length};
ghost use Rattle.terms.specs.Answers.{saying};
ghost use Rattle.packet_write.specs.Writing.{write_of, output_after};

use terms::{Refusal, SeqNo, StreamId};

// The numbers of a packet. An option whose flag bit is clear has the number 0.
#[derive(Clone, Copy)]
pub struct Fields {
    pub send_stream_id: StreamId,
    pub recv_stream_id: StreamId,
    pub seq_nro: SeqNo,
    pub ack_through: SeqNo,
    pub resend_delay: u8,
    pub flags: u16,
    pub delay: u16,
    pub max_size: u16,
}

// What a packet holds beside its numbers.
#[derive(Clone, Copy)]
struct Parts<'a> {
    nacks: &'a [u32],
    destination: &'a [u8],
    signature: &'a [u8],
    payload: &'a [u8],
}

// How long the packet is that was written, and where its signature begins, 0 without bit 3, as document 01 promises.
#[derive(Clone, Copy, Debug, PartialEq, Eq)]
pub struct Written {
    pub length: usize,
    pub signature_at: usize,
}

// Writes a packet to the front of the output. Refusals in document 01's order: 8, 5, 6, 9 for clear bits, 4, 9 for the
// signature, 2, 7. Bytes beyond the packet's length stay, and a refused call leaves every byte.
#[tactic(auto, using(crate::proofs::Passed::fitting))]
pub fn write(
    fields: Fields,
    nacks: &[u32],
    destination: &[u8],
    signature: &[u8],
    payload: &[u8],
    output: &mut [u8],
) -> Result<Written, Refusal>
    ensures result_value { saying result ≡ write_of fields nacks.now destination.now signature.now payload.now (length output.old) }
    ensures output_after { output.new ≡ output_after fields nacks.now destination.now signature.now payload.now output.old }
{
    let parts = Parts {
        nacks,
        destination,
        signature,
        payload,
    };
    let written = judge::judge(fields, parts, output.len())?;
    put::packet(fields, parts, output);
    Ok(written)
}
