// What `drive` calls on packets: 'r' reads one, 'd' judges a destination, 'w' writes a packet. What each asks stands in the registers, and its answer goes there.
#![tactic(auto)]

use drive_state::Registers;
use packet_read::Packet;
use packet_write::Fields;
use program_lines::part;
use program_script::answer::code;
use program_script::asked::Asked;
use program_script::sum::checksum;
use terms::{SeqNo, StreamId};

// What is told of a packet that is read: its numbers, behind the refusal number 0, where each part stands, and a checksum of each part, as the calls for the parts
// return it.
fn numbers(p: Packet, packet: &[u8]) -> [u64; 22] {
    [
        0,
        u64::from(p.send_stream_id.0),
        u64::from(p.recv_stream_id.0),
        u64::from(p.seq_nro.0),
        u64::from(p.ack_through.0),
        u64::from(p.resend_delay),
        u64::from(p.flags),
        u64::from(p.delay),
        u64::from(p.max_size),
        p.nacks.at as u64,
        p.nacks.len as u64,
        p.destination.at as u64,
        p.destination.len as u64,
        p.signature.at as u64,
        p.signature.len as u64,
        p.payload.at as u64,
        p.payload.len as u64,
        p.leftover as u64,
        checksum(packet_parts::nacks(packet)),
        checksum(packet_parts::destination(packet)),
        checksum(packet_parts::signature(packet)),
        checksum(packet_parts::payload(packet)),
    ]
}

fn read(registers: &mut Registers) {
    let packet = registers.given.as_slice();
    match packet_read::read(packet) {
        Ok(p) => registers.answer.tell(&numbers(p, packet)),
        Err(why) => registers.answer.tell(&[u64::from(why.number())]),
    }
}

fn destination(registers: &mut Registers) {
    let size = packet_read::signature_length(registers.given.as_slice()).unwrap_or(0);
    registers.answer.tell(&[size as u64]);
}

// The fields of 'w' that are numbers; its NACKs, destination, signature, payload and output are the fields 4, 8, 10, 11 and 12.
fn fields(asked: &Asked) -> Fields {
    Fields {
        send_stream_id: StreamId(asked.word32(0)),
        recv_stream_id: StreamId(asked.word32(1)),
        seq_nro: SeqNo(asked.word32(2)),
        ack_through: SeqNo(asked.word32(3)),
        resend_delay: asked.word8(5),
        flags: asked.word16(6),
        delay: asked.word16(7),
        max_size: asked.word16(9),
    }
}

// The packet of these fields, with the bytes of the call taken apart by their lengths.
fn write(registers: &mut Registers) {
    let asked = &registers.asked;
    let destination = asked.length(8);
    let signature = asked.length(10);
    let bytes = registers.given.as_slice();
    let rest = part::after(bytes, destination);
    let written = packet_write::write(
        fields(asked),
        registers.nacks.as_slice(),
        part::front(bytes, destination),
        part::between(bytes, destination, signature),
        part::after(rest, signature),
        registers.out.as_mut_slice(),
    );
    let (length, signature_at) = match written {
        Ok(w) => (w.length, w.signature_at),
        Err(_) => (0, 0),
    };
    let numbers = [code(&written), length as u64, signature_at as u64];
    registers.answer.tell(&numbers);
    registers.answer.tell_lent(registers.out.as_slice());
}

pub fn call(registers: &mut Registers, letter: u8) {
    match letter {
        b'r' => read(registers),
        b'd' => destination(registers),
        _ => write(registers),
    }
}
