// The receiving half of a stream for hosts in C, as a static library: reading a packet, a receiver that is changed in
// place, and a reader of packets on a serial line. Refusals are document 01's numbers, and 0 is none; a slice is a pointer and a length. The header is host/digitmeadow.h.
// What an answer is in numbers is in `host_numbers`.
#![tactic(auto)]

ghost use Rattle.std.specs.Prelude.{◌≡◌, [], length};
ghost use Rattle.packet_read.specs.Reading.{read_of};
ghost use Rattle.receiver_state.specs.Start.{start_of};
ghost use Rattle.receiver_calls.specs.Accept.{accept_of};
ghost use Rattle.receiver_calls.specs.Take.{take_of};
ghost use Rattle.receiver_ack.specs.Acknowledge.{acknowledge_of};
ghost use Rattle.receiver_why.specs.Reasons.{why_of};
ghost use Rattle.host_numbers.specs.Numbers.{for_host, start_for_host, with_number, with_count, ack_for_host, with_output, stand_of};
ghost use Rattle.host_numbers.specs.Fields.{hosted_read};
ghost use Rattle.serial_state.specs.Start.{line_start};
ghost use Rattle.serial_feed.specs.Feed.{feed_of};
ghost use Rattle.host_serial.specs.Line.{hosted_feed, host_fed};

use host_numbers::{Counted, Fields, Stand};
use host_serial::LineHeard;
use receiver_state::Receiver;
use serial_state::LineReader;
use terms::{SeqNo, StreamId};

// Reads a packet: `packet_read::read`.
#[unsafe(no_mangle)]
pub extern "C" fn digitmeadow_read(packet: &[u8]) -> Fields
    ensures { result ≡ hosted_read (read_of packet.now) }
{
    packet_read::read(packet).into()
}

// Starts a receiver after the number s: `receiver_state::start`, into the state that is lent, which a refused start leaves as it was.
#[unsafe(no_mangle)]
pub extern "C" fn digitmeadow_start(r: &mut Receiver, s: SeqNo, slot: u32, store: &[u8]) -> u32
    ensures { with_number result r.new [] ≡ start_for_host r.old (start_of s slot (length store.now)) }
{
    host_numbers::begin(r, s, slot, store)
}

// Accepts a packet's payload under its number: `receiver_in_place::accept_lent`.
#[unsafe(no_mangle)]
pub extern "C" fn digitmeadow_accept(
    r: &mut Receiver,
    number: SeqNo,
    payload: &[u8],
    store: &mut [u8],
) -> u32
    ensures { with_number result r.new store.new
        ≡ for_host (accept_of r.old number payload.now store.old) }
{
    let answer = receiver_in_place::accept_lent(r, number, payload, store);
    host_numbers::of_answer(answer)
}

// Takes the next payload, if it is held: `receiver_in_place::take_lent`.
#[unsafe(no_mangle)]
pub extern "C" fn digitmeadow_take(r: &mut Receiver, store: &[u8], output: &mut [u8]) -> Counted
    ensures { with_count result r.new output.new ≡ for_host (take_of r.old store.now output.old) }
{
    receiver_in_place::take_lent(r, store, output).into()
}

// Writes the plain ack of a receiver: `receiver_ack::acknowledge`.
#[unsafe(no_mangle)]
pub extern "C" fn digitmeadow_acknowledge(
    r: &Receiver,
    send: StreamId,
    recv: StreamId,
    output: &mut [u8],
) -> Counted
    ensures { with_output result output.new ≡ ack_for_host (acknowledge_of r.now send recv output.old) }
{
    host_numbers::acknowledgement(r, send, recv, output)
}

// Says why a piece is not delivered: `receiver_why::why`.
#[unsafe(no_mangle)]
pub extern "C" fn digitmeadow_why(r: &Receiver, number: SeqNo) -> Stand
    ensures { result ≡ stand_of (why_of r.now number) }
{
    receiver_why::why(r, number).into()
}

// Starts a reader of packets on a serial line, over a buffer of any length: `serial_state::start`.
#[unsafe(no_mangle)]
pub extern "C" fn digitmeadow_line_start(buffer: &[u8]) -> LineReader
    ensures { result ≡ line_start buffer.now }
{
    serial_state::start(buffer)
}

// Feeds it a portion: `serial_feed::feed`. The reader is five numbers, and comes back with the answer.
#[unsafe(no_mangle)]
pub extern "C" fn digitmeadow_line_feed(
    r: LineReader,
    portion: &[u8],
    buffer: &mut [u8],
) -> LineHeard
    ensures { host_fed result buffer.new ≡ hosted_feed (feed_of r portion.now buffer.old) }
{
    host_serial::feed(r, portion, buffer)
}
