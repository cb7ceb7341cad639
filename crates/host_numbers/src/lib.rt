// What the calls of the receiving half give a host in C, which knows numbers and no enum: each answer in numbers, and a start into a state that is lent, and an acknowledgement.
// A refusal is document 01's number, and 0 is none. The exported calls are in `host_library`.
#![tactic(auto)]

ghost use Rattle.std.specs.Prelude.{◌≡◌, [], length};
ghost use Rattle.terms.specs.Answers.{refusal, saying, said, said_of};
ghost use Rattle.receiver_state.specs.Start.{start_of};
ghost use Rattle.receiver_ack.specs.Acknowledge.{acknowledge_of};
ghost use Rattle.receiver_why.specs.Reasons.{said_why};
ghost use Rattle.host_numbers.specs.Numbers.{in_numbers, start_for_host, with_number, ack_for_host, with_output, stand_of};
ghost use Rattle.host_numbers.specs.Fields.{part_of, hosted_read};

use packet_read::{Packet, Span};
use receiver_state::Receiver;
use receiver_why::Reason;
use terms::{Refusal, SeqNo, StreamId};

// The structs below are the C interface: a refusal is a number there, and stands beside what is given.

// A refusal's number, or 0 and how many bytes were copied or written.
#[repr(C)]
#[derive(Clone, Copy)]
pub struct Counted {
    pub refusal: u32,
    pub count: usize,
}

// Where a number stands in a receiver: a refusal's number, or 0 and one of the eight cases of `receiver_why`, 1 to 8; the smallest missing number where it is 5, else 0.
#[repr(C)]
#[derive(Clone, Copy)]
pub struct Stand {
    pub refusal: u32,
    pub reason: u32,
    pub smallest: SeqNo,
}

// Where a part of a packet stands.
#[repr(C)]
#[derive(Clone, Copy, Default)]
pub struct Part {
    pub at: usize,
    pub len: usize,
}

// A packet as it is read. Where the read is refused, every other number is 0 and every part is empty.
#[repr(C)]
#[derive(Clone, Copy, Default)]
pub struct Fields {
    pub refusal: u32,
    pub send_stream_id: StreamId,
    pub recv_stream_id: StreamId,
    pub seq_nro: SeqNo,
    pub ack_through: SeqNo,
    pub flags: u16,
    pub delay: u16,
    pub max_size: u16,
    pub resend_delay: u8,
    pub leftover: usize,
    pub nacks: Part,
    pub destination: Part,
    pub signature: Part,
    pub payload: Part,
}

// What an answer without values is in numbers.
pub fn of_answer(answer: Result<(), Refusal>) -> u32
    ensures { result ≡ (in_numbers (said answer)).refusal }
{
    match answer {
        Ok(()) => 0,
        Err(why) => why.number(),
    }
}

impl From<Result<usize, Refusal>> for Counted {
    ghost from_gives = { λ answer counted. counted ≡ in_numbers (said_of answer) };

    fn from(answer: Result<usize, Refusal>) -> Counted {
        match answer {
            Ok(count) => Counted { refusal: 0, count },
            Err(why) => Counted {
                refusal: why.number(),
                count: 0,
            },
        }
    }
}

impl From<Span> for Part {
    ghost from_gives = { λ span part. part ≡ part_of span };

    fn from(span: Span) -> Part {
        Part {
            at: span.at,
            len: span.len,
        }
    }
}

// A refused read, by its number.
pub fn of_refusal(number: u32) -> Fields
    ensures { result ≡ hosted_read (refusal number) }
{
    Fields {
        refusal: number,
        ..Fields::default()
    }
}

impl From<Result<Packet, Refusal>> for Fields {
    ghost from_gives = { λ answer fields. fields ≡ hosted_read (saying answer) };

    fn from(answer: Result<Packet, Refusal>) -> Fields {
        match answer {
            Ok(p) => Fields {
                refusal: 0,
                send_stream_id: p.send_stream_id,
                recv_stream_id: p.recv_stream_id,
                seq_nro: p.seq_nro,
                ack_through: p.ack_through,
                flags: p.flags,
                delay: p.delay,
                max_size: p.max_size,
                resend_delay: p.resend_delay,
                leftover: p.leftover,
                nacks: p.nacks.into(),
                destination: p.destination.into(),
                signature: p.signature.into(),
                payload: p.payload.into(),
            },
            Err(why) => of_refusal(why.number()),
        }
    }
}

// One of the eight cases.
fn case(reason: u32, smallest: SeqNo) -> Stand
    ensures { result ≡ record { refusal = 0; reason = reason; smallest = smallest } }
{
    Stand {
        refusal: 0,
        reason,
        smallest,
    }
}

impl From<Result<Reason, Refusal>> for Stand {
    ghost from_gives = { λ answer stand. stand ≡ stand_of (said_why answer) };

    fn from(answer: Result<Reason, Refusal>) -> Stand {
        let none = SeqNo(0);
        match answer {
            Ok(Reason::LastNumber) => case(1, none),
            Ok(Reason::AtOrBelowStart) => case(2, none),
            Ok(Reason::Taken) => case(3, none),
            Ok(Reason::Ready) => case(4, none),
            Ok(Reason::BehindGap(smallest)) => case(5, smallest),
            Ok(Reason::Missing) => case(6, none),
            Ok(Reason::NotYetSeen) => case(7, none),
            Ok(Reason::BeyondSpan) => case(8, none),
            Err(why) => Stand {
                refusal: why.number(),
                reason: 0,
                smallest: none,
            },
        }
    }
}

// Starts a receiver into the state that is lent, which a refused start leaves as it was.
pub fn begin(r: &mut Receiver, s: SeqNo, slot: u32, store: &[u8]) -> u32
    ensures { with_number result r.new [] ≡ start_for_host r.old (start_of s slot (length store.now)) }
{
    let started = receiver_state::start(s, slot, store);
    if started.answer.is_ok() {
        *r = started.state;
    }
    of_answer(started.answer)
}

// `receiver_ack::acknowledge`, in numbers.
pub fn acknowledgement(r: &Receiver, send: StreamId, recv: StreamId, output: &mut [u8]) -> Counted
    ensures { with_output result output.new ≡ ack_for_host (acknowledge_of r.now send recv output.old) }
{
    receiver_ack::acknowledge(r, send, recv, output).into()
}
