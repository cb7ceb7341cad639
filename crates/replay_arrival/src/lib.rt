// A packet arrives at both halves of a stream: it is read; if that succeeds, the sender gets its acks unless bit 10 is set, and then in any case the receiver
// its payload unless its number is 0. Ports the order of `on_packet`, which was cut from the source: document 02 decides it.
#![tactic(auto)]

ghost use Rattle.std.specs.Prelude.{◌≡◌, ◌+◌, ◌*◌, ◌≤◌, length, take};
ghost use Rattle.terms.specs.Answers.{values};
ghost use Rattle.wire.specs.BigEndian.{numbers_at};
ghost use Rattle.packet_read.specs.Reading.{read_of, nack_count};
ghost use Rattle.replay_arrival.specs.Arrive.{acks_here, accept_here, arrive_of, acked_here, accepted_here, arrived};

use packet_read::Packet;
use receiver_state::Receiver;
use sender_state::Sender;
use terms::Refusal;
use wire::Number;

// What acks answered, or none where it was not asked, and the sender after it.
#[derive(Clone, Copy)]
pub struct AckedHere {
    pub told: Option<Result<u32, Refusal>>,
    pub sender: Sender,
}

// The same of accept.
#[derive(Clone, Copy)]
pub struct AcceptedHere {
    pub told: Option<Result<(), Refusal>>,
    pub receiver: Receiver,
}

// The answers, and both halves after them.
#[derive(Clone, Copy)]
pub struct Arrived {
    pub read: Result<(), Refusal>,
    pub acks: Option<Result<u32, Refusal>>,
    pub accept: Option<Result<(), Refusal>>,
    pub receiver: Receiver,
    pub sender: Sender,
}

// The packet's NACKs as numbers, at the front of those lent: how many. There are at most 255, and no heap: a fixed array, and the count beside it.
fn nack_numbers(packet: &[u8], numbers: &mut [u32; 255]) -> usize
    requires { 22 + 4 * nack_count packet.now ≤ length packet.now }
    ensures small { result ≤ 255 }
    ensures read { take result numbers.new ≡ numbers_at 4 (nack_count packet.now) 17 packet.now }
{
    let count = usize::from(u8::read(packet, 16));
    for i in 0..count {
        numbers[i] = u32::read(packet, 17 + 4 * i);
    }
    count
}

// acks, unless bit 10 says that there are none.
fn acks_here(p: Packet, packet: &[u8], clock: u64, sender: Sender) -> AckedHere
    requires { read_of packet.now ≡ values p }
    ensures { acked_here result ≡ acks_here p packet.now clock sender }
{
    if packet_read::flags::has(p.flags, 1024) {
        return AckedHere { told: None, sender };
    }
    let mut numbers = [0u32; 255];
    let count = nack_numbers(packet, &mut numbers);
    let acked = sender_acks::acks(sender, p.ack_through, &numbers[..count], clock);
    AckedHere {
        told: Some(acked.answer),
        sender: acked.state,
    }
}

// accept, unless the number is 0.
fn accept_here(p: Packet, packet: &[u8], receiver: Receiver, store: &mut [u8]) -> AcceptedHere
    ensures { accepted_here result store.new ≡ accept_here p packet.now receiver store.old }
{
    let number = p.seq_nro;
    if number.0 == 0 {
        return AcceptedHere {
            told: None,
            receiver,
        };
    }
    let accepted = receiver_calls::accept(receiver, number, packet_parts::payload(packet), store);
    AcceptedHere {
        told: Some(accepted.answer),
        receiver: accepted.state,
    }
}

// A packet arrives, at this clock, with the receiver's store. What the calls refuse is an answer of theirs; whatever acks answers, accept is asked.
#[tactic(auto, unfolding(crate::specs::Arrive::arrive_of))]
pub fn arrive(
    packet: &[u8],
    clock: u64,
    receiver: Receiver,
    sender: Sender,
    store: &mut [u8],
) -> Arrived
    ensures { arrived result store.new ≡ arrive_of packet.now clock receiver sender store.old }
{
    match packet_read::read(packet) {
        Err(why) => Arrived {
            read: Err(why),
            acks: None,
            accept: None,
            receiver,
            sender,
        },
        Ok(p) => {
            let acked = acks_here(p, packet, clock, sender);
            let accepted = accept_here(p, packet, receiver, store);
            Arrived {
                read: Ok(()),
                acks: acked.told,
                accept: accepted.told,
                receiver: accepted.receiver,
                sender: acked.sender,
            }
        }
    }
}
