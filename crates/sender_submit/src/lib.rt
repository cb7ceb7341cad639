// Submitting bytes to a sender: they become packets that wait. Ports `packetize`: chunks of the state's chunk size, numbered in order,
// each with the ack fields of the stream's receiving half.
#![tactic(auto)]

mod packets;

ghost use Rattle.std.specs.Prelude.{◌≡◌, true, ◌≤◌, length};
ghost use Rattle.receiver_state.specs.Rules.{rules_of};
ghost use Rattle.sender_submit_answer.specs.Answer.{chunks_of};
ghost use Rattle.sender_submit.specs.Submit.{submit_leaves, submit_of, submitted_out};
ghost use Rattle.sender_submit.specs.Steps.{Roomy};

use packets::Making;
use receiver_state::Receiver;
use sender_state::Sender;
use terms::{Refusal, StreamId};

// How many packets were made, and the state after the call, which a refusal leaves as it was.
#[derive(Clone, Copy)]
pub struct Submitted {
    pub answer: Result<u32, Refusal>,
    pub state: Sender,
}

// submit where nothing keeps it from being done: the ack fields are taken once.
#[tactic(auto, using(receiver_ack::proofs::Ways::bounded, crate::proofs::Ways::nacks_at, crate::proofs::Ways::stored_of))]
fn submit_done(
    s: Sender,
    r: &Receiver,
    send: StreamId,
    recv: StreamId,
    bytes: &[u8],
    store: &mut [u8],
) -> Sender
    requires { (rules_of r.now ≡ true) × (1 ≤ s.chunk) × Roomy s (chunks_of s.chunk (length bytes.now)) (length store.old) }
    ensures { record { state = result; store = store.new } ≡ submit_leaves s r.now send recv bytes.now store.old }
{
    let mut missing = [0; 512];
    let acks = receiver_ack::fields(r, &mut missing);
    let making = Making {
        acks,
        nacks: &missing[..acks.nacks],
        send,
        recv,
    };
    making.store_all(s, bytes, store)
}

// Cuts the bytes into chunks of the state's chunk size and stores a packet for each, numbered in order, in the lowest free places,
// ascending, as waiting; all of them or none. Each has the ids, the resend delay 0 and the ack fields of the receiver given, whose
// state stays as it is. Ports `packetize`. Refusals in document 01's order: 11 and 10 of both states, then 21, 19, 20, 18.
#[tactic(auto, using(crate::proofs::Ways::submit_fair), unfolding(crate::specs::Submit::submit_of))]
pub fn submit(
    s: Sender,
    r: &Receiver,
    send: StreamId,
    recv: StreamId,
    bytes: &[u8],
    store: &mut [u8],
) -> Submitted
    ensures { submitted_out result store.new ≡ submit_of s r.now send recv bytes.now store.old }
{
    let answer = sender_submit_answer::judge(&s, r, bytes.len(), store.len());
    let state = match answer {
        Err(_) => s,
        Ok(_) => submit_done(s, r, send, recv, bytes, store),
    };
    Submitted { answer, state }
}
