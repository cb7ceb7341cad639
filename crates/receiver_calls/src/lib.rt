// The receiving half of a stream: packets are accepted in any order, and their payloads taken in the order of their numbers.
// Ports `InboundContext`.
#![tactic(auto)]

ghost use Rattle.std.specs.Prelude.{◌≡◌};
ghost use Rattle.terms.specs.Answers.{said, said_of};
ghost use Rattle.receiver_calls.specs.Accept.{accept_said, accept_of, accepted, accepted_behind};
ghost use Rattle.receiver_calls.specs.Take.{take_said, take_of, took, took_behind};

use receiver_state::Receiver;
use terms::{Refusal, SeqNo};

// The answer of each call stands beside the state after it, which a refusal leaves as it was.
#[derive(Clone, Copy)]
pub struct Accepted {
    pub answer: Result<(), Refusal>,
    pub state: Receiver,
}

#[derive(Clone, Copy)]
pub struct Taken {
    pub answer: Result<usize, Refusal>,
    pub state: Receiver,
}

// What accept answers: the first refusal that applies, in document 01's order, or that it is done.
#[tactic(auto, unfolding(crate::specs::Accept::accept_said))]
fn judge_accept(
    r: &Receiver,
    number: SeqNo,
    size: usize,
    store_length: usize,
) -> Result<(), Refusal>
    ensures { said result ≡ accept_said r.now number size store_length }
{
    let n = number.0;
    let next = r.head.next.0;
    let slot = r.head.slot;
    if !receiver_state::rules_hold(r) {
        return Err(Refusal::StateBroken);
    }
    if !receiver_state::sizes_fit(slot, store_length) {
        return Err(Refusal::SizeWrong);
    }
    if n == 4294967295 {
        return Err(Refusal::LastNumber);
    }
    if n < next {
        return Err(Refusal::BelowNext);
    }
    if n - next >= 512 {
        return Err(Refusal::BeyondSpan);
    }
    let place = (n % 512) as usize;
    if r.marks[place] != 0 {
        return Err(Refusal::AlreadyHeld);
    }
    if size > slot as usize {
        return Err(Refusal::PayloadLong);
    }
    Ok(())
}

// accept on a state that is lent: the one body behind the call by value and the one in place.
#[tactic(auto, using(crate::proofs::Outcomes::room_for), unfolding(crate::specs::Accept::accept_of, crate::specs::Accept::entering))]
pub fn accept_in(
    r: &mut Receiver,
    number: SeqNo,
    payload: &[u8],
    store: &mut [u8],
) -> Result<(), Refusal>
    ensures { accepted_behind result r.new store.new ≡ accept_of r.old number payload.now store.old }
{
    judge_accept(r, number, payload.len(), store.len())?;
    let at = (number.0 % 512) as usize;
    let from = at * r.head.slot as usize;
    wire::put_bytes(&mut store[from..], payload);
    r.marks[at] = (payload.len() + 1) as u16;
    r.head.highest = r.head.highest.max(number);
    Ok(())
}

// Accepts a packet's payload under its number. Ports `InboundContext::handle_packet`, mended: an empty payload is held like any
// other, and a repeat changes nothing.
pub fn accept(r: Receiver, number: SeqNo, payload: &[u8], store: &mut [u8]) -> Accepted
    ensures { accepted result store.new ≡ accept_of r number payload.now store.old }
{
    let mut state = r;
    let answer = accept_in(&mut state, number, payload, store);
    Accepted { answer, state }
}

// What take answers: the first refusal that applies, in document 01's order, or how many bytes it copies.
#[tactic(auto, unfolding(crate::specs::Take::take_said))]
fn judge_take(r: &Receiver, store_length: usize, room: usize) -> Result<usize, Refusal>
    ensures { said_of result ≡ take_said r.now store_length room }
{
    if !receiver_state::rules_hold(r) {
        return Err(Refusal::StateBroken);
    }
    if !receiver_state::sizes_fit(r.head.slot, store_length) {
        return Err(Refusal::SizeWrong);
    }
    let place = (r.head.next.0 % 512) as usize;
    let mark = r.marks[place];
    if mark == 0 {
        return Err(Refusal::NothingThere);
    }
    let size = (mark - 1) as usize;
    if size > room {
        return Err(Refusal::OutputShort);
    }
    Ok(size)
}

// take on a state that is lent: the one body behind the call by value and the one in place.
#[tactic(auto, using(crate::proofs::Outcomes::held_for), unfolding(crate::specs::Take::take_of, crate::specs::Take::passing))]
pub fn take_in(r: &mut Receiver, store: &[u8], output: &mut [u8]) -> Result<usize, Refusal>
    ensures { took_behind result r.new output.new ≡ take_of r.old store.now output.old }
{
    let size = judge_take(r, store.len(), output.len())?;
    let next = r.head.next.0;
    let at = (next % 512) as usize;
    let from = at * r.head.slot as usize;
    wire::put_bytes(output, &store[from..from + size]);
    r.marks[at] = 0;
    r.head.next = SeqNo(next + 1);
    Ok(size)
}

// Takes the next payload, if it is held: copies it to the output's front and frees its slot. Ports `InboundContext::pop_message`.
pub fn take(r: Receiver, store: &[u8], output: &mut [u8]) -> Taken
    ensures { took result output.new ≡ take_of r store.now output.old }
{
    let mut state = r;
    let answer = take_in(&mut state, store, output);
    Taken { answer, state }
}
