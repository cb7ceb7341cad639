// accept and take on a receiver that is lent and changed in place. Each promises of what lies behind the reference what the call by
// value promises of the state that it is given and gives back; a refused call leaves it as it was.
// There are two forms with one promise: `accept` and `take` stand over the calls by value, and copy the state out and in; `accept_lent`
// and `take_lent`, for hosts, lend the state to the body that the calls by value use, and copy nothing of it.
#![tactic(auto)]

ghost use Rattle.std.specs.Prelude.{◌≡◌};
ghost use Rattle.receiver_calls.specs.Accept.{accept_of, accepted_behind};
ghost use Rattle.receiver_calls.specs.Take.{take_of, took_behind};

use receiver_state::Receiver;
use terms::{Refusal, SeqNo};

// Accepts a packet's payload under its number, over `receiver_calls::accept`.
pub fn accept(
    r: &mut Receiver,
    number: SeqNo,
    payload: &[u8],
    store: &mut [u8],
) -> Result<(), Refusal>
    ensures { accepted_behind result r.new store.new ≡ accept_of r.old number payload.now store.old }
{
    let accepted = receiver_calls::accept(*r, number, payload, store);
    *r = accepted.state;
    accepted.answer
}

// The same, over `receiver_calls::accept_in`, which is lent the state where it lies.
pub fn accept_lent(
    r: &mut Receiver,
    number: SeqNo,
    payload: &[u8],
    store: &mut [u8],
) -> Result<(), Refusal>
    ensures { accepted_behind result r.new store.new ≡ accept_of r.old number payload.now store.old }
{
    receiver_calls::accept_in(r, number, payload, store)
}

// Takes the next payload, if it is held, over `receiver_calls::take`.
pub fn take(r: &mut Receiver, store: &[u8], output: &mut [u8]) -> Result<usize, Refusal>
    ensures { took_behind result r.new output.new ≡ take_of r.old store.now output.old }
{
    let taken = receiver_calls::take(*r, store, output);
    *r = taken.state;
    taken.answer
}

// The same, over `receiver_calls::take_in`, which is lent the state where it lies.
pub fn take_lent(r: &mut Receiver, store: &[u8], output: &mut [u8]) -> Result<usize, Refusal>
    ensures { took_behind result r.new output.new ≡ take_of r.old store.now output.old }
{
    receiver_calls::take_in(r, store, output)
}
