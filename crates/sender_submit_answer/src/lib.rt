// What submit answers, before anything is written: it looks at both states and at two lengths. The packets are made in `sender_submit`.
#![tactic(auto)]

ghost use Rattle.std.specs.Prelude.{◌≡◌, ◌≤◌};
ghost use Rattle.terms.specs.Answers.{said_of};
ghost use Rattle.sender_submit_answer.specs.Answer.{chunks_of, submit_said};

use receiver_state::Receiver;
use sender_state::Sender;
use terms::Refusal;

// How many chunks so many bytes make.
#[tactic(auto, using(crate::proofs::Lengths::ceiling, crate::proofs::Lengths::chunks_some, crate::proofs::Lengths::chunks_most))]
fn chunk_count(chunk: u32, size: usize) -> usize
    requires { (1 ≤ chunk) × (1 ≤ size) }
    ensures value { result ≡ chunks_of chunk size }
    ensures some { 1 ≤ result }
    ensures most { result ≤ size }
{
    size.div_ceil(chunk as usize)
}

// What submit answers: the first refusal that applies, in document 01's order, or how many packets it makes.
#[tactic(auto, unfolding(crate::specs::Answer::submit_said, sender_state::specs::Rules::sizes_fit, sender_state::specs::Rules::counts_fit))]
pub fn judge(s: &Sender, r: &Receiver, size: usize, store_length: usize) -> Result<u32, Refusal>
    ensures { said_of result ≡ submit_said s.now r.now size store_length }
{
    if !(sender_check::valid(s) && receiver_state::rules_hold(r)) {
        return Err(Refusal::StateBroken);
    }
    if !(sender_state::sizes_fit(s.chunk, s.count, store_length)
        && receiver_state::slot_fits(r.head.slot))
    {
        return Err(Refusal::SizeWrong);
    }
    if sender_state::count_of(&s.marks, 1) > 0 {
        return Err(Refusal::PacketsWait);
    }
    if (size == 0) | (size > 65535) {
        return Err(Refusal::SubmitLength);
    }
    let packets = chunk_count(s.chunk, size);
    if s.next.0 as usize + (packets - 1) >= 4294967295 {
        return Err(Refusal::NumbersSpent);
    }
    if sender_state::count_of(&s.marks[..s.count as usize], 0) < packets {
        return Err(Refusal::SlotsFew);
    }
    Ok(packets as u32)
}
