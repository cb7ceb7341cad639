// acks: packets that arrived leave flight, and their samples the timing and the window. Ports `handle_acks`: an explicit step with the
// clock as an input.
#![tactic(auto)]

mod acking;

ghost use Rattle.std.specs.Prelude.{◌≡◌};
ghost use Rattle.sender_acks.specs.Acks.{acks_of, acked_out};

use sender_state::Sender;
use terms::{Refusal, SeqNo};
use timer::Sampled;

// How many packets left, beside the state after the call, which a refusal leaves as it was.
#[derive(Clone, Copy)]
pub struct Acked {
    pub answer: Result<u32, Refusal>,
    pub state: Sender,
}

// What acknowledged packets make of timing and window, and how many there were.
#[derive(Clone, Copy, Debug, PartialEq, Eq)]
pub struct Measured {
    pub timing: Option<Sampled>,
    pub window: u32,
    pub count: u32,
}

// Takes every number at most ack-through and not NACKed out of flight, ascending. Each grows the window, and is measured unless it was
// sent more than once. Ports `handle_acks`, mended by Karn's rule (RFC 6298, section 3). It leaves the timer.
#[tactic(auto, using(crate::proofs::Freeing::acks_rules), unfolding(crate::specs::Acks::acks_of))]
pub fn acks(s: Sender, ack_through: SeqNo, nacks: &[u32], clock: u64) -> Acked
    ensures { acked_out result ≡ acks_of s ack_through.0 nacks.now clock }
{
    match acking::judge_acks(&s, ack_through, nacks.len(), clock) {
        Err(why) => Acked {
            answer: Err(why),
            state: s,
        },
        Ok(()) => acking::acks_done(s, ack_through, nacks, clock),
    }
}
