// resend: packets that are too old are stamped anew. Ports `resend`: an explicit step with the clock and the path as inputs.
#![tactic(auto)]

mod again;

ghost use Rattle.std.specs.Prelude.{◌≡◌};
ghost use Rattle.sender_resend.specs.Resend.{resend_of, resent_out};

use sender_state::Sender;
use terms::Refusal;

// How many packets are to be sent again, beside the state after the call, which a refusal leaves as it was.
#[derive(Clone, Copy)]
pub struct Resent {
    pub answer: Result<u32, Refusal>,
    pub state: Sender,
}

// The expired packets: how many, and that they are those in flight with numbers below end.
#[derive(Clone, Copy, Debug, PartialEq, Eq)]
pub struct Expired {
    pub count: u32,
    pub end: u32,
}

// When the timer is due, tells how many of the lowest packets in flight have expired and are to be sent again, and stamps them with
// the clock; fetch by rank gives them. Ports `resend`.
#[tactic(auto, using(crate::proofs::Resending::resend_fair), unfolding(crate::specs::Resend::resend_of))]
pub fn resend(s: Sender, clock: u64, path: bool) -> Resent
    ensures { resent_out result ≡ resend_of s clock path }
{
    match again::judge_resend(&s, clock) {
        Err(why) => Resent {
            answer: Err(why),
            state: s,
        },
        Ok(()) => again::resend_done(s, clock, path),
    }
}
