// Why a piece is not delivered: of any receiver and any number, where the number stands. For support.
#![tactic(auto)]

ghost use Rattle.std.specs.Prelude.{◌≡◌, ◌+◌, ◌≤◌};
ghost use Rattle.receiver_why.specs.Reasons.{smallest_missing, why_of, said_why};

use receiver_state::Receiver;
use terms::{Refusal, SeqNo};

// Where a number stands. The words are document 02's, request [6].
#[derive(Clone, Copy, Debug, PartialEq, Eq)]
pub enum Reason {
    // the unusable last number
    LastNumber,
    // at or below the start
    AtOrBelowStart,
    // taken
    Taken,
    // held with nothing missing below it
    Ready,
    // held behind a gap, whose smallest missing number this is
    BehindGap(SeqNo),
    // missing: not above highest, and not held
    Missing,
    // not yet seen: above highest, but less than 512 from the next to take
    NotYetSeen,
    // beyond the span
    BeyondSpan,
}

// The smallest number from next on that is not held; where all of them up to highest are, the one above highest.
fn first_missing(r: &Receiver) -> SeqNo
    requires { (r.now.head.next.0 ≤ r.now.head.highest.0 + 1) × (r.now.head.highest.0 ≤ 4294967294) }
    ensures { result.0 ≡ smallest_missing r.now }
{
    let next = r.head.next.0;
    let end = r.head.highest.0 + 1;
    for number in next..end {
        if r.marks[(number % 512) as usize] == 0 {
            return SeqNo(number);
        }
    }
    SeqNo(end)
}

// Says where a number stands in a receiver, which it leaves as it was. Refusals: 11, then 10 for the slot size; no store is lent.
#[tactic(auto, unfolding(crate::specs::Reasons::why_of, crate::specs::Reasons::case_of))]
pub fn why(r: &Receiver, n: SeqNo) -> Result<Reason, Refusal>
    ensures { said_why result ≡ why_of r.now n }
{
    let next = r.head.next;
    if !receiver_state::rules_hold(r) {
        return Err(Refusal::StateBroken);
    }
    if !receiver_state::slot_fits(r.head.slot) {
        return Err(Refusal::SizeWrong);
    }
    if n.0 == 4294967295 {
        return Ok(Reason::LastNumber);
    }
    if n <= r.head.start {
        return Ok(Reason::AtOrBelowStart);
    }
    if n < next {
        return Ok(Reason::Taken);
    }
    if n.0 - next.0 >= 512 {
        return Ok(Reason::BeyondSpan);
    }
    if n > r.head.highest {
        return Ok(Reason::NotYetSeen);
    }
    if r.marks[(n.0 % 512) as usize] == 0 {
        return Ok(Reason::Missing);
    }
    let gap = first_missing(r);
    if gap < n {
        return Ok(Reason::BehindGap(gap));
    }
    Ok(Reason::Ready)
}
