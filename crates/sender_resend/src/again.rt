// resend: packets that are too old are stamped anew.
ghost use Rattle.std.specs.Prelude.{◌≡◌, true, [], ◌∷◌, ℕ, ◌≤◌, ◌<◌};
ghost use Rattle.terms.specs.Answers.{values, said};
ghost use Rattle.timer.specs.Timer.{rto_of};
ghost use Rattle.sender_state.specs.Rules.{rules};
ghost use Rattle.sender_state.specs.Table.{◌!◌};
ghost use Rattle.sender_state.specs.Steps.{Flags, Tidy};
ghost use Rattle.sender_resend.specs.Steps.{Expires, flying_below};
ghost use Rattle.sender_resend.specs.Resend.{is_due, resend_refusal, timed_at, resent_by, resend_count, resend_leaves, resent_out};

use super::{Expired, Resent};
use sender_state::Sender;
use terms::Refusal;
use timer::Sampled;

// The longest run from the lowest in-flight number with age strictly above rto, at most window many.
fn find_expired(s: &Sender, clock: u64, rto: u64) -> Expired
    requires tidy { Tidy s.now.numbers s.now.marks 2 s.now.next.0 }
    requires past { (i : ℕ) → i < 192 → s.now.sent ! i ≤ clock }
    ensures { Expires s.now.numbers s.now.sent s.now.marks s.now.next.0 clock rto s.now.window result }
{
    let mut end = 0;
    for count in 0..s.window {
        let Some(number) = sender_state::least(&s.numbers, &s.marks, 2, end) else {
            return Expired { count, end };
        };
        let at = sender_state::place_of(&s.numbers, number);
        if clock - s.sent[at] <= rto {
            return Expired { count, end };
        }
        end = number + 1;
    }
    Expired {
        count: s.window,
        end,
    }
}

// Whether the timer is armed and the clock at or past it.
#[tactic(auto, unfolding(crate::specs::Resend::is_due))]
fn due(timer: Option<u64>, clock: u64) -> bool
    ensures { result ≡ is_due timer clock }
{
    timer.is_some_and(|at| at <= clock)
}

// What keeps resend from being done: the first refusal that applies, in document 01's order.
#[tactic(auto, unfolding(crate::specs::Resend::resend_refusal))]
pub(super) fn judge_resend(s: &Sender, clock: u64) -> Result<(), Refusal>
    ensures { said result ≡ resend_refusal s.now clock }
{
    if !sender_check::valid(s) {
        return Err(Refusal::StateBroken);
    }
    if !sender_state::counts_fit(s.chunk, s.count) {
        return Err(Refusal::SizeWrong);
    }
    if sender_state::clock_wrong(s.clock, clock) {
        return Err(Refusal::ClockWrong);
    }
    if !due(s.timer, clock) {
        return Err(Refusal::TimerEarly);
    }
    Ok(())
}

// The flags of the places in flight with numbers below end. Both tests are made at each place: the loop becomes vector code.
fn flags_below(s: &Sender, end: u32) -> [u32; 192]
    ensures { Flags (flying_below s.now.numbers s.now.marks end) result }
{
    let mut flags = [0u32; 192];
    for i in 0..192 {
        flags[i] = u32::from((s.marks[i] == 2) & (s.numbers[i] < end));
    }
    flags
}

// The state after resending what is in flight below end: send times, and the marks of what was sent more than once. RTT and RTO become unsampled, so the
// Rust's `exponential_backoff`, which multiplies a sampled RTO, is left out: `resend` resets the RTO just before it.
fn stamped(s: Sender, end: u32, clock: u64) -> Sender
    requires { clock ≤ 1000000000000000 }
    ensures { result ≡ resent_by s clock (flying_below s.numbers s.marks end) }
{
    let again = flags_below(&s, end);
    let mut after = Sender {
        window: timer::window_fallen(s.window),
        timing: None,
        timer: Some(clock + 9000),
        clock,
        ..s
    };
    sender_state::replace(&mut after.sent, &again, clock);
    sender_state::replace(&mut after.resent, &again, 1);
    after
}

// resend where nothing keeps it from being done.
pub(super) fn resend_done(s: Sender, clock: u64, path: bool) -> Resent
    requires { (rules s ≡ true) × (s.clock ≤ clock) × (clock ≤ 1000000000000000) }
    ensures { resent_out result ≡ record { says = values (resend_count s clock path ∷ []); state = resend_leaves s clock path; lent = [] } }
{
    if sender_state::least(&s.numbers, &s.marks, 2, 0).is_none() {
        return Resent {
            answer: Ok(0),
            state: Sender {
                timer: None,
                clock,
                ..s
            },
        };
    }
    let rto = Sampled::rto(s.timing);
    let found = find_expired(&s, clock, rto);
    if (found.count == 0) | !path {
        return Resent {
            answer: Ok(0),
            state: Sender {
                timer: Some(clock + rto),
                clock,
                ..s
            },
        };
    }
    Resent {
        answer: Ok(found.count),
        state: stamped(s, found.end, clock),
    }
}
