// acks: packets that arrived leave the table, and their samples the timing and the window.
ghost use Rattle.std.specs.Prelude.{◌≡◌, true, [], ◌∷◌, ◌+◌, ◌-◌, ◌<◌, min, eqb, length};
ghost use Rattle.terms.specs.Ladder.{◌when◌else◌};
ghost use Rattle.terms.specs.Answers.{values, said};
ghost use Rattle.timer.specs.Timer.{sampled_of};
ghost use Rattle.timer.specs.Window.{grown_of};
ghost use Rattle.sender_state.specs.Rules.{rules};
ghost use Rattle.sender_state.specs.Table.{one_if};
ghost use Rattle.sender_state.specs.Numbers.{numbers_where, marked_with};
ghost use Rattle.sender_state.specs.Steps.{Flags, Tidy};
ghost use Rattle.sender_acks.specs.Steps.{Measures};
ghost use Rattle.sender_acks.specs.Acks.{is_acked, acked_at, acks_refusal, measured_by, freed_by, acked_of, acks_leave, acked_out};

use super::{Acked, Measured};
use sender_state::Sender;
use terms::{Refusal, SeqNo};
use timer::Sampled;

// Whether a packet is acknowledged. The NACKs are searched only for a number in flight that ack-through reaches.
fn is_acked(number: u32, mark: u32, through: SeqNo, nacks: &[u32]) -> bool
    ensures { result ≡ is_acked through.0 nacks.now number mark }
{
    mark == 2 && number <= through.0 && sender_state::absent(nacks, number)
}

// The flags of the places whose packets are acknowledged.
fn acked_flags(s: &Sender, through: SeqNo, nacks: &[u32]) -> [u32; 192]
    ensures { Flags (acked_at s.now.numbers s.now.marks through.0 nacks.now) result }
{
    let mut flags = [0u32; 192];
    for i in 0..192 {
        flags[i] = u32::from(is_acked(s.numbers[i], s.marks[i], through, nacks));
    }
    flags
}

// A sample: how long ago the packet was sent, at most 4,294,967,295.
fn sample(clock: u64, sent: u64) -> u32
    ensures { result ≡ min (clock - sent) 4294967295 }
{
    clock.saturating_sub(sent).min(4294967295) as u32
}

// The timing with one sample more, unless the packet was sent more than once: an ack may be for its first copy, so its age says nothing.
fn timed(timing: Option<Sampled>, sample: u32, resent: u32) -> Option<Sampled>
    ensures { result ≡ (timing when eqb resent 1 else sampled_of timing sample) }
{
    if resent == 1 {
        timing
    } else {
        Sampled::sampled(timing, sample)
    }
}

// One packet more.
fn measure_one(m: Measured, sample: u32, resent: u32) -> Measured
    requires { m.count < 4294967295 }
    ensures { result ≡ record { timing = m.timing when eqb resent 1 else sampled_of m.timing sample; window = grown_of m.window; count = m.count + 1 } }
{
    Measured {
        timing: timed(m.timing, sample, resent),
        window: timer::window_grown(m.window),
        count: m.count + 1,
    }
}

// Smooths with the sample of each flagged number, ascending, and grows the window after each. Ports the loop of `handle_acks`.
#[tactic(auto, using(crate::proofs::Tables::measure_place, crate::proofs::Tables::measure_end))]
fn measure(s: &Sender, flags: &[u32; 192], clock: u64) -> Measured
    requires { Tidy s.now.numbers flags.now 1 s.now.next.0 }
    ensures { Measures (measured_by s.now.numbers s.now.sent s.now.resent clock) s.now.timing s.now.window
        (numbers_where s.now.numbers s.now.next.0 (marked_with 1 flags.now)) result }
{
    let mut m = Measured {
        timing: s.timing,
        window: s.window,
        count: 0,
    };
    let mut from = 0;
    while let Some(number) = sender_state::least(&s.numbers, flags, 1, from) {
        let at = sender_state::place_of(&s.numbers, number);
        m = measure_one(m, sample(clock, s.sent[at]), s.resent[at]);
        from = number + 1;
    }
    m
}

// What keeps acks from being done: the first refusal that applies, in document 01's order.
#[tactic(auto, unfolding(crate::specs::Acks::acks_refusal))]
pub(super) fn judge_acks(
    s: &Sender,
    through: SeqNo,
    nack_count: usize,
    clock: u64,
) -> Result<(), Refusal>
    ensures { said result ≡ acks_refusal s.now through.0 nack_count clock }
{
    if !sender_check::valid(s) {
        return Err(Refusal::StateBroken);
    }
    if !sender_state::counts_fit(s.chunk, s.count) {
        return Err(Refusal::SizeWrong);
    }
    if sender_state::clock_wrong(s.clock, clock) {
        return Err(Refusal::ClockWrong);
    }
    if nack_count > 255 {
        return Err(Refusal::NacksMany);
    }
    if through > s.next {
        return Err(Refusal::AckBeyond);
    }
    Ok(())
}

// The state with new timing and window at a clock, and each flagged place freed.
fn freed(s: Sender, flags: &[u32; 192], timing: Option<Sampled>, window: u32, clock: u64) -> Sender
    ensures { result ≡ freed_by s timing window clock (marked_with 1 flags.now) }
{
    let mut after = Sender {
        timing,
        window,
        clock,
        ..s
    };
    sender_state::replace(&mut after.numbers, flags, 0);
    sender_state::replace(&mut after.lengths, flags, 0);
    sender_state::replace(&mut after.sent, flags, 0);
    sender_state::replace(&mut after.resent, flags, 0);
    sender_state::replace(&mut after.marks, flags, 0);
    after
}

// acks where nothing keeps it from being done.
pub(super) fn acks_done(s: Sender, through: SeqNo, nacks: &[u32], clock: u64) -> Acked
    requires { rules s ≡ true }
    ensures { acked_out result ≡ record {
      says = values (length (acked_of s through.0 nacks.now) ∷ []);
      state = acks_leave s through.0 nacks.now clock;
      lent = [];
    } }
{
    let flags = acked_flags(&s, through, nacks);
    let m = measure(&s, &flags, clock);
    Acked {
        answer: Ok(m.count),
        state: freed(s, &flags, m.timing, m.window, clock),
    }
}
