// Whether a sender's state keeps document 01's rules: what stands behind refusal 11, and what each call asks first.
#![tactic(auto)]

ghost use Rattle.std.specs.Prelude.{◌≡◌, true, ◌≤◌, ◌<◌, length};
ghost use Rattle.timer.specs.Timer.{timing_fits};
ghost use Rattle.sender_state.specs.Places.{places_of};
ghost use Rattle.sender_state.specs.Rules.{timer_fits, rules};
ghost use Rattle.sender_check.specs.Steps.{every, alone_at, place_holds, holds_at};

use sender_state::{Place, Sender};
use terms::SeqNo;
use timer::Sampled;

// What the rules of a place are judged by. The bound is next, or the lowest waiting number where that is below it.
#[derive(Clone, Copy, Debug, PartialEq, Eq)]
pub struct Limits {
    pub chunk: u32,
    pub count: u32,
    pub next: SeqNo,
    pub bound: SeqNo,
    pub clock: u64,
}

// Whether the number at index i is 0 or stands at no index below.
#[tactic(auto, unfolding(crate::specs::Steps::alone_at))]
fn alone(numbers: &[u32], i: usize) -> bool
    requires { i < length numbers.now }
    ensures { result ≡ alone_at numbers.now i }
{
    let x = numbers[i];
    if x == 0 {
        return true;
    }
    sender_state::absent(&numbers[0..i], x)
}

// A quick test that tells, where it passes, that no number but 0 stands twice: each has a remainder by 2,048 of its own. The numbers of
// a stream lie close together, so its states pass, and the long comparison is for those that do not.
#[tactic(auto, using(crate::proofs::Buckets::spreads_start, crate::proofs::Buckets::spreads_more, crate::proofs::Buckets::spreads_end))]
fn spread(numbers: &[u32]) -> bool
    ensures { result ≡ true → every (length numbers.now) (alone_at numbers.now) ≡ true }
{
    let mut seen = [0u8; 2048];
    let mut ok = true;
    for x in numbers {
        let at = (*x % 2048) as usize;
        ok = ok & ((*x == 0) | (seen[at] == 0));
        seen[at] = 1;
    }
    ok
}

// Whether no number but 0 stands twice.
#[tactic(auto, using(crate::proofs::Every::every_none, crate::proofs::Every::every_more))]
fn all_alone(numbers: &[u32]) -> bool
    ensures { result ≡ every (length numbers.now) (alone_at numbers.now) }
{
    if spread(numbers) {
        return true;
    }
    let mut ok = true;
    for i in 0..numbers.len() {
        ok = ok & alone(numbers, i);
    }
    ok
}

// Whether one place keeps its own rules. The lengths are compared in 64 bits: the chunk size may be any number here.
#[tactic(auto, unfolding(crate::specs::Steps::place_holds))]
fn place_holds(l: Limits, i: usize, p: Place) -> bool
    ensures { result ≡ place_holds l i p }
{
    if p.mark == 0 {
        return (p.number.0 == 0) & ((p.size == 0) & ((p.sent == 0) & (p.resent == 0)));
    }
    if i >= l.count as usize {
        return false;
    }
    if p.number.0 < 1 {
        return false;
    }
    if p.size < 22 {
        return false;
    }
    if p.size as u64 > l.chunk as u64 + 1044 {
        return false;
    }
    if p.resent > 1 {
        return false;
    }
    if p.mark == 1 {
        return (p.sent == 0) & ((p.resent == 0) & (p.number.0 < l.next.0));
    }
    if p.mark > 2 {
        return false;
    }
    (p.number.0 < l.bound.0) & (p.sent <= l.clock)
}

// Whether each place keeps its own rules.
#[tactic(auto, using(crate::proofs::Every::every_none, crate::proofs::Every::every_more))]
fn places_hold(limits: Limits, s: &Sender) -> bool
    ensures { result ≡ every 192 (holds_at limits (places_of s.now)) }
{
    let mut ok = true;
    for i in 0..192 {
        let place = Place {
            number: SeqNo(s.numbers[i]),
            size: s.lengths[i],
            sent: s.sent[i],
            resent: s.resent[i],
            mark: s.marks[i],
        };
        ok = ok & place_holds(limits, i, place);
    }
    ok
}

// Whether an armed timer is at most 60,000 past the last clock, which is itself at most 10^15.
#[tactic(auto, unfolding(sender_state::specs::Rules::timer_fits))]
fn timer_fits(timer: Option<u64>, clock: u64) -> bool
    requires { clock ≤ 1000000000000000 }
    ensures { result ≡ timer_fits timer clock }
{
    match timer {
        None => true,
        Some(due) => due <= clock + 60000,
    }
}

// Whether the smoothed time and its deviation are below 2^32, as 32 bits always are.
#[tactic(auto, unfolding(timer::specs::Timer::timing_fits))]
fn timing_fits(timing: Option<Sampled>) -> bool
    ensures { result ≡ timing_fits timing }
{
    match timing {
        None => true,
        Some(Sampled { rtt, deviation }) => {
            ((rtt as u64) < 4294967296) & ((deviation as u64) < 4294967296)
        }
    }
}

// Whether a state keeps document 01's rules: what stands behind refusal 11, here and in the calls above, each of which asks it first.
// Each part is a pass over the table without an early way out.
pub fn valid(s: &Sender) -> bool
    ensures { result ≡ rules s.now }
{
    if s.next.0 < 1 {
        return false;
    }
    if s.window < 1 {
        return false;
    }
    if s.window > 128 {
        return false;
    }
    if s.clock > 1000000000000000 {
        return false;
    }
    if !timer_fits(s.timer, s.clock) {
        return false;
    }
    if !timing_fits(s.timing) {
        return false;
    }
    if sender_state::count_of(&s.marks, 2) > 128 {
        return false;
    }
    if !all_alone(&s.numbers) {
        return false;
    }
    let lowest = sender_state::least(&s.numbers, &s.marks, 1, 0).unwrap_or(s.next.0);
    let limits = Limits {
        chunk: s.chunk,
        count: s.count,
        next: s.next,
        bound: SeqNo(lowest.min(s.next.0)),
        clock: s.clock,
    };
    places_hold(limits, s)
}
