// The receiving half's state: a table of 512 marks beside a store that the host lends, the rules behind refusal 11, and start.
// Ports what `InboundContext` keeps. Its `BTreeMap`, `BTreeSet` and `VecDeque` become that table.
#![tactic(auto)]

ghost use Rattle.std.specs.Prelude.{◌≡◌, ◌&&◌, ◌||◌, ◌+◌, ◌-◌, ◌≤◌, [], eqb, length};
ghost use Rattle.terms.specs.Answers.{refusal};
ghost use Rattle.terms.specs.Refusals.{number_of};
ghost use Rattle.terms.specs.Lists.{all, each};
ghost use Rattle.receiver_state.specs.Slots.{is_held, mark_of, at_most, banded_of};
ghost use Rattle.receiver_state.specs.Rules.{free_outside, length_at_most, rules_of, numbers_of, slot_fits, sizes_fit};
ghost use Rattle.receiver_state.specs.Start.{nothing_held, unusable, start_of, started};

use terms::{Refusal, SeqNo};

// What a receiver keeps beside its table.
#[repr(C)]
#[derive(Clone, Copy)]
pub struct Head {
    // the slot size S
    pub slot: u32,
    // the number that the start came after
    pub start: SeqNo,
    // the next number to take
    pub next: SeqNo,
    // the highest number accepted, or the one that the start came after
    pub highest: SeqNo,
}

// The state. A mark says all of its slot: 0 where it is free, and a held payload's length and one, so that a length on a free slot
// cannot be written down. It is a number, and no Option: hosts in C see the struct.
#[repr(C)]
#[derive(Clone, Copy)]
pub struct Receiver {
    pub head: Head,
    pub marks: [u16; 512],
}

// What start leaves; a refused start has no state to leave, and gives one that every later call refuses with 11. So the state stands
// beside the answer, and not within it.
#[derive(Clone, Copy)]
pub struct Started {
    pub answer: Result<(), Refusal>,
    pub state: Receiver,
}

// Whether each mark is at most top. One flag and no early way out: the loop becomes vector code, of 16 bits a mark.
fn within(marks: &[u16], top: u64) -> bool
    ensures { result ≡ all (at_most top) marks.now }
{
    let most = top.min(65535) as u16;
    let mut ok = true;
    for &mark in marks {
        ok &= mark <= most;
    }
    ok
}

// Whether each mark from index from up to index to is at most inner, and each other at most outer. Each is touched once.
fn banded(marks: &[u16; 512], from: usize, to: usize, inner: u64, outer: u64) -> bool
    requires { (from ≤ to) × (to ≤ 512) }
    ensures { result ≡ banded_of marks.now from to inner outer }
{
    let before = within(&marks[..from], outer);
    let inside = within(&marks[from..to], inner);
    let after = within(&marks[to..], outer);
    before & inside & after
}

// Whether nothing is held outside next to highest and no length is above the slot size. The slots of the numbers from next to highest are
// one run of the table, or one at its end and one at its front.
#[tactic(auto, using(crate::proofs::Bands::one_run, crate::proofs::Bands::two_runs))]
fn slots_hold(r: &Receiver) -> bool
    requires { (r.now.head.next.0 ≤ r.now.head.highest.0 + 1) × (r.now.head.highest.0 ≤ r.now.head.next.0 + 511) × (r.now.head.highest.0 ≤ 4294967294) }
    ensures { result ≡ (each (free_outside r.now.head.next.0 r.now.head.highest.0) 0 r.now.marks && all (length_at_most r.now.head.slot) r.now.marks) }
{
    let next = r.head.next.0;
    let first = (next % 512) as usize;
    let end = first + (r.head.highest.0 + 1 - next) as usize;
    let top = r.head.slot as u64 + 1;
    if end <= 512 {
        banded(&r.marks, first, end, top, 0)
    } else {
        banded(&r.marks, end - 512, first, 0, top)
    }
}

// Whether highest is held, unless it is next - 1.
fn highest_held(r: &Receiver) -> bool
    ensures { result ≡ (is_held (mark_of r.now.marks r.now.head.highest.0) || eqb r.now.head.highest.0 (r.now.head.next.0 - 1)) }
{
    let highest = r.head.highest.0;
    let at = (highest % 512) as usize;
    (r.marks[at] != 0) | (highest == r.head.next.0.saturating_sub(1))
}

// The rules that need no table: next is at least 1 and above the start, and highest is from next - 1 to next + 511 and not the last number.
fn numbers_hold(h: Head) -> bool
    ensures { result ≡ numbers_of h }
{
    let next = u64::from(h.next.0);
    let highest = u64::from(h.highest.0);
    (next >= 1)
        & (h.start.0 < h.next.0)
        & (highest >= next.saturating_sub(1))
        & (highest <= next + 511)
        & (highest <= 4294967294)
}

// Whether a state keeps document 01's rules: what stands behind refusal 11, here and in the calls above that are given a receiver.
// It runs at every call, so each mark is touched once.
#[tactic(auto, using(crate::proofs::Facts::rules_grouped))]
pub fn rules_hold(r: &Receiver) -> bool
    ensures { result ≡ rules_of r.now }
{
    numbers_hold(r.head) && highest_held(r) && slots_hold(r)
}

// Whether the slot size is 1 to 1,812: the part of refusal 10 that needs no store.
#[tactic(auto, unfolding(crate::specs::Rules::slot_fits))]
pub fn slot_fits(slot: u32) -> bool
    ensures { result ≡ slot_fits slot }
{
    (1..=1812).contains(&slot)
}

// Whether the slot size is in range and the store has 512 slots of it.
#[tactic(auto, unfolding(crate::specs::Rules::sizes_fit))]
pub fn sizes_fit(slot: u32, store_length: usize) -> bool
    ensures { result ≡ sizes_fit slot store_length }
{
    slot_fits(slot) && store_length == 512 * slot as usize
}

// A state with nothing held.
fn empty(slot: u32, start: SeqNo, next: SeqNo) -> Receiver
    ensures { result ≡ nothing_held slot start next }
{
    Receiver {
        head: Head {
            slot,
            start,
            next,
            highest: start,
        },
        marks: [0; 512],
    }
}

// A start that is refused.
fn refused(why: Refusal) -> Started
    ensures { started result ≡ record { says = refusal (number_of why); state = unusable; lent = [] } }
{
    Started {
        answer: Err(why),
        state: empty(0, SeqNo(0), SeqNo(0)),
    }
}

// Starts a receiver after the number s. Ports `InboundContext::new`. The store is lent so that its length is checked.
#[tactic(auto, unfolding(crate::specs::Start::start_said))]
pub fn start(s: SeqNo, slot: u32, store: &[u8]) -> Started
    ensures { started result ≡ start_of s slot (length store.now) }
{
    if !sizes_fit(slot, store.len()) {
        return refused(Refusal::SizeWrong);
    }
    if s.0 == 4294967295 {
        return refused(Refusal::LastNumber);
    }
    let first = SeqNo(s.0 + 1);
    Started {
        answer: Ok(()),
        state: empty(slot, s, first),
    }
}
