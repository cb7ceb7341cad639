// The sending half's state: 192 places for packets beside a store that the host lends, the searches in its table, and start.
// Ports what `Stream` keeps for sending. Its two `BTreeMap`s, of pending and of unacked packets, become one table.
#![tactic(auto)]

ghost use Rattle.std.specs.Prelude.{◌≡◌, ◌==◌, length, position};
ghost use Rattle.terms.specs.Lists.{all};
ghost use Rattle.sender_state.specs.Table.{count_of, place_of, differs, replaced};
ghost use Rattle.sender_state.specs.Numbers.{marked_with};
ghost use Rattle.sender_state.specs.Steps.{candidate_of, lowest_of};
ghost use Rattle.sender_state.specs.Rules.{counts_fit, sizes_fit, clock_wrong};
ghost use Rattle.sender_state.specs.Start.{nothing_stored, start_of, started};

use terms::{Refusal, SeqNo};
use timer::Sampled;

// What one place holds: a packet's number and length, when it was last sent, whether it was sent more than once (0 or 1), and the place's mark.
// The state has a list for each; this is one place of them, for a function that looks at it.
#[derive(Clone, Copy, Debug, PartialEq, Eq)]
pub struct Place {
    pub number: SeqNo,
    pub size: u32,
    pub sent: u64,
    pub resent: u32,
    // 0 free, 1 waiting, 2 in flight
    pub mark: u32,
}

// The state. Place i is the store's bytes from i times the chunk size and 1,044; what it holds stands at index i of each array.
// Numbers, lengths and marks are 32 bits wide each, so that one vector instruction compares as many of each.
// A list for each, and not one of `Place`s, which was tried: a search (`absent` and `least`) then took 0.17 microseconds and not 0.08, and acks ask for one for each packet.
// Marks and what was resent are numbers and no enum or `bool`: a caller may hand in a state with any other value, and is promised refusal 11 for it.
#[derive(Clone, Copy)]
pub struct Sender {
    // the chunk size C
    pub chunk: u32,
    // the slot count K
    pub count: u32,
    // the number that the next packet gets
    pub next: SeqNo,
    pub window: u32,
    pub timing: Option<Sampled>,
    // when resending is due, where that is armed; stands for the Rust's `rto_timer`
    pub timer: Option<u64>,
    // the last accepted clock
    pub clock: u64,
    pub numbers: [u32; 192],
    pub lengths: [u32; 192],
    pub sent: [u64; 192],
    // 1 where the packet was sent more than once
    pub resent: [u32; 192],
    // 0 free, 1 waiting, 2 in flight
    pub marks: [u32; 192],
}

// What start leaves; a refused start has no state to leave, and gives one that every later call refuses with 11.
#[derive(Clone, Copy)]
pub struct Started {
    pub answer: Result<(), Refusal>,
    pub state: Sender,
}

// Whether x stands nowhere in the list. One flag and no early way out: the loop becomes vector code.
pub fn absent(list: &[u32], x: u32) -> bool
    ensures { result ≡ all (differs x) list.now }
{
    let mut ok = true;
    for y in list {
        ok = ok & (*y != x);
    }
    ok
}

// How many places bear the mark.
#[tactic(auto, using(crate::proofs::Folds::count_more, crate::proofs::Folds::one_most))]
pub fn count_of(marks: &[u32], wanted: u32) -> usize
    ensures { result ≡ count_of wanted marks.now }
{
    let mut n = 0;
    for mark in marks {
        n += usize::from(*mark == wanted);
    }
    n
}

// A number that may be the lowest one sought, or else the largest there is.
#[tactic(auto, unfolding(crate::specs::Steps::candidate_of))]
fn candidate(number: u32, mark: u32, wanted: u32, from: u32) -> u32
    ensures { result ≡ candidate_of number mark wanted from }
{
    if mark != wanted {
        return 4294967295;
    }
    if number < from {
        return 4294967295;
    }
    number
}

// The lowest number from `from` on whose place bears the mark. 4,294,967,295, which no valid state holds, is none: the least of none, so that one vector
// instruction compares as many of each.
// The Rust's maps are ordered; here the order is found by asking for the lowest number above the last.
#[tactic(auto, using(crate::proofs::Folds::least_more))]
pub fn least(numbers: &[u32; 192], marks: &[u32; 192], wanted: u32, from: u32) -> Option<u32>
    ensures { result ≡ lowest_of numbers.now marks.now wanted from }
{
    let mut low: u32 = 4294967295;
    for i in 0..192 {
        low = low.min(candidate(numbers[i], marks[i], wanted, from));
    }
    if low == 4294967295 { None } else { Some(low) }
}

// The first index at which a number stands.
fn found(numbers: &[u32], number: u32) -> Option<usize>
    ensures { result ≡ position (λ x. x == number) numbers.now }
{
    numbers.iter().position(|x| *x == number)
}

// The place of a number. The list's length where it stands nowhere, since the promises' own definition `place_of` is a number; no caller asks for such a number.
pub fn place_of(numbers: &[u32], number: u32) -> usize
    ensures { result ≡ place_of numbers.now number }
{
    found(numbers, number).unwrap_or(numbers.len())
}

// Puts the value into each place of the list whose flag is 1. Each place is written, and there is no early way out: the loop becomes vector code.
pub fn replace<T: Copy>(list: &mut [T; 192], flags: &[u32; 192], value: T)
    ensures { list.new ≡ replaced value (marked_with 1 flags.now) 0 list.old }
{
    for i in 0..192 {
        list[i] = if flags[i] == 1 { value } else { list[i] };
    }
}

// Whether the chunk size is 1 to 1,812 and the slot count 1 to 192: the part of refusal 10 that needs no store.
#[tactic(auto, unfolding(crate::specs::Rules::counts_fit))]
pub fn counts_fit(chunk: u32, count: u32) -> bool
    ensures { result ≡ counts_fit chunk count }
{
    (1 <= chunk) & (chunk <= 1812) & (1 <= count) & (count <= 192)
}

// Whether the sizes are in range and the store has as many places of that size.
#[tactic(auto, unfolding(crate::specs::Rules::sizes_fit))]
pub fn sizes_fit(chunk: u32, count: u32, store_length: usize) -> bool
    ensures { result ≡ sizes_fit chunk count store_length }
{
    counts_fit(chunk, count) && store_length == (count as usize) * (chunk as usize + 1044)
}

// Whether a clock is below the last accepted one, or above 10^15.
#[tactic(auto, unfolding(crate::specs::Rules::clock_wrong))]
pub fn clock_wrong(last: u64, clock: u64) -> bool
    ensures { result ≡ clock_wrong last clock }
{
    (clock < last) | (clock > 1000000000000000)
}

// A state with nothing stored.
fn empty(chunk: u32, count: u32, next: u32) -> Sender
    ensures { result ≡ nothing_stored chunk count next }
{
    Sender {
        chunk,
        count,
        next: SeqNo(next),
        window: 1,
        timing: None,
        timer: None,
        clock: 0,
        numbers: [0u32; 192],
        lengths: [0u32; 192],
        sent: [0u64; 192],
        resent: [0u32; 192],
        marks: [0u32; 192],
    }
}

// Starts a sender whose first packet gets the number first. The store is lent so that its length is checked.
#[tactic(auto, unfolding(crate::specs::Start::start_said))]
pub fn start(first: SeqNo, chunk: u32, count: u32, store: &[u8]) -> Started
    ensures { started result ≡ start_of first chunk count (length store.now) }
{
    if !sizes_fit(chunk, count, store.len()) {
        return Started {
            answer: Err(Refusal::SizeWrong),
            state: empty(0, 0, 0),
        };
    }
    if first.0 == 0 {
        return Started {
            answer: Err(Refusal::NumbersSpent),
            state: empty(0, 0, 0),
        };
    }
    Started {
        answer: Ok(()),
        state: empty(chunk, count, first.0),
    }
}
