// What `drive` calls on a receiver: 'S' starts it, 'R' and 'B' set its state and its store, 'a' accepts, 't' takes, 'k' acknowledges, 'y' asks why.
// The state and what a call asks stand in the registers, and its answer goes there.
#![tactic(auto)]

use drive_state::{Registers, given};
use program_script::answer::code;
use receiver_why::Reason;
use terms::{SeqNo, StreamId};

fn start(registers: &mut Registers) {
    let asked = &registers.asked;
    let s = SeqNo(asked.word32(0));
    let started = receiver_state::start(s, asked.word32(1), registers.received.as_slice());
    registers.receiver = started.state;
    registers.answer.tell(&[code(&started.answer)]);
}

// The marks that the call gives are in their place already.
fn set(registers: &mut Registers) {
    registers.receiver.head = given::head(&registers.asked);
    registers.answer.tell(&[]);
}

fn accept(registers: &mut Registers) {
    let number = SeqNo(registers.asked.word32(0));
    let payload = registers.given.as_slice();
    let store = registers.received.as_mut_slice();
    let accepted = receiver_calls::accept(registers.receiver, number, payload, store);
    registers.receiver = accepted.state;
    registers.answer.tell(&[code(&accepted.answer)]);
    registers.answer.tell_lent(registers.received.as_slice());
}

fn take(registers: &mut Registers) {
    let store = registers.received.as_slice();
    let taken = receiver_calls::take(registers.receiver, store, registers.out.as_mut_slice());
    registers.receiver = taken.state;
    registers
        .answer
        .tell_number(taken.answer.map(|size| size as u64));
    registers.answer.tell_lent(registers.out.as_slice());
}

fn acknowledge(registers: &mut Registers) {
    let send = StreamId(registers.asked.word32(0));
    let recv = StreamId(registers.asked.word32(1));
    let output = registers.out.as_mut_slice();
    let written = receiver_ack::acknowledge(&registers.receiver, send, recv, output);
    registers
        .answer
        .tell_number(written.map(|size| size as u64));
    registers.answer.tell_lent(registers.out.as_slice());
}

// A case by its number, in the order of `Reason`, and the number that it names.
fn case(reason: Reason) -> (u64, u32) {
    match reason {
        Reason::LastNumber => (1, 0),
        Reason::AtOrBelowStart => (2, 0),
        Reason::Taken => (3, 0),
        Reason::Ready => (4, 0),
        Reason::BehindGap(smallest) => (5, smallest.0),
        Reason::Missing => (6, 0),
        Reason::NotYetSeen => (7, 0),
        Reason::BeyondSpan => (8, 0),
    }
}

fn why(registers: &mut Registers) {
    let number = SeqNo(registers.asked.word32(0));
    let said = receiver_why::why(&registers.receiver, number);
    let (case, smallest) = said.map_or((0, 0), case);
    let numbers = [code(&said), case, u64::from(smallest)];
    registers.answer.tell(&numbers);
}

pub fn call(registers: &mut Registers, letter: u8) {
    match letter {
        b'S' => start(registers),
        b'R' => set(registers),
        b'B' => registers.answer.tell_given(registers.received.as_slice()),
        b'a' => accept(registers),
        b't' => take(registers),
        b'k' => acknowledge(registers),
        _ => why(registers),
    }
}
