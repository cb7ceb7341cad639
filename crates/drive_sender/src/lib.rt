// What `drive` calls on a sender's state: 'Z' starts it, 'P' and 'D' set its state and its store, 'v' judges the state, 'c' takes acks, 'e' resends.
// The state and what a call asks stand in the registers, and its answer goes there. The calls that move packets are in `drive_stored`.
#![tactic(auto)]

use drive_state::{Registers, given};
use program_script::answer::code;
use terms::SeqNo;

fn start(registers: &mut Registers) {
    let asked = &registers.asked;
    let first = SeqNo(asked.word32(0));
    let store = registers.sent.as_slice();
    let started = sender_state::start(first, asked.word32(1), asked.word32(2), store);
    registers.sender = started.state;
    registers.answer.tell(&[code(&started.answer)]);
}

// The places that the call gives are there already.
fn set(registers: &mut Registers) {
    registers.sender = given::sender(&registers.asked, &registers.sender);
    registers.answer.tell(&[]);
}

fn valid(registers: &mut Registers) {
    let valid = sender_check::valid(&registers.sender);
    registers.answer.tell(&[u64::from(valid)]);
}

fn acks(registers: &mut Registers) {
    let asked = &registers.asked;
    let through = SeqNo(asked.word32(0));
    let nacks = registers.nacks.as_slice();
    let acked = sender_acks::acks(registers.sender, through, nacks, asked.value(2));
    registers.sender = acked.state;
    registers.answer.tell_number(acked.answer.map(u64::from));
}

fn resend(registers: &mut Registers) {
    let clock = registers.asked.value(0);
    let path = registers.asked.value(1) != 0;
    let resent = sender_resend::resend(registers.sender, clock, path);
    registers.sender = resent.state;
    registers.answer.tell_number(resent.answer.map(u64::from));
}

pub fn call(registers: &mut Registers, letter: u8) {
    match letter {
        b'Z' => start(registers),
        b'P' => set(registers),
        b'D' => registers.answer.tell_given(registers.sent.as_slice()),
        b'v' => valid(registers),
        b'c' => acks(registers),
        _ => resend(registers),
    }
}
