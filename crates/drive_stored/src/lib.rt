// What `drive` calls on a sender and its packets: 'u' submits, 's' sends, 'h' fetches. The state and what a call asks stand in the registers, and its
// answer goes there.
#![tactic(auto)]

use drive_state::Registers;
use program_script::answer::code;
use terms::StreamId;

// Submits with the receiver of the registers.
fn submit(registers: &mut Registers) {
    let send = StreamId(registers.asked.word32(0));
    let recv = StreamId(registers.asked.word32(1));
    let submitted = sender_submit::submit(
        registers.sender,
        &registers.receiver,
        send,
        recv,
        registers.given.as_slice(),
        registers.sent.as_mut_slice(),
    );
    registers.sender = submitted.state;
    registers
        .answer
        .tell_number(submitted.answer.map(u64::from));
    registers.answer.tell_lent(registers.sent.as_slice());
}

fn send(registers: &mut Registers) {
    let clock = registers.asked.value(0);
    let store = registers.sent.as_slice();
    let output = registers.out.as_mut_slice();
    let sent = sender_send::send(registers.sender, clock, store, output);
    registers.sender = sent.state;
    let (number, size) = match sent.answer {
        Ok(departure) => (departure.number.0, departure.size),
        Err(_) => (0, 0),
    };
    let numbers = [code(&sent.answer), u64::from(number), size as u64];
    registers.answer.tell(&numbers);
    registers.answer.tell_lent(registers.out.as_slice());
}

fn fetch(registers: &mut Registers) {
    let rank = registers.asked.word32(0);
    let store = registers.sent.as_slice();
    let output = registers.out.as_mut_slice();
    let fetched = sender_send::fetch(&registers.sender, rank, store, output);
    registers
        .answer
        .tell_number(fetched.map(|size| size as u64));
    registers.answer.tell_lent(registers.out.as_slice());
}

pub fn call(registers: &mut Registers, letter: u8) {
    match letter {
        b'u' => submit(registers),
        b's' => send(registers),
        _ => fetch(registers),
    }
}
