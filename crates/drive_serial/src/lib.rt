// What `drive` calls on the reader of a serial line: 'L' starts it, 'I' and 'F' set its state and its buffer, 'i' feeds it. The state and what a call asks
// stand in the registers, and its answer goes there.
#![tactic(auto)]

use drive_state::Registers;
use program_script::answer::code;
use serial_state::LineReader;

fn start(registers: &mut Registers) {
    registers.reader = serial_state::start(registers.line.as_slice());
    registers.answer.tell(&[]);
}

fn set(registers: &mut Registers) {
    let asked = &registers.asked;
    registers.reader = LineReader {
        room: asked.length(0),
        phase: asked.word32(1),
        high: asked.word32(2),
        size: asked.length(3),
        there: asked.length(4),
    };
    registers.answer.tell(&[]);
}

// The packet's length is 0 where more is wanted, and where the call is refused.
fn feed(registers: &mut Registers) {
    let buffer = registers.line.as_mut_slice();
    let fed = serial_feed::feed(registers.reader, registers.given.as_slice(), buffer);
    registers.reader = fed.state;
    let size = fed.answer.unwrap_or(None).unwrap_or(0);
    let numbers = [code(&fed.answer), size as u64, fed.used as u64];
    registers.answer.tell(&numbers);
    registers.answer.tell_lent(registers.line.as_slice());
}

pub fn call(registers: &mut Registers, letter: u8) {
    match letter {
        b'L' => start(registers),
        b'I' => set(registers),
        b'F' => registers.answer.tell_given(registers.line.as_slice()),
        _ => feed(registers),
    }
}
