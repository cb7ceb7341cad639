// Reads a script of calls from standard input and answers each with a line: docs/DRIVE.md has the format, and the crate `drive_format` is that format.
// A call is taken into the registers, made by the crate of its topic, and told from the registers.
#![tactic(auto)]

mod timing;

use drive_format::input::Script;
use drive_format::take;
use drive_format::tell::{Line, Page};
use drive_state::Registers;
use program_lines::say;
use program_script::buffer::Buffer;
use std::fmt::Formatter;
use std::io::Read;

// Makes the call of a letter: on packets, timing, a receiver, a sender's packets, a serial line, or a sender's state.
// The letters are the script's, from outside: each topic's crate takes its own, and only this says of which topic a letter is.
fn call(registers: &mut Registers, letter: u8) {
    match letter {
        b'r' | b'd' | b'w' => drive_packets::call(registers, letter),
        b'x' | b'g' | b'f' | b'm' => timing::call(registers, letter),
        b'S' | b'R' | b'B' | b'a' | b't' | b'k' | b'y' => drive_receiver::call(registers, letter),
        b'u' | b's' | b'h' => drive_stored::call(registers, letter),
        b'L' | b'I' | b'F' | b'i' => drive_serial::call(registers, letter),
        _ => drive_sender::call(registers, letter),
    }
}

// One call, or the words that the script is bad; whether to go on. Standard error says it too, of which `tools/run` makes the status.
fn step<R: Read>(
    rt: &(impl Print + Eprint),
    script: &mut Script<R>,
    registers: &mut Registers,
    page: &mut Page,
    letter: u8,
) -> bool {
    let Ok(row) = take::call(script, registers, letter) else {
        say::text(rt, "bad script\n");
        say::fault(rt, "bad script\n");
        return false;
    };
    call(registers, letter);
    page.0.clear();
    let is_told = Formatter::new(&mut *page)
        .write(Line { row, registers })
        .is_ok();
    if !(is_told & rt.write_all(page.0.as_slice()).is_ok()) {
        say::fault(rt, "not written\n");
        return false;
    }
    true
}

// Answers the whole script. Nothing says that it ends, so the turns have a limit, which no run uses up.
fn main(rt: HostRuntime) {
    let mut script = Script(rt.reader());
    let mut registers = Registers::new();
    let mut page = Page(Buffer::new(0));
    for _ in 0..u64::MAX {
        let Some(letter) = script.letter() else {
            return;
        };
        if !step(&rt, &mut script, &mut registers, &mut page, letter) {
            return;
        }
    }
}
