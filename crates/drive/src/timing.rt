// The calls 'x', 'g', 'f' and 'm': a sample of the round-trip time, the window's two steps, and the Rust's own smoothing.
use drive_state::{Registers, given};
use timer::Sampled;

fn sample(registers: &mut Registers) {
    let before = given::timing(&registers.asked, 0);
    let after = Sampled::sampled(before, registers.asked.word32(3));
    let (rtt, deviation) = match after {
        Some(times) => (times.rtt, times.deviation),
        None => (0, 0),
    };
    let numbers = [u64::from(rtt), u64::from(deviation), Sampled::rto(after)];
    registers.answer.tell(&numbers);
}

fn smooth(registers: &mut Registers) {
    let old = registers.asked.value(0);
    let sample = registers.asked.value(1);
    registers
        .answer
        .tell_number(timer_float::smooth_float(old, sample));
}

// A step of the window, by one of its two rules, answers it alone.
fn step<F: Fn(u32) -> u32>(registers: &mut Registers, rule: F)
    requires { F.IsAlwaysCallable rule }
{
    let after = rule(registers.asked.word32(0));
    registers.answer.tell(&[u64::from(after)]);
}

pub fn call(registers: &mut Registers, letter: u8) {
    match letter {
        b'x' => sample(registers),
        b'm' => smooth(registers),
        b'g' => step(registers, timer::window_grown),
        _ => step(registers, timer::window_fallen),
    }
}
