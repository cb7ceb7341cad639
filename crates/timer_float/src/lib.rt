// The smoothed time as the Rust has it: 0.875 of the old and 0.125 of the sample in f64, cut to whole milliseconds. A second engine beside `timer`'s, which goes in
// whole numbers; they agree on every pair of times up to 4,294,967,295 (proofs/Agree). Ports the expression of `Rtt::calculate_rtt`.
#![tactic(auto)]

ghost use Rattle.std.specs.Prelude.{◌≡◌, ◌<◌};
ghost use Rattle.timer.specs.Timer.{smoothed_of};
ghost use Rattle.terms.specs.Answers.{said_of};
ghost use Rattle.timer_float.specs.Float.{float_of, smooth_said};

use std::num::saturating_f64_to_u64;
use terms::Refusal;

// Cuts down as Rust's `as` does. The remainder by 1.0, of which the definition speaks, is no operation of the processor, but a call of C's `fmod`.
fn float(old: u64, sample: u64) -> u64
    requires old { old < 4294967296 }
    requires sample { sample < 4294967296 }
    ensures float { result ≡ float_of old sample }
    ensures whole { result ≡ smoothed_of old sample }
{
    let x = 0.875 * (old as f64) + 0.125 * (sample as f64);
    saturating_f64_to_u64(x)
}

// The new smoothed time in milliseconds, of the old one and a sample. A larger time than 4,294,967,295 is refused, the old one and the sample alike. The promise
// says it twice: it is the f64 expression's, and it is the whole-number engine's.
#[tactic(auto, unfolding(crate::specs::Float::smooth_said))]
pub fn smooth_float(old: u64, sample: u64) -> Result<u64, Refusal>
    ensures float { said_of result ≡ smooth_said float_of old sample }
    ensures whole { said_of result ≡ smooth_said smoothed_of old sample }
{
    if old > 4294967295 {
        return Err(Refusal::TimeLarge);
    }
    if sample > 4294967295 {
        return Err(Refusal::TimeLarge);
    }
    Ok(float(old, sample))
}
