// Round-trip time, timeout and window: document 01's timer, RFC 6298 in whole milliseconds without its granularity term.
#![tactic(auto)]

ghost use Rattle.std.specs.Prelude.{◌≡◌};
ghost use Rattle.timer.specs.Timer.{smoothed_of, deviation_of, sampled_of, rto_of};
ghost use Rattle.timer.specs.Window.{grown_of, fallen_of};

// What the samples so far have told: the smoothed time and its deviation. Both stay below 2^32 (proofs/Laws), so 32 bits hold them. One `Option` of this stands
// for the Rust's `Rtt` and `Rto`, since document 01 has both become unsampled together: a sampled time beside an unsampled timeout cannot be written down. The
// timeout is computed from it. It is `None` where there is no sample since the start, or since packets were last resent.
#[derive(Clone, Copy, Debug, PartialEq, Eq)]
pub struct Sampled {
    pub rtt: u32,
    pub deviation: u32,
}

// The smoothed time after a later sample. Ports `Rtt::calculate_rtt`. The sum is taken in 64 bits: eight times a time may not fit 32.
fn smoothed(rtt: u32, sample: u32) -> u32
    ensures { result ≡ smoothed_of rtt sample }
{
    ((7 * (rtt as u64) + (sample as u64)) / 8) as u32
}

// The deviation after a later sample. Ports `Rto::calculate_rto`, mended: it is measured against the smoothed time before that
// one's update, as RFC 6298 has it.
fn deviated(rtt: u32, deviation: u32, sample: u32) -> u32
    ensures { result ≡ deviation_of rtt deviation sample }
{
    let off = rtt.abs_diff(sample);
    ((3 * (deviation as u64) + (off as u64)) / 4) as u32
}

impl Sampled {
    // The timing after one more sample, in milliseconds. The caller has cut an older age to 4,294,967,295.
    #[tactic(auto, unfolding(crate::specs::Timer::sampled_of))]
    pub fn sampled(timing: Option<Sampled>, sample: u32) -> Option<Sampled>
        ensures { result ≡ sampled_of timing sample }
    {
        match timing {
            None => Some(Sampled {
                rtt: sample,
                deviation: sample / 2,
            }),
            Some(Sampled { rtt, deviation }) => Some(Sampled {
                rtt: smoothed(rtt, sample),
                deviation: deviated(rtt, deviation, sample),
            }),
        }
    }

    // The timeout, in milliseconds: 64 bits wide, since it is added to clocks and compared with ages.
    #[tactic(auto, unfolding(crate::specs::Timer::rto_of))]
    pub fn rto(timing: Option<Sampled>) -> u64
        ensures { result ≡ rto_of timing }
    {
        match timing {
            None => 9000,
            Some(Sampled { rtt, deviation }) => {
                let time = (rtt as u64) + 4 * (deviation as u64);
                time.clamp(1000, 60000)
            }
        }
    }
}

// The window after an acknowledged packet. Ports the window of `handle_acks`. It is total: a window that no state allows, 0 or
// above 128, stays.
#[tactic(auto, unfolding(crate::specs::Window::grown_of))]
pub fn window_grown(window: u32) -> u32
    ensures { result ≡ grown_of window }
{
    if window < 64 {
        return 2 * window;
    }
    if window <= 127 {
        return window + 1;
    }
    window
}

// The window after a resend. Ports the window of `resend`.
#[tactic(auto, unfolding(crate::specs::Window::fallen_of))]
pub fn window_fallen(window: u32) -> u32
    ensures { result ≡ fallen_of window }
{
    if window > 1 {
        return window - 1;
    }
    window
}
