// send: a waiting packet leaves.
ghost use Rattle.std.specs.Prelude.{◌≡◌, ◌<◌, IfOk};
ghost use Rattle.sender_send.specs.Send.{armed, moved, send_said, said_sent};
ghost use Rattle.sender_send.specs.Steps.{Leaving, said_leaving};

use super::{Packet, table};
use sender_state::Sender;
use terms::Refusal;

// What send answers: the first refusal that applies, in document 01's order, or the packet that leaves.
#[tactic(auto, unfolding(crate::specs::Send::send_said))]
pub(super) fn judge_send(
    s: &Sender,
    clock: u64,
    store_length: usize,
    room: usize,
) -> Result<Packet, Refusal>
    ensures says { said_leaving result ≡ send_said s.now clock store_length room }
    ensures found { IfOk result (λ p. Leaving s.now clock store_length room p) }
{
    if !sender_check::valid(s) {
        return Err(Refusal::StateBroken);
    }
    if !sender_state::sizes_fit(s.chunk, s.count, store_length) {
        return Err(Refusal::SizeWrong);
    }
    if sender_state::clock_wrong(s.clock, clock) {
        return Err(Refusal::ClockWrong);
    }
    let Some(packet) = table::ranked(s, 1, 0) else {
        return Err(Refusal::NothingThere);
    };
    if sender_state::count_of(&s.marks, 2) >= s.window as usize {
        return Err(Refusal::WindowFull);
    }
    if packet.size > room {
        return Err(Refusal::OutputShort);
    }
    Ok(packet)
}

// The state with the packet of a place in flight, and the timer armed if it is unarmed.
#[tactic(auto, unfolding(crate::specs::Send::armed))]
pub(super) fn departs(s: Sender, at: usize, clock: u64, due: u64) -> Sender
    requires { at < 192 }
    ensures { result ≡ moved s at clock (armed s.timer due) }
{
    let mut after = Sender {
        timer: s.timer.or(Some(due)),
        clock,
        ..s
    };
    after.sent[at] = clock;
    after.marks[at] = 2;
    after
}
