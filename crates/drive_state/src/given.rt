// What a call gives of a receiver's or a sender's state: its numbers, and mark by mark or place by place what the table holds.
ghost use Rattle.std.specs.Prelude.{◌≡◌, ◌<◌};
ghost use Rattle.drive_state.specs.Registers.{timing_in, timer_in, with_place, with_mark, SenderIn, HeadIn};

use program_script::asked::Asked;
use receiver_state::{Head, Receiver};
use sender_state::{Place, Sender};
use terms::SeqNo;
use timer::Sampled;

// Unsampled, or sampled with two numbers.
pub fn timing(asked: &Asked, at: usize) -> Option<Sampled>
    requires { at < 16 }
    ensures { result ≡ timing_in asked.now.0 at }
{
    if asked.value(at) == 0 {
        return None;
    }
    Some(Sampled {
        rtt: asked.word32(at + 1),
        deviation: asked.word32(at + 2),
    })
}

fn timer(asked: &Asked) -> Option<u64>
    ensures { result ≡ timer_in asked.now.0 }
{
    if asked.value(7) == 0 {
        return None;
    }
    Some(asked.value(8))
}

// The call's numbers, beside the places that are there already.
pub fn sender(asked: &Asked, there: &Sender) -> Sender
    ensures { SenderIn asked.now.0 there.now result }
{
    Sender {
        chunk: asked.word32(0),
        count: asked.word32(1),
        next: SeqNo(asked.word32(2)),
        window: asked.word32(3),
        timing: timing(asked, 4),
        timer: timer(asked),
        clock: asked.value(9),
        ..*there
    }
}

pub fn head(asked: &Asked) -> Head
    ensures { HeadIn asked.now.0 result }
{
    Head {
        slot: asked.word32(0),
        start: SeqNo(asked.word32(1)),
        next: SeqNo(asked.word32(2)),
        highest: SeqNo(asked.word32(3)),
    }
}

// What a place holds.
pub fn put_place(s: &mut Sender, at: usize, place: Place)
    requires { at < 192 }
    ensures { s.new ≡ with_place s.old at place }
{
    s.numbers[at] = place.number.0;
    s.lengths[at] = place.size;
    s.sent[at] = place.sent;
    s.resent[at] = place.resent;
    s.marks[at] = place.mark;
}

// A slot's mark.
pub fn put_mark(r: &mut Receiver, at: usize, mark: u16)
    requires { at < 512 }
    ensures { r.new ≡ with_mark r.old at mark }
{
    r.marks[at] = mark;
}
