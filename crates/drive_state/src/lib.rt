// The registers: what a call of a script asks and answers, and what is kept from call to call. A call is lent them as one.
#![tactic(auto)]

pub mod given;

ghost use Rattle.std.specs.Prelude.{◌≡◌};
ghost use Rattle.drive_state.specs.Registers.{Blank};

use program_script::answer::Answer;
use program_script::asked::Asked;
use program_script::buffer::Buffer;
use receiver_state::Receiver;
use sender_state::Sender;
use serial_state::LineReader;
use terms::SeqNo;

#[derive(Drop)]
pub struct Registers {
    // what a call asks: its numbers, its NACKs, its bytes, which are at most three times 70,000, one behind the other, and an output
    pub asked: Asked,
    pub nacks: Buffer<u32, 300>,
    pub given: Buffer<u8, 210000>,
    pub out: Buffer<u8, 70000>,
    pub answer: Answer,
    // a receiver, a sender and the reader of a serial line, and the store or the buffer of each
    pub receiver: Receiver,
    pub received: Buffer<u8, 930000>,
    pub sender: Sender,
    pub sent: Buffer<u8, 930000>,
    pub reader: LineReader,
    pub line: Buffer<u8, 70000>,
}

// A sender as it is at first, which every call refuses: all 0. (No start gives it, since that of a start that is refused has a window of 1.)
fn sender() -> Sender {
    Sender {
        chunk: 0,
        count: 0,
        next: SeqNo(0),
        window: 0,
        timing: None,
        timer: None,
        clock: 0,
        numbers: [0; 192],
        lengths: [0; 192],
        sent: [0; 192],
        resent: [0; 192],
        marks: [0; 192],
    }
}

impl Registers {
    // As they are at first: all 0, and no byte stored. The receiver is that of a refused start, so every call refuses it; the reader's buffer has no byte.
    pub fn new() -> Registers
        ensures { Blank result }
    {
        Registers {
            asked: Asked([0; 16]),
            nacks: Buffer::new(0),
            given: Buffer::new(0),
            out: Buffer::new(0),
            answer: Answer {
                numbers: Buffer::new(0),
                sum: 0,
            },
            receiver: receiver_state::start(SeqNo(0), 0, &[]).state,
            received: Buffer::new(0),
            sender: sender(),
            sent: Buffer::new(0),
            reader: serial_state::start(&[]),
            line: Buffer::new(0),
        }
    }
}
