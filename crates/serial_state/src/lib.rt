// A reader of packets on a serial line, each behind its length: its state, the rules behind refusal 11, and start. Older gateways hand packets over such a
// line; the Rust has nothing of it.
#![tactic(auto)]

ghost use Rattle.std.specs.Prelude.{◌≡◌, length};
ghost use Rattle.serial_state.specs.Rules.{line_rules};
ghost use Rattle.serial_state.specs.Start.{line_start};

// The state. The bytes that are there of an unfinished packet stand at the front of a buffer that the host lends. A number without a meaning in its phase is 0.
// The phase is a number and no enum: the C interface, and refusal 11 is promised of every state that is handed in.
#[repr(C)]
#[derive(Clone, Copy)]
pub struct LineReader {
    // the buffer's length at the start
    pub room: usize,
    // 0: nothing is there; 1: the high byte of a length; 2: a length, and fewer bytes of its packet than that; 3: stopped, for a length was refused
    pub phase: u32,
    // phase 1: the high byte of the length
    pub high: u32,
    // phase 2: the length
    pub size: usize,
    // phase 2: how many bytes of the packet are there
    pub there: usize,
}

// Starts a reader over a buffer of any length, whatever is in it.
pub fn start(buffer: &[u8]) -> LineReader
    ensures { result ≡ line_start buffer.now }
{
    LineReader {
        room: buffer.len(),
        phase: 0,
        high: 0,
        size: 0,
        there: 0,
    }
}

// Whether a reader keeps its rules: what every call asks first.
#[tactic(auto, unfolding(crate::specs::Rules::line_rules))]
pub fn keeps_rules(r: LineReader) -> bool
    ensures { result ≡ line_rules r }
{
    match r.phase {
        0 | 3 => r.high == 0 && r.size == 0 && r.there == 0,
        1 => r.high < 256 && r.size == 0 && r.there == 0,
        2 => r.high == 0 && 22 <= r.size && r.size <= r.room && r.size <= 65535 && r.there < r.size,
        _ => false,
    }
}
