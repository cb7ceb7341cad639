// Reading a recorded night piece by piece: the reader is given the file in portions of any length, keeps the data of an unfinished record in a buffer that
// the host lends, and answers each record once. The Rust has nothing of it.
#![tactic(auto)]

ghost use Rattle.std.specs.Prelude.{◌≡◌, true, ◌≤◌, ◌<◌, length, drop};
ghost use Rattle.terms.specs.Answers.{said};
ghost use Rattle.portions.specs.Fold.{quiet};
ghost use Rattle.portions.specs.Stops.{until_given, used_before};
ghost use Rattle.replay_format.specs.Night.{has_place, size_fits};
ghost use Rattle.replay_format.specs.Bytes.{before_record, head_byte, read_night_byte};
ghost use Rattle.replay_reader.specs.Rules.{known_of, reader_rules, night_start};
ghost use Rattle.replay_reader.specs.ReadOn.{onward_by, read_on_of, onward};
ghost use Rattle.replay_reader.specs.Finish.{finish_of};
ghost use Rattle.replay_reader.specs.Steps.{StepsTo, read_so};

use terms::Refusal;

// The file's first three bytes.
const MARK: [u8; 3] = *b"LST";

// The state. A number without a meaning in its phase is 0. Phase and kind are numbers and no enums, since refusal 11 is promised of every state
// that is handed in.
#[repr(C)]
#[derive(Clone, Copy)]
pub struct NightReader {
    // 0: mark and version are to come; 1: the first record is; 2: another record is; 3: a record's kind is there; 4: and the high byte of its length;
    // 5: and its length, with fewer bytes of its data than that
    pub phase: u32,
    // phases 3 to 5: the kind
    pub kind: u32,
    // phase 4: the high byte of the length; phase 5: the length
    pub size: usize,
    // phase 0: how many bytes of mark and version were there; phase 5: how many bytes of the data are there
    pub there: usize,
}

// A record that is complete, of this kind and length: its data stands at the buffer's front.
#[derive(Clone, Copy, Debug, PartialEq, Eq)]
pub struct Record {
    pub kind: u32,
    pub size: usize,
}

// The record that was met, or none where all bytes are used and more are wanted; how many bytes of the portion were used, which the host does not offer again;
// and the reader after the call.
#[derive(Clone, Copy)]
pub struct Onward {
    pub answer: Result<Option<Record>, Refusal>,
    pub used: usize,
    pub reader: NightReader,
}

// The same of a call that is not refused.
#[derive(Clone, Copy)]
pub struct Reading {
    pub met: Option<Record>,
    pub used: usize,
    pub reader: NightReader,
}

// What one byte outside a record's data leads to; a record without data is complete at once.
#[derive(Clone, Copy)]
pub enum Step {
    Next(NightReader),
    Complete(u32),
}

// Whether a kind may stand here: 0 as the first record, 1 to 6 as any other.
pub fn has_place(first: bool, kind: u32) -> bool
    ensures { result ≡ has_place first kind }
{
    if first {
        kind == 0
    } else {
        1 <= kind && kind <= 6
    }
}

// Whether a kind's data may be so long.
pub fn size_fits(kind: u32, size: usize) -> bool
    ensures { result ≡ size_fits kind size }
{
    match kind {
        0 => size == 28,
        3 => size == 8,
        4 => size == 1,
        5.. => size == 0,
        _ => true,
    }
}

// A reader at the file's start.
pub fn start() -> NightReader
    ensures { result ≡ night_start }
{
    NightReader {
        phase: 0,
        kind: 0,
        size: 0,
        there: 0,
    }
}

// Whether a reader keeps its rules: what every call asks first.
#[tactic(auto, unfolding(crate::specs::Rules::reader_rules))]
fn keeps_rules(r: NightReader) -> bool
    ensures { result ≡ reader_rules r }
{
    match r.phase {
        0 => r.kind == 0 && r.size == 0 && r.there <= 4,
        1 | 2 => r.kind == 0 && r.size == 0 && r.there == 0,
        3 => r.kind <= 6 && r.size == 0 && r.there == 0,
        4 => r.kind <= 6 && r.size < 256 && r.there == 0,
        5 => r.kind <= 6 && size_fits(r.kind, r.size) && r.size <= 65535 && r.there < r.size,
        _ => false,
    }
}

// A byte of mark and version, of which so many were there.
#[tactic(auto, unfolding(crate::specs::Rules::reader_rules))]
fn head_byte(there: usize, byte: u8) -> Result<Step, Refusal>
    requires { there ≤ 4 }
    ensures { StepsTo result (λ _. quiet (head_byte there byte)) }
{
    if there < 3 {
        if byte != MARK[there] {
            return Err(Refusal::MarkWrong);
        }
        return Ok(Step::Next(NightReader {
            there: there + 1,
            ..start()
        }));
    }
    if there == 3 {
        if byte != 0 {
            return Err(Refusal::VersionOther);
        }
        return Ok(Step::Next(NightReader {
            there: 4,
            ..start()
        }));
    }
    if byte != 1 {
        return Err(Refusal::VersionOther);
    }
    Ok(Step::Next(NightReader {
        phase: 1,
        ..start()
    }))
}

// The kind byte of a record.
#[tactic(auto, unfolding(crate::specs::Rules::reader_rules))]
fn kind_byte(first: bool, byte: u8) -> Result<Step, Refusal>
    ensures { StepsTo result (λ _. read_night_byte (before_record first) byte) }
{
    let kind = u32::from(byte);
    if !has_place(first, kind) {
        return Err(Refusal::KindUnknown);
    }
    Ok(Step::Next(NightReader {
        phase: 3,
        kind,
        ..start()
    }))
}

// The low byte of a record's length.
#[tactic(auto, unfolding(crate::specs::Rules::reader_rules))]
fn length_byte(r: NightReader, byte: u8) -> Result<Step, Refusal>
    requires ruled { reader_rules r ≡ true }
    requires half { r.phase ≡ 4 }
    ensures { StepsTo result (λ buffer. read_night_byte (known_of r buffer) byte) }
{
    let size = r.size * 256 + usize::from(byte);
    if !size_fits(r.kind, size) {
        return Err(Refusal::RecordCut);
    }
    if size == 0 {
        return Ok(Step::Complete(r.kind));
    }
    Ok(Step::Next(NightReader {
        phase: 5,
        size,
        ..r
    }))
}

// A byte outside a record's data.
#[tactic(auto, unfolding(crate::specs::Rules::reader_rules))]
fn byte_read(r: NightReader, byte: u8) -> Result<Step, Refusal>
    requires ruled { reader_rules r ≡ true }
    requires outside { r.phase < 5 }
    ensures { StepsTo result (λ buffer. read_night_byte (known_of r buffer) byte) }
{
    match r.phase {
        0 => head_byte(r.there, byte),
        1 => kind_byte(true, byte),
        2 => kind_byte(false, byte),
        3 => Ok(Step::Next(NightReader {
            phase: 4,
            size: usize::from(byte),
            ..r
        })),
        _ => length_byte(r, byte),
    }
}

// Within the data of a record: copies as many of the portion's bytes from at on as it lacks, or as there are. A path answer is tested before it is copied.
#[tactic(auto, unfolding(crate::specs::Rules::reader_rules, crate::specs::ReadOn::onward_by))]
fn fill(r: NightReader, portion: &[u8], at: usize, buffer: &mut [u8]) -> Result<Reading, Refusal>
    requires ruled { reader_rules r ≡ true }
    requires within { r.phase ≡ 5 }
    requires roomy { 65538 ≤ length buffer.old }
    requires inside { at < length portion.now }
    ensures { (whole : NightReader) → read_so whole result buffer.new
        ≡ onward_by whole buffer.old (used_before at (until_given read_night_byte (known_of r buffer.old) (drop at portion.now))) }
{
    if r.kind == 4 && portion[at] > 1 {
        return Err(Refusal::RecordCut);
    }
    let lacks = r.size - r.there;
    let count = lacks.min(portion.len() - at);
    let end = at + count;
    wire::put_bytes(&mut buffer[r.there..], &portion[at..end]);
    if count < lacks {
        let reader = NightReader {
            there: r.there + count,
            ..r
        };
        return Ok(Reading {
            met: None,
            used: end,
            reader,
        });
    }
    Ok(Reading {
        met: Some(Record {
            kind: r.kind,
            size: r.size,
        }),
        used: end, // with the byte that completes it
        reader: NightReader {
            phase: 2,
            ..start()
        },
    })
}

// What a reader that keeps its rules makes of a portion: byte by byte up to a record's data, and then all of that at once.
#[tactic(auto, unfolding(crate::specs::Rules::reader_rules, crate::specs::ReadOn::onward_by))]
fn go_on(whole: NightReader, portion: &[u8], buffer: &mut [u8]) -> Result<Reading, Refusal>
    requires ruled { reader_rules whole ≡ true }
    requires roomy { 65538 ≤ length buffer.old }
    ensures { read_so whole result buffer.new
        ≡ onward_by whole buffer.old (until_given read_night_byte (known_of whole buffer.old) portion.now) }
{
    let mut reader = whole;
    for (at, &byte) in portion.iter().enumerate() {
        if reader.phase == 5 {
            return fill(reader, portion, at, buffer);
        }
        match byte_read(reader, byte)? {
            Step::Next(next) => reader = next,
            Step::Complete(kind) => {
                return Ok(Reading {
                    met: Some(Record { kind, size: 0 }),
                    used: at + 1,
                    reader: NightReader {
                        phase: 2,
                        ..start()
                    },
                });
            }
        }
    }
    Ok(Reading {
        met: None,
        used: portion.len(),
        reader,
    })
}

// The same of any reader and buffer.
#[tactic(auto, unfolding(crate::specs::ReadOn::read_on_of))]
fn read_piece(reader: NightReader, portion: &[u8], buffer: &mut [u8]) -> Result<Reading, Refusal>
    ensures { read_so reader result buffer.new ≡ read_on_of reader portion.now buffer.old }
{
    if !keeps_rules(reader) {
        return Err(Refusal::StateBroken);
    }
    if buffer.len() < 65538 {
        return Err(Refusal::SizeWrong);
    }
    go_on(reader, portion, buffer)
}

// Reads on in a portion of the file, of any length, none too. It stops behind the first complete record, whose data then stands at the buffer's front, and the
// host offers again the bytes that were not used. Refusals: 11, then 10 for a buffer under 65,538 bytes, then 26 to 29 as the bytes come.
pub fn read_on(reader: NightReader, portion: &[u8], buffer: &mut [u8]) -> Onward
    ensures { onward result buffer.new ≡ read_on_of reader portion.now buffer.old }
{
    match read_piece(reader, portion, buffer) {
        Ok(reading) => Onward {
            answer: Ok(reading.met),
            used: reading.used,
            reader: reading.reader,
        },
        Err(why) => Onward {
            answer: Err(why),
            used: 0, // of a refused call
            reader, // as it was
        },
    }
}

// What the end of the file says: 26 or 27 where it came within mark or version, 29 within a record or before the first.
#[tactic(auto, unfolding(crate::specs::Finish::finish_of, crate::specs::Rules::reader_rules))]
pub fn finish(reader: NightReader) -> Result<(), Refusal>
    ensures { said result ≡ finish_of reader }
{
    if !keeps_rules(reader) {
        return Err(Refusal::StateBroken);
    }
    match reader.phase {
        0 if reader.there < 3 => Err(Refusal::MarkWrong),
        0 => Err(Refusal::VersionOther),
        2 => Ok(()),
        _ => Err(Refusal::RecordCut),
    }
}
