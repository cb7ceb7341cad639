// Tells what a call answered, in one line, as its row of the table says: its word, its numbers, the state after it, and the checksum of what was lent.
ghost use Rattle.std.specs.Prelude.{◌<◌};

use super::table::Row;
use drive_state::Registers;
use program_script::buffer::Buffer;
use receiver_state::Head;
use sender_state::Sender;
use serial_state::LineReader;
use std::fmt;
use std::fmt::{Display, Formatter};

// The line of a call.
#[derive(Drop)]
pub struct Line<'a> {
    pub row: Row,
    pub registers: &'a Registers,
}

// What a line is put together in, so that it goes out in one write. The longest, of a sender with all its places, has less than 14,000 bytes.
#[derive(Drop)]
pub struct Page(pub Buffer<u8, 16384>);

impl fmt::Write for Page {
    fn write_str(&mut self, s: &str) -> fmt::Result {
        let bytes = s.as_bytes();
        if bytes.len() > self.0.room() {
            return Err(fmt::Error);
        }
        self.0.more(bytes.len()).copy_from_slice(bytes);
        Ok(())
    }
}

// Each number behind a space.
fn numbers<W: fmt::Write>(f: &mut Formatter<W>, all: &[u64]) -> fmt::Result {
    for x in all {
        write!(f, " {x}")?;
    }
    Ok(())
}

fn head<W: fmt::Write>(f: &mut Formatter<W>, h: &Head) -> fmt::Result {
    write!(f, " {} {} {} {}", h.slot, h.start.0, h.next.0, h.highest.0)
}

// How many marks are not 0, and each of these behind its index.
fn marks<W: fmt::Write>(f: &mut Formatter<W>, marks: &[u16; 512]) -> fmt::Result {
    let held = marks.iter().filter(|mark| **mark != 0).count();
    write!(f, " {held}")?;
    for (i, mark) in marks.iter().enumerate() {
        if *mark != 0 {
            write!(f, " {i} {mark}")?;
        }
    }
    Ok(())
}

fn sampled<W: fmt::Write>(f: &mut Formatter<W>, s: &Sender) -> fmt::Result {
    match s.timing {
        None => write!(f, " 0 0 0"),
        Some(t) => write!(f, " 1 {} {}", t.rtt, t.deviation),
    }
}

fn armed<W: fmt::Write>(f: &mut Formatter<W>, s: &Sender) -> fmt::Result {
    match s.timer {
        None => write!(f, " 0 0"),
        Some(at) => write!(f, " 1 {at}"),
    }
}

// What a place holds.
fn place(s: &Sender, i: usize) -> [u64; 5]
    requires { i < 192 }
{
    [
        u64::from(s.numbers[i]),
        u64::from(s.lengths[i]),
        s.sent[i],
        u64::from(s.marks[i]),
        u64::from(s.resent[i]),
    ]
}

// How many places hold something, and each of these behind its index.
fn places<W: fmt::Write>(f: &mut Formatter<W>, s: &Sender) -> fmt::Result {
    let filled = (0..192).filter(|i| place(s, *i) != [0; 5]).count();
    write!(f, " {filled}")?;
    for i in 0..192 {
        let held = place(s, i);
        if held != [0; 5] {
            write!(f, " {i}")?;
            numbers(f, &held)?;
        }
    }
    Ok(())
}

fn sender<W: fmt::Write>(f: &mut Formatter<W>, s: &Sender) -> fmt::Result {
    write!(f, " {} {} {} {}", s.chunk, s.count, s.next.0, s.window)?;
    sampled(f, s)?;
    armed(f, s)?;
    write!(f, " {}", s.clock)?;
    places(f, s)
}

fn reader<W: fmt::Write>(f: &mut Formatter<W>, r: &LineReader) -> fmt::Result {
    write!(
        f,
        " {} {} {} {} {}",
        r.room, r.phase, r.high, r.size, r.there
    )
}

// What stands behind the numbers of an answer, by its mark in the table.
fn part<W: fmt::Write>(f: &mut Formatter<W>, registers: &Registers, told: u8) -> fmt::Result {
    match told {
        b'R' => {
            head(f, &registers.receiver.head)?;
            marks(f, &registers.receiver.marks)
        }
        b'P' => sender(f, &registers.sender),
        b'L' => reader(f, &registers.reader),
        _ => write!(f, " {}", registers.answer.sum),
    }
}

impl Display for Line<'_> {
    fn fmt<W: fmt::Write>(&self, f: &mut Formatter<W>) -> fmt::Result {
        f.write_str(self.row.word)?;
        numbers(f, self.registers.answer.numbers.as_slice())?;
        for told in self.row.tells.bytes() {
            part(f, self.registers, told)?;
        }
        f.write_str("\n")
    }
}
