// Takes what a call asks into the registers, field by field as its row of the table says.
ghost use Rattle.std.specs.Prelude.{◌≡◌, IfOk};

use super::input::{BadScript, Script};
use super::table::Row;
use drive_state::{Registers, given};
use program_script::buffer::Buffer;
use receiver_state::Receiver;
use sender_state::{Place, Sender};
use std::io::Read;
use terms::SeqNo;

// A length and that many bytes, behind those that the call asked before; how many.
fn bytes<R: Read>(
    script: &mut Script<R>,
    given: &mut Buffer<u8, 210000>,
) -> Result<usize, BadScript> {
    let n = script.limited(4, given.room().min(70000))?;
    script.bytes(given.more(n))?;
    Ok(n)
}

// A length, a byte and bytes: a buffer of that length with the bytes at its front and the byte in every place behind them; its length.
fn buffer<R: Read, const N: usize>(
    script: &mut Script<R>,
    into: &mut Buffer<u8, N>,
) -> Result<usize, BadScript> {
    let n = script.limited(4, N)?;
    let [byte] = script.array::<1>()?;
    let front = script.limited(4, n)?;
    let bytes = into.only(n);
    script.bytes(&mut bytes[..front])?;
    bytes[front..].fill(byte);
    Ok(n)
}

// A count and that many NACKs.
fn nacks<R: Read>(script: &mut Script<R>, nacks: &mut Buffer<u32, 300>) -> Result<usize, BadScript>
    ensures { IfOk result (λ n. nacks.new.length ≡ n) }
{
    let n = script.limited(2, 300)?;
    nacks.clear();
    for _ in 0..n {
        nacks.push(u32::from_be_bytes(script.array()?));
    }
    Ok(n)
}

// A count and that many slots, each with its mark. The others are free.
fn marks<R: Read>(script: &mut Script<R>, receiver: &mut Receiver) -> Result<usize, BadScript> {
    let n = script.limited(2, 512)?;
    receiver.marks = [0; 512];
    for _ in 0..n {
        let i = script.limited(2, 511)?;
        given::put_mark(receiver, i, u16::from_be_bytes(script.array()?));
    }
    Ok(n)
}

// A place and what it holds.
fn place<R: Read>(script: &mut Script<R>, sender: &mut Sender) -> Result<(), BadScript> {
    let i = script.limited(1, 191)?;
    let place = Place {
        number: SeqNo(u32::from_be_bytes(script.array()?)),
        size: u32::from_be_bytes(script.array()?),
        sent: u64::from_be_bytes(script.array()?),
        mark: u32::from_be_bytes(script.array()?),
        resent: u32::from_be_bytes(script.array()?),
    };
    given::put_place(sender, i, place);
    Ok(())
}

// A count and that many places. The others are free.
fn places<R: Read>(script: &mut Script<R>, sender: &mut Sender) -> Result<usize, BadScript> {
    let n = script.limited(2, 192)?;
    sender.numbers = [0; 192];
    sender.lengths = [0; 192];
    sender.sent = [0; 192];
    sender.marks = [0; 192];
    sender.resent = [0; 192];
    for _ in 0..n {
        place(script, sender)?;
    }
    Ok(n)
}

// A field of the call, by its kind; its number, or its length or its count.
fn field<R: Read>(
    script: &mut Script<R>,
    registers: &mut Registers,
    kind: u8,
) -> Result<u64, BadScript> {
    let n = match kind {
        b'b' => bytes(script, &mut registers.given)?,
        b'o' => buffer(script, &mut registers.out)?,
        b's' => buffer(script, &mut registers.received)?,
        b'z' => buffer(script, &mut registers.sent)?,
        b'y' => buffer(script, &mut registers.line)?,
        b'n' => nacks(script, &mut registers.nacks)?,
        b'm' => marks(script, &mut registers.receiver)?,
        b'p' => places(script, &mut registers.sender)?,
        _ => return script.number(usize::from(kind.saturating_sub(b'0'))),
    };
    Ok(n as u64)
}

// Takes all that a letter asks, and answers the letter's row.
pub fn call<R: Read>(
    script: &mut Script<R>,
    registers: &mut Registers,
    letter: u8,
) -> Result<Row, BadScript>
    ensures { IfOk result (λ row. row.letter ≡ letter) }
{
    let row = Row::of(letter).ok_or(BadScript)?;
    registers.given.clear();
    for (i, kind) in row.asks.bytes().enumerate() {
        let n = field(script, registers, kind)?;
        registers.asked.put(i, n);
    }
    Ok(row)
}
