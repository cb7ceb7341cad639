// The format's table: a row for each letter, as docs/DRIVE.md has them.
ghost use Rattle.std.specs.Prelude.{◌≡◌, IfSome};

// The letter, the word of its answer, the kinds of the fields that it asks, and what its answer tells behind its numbers. A kind and what is told are a letter each,
// so that a call is a line here; each letter is read in one place alone, in `take` or in `tell`.
//
// Kinds: a number of 1, 2, 4 or 8 bytes; `b` bytes; `n` NACKs; `o` an output; `s` and `z` the receiver's and the sender's store; `y` a line's buffer; `m` marks; `p` places.
// Told: `R` the receiver's state; `P` the sender's; `L` that of a line's reader; `+` the checksum of what was lent.
#[derive(Clone, Copy)]
pub struct Row {
    pub letter: u8,
    pub word: &'static str,
    pub asks: &'static str,
    pub tells: &'static str,
}

impl Row {
    // The letter's row, if it has one.
    pub fn of(letter: u8) -> Option<Row>
        ensures { IfSome result (λ row. row.letter ≡ letter) }
    {
        let (word, asks, tells) = match letter {
            b'r' => ("read", "b", ""),
            b'd' => ("destination", "b", ""),
            b'w' => ("write", "4444n122b2bbo", "+"),
            b'x' => ("sample", "1444", ""),
            b'g' => ("window", "4", ""),
            b'f' => ("window", "4", ""),
            b'S' => ("start", "44s", "R"),
            b'R' => ("receiver", "4444m", "R"),
            b'B' => ("store", "s", "+"),
            b'a' => ("accept", "4b", "R+"),
            b't' => ("take", "o", "R+"),
            b'k' => ("ack", "44o", "+"),
            b'y' => ("why", "4", ""),
            b'Z' => ("begin", "444z", "P"),
            b'P' => ("sender", "4444144188p", "P"),
            b'D' => ("store", "z", "+"),
            b'v' => ("valid", "", ""),
            b'u' => ("submit", "44b", "P+"),
            b's' => ("send", "8o", "P+"),
            b'c' => ("acks", "4n8", "P"),
            b'e' => ("resend", "81", "P"),
            b'h' => ("fetch", "4o", "+"),
            b'L' => ("line", "y", "L"),
            b'I' => ("reader", "84488", "L"),
            b'F' => ("buffer", "y", "+"),
            b'i' => ("feed", "b", "L+"),
            b'm' => ("smooth", "88", ""),
            _ => return None,
        };
        Some(Row {
            letter,
            word,
            asks,
            tells,
        })
    }
}
