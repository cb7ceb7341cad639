// Words on standard output, each in a write of its own. What cannot be written there is told on standard error, and the program goes on.
use std::fmt;
use std::fmt::{Display, Formatter};

// What is wrong, on standard error. Where that is closed too, there is nowhere left to tell it.
pub fn fault(rt: &impl Eprint, words: &str) {
    let _ = rt.eprint(words);
}

// Bytes, which need be no text, in one write.
pub fn bytes(rt: &(impl Print + Eprint), words: &[u8]) {
    if rt.write_all(words).is_err() {
        fault(rt, "not written\n");
    }
}

// What writes each piece of a text as it comes, so that each that cannot be written is told.
#[derive(Drop)]
struct Pieces<'a, R>(&'a R);

impl<R: Print + Eprint> fmt::Write for Pieces<'_, R> {
    fn write_str(&mut self, piece: &str) -> fmt::Result {
        bytes(self.0, piece.as_bytes());
        Ok(())
    }
}

// Words and numbers, each piece of them in a write of its own.
pub fn text(rt: &(impl Print + Eprint), words: impl Display + Drop) {
    let _ = Formatter::new(Pieces(rt)).write(words);
}

// A word, a space and a number: three pieces.
#[derive(Drop)]
pub struct Named<'a>(pub &'a str, pub u64);

impl Display for Named<'_> {
    fn fmt<W: fmt::Write>(&self, f: &mut Formatter<W>) -> fmt::Result {
        write!(f, "{} {}", self.0, self.1)
    }
}
