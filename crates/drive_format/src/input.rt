// The script, read as far as a call asks.
ghost use Rattle.std.specs.Prelude.{◌≤◌, [], ◌∷◌, IfSome, IfOk};
ghost use Rattle.std.specs.Io.KnownBytes.{Consumes};

use std::io::Read;

// A letter has no row in the table, or a record is cut, or a length, a count or an index is above its limit.
#[derive(Clone, Copy, Debug, PartialEq, Eq)]
pub struct BadScript;

#[derive(Drop)]
pub struct Script<R>(pub R);

impl<R: Read> Script<R> {
    // The next letter, if the script goes on.
    pub fn letter(&mut self) -> Option<u8>
        ensures { IfSome result (λ letter. Consumes (R.remaining self.old.0) (R.remaining self.new.0) (letter ∷ [])) }
    {
        let mut one = [0u8; 1];
        self.0.read_exact(&mut one).ok()?;
        let [letter] = one;
        Some(letter)
    }

    // The next bytes, as many as are lent.
    pub(crate) fn bytes(&mut self, into: &mut [u8]) -> Result<(), BadScript> {
        self.0.read_exact(into).map_err(|_| BadScript)
    }

    pub(crate) fn array<const N: usize>(&mut self) -> Result<[u8; N], BadScript> {
        let mut bytes = [0; N];
        self.bytes(&mut bytes)?;
        Ok(bytes)
    }

    // The next width bytes, at most eight, as a number, big-endian.
    pub(crate) fn number(&mut self, width: usize) -> Result<u64, BadScript> {
        let mut bytes = [0u8; 8];
        self.bytes(&mut bytes[8usize.saturating_sub(width)..])?;
        Ok(u64::from_be_bytes(bytes))
    }

    // The same as a length, a count or an index, which has a limit.
    pub(crate) fn limited(&mut self, width: usize, most: usize) -> Result<usize, BadScript>
        ensures { IfOk result (λ n. n ≤ most) }
    {
        let n = self.number(width)? as usize;
        if n > most {
            return Err(BadScript);
        }
        Ok(n)
    }
}
