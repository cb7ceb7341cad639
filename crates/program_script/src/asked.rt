// What a call asks.
ghost use Rattle.std.specs.Prelude.{◌≡◌, ◌%◌};
ghost use Rattle.program_script.specs.Numbers.{number_in};

// Of each field, in the script's order, its number, or the length of its bytes.
#[derive(Drop)]
pub struct Asked(pub [u64; 16]);

impl Asked {
    // Puts the number of a field, where there is such a field.
    pub fn put(&mut self, at: usize, x: u64) {
        if let Some(field) = self.0.get_mut(at) {
            *field = x;
        }
    }

    // The number of a field, and 0 where there is no such field.
    pub fn value(&self, at: usize) -> u64
        ensures { result ≡ number_in self.now.0 at }
    {
        self.0.get(at).copied().unwrap_or(0)
    }

    // The same as a length, and cut to 32, 16 and 8 bits. (A trait for the three widths, with a law for what each cuts, is longer than these.)
    pub fn length(&self, at: usize) -> usize
        ensures { result ≡ number_in self.now.0 at }
    {
        self.value(at) as usize
    }

    pub fn word32(&self, at: usize) -> u32
        ensures { result ≡ number_in self.now.0 at % 4294967296 }
    {
        (self.value(at) % 4294967296) as u32
    }

    pub fn word16(&self, at: usize) -> u16
        ensures { result ≡ number_in self.now.0 at % 65536 }
    {
        (self.value(at) % 65536) as u16
    }

    pub fn word8(&self, at: usize) -> u8
        ensures { result ≡ number_in self.now.0 at % 256 }
    {
        (self.value(at) % 256) as u8
    }
}
