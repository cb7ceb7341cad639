// What a call answers.
ghost use Rattle.std.specs.Prelude.{◌≡◌, ◌≤◌, length};
ghost use Rattle.program_script.specs.Numbers.{code_of};

use super::buffer::Buffer;
use super::sum;
use terms::Refusal;

// A refusal's number, and 0 where there is none. (A code of 0 beside values, and a flag with numbers beside, are docs/DRIVE.md's format.)
pub fn code<T>(said: &Result<T, Refusal>) -> u64
    ensures { result ≡ code_of said.now }
{
    match said {
        Ok(_) => 0,
        Err(why) => u64::from(why.number()),
    }
}

#[derive(Drop)]
pub struct Answer {
    // no answer has more of them than that of a packet that is read
    pub numbers: Buffer<u64, 22>,
    // the checksum of what was lent
    pub sum: u64,
}

impl Answer {
    pub fn tell(&mut self, numbers: &[u64])
        requires { length numbers.now ≤ 22 }
    {
        self.numbers.only(numbers.len()).copy_from_slice(numbers);
    }

    // What is said: its code, and its number, which is 0 where the call is refused.
    pub fn tell_number(&mut self, said: Result<u64, Refusal>) {
        self.tell(&[code(&said), said.unwrap_or(0)]);
    }

    // What the call was lent, as it is then.
    pub fn tell_lent(&mut self, bytes: &[u8]) {
        self.sum = sum::checksum(bytes);
    }

    // A store or a buffer that the call gives. It is in its place already.
    pub fn tell_given(&mut self, bytes: &[u8]) {
        self.tell(&[bytes.len() as u64]);
        self.tell_lent(bytes);
    }
}
