// The checksum of bytes.
ghost use Rattle.std.specs.Prelude.{◌<◌};

// What four bytes add to a sum that is moved on by four steps: each byte and one, times a power of 1000003, from the third down. Every power stands as its
// remainder of 4294967291.
fn four(bytes: &[u8; 4]) -> u64
    ensures { result < 2000000000000 }
{
    let [a, b, c, d] = *bytes;
    (u64::from(a) + 1) * 1748059978
        + (u64::from(b) + 1) * 3573588497
        + (u64::from(c) + 1) * 1000003
        + u64::from(d)
        + 1
}

// Starts at 0; each byte makes it (sum * 1000003 + byte + 1) % 4294967291. Four bytes are taken in one step, which is much faster: a sum
// waits for the one before it, and what four bytes add waits for nothing.
pub fn checksum(bytes: &[u8]) -> u64
    ensures { result < 4294967291 }
{
    let (fours, rest) = bytes.as_chunks();
    let mut sum: u64 = 0;
    for bytes in fours {
        sum = (sum * 649841061 + four(bytes)) % 4294967291;
    }
    for &byte in rest {
        sum = (sum * 1000003 + u64::from(byte) + 1) % 4294967291;
    }
    sum
}
