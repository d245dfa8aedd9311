// The stored file, in pieces: testdata/README.md.
ghost use Rattle.std.specs.Prelude.{◌≡◌, ◌+◌, ◌*◌};
ghost use Rattle.rules.specs.Format.{pair_at};

use std::io::{Read, Stdin};

// The input stopped before its time.
#[derive(Drop)]
pub struct Ended;

// The number of four bytes at a place, low byte first. Bytes past the end are 0.
#[tactic(auto, unfolding(rules::specs::Format::pair_at))]
pub fn long_at(b: &[u8], at: usize) -> u32
    ensures { result ≡ pair_at b.now at + 65536 * pair_at b.now (at + 2) }
{
    let bytes = b.get(at..).unwrap_or(&[]);
    let byte = |k: usize| bytes.get(k).copied().unwrap_or(0);
    u32::from_le_bytes([byte(0), byte(1), byte(2), byte(3)])
}

// The file, and where each piece of it is put, over the one before.
#[derive(Drop)]
pub struct StoredFile<'a> {
    pub input: Stdin,
    pub buf: &'a mut [u8],
}

impl StoredFile<'_> {
    // The next n bytes. The file also ends where they have no room.
    pub fn take(&mut self, n: usize) -> Result<&[u8], Ended> {
        let part = self.buf.get_mut(..n).ok_or(Ended)?;
        self.input.read_exact(part).map_err(|_| Ended)?;
        self.buf.get(..n).ok_or(Ended)
    }

    // The next four bytes, as a number.
    pub fn number(&mut self) -> Result<u32, Ended> {
        Ok(long_at(self.take(4)?, 0))
    }
}
