// Bytes and decimal numbers.
ghost use Rattle.std.specs.Prelude.{[], ◌∷◌, ◌+◌};
ghost use Rattle.rules.specs.Text.{decimal, spaced};
ghost use Rattle.lines.specs.Appends.{Appends, Room, Short};

use crate::Text;
use itoa::Buffer;

impl Text<'_> {
    pub fn put_byte(&mut self, x: u8)
        requires { Room self.old 1 }
        ensures { Appends self.old 1 (x ∷ []) self.new }
    {
        self.out[self.len] = x;
        self.len += 1;
    }

    // A number of at most W digits.
    pub fn put_digits<const W: usize>(&mut self, n: u64)
        requires { Short W n × Room self.old W }
        ensures { Appends self.old W (decimal n) self.new }
    {
        self.put_word(Buffer::new().format(n).as_bytes());
    }

    // The same after a blank.
    pub fn put_number<const W: usize>(&mut self, n: u64)
        requires { Short W n × Room self.old (1 + W) }
        ensures { Appends self.old (1 + W) (spaced n) self.new }
    {
        self.put_byte(b' ');
        self.put_digits::<W>(n);
    }
}
