// What a table says of the entries of a list, and of which of them it has something to say, as the bits of a word: a loop then turns for those alone, and no
// test in it goes now one way and now the other.
ghost use Rattle.std.specs.Prelude.{◌≡◌, MatchOption, get_or};
ghost use Rattle.std.specs.Iterator.{at_most};
ghost use Rattle.rules.specs.View.{entry};
ghost use Rattle.laws.specs.Word.{word_of};
ghost use Rattle.row_tables.specs.Listed.{EntryIn, ListIn, LowestOut, told_at};

use rules::limit::ROWS;
use sheet::items::entry_within;

// What the table says of entry k of the list at a place.
pub fn said<T: Copy>(s: &[u8], table: &[T; ROWS], at: u32, k: u16) -> T
    requires { EntryIn s.now at k }
    ensures { (x : T) → result ≡ get_or table.now (entry s.now at k) x }
{
    let row = entry_within(s, at, k) as usize;
    table[row]
}

// Of n entries: bit k is set where the table has something of entry k.
pub fn telling<T: Copy>(s: &[u8], table: &[Option<T>; ROWS], at: u32, n: u16) -> u64
    requires { ListIn s.now at n }
    ensures { result ≡ word_of (told_at s.now table.now at) 0 n }
{
    let mut word: u64 = 0;
    for k in (0..n).rev() {
        let told = said(s, table, at, k).is_some();
        word = 2 * word + u64::from(told);
    }
    word
}

// The places of the bits that are set in a word, lowest first.
#[derive(Drop)]
pub struct Bits(pub u64);

impl Iterator for Bits {
    type Item = u16;

    ghost next_gives = { λ w r rest. MatchOption r (w.0 ≡ 0) (LowestOut w.0 rest.0) };

    ghost remaining = { λ w. at_most w.0 };

    #[inline(always)]
    fn next(&mut self) -> Option<u16> {
        if self.0 == 0 {
            return None;
        }
        let j = self.0.trailing_zeros();
        self.0 &= self.0 - 1;
        Some(j as u16)
    }
}
