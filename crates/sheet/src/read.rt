// Accepts or refuses a list of bytes as a sheet. Nothing is built: later code reads the rows and items straight from the bytes.
ghost use Rattle.std.specs.Prelude.{◌≡◌};
ghost use Rattle.rules.specs.Answer.{read_with};
ghost use Rattle.rules.specs.Format.{read};

use crate::item_steps::all_items;
use crate::row_steps::all_rows;
use crate::{pair_at, refusal};
use rules::{Fault, Step, limit, size};

// The limits of the two counts, as wide as a pair.
const ROWS: u16 = limit::ROWS as u16;

const ITEMS: u16 = limit::ITEMS as u16;

// The whole sheet: the place of its end where it is accepted.
pub fn read(s: &[u8]) -> Step
    ensures { result ≡ read s.now }
{
    let n = s.len();
    if n > limit::BYTES {
        return refusal(Fault::LongSheet, 0);
    }
    if n < 4 {
        return refusal(Fault::ShortSheet, 0);
    }
    let t = pair_at(s, 0);
    if t > ROWS {
        return refusal(Fault::TooMany, 0);
    }
    let a = pair_at(s, 2);
    if a > ITEMS {
        return refusal(Fault::TooMany, 2);
    }
    let contents = 4 + 2 * (t as usize + a as usize);
    if n < contents {
        return refusal(Fault::Misplaced, 0);
    }
    let bodies = all_rows(s, t, contents)?;
    let end = all_items(s, t, a, bodies)?;
    if end == n {
        Ok(end)
    } else {
        refusal(Fault::Misplaced, end)
    }
}

// The same, with scratch of some length lent: that is asked first.
#[tactic(auto, using(crate::proofs::ReadLaws::scratching))]
pub fn read_with(scratch: usize, s: &[u8]) -> Step
    ensures { result ≡ read_with scratch s.now }
{
    if scratch < size::SCRATCH {
        return refusal(Fault::ShortScratch, 0);
    }
    read(s)
}
