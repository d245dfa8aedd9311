// The layout of the scratch: the collected rows as pairs from byte 0 on, and behind them a mark for each row of the sheet, one bit each.
#![tactic(auto)]

ghost use Rattle.std.specs.Prelude.{◌≡◌, [], ◌∷◌, ◌++◌, ◌*◌, ◌<◌, ◌≤◌, length};
ghost use Rattle.rules.specs.Numbers.{most_rows, scratch_size};
ghost use Rattle.rules.specs.Format.{pair_at};
ghost use Rattle.rules.specs.Answer.{cleared};
ghost use Rattle.scratch.specs.Bytes.{marks_end, marked, with_row, with_mark, Addable};

use rules::size;

// The first byte of the marks.
const MARKS: usize = 2048;

// All bytes that a call may ask for become 0.
pub fn clear(scratch: &mut [u8])
    requires { scratch_size ≤ length scratch.old }
    ensures { scratch.new ≡ cleared scratch.old }
{
    scratch[..size::SCRATCH].fill(0);
}

// The collected rows, lent to be read: so many stand in the scratch. It is the whole scratch with a count, and no slice of pairs, since what is known of
// it is what collecting left.
#[derive(Clone, Copy)]
pub struct Collected<'a> {
    pub scratch: &'a [u8],
    pub count: usize,
}

impl Collected<'_> {
    // Row k of them. The test comes first so that twice k is no sum that wraps.
    pub fn row(&self, k: usize) -> u16
        ensures { result ≡ pair_at self.now.scratch.now (2 * k) }
    {
        if self.scratch.len() <= k {
            return 0;
        }
        sheet::pair_at(self.scratch, 2 * k)
    }
}

// The collected rows: the scratch in which they stand, and how many there are.
#[derive(Drop)]
pub struct Rows<'a> {
    pub scratch: &'a mut [u8],
    pub count: usize,
}

impl Rows<'_> {
    ghost use Rattle.scratch.specs.Collecting.{collected, Grows};

    // Whether row r is marked.
    pub fn seen(&self, r: u16) -> bool
        requires { (r < most_rows) × (marks_end ≤ length self.now.scratch.now) }
        ensures { result ≡ marked self.now.scratch.now r }
    {
        seen(self.scratch, r)
    }

    // Row r, which was not seen, becomes the last of them.
    pub fn push(&mut self, r: u16)
        requires { Addable self.old.scratch.now self.old.count r }
        ensures { Grows self.old (collected self.old ++ r ∷ []) self.new }
    {
        put(self.scratch, self.count, r);
        mark(self.scratch, r);
        self.count += 1;
    }
}

// Whether row r is marked, in a scratch that is lent to be read.
pub fn seen(scratch: &[u8], r: u16) -> bool
    requires { (r < most_rows) × (marks_end ≤ length scratch.now) }
    ensures { result ≡ marked scratch.now r }
{
    let at = MARKS + (r as usize) / 8;
    (scratch[at] >> (r % 8)) % 2 == 1
}

// Marks row r.
fn mark(scratch: &mut [u8], r: u16)
    requires { (r < most_rows) × (marks_end ≤ length scratch.old) }
    ensures { scratch.new ≡ with_mark scratch.old r }
{
    let at = MARKS + (r as usize) / 8;
    scratch[at] |= 1 << (r % 8);
}

// Stores row r at place n.
fn put(scratch: &mut [u8], n: usize, r: u16)
    requires { (n < most_rows) × (marks_end ≤ length scratch.old) }
    ensures { scratch.new ≡ with_row scratch.old n r }
{
    let at = 2 * n;
    let [low, high] = r.to_le_bytes();
    scratch[at] = low;
    scratch[at + 1] = high;
}
