// Whether a row equals one before it. Equal rows have equal keys, so the bytes of two rows are compared only where both their keys agree.
ghost use Rattle.std.specs.Prelude.{◌≡◌, get_or, ℕ, ◌<◌, ◌≤◌};
ghost use Rattle.rules.specs.Format.{same_bytes, equal_rows};
ghost use Rattle.sheet.specs.Keys.{mix, TwoKeys};

use crate::{byte_at, offset, pair_at};
use rules::limit;

// Whether n bytes from a are those from b.
fn same_bytes(s: &[u8], n: usize, a: u16, b: u16) -> bool
    requires { n < 65536 }
    ensures { result ≡ same_bytes s.now n a b }
{
    (0..n).all(|k| byte_at(s, a as usize + k) == byte_at(s, b as usize + k))
}

// Whether row i equals row r, which ends at next.
#[tactic(auto, using(crate::proofs::FreshLaws::comparing))]
fn equal_rows(s: &[u8], i: u16, r: u16, next: usize) -> bool
    ensures { result ≡ equal_rows s.now i r next }
{
    let a = offset(s, i as u32);
    let b = offset(s, r as u32);
    let n = offset(s, i as u32 + 1).saturating_sub(a) as usize;
    n == next.saturating_sub(b as usize) && same_bytes(s, n, a, b)
}

// One more pair in a row's key: a product, a carry and a turn by 18 bits, so that the low bits spread.
fn mix(k: u64, p: u16) -> u64
    ensures { result ≡ mix k p }
{
    let z = 2654435769 * (k % 4294967296 + p as u64) + k / 4294967296;
    z.rotate_right(18)
}

// Two keys of one row, from two seeds.
#[derive(Clone, Copy)]
pub struct Keys {
    pub first: u64,
    pub second: u64,
}

// The keys of the row from a to end: of its pairs, so that equal rows have equal keys.
pub fn keys_of(s: &[u8], a: usize, end: usize) -> Keys
    ensures { TwoKeys s.now a end result }
{
    let mut two = Keys {
        first: 0,
        second: 11400714819323198485,
    };
    for j in 0..end.saturating_sub(a) / 2 {
        let p = pair_at(s, a + 2 * j);
        two.first = mix(two.first, p);
        two.second = mix(two.second, p);
    }
    two
}

// How many of the first r keys are k. There is no way out of the loop before its end, and the first keys stand apart from the second, so that it is
// compiled to instructions that compare several at once; an iterator's `filter` and `count` are not.
fn hits(keys: &[u64; limit::ROWS], r: usize, k: u64) -> usize
    requires { r ≤ 1024 }
    ensures { result ≡ 0 → (i : ℕ) → i < r → get_or keys.now i 0 ≡ k → ⊥ }
{
    let mut n = 0;
    for &key in &keys[..r] {
        if key == k {
            n += 1;
        }
    }
    n
}

// How many marks there are.
pub const SEEN: usize = 16384;

// What is kept of the rows before one: two keys of each, by its number, and a mark for the low bits of each first key.
#[derive(Drop)]
pub struct KeptKeys {
    pub first: [u64; limit::ROWS],
    pub second: [u64; limit::ROWS],
    pub seen: [bool; SEEN],
}

impl KeptKeys {
    ghost use Rattle.std.specs.Prelude.{List, ◌+◌};
    ghost use Rattle.rules.specs.Format.{fresh, offset};
    ghost use Rattle.sheet.specs.Keys.{Kept};

    // Whether no row before row r, which has these two keys and ends at next, equals it: rows of the same keys are compared.
    fn fresh_among(&self, s: &[u8], r: u16, two: Keys, next: usize) -> bool
        requires kept { Kept s.now self.now r }
        requires own { TwoKeys s.now (offset s.now r) next two }
        ensures { result ≡ fresh s.now r r next }
    {
        !(0..r).any(|i| self.first[i as usize] == two.first
            && self.second[i as usize] == two.second
            && equal_rows(s, i, r, next))
    }

    // The same, with a look first at whether any row before row r had a first key like this one's, and then at whether any had this one.
    pub fn fresh(&self, s: &[u8], r: u16, two: Keys, next: usize) -> bool
        requires kept { Kept s.now self.now r }
        requires own { TwoKeys s.now (offset s.now r) next two }
        ensures { result ≡ fresh s.now r r next }
    {
        !self.seen[two.first as usize % SEEN]
            || hits(&self.first, r as usize, two.first) == 0
            || self.fresh_among(s, r, two, next)
    }

    // Row r is one of the rows before, with these two keys.
    pub fn push(&mut self, r: u16, two: Keys)
        requires { r < 1024 }
        ensures { (s : List ℕ) → Kept s self.old r → TwoKeys s (offset s r) (offset s (r + 1)) two → Kept s self.new (r + 1) }
    {
        self.first[r as usize] = two.first;
        self.second[r as usize] = two.second;
        self.seen[two.first as usize % SEEN] = true;
    }
}
