// Sets of names by value, and what is known of the names in one table that is lent. The type of a set stands in rules, as answers are made of it; what is done
// with one stands here with its proofs, and so is no method.
#![tactic(auto)]

ghost use Rattle.std.specs.Prelude.{◌≡◌, ◌^◌, ◌%◌, eqb};
ghost use Rattle.std.specs.Int.Bits.{bit_or};
ghost use Rattle.std.specs.Int.Count.{ones_in};
ghost use Rattle.rules.specs.Names.{◌∋◌, add, bit_of, empty as empty_words, size as size_of};

use rules::NameSet;

pub mod known; // what is known of the names

pub fn empty() -> NameSet
    ensures { result.words ≡ empty_words }
{
    NameSet { words: [0; 4] }
}

// Whether name n's bit is set in its word.
fn has_bit(word: u64, n: u16) -> bool
    ensures { result ≡ eqb (bit_of word (n % 64)) 1 }
{
    (word >> (n % 64)) % 2 == 1
}

// The word of name n with its bit set.
pub fn with_bit(word: u64, n: u16) -> u64
    ensures { result ≡ bit_or word (2 ^ (n % 64)) }
{
    word | (1 << (n % 64))
}

pub fn contains(set: &NameSet, n: u16) -> bool
    ensures { result ≡ (set.now.words ∋ n) }
{
    let q = n as usize / 64;
    q < 4 && has_bit(set.words[q], n)
}

// Name n is put into a set that is lent: a loop that hands a set on by value copies it at each turn.
pub fn put(set: &mut NameSet, n: u16)
    ensures { set.new.words ≡ add set.old.words n }
{
    let q = n as usize / 64;
    if q < 4 {
        set.words[q] = with_bit(set.words[q], n);
    }
}

pub fn insert(mut set: NameSet, n: u16) -> NameSet
    ensures { result.words ≡ add set.words n }
{
    put(&mut set, n);
    set
}

// How many bits of a word are set.
fn ones(word: u64) -> u16
    ensures { result ≡ ones_in 64 word }
{
    word.count_ones() as u16
}

// Four words whose ones are added, as docs/DECISIONS.md has the form.
pub fn size(set: NameSet) -> u16
    ensures { result ≡ size_of set.words }
{
    set.words.iter().map(|&word| ones(word)).sum()
}
