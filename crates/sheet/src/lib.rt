// Reads a bridge sheet: total accessors over its bytes, and the reader that accepts or refuses it.
// A row, a name, an item, a count is a u16 and a place a u32, so that no accessor asks anything of its caller: past the end every byte is 0. The two that say
// `within` ask that what they read stands in the sheet. There are no structs `Row` and `Item` with methods: an accessor takes any number and any bytes, so
// that a struct would hold no fact about them, and each look-up would have to make one first.
#![tactic(auto)]

ghost use Rattle.std.specs.Prelude.{◌≡◌, ◌+◌, ◌≤◌, leb, length, get_or};
ghost use Rattle.rules.specs.Numbers.{no_row};
ghost use Rattle.rules.specs.Kinds.{some_unless};
ghost use Rattle.rules.specs.Format.{pair_at, offset, refusal};
ghost use Rattle.rules.specs.View.{past};

use rules::{Fault, Refusal, Step, row};

mod fresh_rows;
pub mod functions;
mod item_steps;
pub mod items;
pub mod read;
mod row_steps;
pub mod rows;
mod steps;

// The byte at a place, and 0 past the end.
fn byte_at(s: &[u8], at: usize) -> u8
    ensures { result ≡ get_or s.now at 0 }
{
    s.get(at).copied().unwrap_or(0)
}

// Whether the sheet has a whole pair at a place.
fn has_pair(s: &[u8], at: usize) -> bool
    ensures { result ≡ leb (at + 2) (length s.now) }
{
    let n = s.len();
    2 <= n && at <= n - 2
}

// The pair at a place that has one. Nothing is tested, so that a loop over a list is short.
#[tactic(auto, unfolding(rules::specs::Format::pair_at))]
pub fn pair_within(s: &[u8], at: usize) -> u16
    requires { at + 2 ≤ length s.now }
    ensures { result ≡ pair_at s.now at }
{
    u16::from_le_bytes([s[at], s[at + 1]])
}

// The pair at a place, low byte first.
#[tactic(auto, using(crate::proofs::AccessorLaws::cutting))]
pub fn pair_at(s: &[u8], at: usize) -> u16
    ensures { result ≡ pair_at s.now at }
{
    if has_pair(s, at) {
        pair_within(s, at)
    } else {
        byte_at(s, at) as u16
    }
}

// The row at a place where one may be, if there is one.
pub fn return_at(s: &[u8], at: usize) -> Option<u16>
    ensures { result ≡ some_unless no_row (pair_at s.now at) }
{
    let r = pair_at(s, at);
    if r == row::NONE { None } else { Some(r) }
}

// The place behind the list at a place, which is no further than items and their lists go.
#[tactic(auto, unfolding(rules::specs::View::past))]
fn behind(s: &[u8], at: u32) -> u32
    requires { at ≤ 1000000 }
    ensures place { result ≡ past s.now at }
    ensures near { result ≤ at + 131072 }
{
    at + 2 + 2 * (pair_at(s, at as usize) as u32)
}

// Where the contents say that body i starts, rows first.
#[tactic(auto, unfolding(rules::specs::Format::offset))]
pub fn offset(s: &[u8], i: u32) -> u16
    ensures { result ≡ offset s.now i }
{
    pair_at(s, 4 + 2 * (i as usize))
}

// A fault at a place.
fn refusal(fault: Fault, position: usize) -> Step
    ensures { result ≡ refusal fault position }
{
    Err(Refusal { fault, position })
}
