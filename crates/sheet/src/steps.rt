// The steps that every body is read by: a pair below a limit, a row or none, a list. Each goes from a place to the place after what it read,
// or to a refusal; sheet and place stay two, since a step is a function of the place, as in the definitions, and `?` hands the next one on.
ghost use Rattle.std.specs.Prelude.{◌≡◌};
ghost use Rattle.rules.specs.Format.{limited, or_none, list};

use crate::{has_pair, pair_at, pair_within, refusal};
use rules::{Fault, Step, derive, item, limit, name, row};

// What pairs are limited by, as wide as a limit: numbers of rules, and 256, the `lifetime_name_count` of its definitions.
pub const NAMES: u32 = name::COUNT as u32;

pub const LIFETIME_NAMES: u32 = 256;

pub const ROW_KINDS: u32 = row::KINDS as u32;

pub const ITEM_KINDS: u32 = item::KINDS as u32;

pub const DERIVE_KINDS: u32 = derive::KINDS as u32;

pub const VARIANT_COUNTS: u32 = limit::VARIANTS as u32 + 1;

// A pair below a limit, or the fault `why` at the pair.
#[tactic(auto, using(crate::proofs::StepLaws::limiting))]
pub fn limited(s: &[u8], why: Fault, limit: u32, at: usize) -> Step
    ensures { result ≡ limited s.now why limit at }
{
    if !has_pair(s, at) {
        return refusal(Fault::Misplaced, s.len());
    }
    if (pair_within(s, at) as u32) < limit {
        return Ok(at + 2);
    }
    refusal(why, at)
}

// A row below a limit, or none.
#[tactic(auto, using(crate::proofs::StepLaws::choosing))]
pub fn or_none(s: &[u8], limit: u32, at: usize) -> Step
    ensures { result ≡ or_none s.now limit at }
{
    if pair_at(s, at) == row::NONE {
        limited(s, Fault::BadRow, 65536, at)
    } else {
        limited(s, Fault::BadRow, limit, at)
    }
}

// A count of at most `most`, and as many pairs below a limit.
pub fn list(s: &[u8], most: u16, why: Fault, limit: u32, at: usize) -> Step
    ensures { result ≡ list s.now most why limit at }
{
    let mut here = limited(s, Fault::BadValue, most as u32 + 1, at)?;
    let count = pair_at(s, at);
    for _ in 0..count {
        here = limited(s, why, limit, here)?;
    }
    Ok(here)
}
