// Reads the type rows.
ghost use Rattle.std.specs.Prelude.{◌≡◌, ◌≤◌};
ghost use Rattle.rules.specs.Format.{with_flags, signature, body_of, row, row_at, each};
ghost use Rattle.rules.specs.Kinds.{row_number};
ghost use Rattle.sheet.specs.Keys.{placed};

use crate::fresh_rows::{KeptKeys, SEEN, keys_of};
use crate::steps::{NAMES, ROW_KINDS, limited, list, or_none};
use crate::{offset, pair_at, refusal};
use rules::row::RowKind;
use rules::{Fault, Step, limit};

// Flags, or an array's length, and a row below r.
fn with_flags(s: &[u8], flags: u32, r: u16, at: usize) -> Step
    ensures { result ≡ with_flags s.now flags r at }
{
    let at = limited(s, Fault::BadValue, flags, at)?;
    limited(s, Fault::BadRow, r as u32, at)
}

// Flags, a return row or none, and the argument rows.
fn signature(s: &[u8], r: u16, at: usize) -> Step
    ensures { result ≡ signature s.now r at }
{
    let at = limited(s, Fault::BadValue, 4, at)?;
    let at = or_none(s, r as u32, at)?;
    list(s, limit::ARGS, Fault::BadRow, r as u32, at)
}

// The body of row r after its kind.
#[tactic(auto, unfolding(rules::specs::Format::body_of, rules::specs::Format::row_kinds))]
fn body(s: &[u8], r: u16, k: RowKind, at: usize) -> Step
    ensures { result ≡ body_of s.now r (row_number k) at }
{
    match k {
        RowKind::Ident => limited(s, Fault::BadValue, NAMES, at),
        RowKind::RustBox
        | RowKind::RustVec
        | RowKind::UniquePtr
        | RowKind::SharedPtr
        | RowKind::WeakPtr
        | RowKind::CxxVector => limited(s, Fault::BadRow, r as u32, at),
        RowKind::Ref => with_flags(s, 4, r, at),
        RowKind::Ptr | RowKind::SliceRef => with_flags(s, 2, r, at),
        RowKind::Array => with_flags(s, 65536, r, at),
        RowKind::Fn => signature(s, r, at),
        RowKind::Str | RowKind::Void => Ok(at),
    }
}

// Row r, whole.
fn row(s: &[u8], r: u16, at: usize) -> Step
    ensures { result ≡ row s.now r at }
{
    let next = limited(s, Fault::BadValue, ROW_KINDS, at)?;
    match RowKind::from_number(pair_at(s, at)) {
        Some(k) => body(s, r, k, next),
        None => Ok(next),
    }
}

// Row r with its offset.
#[tactic(auto, using(crate::proofs::FreshLaws::placing))]
fn placed(s: &[u8], r: u16, at: usize) -> Step
    ensures { result ≡ placed s.now r at }
{
    if offset(s, r as u32) as usize != at {
        return refusal(Fault::Misplaced, 4 + 2 * (r as usize));
    }
    row(s, r, at)
}

// The first n rows, each with its offset and the test for an equal row before it.
pub fn all_rows(s: &[u8], n: u16, at: usize) -> Step
    requires { n ≤ 1024 }
    ensures { result ≡ each (row_at s.now) n 0 at }
{
    let mut keys = KeptKeys {
        first: [0; limit::ROWS],
        second: [0; limit::ROWS],
        seen: [false; SEEN],
    };
    let mut here = at;
    for r in 0..n {
        let next = placed(s, r, here)?;
        let two = keys_of(s, here, next);
        if !keys.fresh(s, r, two, next) {
            return refusal(Fault::EqualRow, here);
        }
        keys.push(r, two);
        here = next;
    }
    Ok(here)
}
