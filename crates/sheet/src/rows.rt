// The type rows.
ghost use Rattle.std.specs.Prelude.{◌≡◌, ◌+◌};
ghost use Rattle.rules.specs.Numbers.{no_row};
ghost use Rattle.rules.specs.Kinds.{row_kind, row_number, some_unless};
ghost use Rattle.rules.specs.Format.{offset};
ghost use Rattle.rules.specs.View.{
  kind,
  is,
  row_name,
  row_flags,
  flag1,
  flag2,
  inner,
  fn_return,
  fn_arg_count,
  fn_arg,
};

use crate::items::{entry, flag1, flag2};
use crate::{offset, pair_at, return_at};
use rules::row::RowKind;

// The number that says of which kind row r is.
#[tactic(auto, unfolding(rules::specs::View::kind))]
pub fn kind_number(s: &[u8], r: u16) -> u16
    ensures { result ≡ kind s.now r }
{
    pair_at(s, offset(s, r as u32) as usize)
}

// Its kind, if the number is a kind's: all are in an accepted sheet.
pub fn kind(s: &[u8], r: u16) -> Option<RowKind>
    ensures { result ≡ row_kind (kind s.now r) }
{
    RowKind::from_number(kind_number(s, r))
}

// Whether row r has this number of a kind, which may be no kind's.
#[tactic(auto, unfolding(rules::specs::View::is))]
pub fn is_number(s: &[u8], k: u16, r: u16) -> bool
    ensures { result ≡ is s.now k r }
{
    kind_number(s, r) == k
}

// Whether row r is of kind k.
pub fn is(s: &[u8], k: RowKind, r: u16) -> bool
    ensures { result ≡ is s.now (row_number k) r }
{
    is_number(s, k.number(), r)
}

// The name of an Ident.
#[tactic(auto, unfolding(rules::specs::View::row_name))]
pub fn row_name(s: &[u8], r: u16) -> u16
    ensures { result ≡ row_name s.now r }
{
    pair_at(s, offset(s, r as u32) as usize + 2)
}

// The flags of a Ref, Ptr, SliceRef or Fn.
#[tactic(auto, unfolding(rules::specs::View::row_flags))]
pub fn row_flags(s: &[u8], r: u16) -> u16
    ensures { result ≡ row_flags s.now r }
{
    pair_at(s, offset(s, r as u32) as usize + 2)
}

// Of a Ref, Ptr or SliceRef: whether it is mutable; and of a Ref, whether it is pinned.
pub fn is_mutable(s: &[u8], r: u16) -> bool
    ensures { result ≡ flag1 (row_flags s.now r) }
{
    flag1(row_flags(s, r))
}

pub fn is_pinned(s: &[u8], r: u16) -> bool
    ensures { result ≡ flag2 (row_flags s.now r) }
{
    flag2(row_flags(s, r))
}

// Of an Fn: whether it is unsafe, and whether it throws.
pub fn fn_unsafe(s: &[u8], r: u16) -> bool
    ensures { result ≡ flag1 (row_flags s.now r) }
{
    flag1(row_flags(s, r))
}

pub fn fn_throws(s: &[u8], r: u16) -> bool
    ensures { result ≡ flag2 (row_flags s.now r) }
{
    flag2(row_flags(s, r))
}

// The row inside a RustBox to CxxVector, or inside a Ref, Ptr, SliceRef or Array, which has a pair before it. A row of another kind has none, and gets
// what the definition says.
#[tactic(auto, using(crate::proofs::AccessorLaws::inside))]
pub fn inner(s: &[u8], r: u16) -> u16
    ensures { result ≡ inner s.now r }
{
    let at = offset(s, r as u32) as usize;
    if pair_at(s, at) <= RowKind::CxxVector.number() {
        pair_at(s, at + 2)
    } else {
        pair_at(s, at + 4)
    }
}

// Of an Fn: its return row, if there is one, and where the list of its argument rows stands.
#[tactic(auto, unfolding(rules::specs::View::fn_return))]
pub fn fn_return(s: &[u8], r: u16) -> Option<u16>
    ensures { result ≡ some_unless no_row (fn_return s.now r) }
{
    return_at(s, offset(s, r as u32) as usize + 4)
}

pub fn fn_args_place(s: &[u8], r: u16) -> u32
    ensures { result ≡ offset s.now r + 6 }
{
    offset(s, r as u32) as u32 + 6
}

#[tactic(auto, unfolding(rules::specs::View::fn_arg_count))]
pub fn fn_arg_count(s: &[u8], r: u16) -> u16
    ensures { result ≡ fn_arg_count s.now r }
{
    pair_at(s, fn_args_place(s, r) as usize)
}

#[tactic(auto, unfolding(rules::specs::View::fn_arg))]
pub fn fn_arg(s: &[u8], r: u16, j: u16) -> u16
    ensures { result ≡ fn_arg s.now r j }
{
    entry(s, fn_args_place(s, r), j)
}
