// The items.
ghost use Rattle.std.specs.Prelude.{◌≡◌, ◌+◌, ◌*◌, ◌≤◌, length};
ghost use Rattle.rules.specs.Kinds.{item_kind as kind_of_item, item_number};
ghost use Rattle.rules.specs.View.{
  rows,
  items,
  item_place,
  item_kind,
  item_is,
  is_function,
  is_type,
  item_name,
  entry,
  lifetimes_place,
  lifetime_count,
  derives_place,
  rest,
  field_count,
  enum_repr,
  enum_explicit,
  enum_variants,
  enum_defaults,
  type_trusted,
  type_bounds,
  impl_row,
  impl_negative,
  flag1,
  flag2,
  flag4,
};

use crate::{behind, offset, pair_at, pair_within};
use rules::item::ItemKind;

// Flags 1, 2 and 4 of a sum: a line each, named as docs/SHEET.md and the definitions name them. A constant parameter would make every call longer.
#[tactic(auto, unfolding(rules::specs::View::flag1))]
pub fn flag1(f: u16) -> bool
    ensures { result ≡ flag1 f }
{
    f % 2 == 1
}

#[tactic(auto, unfolding(rules::specs::View::flag2))]
pub fn flag2(f: u16) -> bool
    ensures { result ≡ flag2 f }
{
    f / 2 % 2 == 1
}

#[tactic(auto, unfolding(rules::specs::View::flag4))]
pub fn flag4(f: u16) -> bool
    ensures { result ≡ flag4 f }
{
    f / 4 % 2 == 1
}

// How many rows, and how many items.
pub fn rows(s: &[u8]) -> u16
    ensures { result ≡ rows s.now }
{
    pair_at(s, 0)
}

pub fn items(s: &[u8]) -> u16
    ensures { result ≡ items s.now }
{
    pair_at(s, 2)
}

// Where item i starts.
#[tactic(auto, unfolding(rules::specs::View::item_place))]
pub fn item_place(s: &[u8], i: u16) -> u16
    ensures { result ≡ item_place s.now i }
{
    offset(s, pair_at(s, 0) as u32 + i as u32)
}

// The number that says of which kind item i is.
#[tactic(auto, unfolding(rules::specs::View::item_kind))]
pub fn item_kind_number(s: &[u8], i: u16) -> u16
    ensures { result ≡ item_kind s.now i }
{
    pair_at(s, item_place(s, i) as usize)
}

// Its kind, if the number is a kind's: all are in an accepted sheet.
pub fn item_kind(s: &[u8], i: u16) -> Option<ItemKind>
    ensures { result ≡ kind_of_item (item_kind s.now i) }
{
    ItemKind::from_number(item_kind_number(s, i))
}

// Whether item i has this number of a kind, which may be no kind's.
#[tactic(auto, unfolding(rules::specs::View::item_is))]
pub fn item_is_number(s: &[u8], k: u16, i: u16) -> bool
    ensures { result ≡ item_is s.now k i }
{
    item_kind_number(s, i) == k
}

// Whether item i is of kind k.
pub fn item_is(s: &[u8], k: ItemKind, i: u16) -> bool
    ensures { result ≡ item_is s.now (item_number k) i }
{
    item_is_number(s, k.number(), i)
}

// Whether it is a function; a struct, enum, CxxType, RustType or alias.
pub fn is_function(s: &[u8], i: u16) -> bool
    ensures { result ≡ is_function s.now i }
{
    item_kind(s, i).is_some_and(ItemKind::is_function)
}

pub fn is_type(s: &[u8], i: u16) -> bool
    ensures { result ≡ is_type s.now i }
{
    item_kind(s, i).is_some_and(ItemKind::is_type)
}

// The name of an item that is no Include and no Impl.
#[tactic(auto, unfolding(rules::specs::View::item_name))]
pub fn item_name(s: &[u8], i: u16) -> u16
    ensures { result ≡ item_name s.now i }
{
    pair_at(s, item_place(s, i) as usize + 2)
}

// Entry j of the list at a place. A loop over a list reads the place once and then its entries.
#[tactic(auto, unfolding(rules::specs::View::entry))]
pub fn entry(s: &[u8], at: u32, j: u16) -> u16
    ensures { result ≡ entry s.now at j }
{
    pair_at(s, at as usize + 2 + 2 * (j as usize))
}

// The same, of a list that stands in the sheet. Loops over a list ask it by number, in a `for` over a range: an iterator of our own would have to carry what is
// asked here, that the list stands in the sheet, in an invariant, and would be longer than its uses.
#[tactic(auto, unfolding(rules::specs::View::entry))]
pub fn entry_within(s: &[u8], at: u32, j: u16) -> u16
    requires { at + 4 + 2 * j ≤ length s.now }
    ensures { result ≡ entry s.now at j }
{
    pair_within(s, at as usize + 2 + 2 * (j as usize))
}

// The lifetimes: behind the name, or behind the name and flags of a function, or the row and flags of an impl.
#[tactic(auto, using(crate::proofs::AccessorLaws::placing))]
pub fn lifetimes_place(s: &[u8], i: u16) -> u32
    ensures { result ≡ lifetimes_place s.now i }
{
    let at = item_place(s, i) as u32;
    if is_type(s, i) { at + 4 } else { at + 6 }
}

#[tactic(auto, unfolding(rules::specs::View::lifetime_count))]
pub fn lifetime_count(s: &[u8], i: u16) -> u16
    ensures { result ≡ lifetime_count s.now i }
{
    pair_at(s, lifetimes_place(s, i) as usize)
}

// Of a Struct, Enum, CxxType, RustType or TypeAlias: where the derives stand, and the place behind them.
#[tactic(auto, unfolding(rules::specs::View::derives_place))]
pub fn derives_place(s: &[u8], i: u16) -> u32
    ensures { result ≡ derives_place s.now i }
{
    behind(s, item_place(s, i) as u32 + 4)
}

// The place of the derives is looked up anew: `behind` asks a bound, which is known of its own result, and which `derives_place` does not promise.
#[tactic(auto, unfolding(rules::specs::View::rest, rules::specs::View::derives_place))]
pub fn rest(s: &[u8], i: u16) -> u32
    ensures { result ≡ rest s.now i }
{
    let derives = behind(s, item_place(s, i) as u32 + 4);
    behind(s, derives)
}

// Of a Struct: its field rows.
#[tactic(auto, unfolding(rules::specs::View::field_count))]
pub fn field_count(s: &[u8], i: u16) -> u16
    ensures { result ≡ field_count s.now i }
{
    pair_at(s, rest(s, i) as usize)
}

// Of an Enum: its repr row, whether that was explicit, the variants, and how many of them are marked default.
#[tactic(auto, unfolding(rules::specs::View::enum_repr))]
pub fn enum_repr(s: &[u8], i: u16) -> u16
    ensures { result ≡ enum_repr s.now i }
{
    pair_at(s, rest(s, i) as usize)
}

#[tactic(auto, unfolding(rules::specs::View::enum_explicit))]
pub fn enum_explicit(s: &[u8], i: u16) -> bool
    ensures { result ≡ enum_explicit s.now i }
{
    pair_at(s, rest(s, i) as usize + 2) == 1
}

#[tactic(auto, unfolding(rules::specs::View::enum_variants))]
pub fn enum_variants(s: &[u8], i: u16) -> u16
    ensures { result ≡ enum_variants s.now i }
{
    pair_at(s, rest(s, i) as usize + 4)
}

#[tactic(auto, unfolding(rules::specs::View::enum_defaults))]
pub fn enum_defaults(s: &[u8], i: u16) -> u16
    ensures { result ≡ enum_defaults s.now i }
{
    pair_at(s, rest(s, i) as usize + 6)
}

// Of a CxxType or RustType.
#[tactic(auto, unfolding(rules::specs::View::type_trusted))]
pub fn type_trusted(s: &[u8], i: u16) -> bool
    ensures { result ≡ type_trusted s.now i }
{
    flag1(pair_at(s, rest(s, i) as usize))
}

#[tactic(auto, unfolding(rules::specs::View::type_bounds))]
pub fn type_bounds(s: &[u8], i: u16) -> bool
    ensures { result ≡ type_bounds s.now i }
{
    flag2(pair_at(s, rest(s, i) as usize))
}

// Of an Impl.
#[tactic(auto, unfolding(rules::specs::View::impl_row))]
pub fn impl_row(s: &[u8], i: u16) -> u16
    ensures { result ≡ impl_row s.now i }
{
    pair_at(s, item_place(s, i) as usize + 2)
}

#[tactic(auto, unfolding(rules::specs::View::impl_negative))]
pub fn impl_negative(s: &[u8], i: u16) -> bool
    ensures { result ≡ impl_negative s.now i }
{
    flag1(pair_at(s, item_place(s, i) as usize + 4))
}
