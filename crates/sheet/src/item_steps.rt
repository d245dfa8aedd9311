// Reads the items, over t rows.
ghost use Rattle.std.specs.Prelude.{◌≡◌, ℕ};
ghost use Rattle.rules.specs.Kinds.{item_number};
ghost use Rattle.rules.specs.Format.{type_head, repr, variants, receiver, function, item_of, item_at, each};

use crate::steps::{
    DERIVE_KINDS, ITEM_KINDS, LIFETIME_NAMES, NAMES, VARIANT_COUNTS, limited, list, or_none,
};
use crate::{offset, pair_at, refusal};
use rules::item::ItemKind;
use rules::row::RowKind;
use rules::{Fault, Step, limit};

// The name, the lifetimes and the derives that most items begin with.
fn type_head(s: &[u8], at: usize) -> Step
    ensures { result ≡ type_head s.now at }
{
    let at = limited(s, Fault::BadValue, NAMES, at)?;
    let at = list(s, limit::LIFETIMES, Fault::BadValue, LIFETIME_NAMES, at)?;
    list(s, limit::DERIVES, Fault::BadValue, DERIVE_KINDS, at)
}

// A row below t of kind 0.
fn repr(s: &[u8], t: u16, at: usize) -> Step
    ensures { result ≡ repr s.now t at }
{
    let next = limited(s, Fault::BadRow, t as u32, at)?;
    let place = offset(s, pair_at(s, at) as u32);
    if pair_at(s, place as usize) != RowKind::Ident.number() {
        return refusal(Fault::BadRow, at);
    }
    Ok(next)
}

// How many variants, and how many of them are marked default.
fn variants(s: &[u8], at: usize) -> Step
    ensures { result ≡ variants s.now at }
{
    let next = limited(s, Fault::BadValue, VARIANT_COUNTS, at)?;
    limited(s, Fault::BadValue, pair_at(s, at) as u32 + 1, next)
}

// A free function, or an associated one and a name, or a method, a name and flags.
fn receiver(s: &[u8], at: usize) -> Step
    ensures { result ≡ receiver s.now at }
{
    let next = limited(s, Fault::BadValue, 3, at)?;
    match pair_at(s, at) {
        1 => limited(s, Fault::BadValue, NAMES, next),
        2 => {
            let next = limited(s, Fault::BadValue, NAMES, next)?;
            limited(s, Fault::BadValue, 4, next)
        }
        _ => Ok(next),
    }
}

fn function(s: &[u8], flags: u32, t: u16, at: usize) -> Step
    ensures { result ≡ function s.now flags t at }
{
    let at = limited(s, Fault::BadValue, NAMES, at)?;
    let at = limited(s, Fault::BadValue, flags, at)?;
    let at = list(s, limit::LIFETIMES, Fault::BadValue, LIFETIME_NAMES, at)?;
    let at = receiver(s, at)?;
    let at = or_none(s, t as u32, at)?;
    list(s, limit::ARGS, Fault::BadRow, t as u32, at)
}

// The parts of a struct, an enum, an extern type and an impl, after the kind.
fn struct_of(s: &[u8], t: u16, at: usize) -> Step
    ensures { result ≡ item_of s.now t 1 at }
{
    let at = type_head(s, at)?;
    list(s, limit::FIELDS, Fault::BadRow, t as u32, at)
}

fn enum_of(s: &[u8], t: u16, at: usize) -> Step
    ensures { result ≡ item_of s.now t 2 at }
{
    let at = type_head(s, at)?;
    let at = repr(s, t, at)?;
    let at = limited(s, Fault::BadValue, 2, at)?;
    variants(s, at)
}

fn extern_type_of(s: &[u8], at: usize) -> Step
    ensures { (t : ℕ) → result ≡ item_of s.now t 3 at }
{
    let at = type_head(s, at)?;
    limited(s, Fault::BadValue, 4, at)
}

fn impl_of(s: &[u8], t: u16, at: usize) -> Step
    ensures { result ≡ item_of s.now t 8 at }
{
    let at = limited(s, Fault::BadRow, t as u32, at)?;
    let at = limited(s, Fault::BadValue, 2, at)?;
    list(s, limit::LIFETIMES, Fault::BadValue, LIFETIME_NAMES, at)
}

// The body of an item after its kind.
#[tactic(auto, unfolding(rules::specs::Format::item_of, rules::specs::Format::item_kinds))]
fn item_of(s: &[u8], t: u16, k: ItemKind, at: usize) -> Step
    ensures { result ≡ item_of s.now t (item_number k) at }
{
    match k {
        ItemKind::Include => Ok(at),
        ItemKind::Struct => struct_of(s, t, at),
        ItemKind::Enum => enum_of(s, t, at),
        ItemKind::CxxType | ItemKind::RustType => extern_type_of(s, at),
        ItemKind::CxxFunction => function(s, 8, t, at),
        ItemKind::RustFunction => function(s, 4, t, at),
        ItemKind::TypeAlias => type_head(s, at),
        ItemKind::Impl => impl_of(s, t, at),
    }
}

// Item i with its offset.
fn item_at(s: &[u8], t: u16, i: u16, at: usize) -> Step
    ensures { result ≡ item_at s.now t i at }
{
    if offset(s, t as u32 + i as u32) as usize != at {
        return refusal(Fault::Misplaced, 4 + 2 * (t as usize + i as usize));
    }
    let next = limited(s, Fault::BadValue, ITEM_KINDS, at)?;
    match ItemKind::from_number(pair_at(s, at)) {
        Some(k) => item_of(s, t, k, next),
        None => Ok(next),
    }
}

// The first n items.
pub fn all_items(s: &[u8], t: u16, n: u16, at: usize) -> Step
    ensures { result ≡ each (item_at s.now t) n 0 at }
{
    let mut here = at;
    for i in 0..n {
        here = item_at(s, t, i, here)?;
    }
    Ok(here)
}
