// The derives of an item, by what it is: messages 29, 30, 34 to 36 and 52.
ghost use Rattle.std.specs.Prelude.{◌≡◌};
ghost use Rattle.rules.specs.Numbers.{is_bit};
ghost use Rattle.errors.specs.Sink.{Reported};
ghost use Rattle.typecheck.specs.Derives.{struct_derive, enum_derive, opaque_derive, derived, all_derived};

use errors::Errors;
use errors::at::At;
use rules::derive;
use rules::item::ItemKind;
use sheet::items::{derives_place, entry, enum_defaults, item_is};
use sheet::pair_at;

// Whose derives they are: those of an extern type may be of Rust or of C++. A value that a match turns on, and not a closure
// handed over: three tests and a plain message over the same loop, each with its own messages. The loop is inlined where the owner is known, so that which
// test it is is settled once, and not at every derive.
#[derive(Clone, Copy)]
pub enum Owner {
    Struct,
    Enum,
    Extern,
    Alias,
}

// BitAnd, BitOr, BitXor. A derive stays a number. Of the 15 only five have a rule, so that an enum of all would be no plainer; and neither would one of the
// four that matter (Default, a bit, ExternType, any other): each test compares the number with one or two named ones, and no record holds the derive itself,
// but where it stands.
fn is_bit(what: u16) -> bool
    ensures { result ≡ is_bit what }
{
    derive::BIT_AND <= what && what <= derive::BIT_XOR
}

fn check_struct_derive(cx: &mut Errors<'_>, i: u16, j: u16, what: u16)
    ensures { Reported cx.old (struct_derive i j what) cx.new }
{
    let bits = is_bit(what);
    let external = what == derive::EXTERN_TYPE;
    cx.error_if(bits, 29, At::Derive(i, j), 0);
    cx.error_if(external, 30, At::Derive(i, j), 0)
}

// Only Default asks for the count of default variants.
fn check_enum_derive(s: &[u8], cx: &mut Errors<'_>, i: u16, j: u16, what: u16)
    ensures { Reported cx.old (enum_derive i j what s.now) cx.new }
{
    if what == derive::DEFAULT {
        let defaults = enum_defaults(s, i);
        return cx.error_if(defaults != 1, 34, At::Derive(i, j), defaults);
    }
    cx.error_if(what == derive::EXTERN_TYPE, 35, At::Derive(i, j), 0)
}

// ExternType may be derived of a type of Rust, and nothing else of any.
fn check_opaque_derive(s: &[u8], cx: &mut Errors<'_>, i: u16, j: u16, what: u16)
    ensures { Reported cx.old (opaque_derive i j what s.now) cx.new }
{
    let allowed = what == derive::EXTERN_TYPE && item_is(s, ItemKind::RustType, i);
    cx.error_if(!allowed, 36, At::Derive(i, j), 0)
}

// Derive j of item i. Inlined, as the loop is: measured, 88,000 instructions in place of 111,000 for 255 enums of 16 derives.
#[tactic(auto, unfolding(crate::specs::Derives::derived, rules::specs::Diagnostics::when))]
#[inline(always)]
fn check_derive(s: &[u8], cx: &mut Errors<'_>, owner: Owner, i: u16, j: u16, what: u16)
    ensures { Reported cx.old (derived s.now owner i j what) cx.new }
{
    match owner {
        Owner::Struct => check_struct_derive(cx, i, j, what),
        Owner::Enum => check_enum_derive(s, cx, i, j, what),
        Owner::Extern => check_opaque_derive(s, cx, i, j, what),
        Owner::Alias => cx.error(52, At::Derive(i, j), 0),
    }
}

// All derives of item i. Inlined: the owner is a constant at each call.
#[inline(always)]
pub fn check_derives(s: &[u8], cx: &mut Errors<'_>, owner: Owner, i: u16)
    ensures { Reported cx.old (all_derived s.now owner i) cx.new }
{
    let at = derives_place(s, i);
    for j in 0..pair_at(s, at as usize) {
        check_derive(s, cx, owner, i, j, entry(s, at, j));
    }
}
