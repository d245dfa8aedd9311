// Structs: messages 27, 28, 31 and 32, and 29 and 30 by derives.
ghost use Rattle.std.specs.Prelude.{Some};
ghost use Rattle.rules.specs.View.{rest, field_count};
ghost use Rattle.rules.specs.Check.{check_api_struct};
ghost use Rattle.names.specs.Known.{sheet, types};
ghost use Rattle.row_tables.specs.Listed.{ListIn};
ghost use Rattle.errors.specs.Sink.{Reported};
ghost use Rattle.typecheck.specs.Given.{StructGiven};
ghost use Rattle.typecheck.specs.Tests.{struct_field, struct_fields, untrusted_type};

use crate::derives::{Owner, check_derives};
use crate::reserved::{check_lifetimes, check_reserved_name};
use errors::Errors;
use errors::at::At;
use names::known::Known;
use row_tables::faults::Misfit;
use row_tables::listed::{Bits, said, telling};
use rules::item;
use rules::limit::ROWS;
use sheet::items::{field_count, item_name, rest};
use sheet::pair_at;

// Field j of struct i, by what is wrong with its row.
#[tactic(auto, unfolding(crate::specs::Tests::by_fault))]
fn check_struct_field(cx: &mut Errors<'_>, i: u16, j: u16, fault: Misfit)
    ensures { Reported cx.old (struct_field i j (Some fault)) cx.new }
{
    match fault {
        Misfit::Pointer => cx.error(31, At::Field(i, j), 0),
        Misfit::Unsized(branch) => cx.error(32, At::Field(i, j), u16::from(branch)),
    }
}

// Turns for the fields that have a fault, and for no other.
fn check_struct_fields(s: &[u8], faults: &[Option<Misfit>; ROWS], cx: &mut Errors<'_>, i: u16)
    requires { ListIn s.now (rest s.now i) (field_count s.now i) }
    ensures { Reported cx.old (struct_fields s.now faults.now i) cx.new }
{
    let at = rest(s, i);
    let n = pair_at(s, at as usize);
    let faulty = telling(s, faults, at, n);
    for j in Bits(faulty) {
        if let Some(fault) = said(s, faults, at, j) {
            check_struct_field(cx, i, j, fault);
        }
    }
}

// An extern type in cxx that is untrusted: the message is at the last untrusted type of the name. The rule is stated over any table, also one whose entry
// for the name means no item, so that the place of a message not given is that number.
fn check_untrusted(known: &Known<'_>, cx: &mut Errors<'_>, i: u16)
    ensures { Reported cx.old (untrusted_type (sheet known.now) (types known.now) i) cx.new }
{
    let n = item_name(known.s, i);
    let both = known.is_cxx(n) && known.is_untrusted(n);
    let last = known.untrusted_of(n).unwrap_or(item::NONE);
    cx.error_if(both, 28, At::Item(last), 0)
}

pub fn check_api_struct(
    known: &Known<'_>,
    faults: &[Option<Misfit>; ROWS],
    cx: &mut Errors<'_>,
    i: u16,
)
    requires { StructGiven (sheet known.now) (types known.now) faults.now i }
    ensures { Reported cx.old (check_api_struct (sheet known.now) (types known.now) i) cx.new }
{
    check_reserved_name(known.s, cx, i);
    check_lifetimes(known.s, cx, i);
    cx.error_if(field_count(known.s, i) == 0, 27, At::Item(i), 0);
    check_untrusted(known, cx, i);
    check_derives(known.s, cx, Owner::Struct, i);
    check_struct_fields(known.s, faults, cx, i)
}
