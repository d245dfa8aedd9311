// Which C++ names must be Unpin, and why: `required_unpin_reasons` of unpin.rs. A later reason of a name takes the place of an earlier one.
ghost use Rattle.std.specs.Prelude.{◌≡◌, ℕ, Bool};
ghost use Rattle.rules.specs.Format.{Accepted};
ghost use Rattle.rules.specs.Kinds.{row_number};
ghost use Rattle.names.specs.Known.{sheet, types};
ghost use Rattle.rules.specs.Unpin.{over_extern, is_mut_slice, is_mut_ref, is_mut_method, find_items, last_of_all};
ghost use Rattle.types.specs.Found.{Tells, rows_found, all_found, stood, Noted};

use names::known::{Known, NAMES};
use row_tables::wants;
use rules::row::RowKind;
use rules::{UnpinReason, name};
use scratch::Collected;
use sheet::{functions, items, rows};

// Whether row r is of kind k, and over the plain name of an extern C++ type.
#[tactic(auto, unfolding(rules::specs::Unpin::over_extern))]
fn over_extern(known: &Known<'_>, k: RowKind, r: u16) -> bool
    ensures { result ≡ over_extern (sheet known.now) (types known.now) (row_number k) r }
{
    if !rows::is(known.s, k, r) {
        return false;
    }
    let inner = rows::inner(known.s, r);
    rows::is(known.s, RowKind::Ident, inner) && known.is_extern(rows::row_name(known.s, inner))
}

#[tactic(auto, unfolding(rules::specs::Unpin::is_mut_slice))]
fn is_mut_slice(known: &Known<'_>, r: u16) -> bool
    ensures { result ≡ is_mut_slice (sheet known.now) (types known.now) r }
{
    over_extern(known, RowKind::SliceRef, r) && rows::is_mutable(known.s, r)
}

// A reference that is mutable and not pinned.
#[tactic(auto, unfolding(rules::specs::Unpin::is_mut_ref))]
fn is_mut_ref(known: &Known<'_>, r: u16) -> bool
    ensures { result ≡ is_mut_ref (sheet known.now) (types known.now) r }
{
    over_extern(known, RowKind::Ref, r)
        && rows::is_mutable(known.s, r)
        && !rows::is_pinned(known.s, r)
}

// A method whose receiver is mutable and not pinned.
#[tactic(auto, unfolding(rules::specs::Unpin::is_mut_method))]
fn is_mut_method(known: &Known<'_>, i: u16) -> bool
    ensures { result ≡ is_mut_method (sheet known.now) (types known.now) i }
{
    items::is_function(known.s, i)
        && functions::is_method(known.s, i)
        && functions::receiver_mutable(known.s, i)
        && !functions::receiver_pinned(known.s, i)
        && known.is_extern(functions::self_type(known.s, i))
}

// A reason of a name, in the place of an earlier one; none of a number that is no name's.
fn note(reasons: &mut [Option<UnpinReason>; name::COUNT], n: u16, why: UnpinReason)
    ensures { reasons.new ≡ stood reasons.old (n, why) }
{
    if n < NAMES {
        reasons[n as usize] = Some(why);
    }
}

// Notes the collected rows that are a reason.
fn note_rows<F: Fn(u16) -> bool>(
    s: &[u8],
    collected: &Collected<'_>,
    is_reason: F,
    reasons: &mut [Option<UnpinReason>; name::COUNT],
)
    requires { F.IsAlwaysCallable is_reason }
    ensures { (test : ℕ → Bool)
        → Tells (F.post is_reason) test
        → Noted reasons.old (rows_found s.now test collected.now.scratch.now collected.now.count) reasons.new }
{
    for k in 0..collected.count {
        let r = collected.row(k);
        if is_reason(r) {
            let n = rows::row_name(s, rows::inner(s, r));
            note(reasons, n, UnpinReason::Row(r));
        }
    }
}

// Notes the methods that are a reason.
fn note_items(known: &Known<'_>, reasons: &mut [Option<UnpinReason>; name::COUNT])
    requires { Accepted (sheet known.now) }
    ensures { Noted reasons.old (find_items (sheet known.now) (types known.now)) reasons.new }
{
    let count = items::items(known.s);
    for i in 0..count {
        if is_mut_method(known, i) {
            let n = functions::self_type(known.s, i);
            note(reasons, n, UnpinReason::Item(i as u8));
        }
    }
}

// The reason that stood last for each name: slices first, then methods, then references. Without a name in cxx there are none.
pub fn required_unpin_reasons(
    known: &Known<'_>,
    collected: &Collected<'_>,
) -> [Option<UnpinReason>; name::COUNT]
    requires { Accepted (sheet known.now) }
    ensures { result ≡ last_of_all (all_found (sheet known.now) (types known.now) collected.now.scratch.now collected.now.count) }
{
    let mut reasons = [None; name::COUNT];
    if wants::no_cxx(known) {
        return reasons;
    }
    note_rows(known.s, collected, |r| is_mut_slice(known, r), &mut reasons);
    note_items(known, &mut reasons);
    note_rows(known.s, collected, |r| is_mut_ref(known, r), &mut reasons);
    reasons
}
