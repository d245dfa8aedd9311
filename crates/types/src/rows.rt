// The rows that the items of a sheet show, each at first sight and before what it refers to: the visitor of types.rs, and visit.rs.
ghost use Rattle.std.specs.Prelude.{◌≡◌, [], ◌∷◌, suc};
ghost use Rattle.rules.specs.View.{rows as row_count, entries};
ghost use Rattle.rules.specs.Collect.{shown_by};
ghost use Rattle.rules.specs.Types.{types_of};
ghost use Rattle.scratch.specs.Bytes.{Grown};
ghost use Rattle.row_tables.specs.Tables.{one_of};
ghost use Rattle.types.specs.Walk.{
  of_signature,
  of_function,
  Held,
  Walkable,
  WalkableFn,
  WalkableOrNone,
  WalkableList,
  WalkableItem,
  WalkableFunction,
  Walks,
};

use row_tables::leaf::is_leaf;
use rules::item::ItemKind;
use rules::row::RowKind;
use scratch::Rows;
use sheet::{functions, items};

// Collects a row, and then what it refers to. A row that was seen is not walked again.
#[cycle(visit_signature_visit_type)]
fn visit_type(s: &[u8], rows: &mut Rows<'_>, row: u16)
    requires { Walkable s.now rows.old row }
    ensures { Walks s.now rows.old (suc row) (row ∷ []) rows.new }
{
    if rows.seen(row) {
        return;
    }
    rows.push(row);
    if is_leaf(s, row) {
        return;
    }
    if sheet::rows::is(s, RowKind::Fn, row) {
        return visit_signature(s, rows, row);
    }
    let inner = sheet::rows::inner(s, row);
    visit_type(s, rows, inner);
}

// Collects what an Fn row refers to: its return before its arguments.
#[cycle(visit_signature_visit_type)]
fn visit_signature(s: &[u8], rows: &mut Rows<'_>, row: u16)
    requires { WalkableFn s.now rows.old row }
    ensures { Walks s.now rows.old row (of_signature s.now row) rows.new }
{
    if let Some(result) = sheet::rows::fn_return(s, row) {
        visit_type(s, rows, result);
    }
    let args = sheet::rows::fn_args_place(s, row);
    let count = sheet::pair_at(s, args as usize);
    for j in 0..count {
        let arg = items::entry(s, args, j);
        if rows.seen(arg) {
            continue; // most are, and no call is made for them
        }
        visit_type(s, rows, arg);
    }
}

// As `visit_type`, which is not called for a row that was seen.
fn show(s: &[u8], rows: &mut Rows<'_>, row: u16)
    requires { Walkable s.now rows.old row }
    ensures { Walks s.now rows.old (suc row) (row ∷ []) rows.new }
{
    if !rows.seen(row) {
        visit_type(s, rows, row);
    }
}

// Collects the rows of the list at a place.
fn visit_list(s: &[u8], rows: &mut Rows<'_>, at: u32)
    requires { WalkableList s.now rows.old at }
    ensures { Walks s.now rows.old (row_count s.now) (entries s.now at) rows.new }
{
    let count = sheet::pair_at(s, at as usize);
    for j in 0..count {
        show(s, rows, items::entry_within(s, at, j));
    }
}

// Collects a row, or none.
fn visit_return(s: &[u8], rows: &mut Rows<'_>, row: Option<u16>)
    requires { WalkableOrNone s.now rows.old row }
    ensures { Walks s.now rows.old (row_count s.now) (one_of row) rows.new }
{
    if let Some(r) = row {
        visit_type(s, rows, r);
    }
}

// Collects what a function shows: its arguments before its return.
fn visit_function(s: &[u8], rows: &mut Rows<'_>, i: u16)
    requires { WalkableFunction s.now rows.old i }
    ensures { Walks s.now rows.old (row_count s.now) (of_function s.now i) rows.new }
{
    let at = functions::return_place(s, i);
    visit_list(s, rows, at + 2);
    visit_return(s, rows, sheet::return_at(s, at as usize));
}

// Collects what item i shows.
fn visit_item(s: &[u8], rows: &mut Rows<'_>, i: u16)
    requires { WalkableItem s.now rows.old i }
    ensures { Walks s.now rows.old (row_count s.now) (shown_by s.now i) rows.new }
{
    let Some(k) = items::item_kind(s, i) else {
        return;
    };
    match k {
        ItemKind::Struct => visit_list(s, rows, items::rest(s, i)),
        ItemKind::Enum => visit_type(s, rows, items::enum_repr(s, i)),
        ItemKind::CxxFunction | ItemKind::RustFunction => visit_function(s, rows, i),
        ItemKind::Impl => visit_type(s, rows, items::impl_row(s, i)),
        ItemKind::Include | ItemKind::CxxType | ItemKind::RustType | ItemKind::TypeAlias => {}
    }
}

// Collects the rows of the whole sheet, item after item, into a scratch that holds none. The answer is how many they are.
pub fn visit_items(s: &[u8], scratch: &mut [u8]) -> usize
    requires { Held s.now scratch.old 0 }
    ensures { Grown scratch.old scratch.new result (types_of s.now).all }
{
    let count = items::items(s);
    let mut rows = Rows { scratch, count: 0 };
    for i in 0..count {
        visit_item(s, &mut rows, i);
    }
    rows.count
}
