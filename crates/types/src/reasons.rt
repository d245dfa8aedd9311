// How many reasons there are for a C++ name to be trivial: `required_trivial_reasons` of trivial.rs.
ghost use Rattle.std.specs.Prelude.{◌≡◌};
ghost use Rattle.rules.specs.Kinds.{row_number};
ghost use Rattle.rules.specs.Format.{Accepted};
ghost use Rattle.row_tables.specs.Tables.{one_of};
ghost use Rattle.types.specs.Reasons.{
  Tallied,
  Counted,
  Wants,
  WantsList,
  WantsItem,
  WantsItems,
  holder,
  of_plain,
  of_list,
  of_return,
  of_item,
  of_row,
  of_items,
  of_rows,
  of_all,
};

use names::known;
use names::known::{Known, Names};
use row_tables::wants;
use rules::item::ItemKind;
use rules::limit::ROWS;
use rules::row::RowKind;
use rules::set;
use scratch::Collected;
use sheet::{functions, items, rows};

// A reason for a name, if there is one. The count stops at its largest, which no sheet reaches, so that no caller owes a bound.
fn count_name(names: &mut Names, name: Option<u8>)
    ensures { Tallied names.old (one_of name) names.new }
{
    let Some(n) = name else {
        return;
    };
    let n = n as u16;
    let count = known::count(names, n).saturating_add(1);
    known::enter_if(names, set::REQUIRED_TRIVIAL, true, n, count);
}

// Whether rows of kind k give a reason for the name in them: Box, Vec and slice.
fn is_holder(k: RowKind) -> bool
    ensures { result ≡ holder (row_number k) }
{
    matches!(k, RowKind::RustBox | RowKind::RustVec | RowKind::SliceRef)
}

// The reasons of a sheet as they are counted: in the table of names, by the name that each row wants.
#[derive(Drop)]
struct Reasons<'a> {
    s: &'a [u8],
    names: &'a mut Names,
    wants: &'a [Option<u8>; ROWS],
}

impl Reasons<'_> {
    // A reason for row r, if it is a plain name of an extern C++ type.
    fn insist(&mut self, r: u16)
        requires { Wants self.old }
        ensures { Counted self.old (of_plain self.old.s.now self.old.names.now r) self.new }
    {
        let known = Known {
            s: self.s,
            names: self.names,
        };
        let name = wants::wanted(&known, self.wants, r);
        count_name(self.names, name);
    }

    // The reasons of the rows of the list at a place.
    fn insist_list(&mut self, at: u32)
        requires { WantsList self.old at }
        ensures { Counted self.old (of_list self.old.s.now self.old.names.now at) self.new }
    {
        let s = self.s;
        let count = sheet::pair_at(s, at as usize);
        for j in 0..count {
            self.insist(items::entry_within(s, at, j));
        }
    }

    // The reason of a return row, if there is one.
    fn insist_return(&mut self, row: Option<u16>)
        requires { Wants self.old }
        ensures { Counted self.old (of_return self.old.s.now self.old.names.now row) self.new }
    {
        if let Some(r) = row {
            self.insist(r);
        }
    }

    // The reasons of item i: fields, or arguments and return.
    fn insist_item(&mut self, i: u16)
        requires { WantsItem self.old i }
        ensures { Counted self.old (of_item self.old.s.now self.old.names.now i) self.new }
    {
        let s = self.s;
        if items::item_is(s, ItemKind::Struct, i) {
            self.insist_list(items::rest(s, i));
            return;
        }
        if !items::is_function(s, i) {
            return;
        }
        self.insist_list(functions::args_place(s, i));
        self.insist_return(functions::return_row(s, i));
    }

    // The reason of a collected row: a Box, Vec or slice of a plain name.
    fn insist_row(&mut self, r: u16)
        requires { Wants self.old }
        ensures { Counted self.old (of_row self.old.s.now self.old.names.now r) self.new }
    {
        let s = self.s;
        let Some(k) = rows::kind(s, r) else {
            return;
        };
        if is_holder(k) {
            self.insist(rows::inner(s, r));
        }
    }

    // The reasons of all items.
    fn insist_items(&mut self)
        requires { WantsItems self.old }
        ensures { Counted self.old (of_items self.old.s.now self.old.names.now) self.new }
    {
        let count = items::items(self.s);
        for i in 0..count {
            self.insist_item(i);
        }
    }

    // The reasons of the collected rows.
    fn insist_rows(&mut self, rows: &Collected<'_>)
        requires { Wants self.old }
        ensures { Counted self.old (of_rows self.old.s.now self.old.names.now rows.now.scratch.now rows.now.count) self.new }
    {
        for k in 0..rows.count {
            self.insist_row(rows.row(k));
        }
    }
}

// All reasons, those of the items first. Without a name in cxx there are none.
pub fn required_trivial_reasons(s: &[u8], names: &mut Names, rows: &Collected<'_>)
    requires { Accepted s.now }
    ensures { Tallied names.old (of_all s.now names.old rows.now.scratch.now rows.now.count) names.new }
{
    let known = Known { s, names };
    if wants::no_cxx(&known) {
        return;
    }
    let wants = wants::wants(&known);
    let mut reasons = Reasons {
        s,
        names,
        wants: &wants,
    };
    reasons.insist_items();
    reasons.insist_rows(rows);
}
