// The item to which each row of a sheet leads, as a table: a plain name leads to its last struct, atoms included.
ghost use Rattle.std.specs.Prelude.{◌≡◌};
ghost use Rattle.rules.specs.Types.{types_of};
ghost use Rattle.rules.specs.Order.{plain_lead};
ghost use Rattle.laws.specs.RowTable.{LeadRows, item_of};
ghost use Rattle.names.specs.Known.{OwnNames, sheet, types};
ghost use Rattle.row_tables.specs.Tables.{lead_entry, lead_of};

use crate::upward::upward;
use names::known::Known;
use rules::item;
use rules::limit::ROWS;
use rules::row::RowKind;
use sheet::items::rows;
use sheet::rows::{is, row_name};

// An item as an entry: the items are 0 to 254, and what is none of them is none.
fn entry(item: Option<u16>) -> Option<u8>
    ensures { result ≡ lead_entry (item_of item) }
{
    match item {
        Some(i) if i < item::NONE => Some(i as u8),
        _ => None,
    }
}

// The item that row r leads to, if it leads to one: a plain name alone leads to a struct.
fn lead(known: &Known<'_>, r: u16) -> Option<u8>
    ensures { result ≡ lead_of (sheet known.now) (types known.now) r }
{
    if !is(known.s, RowKind::Ident, r) {
        return None;
    }
    entry(known.struct_of(row_name(known.s, r)))
}

// What each row leads to, found once for all fields.
pub fn leads(known: &Known<'_>) -> [Option<u8>; ROWS]
    requires { OwnNames (sheet known.now) known.now.names.now }
    ensures { LeadRows (sheet known.now) (plain_lead (sheet known.now) (types_of (sheet known.now))) result }
{
    upward(rows(known.s), None, |_, r| lead(known, r))
}
