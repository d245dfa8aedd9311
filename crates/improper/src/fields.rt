// The fields of each name's last struct.
ghost use Rattle.std.specs.Prelude.{List};
ghost use Rattle.row_tables.specs.declared.looks.Look.{Look};
ghost use Rattle.names.specs.Known.{sheet};
ghost use Rattle.improper.specs.Post.{Searchable};
ghost use Rattle.improper.specs.Fields.{FieldsOf};

use names::known::Known;
use sheet::items::rest;
use sheet::pair_at;

// A list of rows: where it stands, and how many there are.
#[derive(Clone, Copy)]
pub struct Fields {
    pub at: u32,
    pub count: u16,
}

// Those of name n: none where it has no struct.
pub fn fields_of(known: &Known<'_>, n: u16) -> Fields
    ensures { (looks : List Look) → Searchable (sheet known.now) known.now.names.now looks → FieldsOf (sheet known.now) looks n result.at result.count }
{
    let Some(i) = known.struct_of(n) else {
        return Fields { at: 0, count: 0 };
    };
    let at = rest(known.s, i);
    let count = pair_at(known.s, at as usize);
    Fields { at, count }
}
