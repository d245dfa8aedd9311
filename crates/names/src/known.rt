// What is known of the names: one table, how it is filled, and what is asked of it.
ghost use Rattle.std.specs.Prelude.{◌≡◌, ℕ};
ghost use Rattle.rules.specs.Numbers.{no_item, required_trivial_set};
ghost use Rattle.rules.specs.Kinds.{some_unless};
ghost use Rattle.names.specs.Known.{entry_at, item_in, names_in, entered};

use crate::{empty, insert};
use rules::{NameSet, item, name, set};

// Eight columns with an entry for each name: seven sets, in the places of rules::set, and the types. An entry is a number in each, an item's plus 1 or a count,
// and 0 for none: columns of options beside one of counts would ask for each store and look-up twice.
pub const COLUMNS: usize = 8;

pub const TABLE: usize = COLUMNS * name::COUNT;

pub type Names = [u16; TABLE];

pub const TYPES: usize = 7;

// How many names there are, as wide as a name.
pub const NAMES: u16 = name::COUNT as u16;

// ## Entries

// The entry of name n in column k, or 0.
fn entry(names: &Names, k: usize, n: u16) -> u16
    ensures { result ≡ entry_at names.now k n }
{
    if k < COLUMNS && n < NAMES {
        names[name::COUNT * k + n as usize]
    } else {
        0
    }
}

// Name n gets the entry x in column k, if so.
pub fn enter_if(names: &mut Names, k: usize, yes: bool, n: u16, x: u16)
    ensures { names.new ≡ entered names.old k yes n x }
{
    if yes && k < COLUMNS && n < NAMES {
        let at = name::COUNT * k + n as usize;
        names[at] = x;
    }
}

// The item that an entry means, if it means one.
fn item_in(entry: u16) -> Option<u16>
    ensures { result ≡ some_unless no_item (item_in entry) }
{
    if entry == 0 {
        return None;
    }
    let item = entry - 1;
    if item == item::NONE {
        return None;
    }
    Some(item)
}

// The set of the names that have an entry in column k.
pub fn set_of(names: &Names, k: usize) -> NameSet
    ensures { result.words ≡ names_in names.now k }
{
    let mut set = empty();
    for n in 0..NAMES {
        if 0 < entry(names, k, n) {
            set = insert(set, n);
        }
    }
    set
}

// How many reasons a name has to be trivial.
pub fn count(names: &Names, n: u16) -> u16
    ensures { result ≡ entry_at names.now required_trivial_set n }
{
    entry(names, set::REQUIRED_TRIVIAL, n)
}

// ## What is asked of a name

// A sheet, and what is known of its names: `Types` of types.rs.
#[derive(Clone, Copy)]
pub struct Known<'a> {
    pub s: &'a [u8],
    pub names: &'a Names,
}

impl Known<'_> {
    ghost use Rattle.std.specs.Prelude.{ltb};
    ghost use Rattle.rules.specs.Types.{
      is_struct,
      is_enum,
      is_cxx,
      is_rust,
      is_alias,
      is_untrusted,
      is_required_trivial,
      is_extern,
      is_opaque,
      struct_of,
      untrusted_of,
      type_of,
      reasons_for,
    };
    ghost use Rattle.names.specs.Known.{types, type_column};

    pub fn is_struct(&self, n: u16) -> bool
        ensures { result ≡ is_struct (types self.now) n }
    {
        0 < entry(self.names, set::STRUCTS, n)
    }

    pub fn is_enum(&self, n: u16) -> bool
        ensures { result ≡ is_enum (types self.now) n }
    {
        0 < entry(self.names, set::ENUMS, n)
    }

    pub fn is_cxx(&self, n: u16) -> bool
        ensures { result ≡ is_cxx (types self.now) n }
    {
        0 < entry(self.names, set::CXX, n)
    }

    pub fn is_rust(&self, n: u16) -> bool
        ensures { result ≡ is_rust (types self.now) n }
    {
        0 < entry(self.names, set::RUST, n)
    }

    pub fn is_alias(&self, n: u16) -> bool
        ensures { result ≡ is_alias (types self.now) n }
    {
        0 < entry(self.names, set::ALIASES, n)
    }

    pub fn is_untrusted(&self, n: u16) -> bool
        ensures { result ≡ is_untrusted (types self.now) n }
    {
        0 < entry(self.names, set::UNTRUSTED, n)
    }

    pub fn is_required_trivial(&self, n: u16) -> bool
        ensures { result ≡ is_required_trivial (types self.now) n }
    {
        0 < entry(self.names, set::REQUIRED_TRIVIAL, n)
    }

    // Whether some item that is a type bears the name.
    pub fn is_declared(&self, n: u16) -> bool
        ensures { result ≡ ltb 0 (entry_at self.now.names.now type_column n) }
    {
        0 < entry(self.names, TYPES, n)
    }

    // An extern C++ type: in cxx, and neither struct nor enum.
    pub fn is_extern(&self, n: u16) -> bool
        ensures { result ≡ is_extern (types self.now) n }
    {
        self.is_cxx(n) && !self.is_struct(n) && !self.is_enum(n)
    }

    // An extern C++ type that is no alias.
    pub fn is_opaque(&self, n: u16) -> bool
        ensures { result ≡ is_opaque (types self.now) n }
    {
        self.is_extern(n) && !self.is_alias(n)
    }

    // The name's last struct, last untrusted CxxType, and last item that is a type, if there is one.
    pub fn struct_of(&self, n: u16) -> Option<u16>
        ensures { result ≡ some_unless no_item (struct_of (types self.now) n) }
    {
        item_in(entry(self.names, set::STRUCTS, n))
    }

    pub fn untrusted_of(&self, n: u16) -> Option<u16>
        ensures { result ≡ some_unless no_item (untrusted_of (types self.now) n) }
    {
        item_in(entry(self.names, set::UNTRUSTED, n))
    }

    pub fn type_of(&self, n: u16) -> Option<u16>
        ensures { result ≡ some_unless no_item (type_of (types self.now) n) }
    {
        item_in(entry(self.names, TYPES, n))
    }

    // How many reasons the name has to be trivial.
    pub fn reasons_for(&self, n: u16) -> u16
        ensures { result ≡ reasons_for (types self.now) n }
    {
        count(self.names, n)
    }
}
