// The kinds of items, and no item: docs/SHEET.md.
ghost use Rattle.std.specs.Prelude.{◌≡◌};
ghost use Rattle.rules.specs.Kinds.{item_kind, item_number};
ghost use Rattle.rules.specs.View.{function_kind, type_kind};

// The kinds, as `Api` of syntax.rs has them.
#[derive(Clone, Copy, PartialEq, Eq)]
pub enum ItemKind {
    Include,
    Struct,
    Enum,
    CxxType,
    RustType,
    CxxFunction,
    RustFunction,
    TypeAlias,
    Impl,
}

impl ItemKind {
    // The kind of a number, if it is one's. `TryFrom` would have an error to name, which says no more than `None`.
    #[tactic(auto, unfolding(crate::specs::Kinds::item_kind))]
    pub fn from_number(n: u16) -> Option<ItemKind>
        ensures { result ≡ item_kind n }
    {
        match n {
            0 => Some(ItemKind::Include),
            1 => Some(ItemKind::Struct),
            2 => Some(ItemKind::Enum),
            3 => Some(ItemKind::CxxType),
            4 => Some(ItemKind::RustType),
            5 => Some(ItemKind::CxxFunction),
            6 => Some(ItemKind::RustFunction),
            7 => Some(ItemKind::TypeAlias),
            8 => Some(ItemKind::Impl),
            _ => None,
        }
    }

    pub fn number(self) -> u16
        ensures { result ≡ item_number self }
    {
        self as u16
    }

    // Kinds that go together: functions; structs, enums, CxxTypes, RustTypes and aliases.
    pub fn is_function(self) -> bool
        ensures { result ≡ function_kind (item_number self) }
    {
        matches!(self, ItemKind::CxxFunction | ItemKind::RustFunction)
    }

    pub fn is_type(self) -> bool
        ensures { result ≡ type_kind (item_number self) }
    {
        matches!(
            self,
            ItemKind::Struct
                | ItemKind::Enum
                | ItemKind::CxxType
                | ItemKind::RustType
                | ItemKind::TypeAlias
        )
    }
}

// How many kinds there are.
pub const KINDS: u16 = 9;

// No item, where one may be: no item's number.
pub const NONE: u16 = 255;
