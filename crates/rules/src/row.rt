// The kinds of rows, and no row: docs/SHEET.md.
ghost use Rattle.std.specs.Prelude.{◌≡◌};
ghost use Rattle.rules.specs.Kinds.{row_kind, row_number};

// The kinds, as `Type` of syntax.rs has them.
#[derive(Clone, Copy, PartialEq, Eq)]
pub enum RowKind {
    Ident,
    RustBox,
    RustVec,
    UniquePtr,
    SharedPtr,
    WeakPtr,
    CxxVector,
    Ref,
    Ptr,
    Str,
    SliceRef,
    Array,
    Fn,
    Void,
}

impl RowKind {
    // The kind of a number, if it is one's: an option, as of items.
    #[tactic(auto, unfolding(crate::specs::Kinds::row_kind))]
    pub fn from_number(n: u16) -> Option<RowKind>
        ensures { result ≡ row_kind n }
    {
        match n {
            0 => Some(RowKind::Ident),
            1 => Some(RowKind::RustBox),
            2 => Some(RowKind::RustVec),
            3 => Some(RowKind::UniquePtr),
            4 => Some(RowKind::SharedPtr),
            5 => Some(RowKind::WeakPtr),
            6 => Some(RowKind::CxxVector),
            7 => Some(RowKind::Ref),
            8 => Some(RowKind::Ptr),
            9 => Some(RowKind::Str),
            10 => Some(RowKind::SliceRef),
            11 => Some(RowKind::Array),
            12 => Some(RowKind::Fn),
            13 => Some(RowKind::Void),
            _ => None,
        }
    }

    pub fn number(self) -> u16
        ensures { result ≡ row_number self }
    {
        self as u16
    }
}

// How many kinds there are.
pub const KINDS: u16 = 14;

// No row, where a return may be: what stands in a sheet's bytes. Past the reader it is `None`.
pub const NONE: u16 = 65535;
