// Which rows show no other row: the leaves of `visit_type` of visit.rs.
ghost use Rattle.std.specs.Prelude.{◌≡◌};
ghost use Rattle.rules.specs.Kinds.{row_number};
ghost use Rattle.rules.specs.View.{kind};
ghost use Rattle.laws.specs.Kinds.{leaf};

use rules::row::RowKind;
use sheet::rows::kind;

// Their kinds: a plain name, str and Void.
fn is_leaf_kind(k: RowKind) -> bool
    ensures { result ≡ leaf (row_number k) }
{
    matches!(k, RowKind::Ident | RowKind::Str | RowKind::Void)
}

pub fn is_leaf(s: &[u8], r: u16) -> bool
    ensures { result ≡ leaf (kind s.now r) }
{
    kind(s, r).is_some_and(is_leaf_kind)
}
