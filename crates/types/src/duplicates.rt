// Message 1: whether an item's name was declared before in a way that does not go with it.
ghost use Rattle.std.specs.Prelude.{◌≡◌, ◌+◌, ◌<◌};
ghost use Rattle.rules.specs.Kinds.{item_number};
ghost use Rattle.rules.specs.Names.{◌∋◌, add};
ghost use Rattle.rules.specs.View.{item_name};
ghost use Rattle.rules.specs.Collect.{duplicate_type, duplicate_function, duplicate};
ghost use Rattle.names.specs.Known.{sheet};
ghost use Rattle.types.specs.Named.{clashes, key_count, of_self, key_of, keys_to, WithNames, KnownFunction, KnownItem, WithKeys};

use names::known::Known;
use rules::item::ItemKind;
use rules::name;
use sheet::functions;

// A bit for each self type, or none, and each name.
pub const KEY_WORDS: usize = name::COUNT * (name::COUNT + 1) / 64;

type Keys = [u64; KEY_WORDS];

// Whether an item of kind k does not go with what was declared before of its name: a struct, an enum, a type that is in cxx.
fn clashes(k: ItemKind, structs: bool, enums: bool, cxx: bool) -> bool
    ensures { result ≡ clashes (item_number k) structs enums cxx }
{
    match k {
        ItemKind::Struct | ItemKind::Enum => !cxx || structs || enums,
        ItemKind::CxxType => cxx || (!structs && !enums),
        _ => true,
    }
}

// Whether the type that item i declares is a duplicate, by what is known of the names as of that item.
fn duplicate_type(known: &Known<'_>, i: u16, k: ItemKind, n: u16) -> bool
    requires { WithNames (sheet known.now) i (item_number k) n known.now.names.now }
    ensures { result ≡ duplicate_type (sheet known.now) i }
{
    if !known.is_declared(n) {
        return false;
    }
    let structs = known.is_struct(n);
    let enums = known.is_enum(n);
    let cxx = known.is_cxx(n);
    clashes(k, structs, enums, cxx)
}

// Whether the self type of function i is Self: it is neither looked up nor entered.
#[tactic(auto, unfolding(crate::specs::Named::of_self))]
fn of_self(s: &[u8], i: u16) -> bool
    ensures { result ≡ of_self s.now i }
{
    !functions::is_free(s, i) && functions::self_type(s, i) == name::SELF
}

// The bit that stands for the self type and the name of function i in the table of functions; the number of names stands for no self type.
fn key(s: &[u8], i: u16, n: u16) -> usize
    ensures { n ≡ item_name s.now i → result ≡ key_of s.now i }
{
    let self_type = if functions::is_free(s, i) {
        name::COUNT
    } else {
        functions::self_type(s, i) as usize
    };
    name::COUNT * self_type + n as usize
}

// Whether a bit of the table is set. Sets of bits stand in three places, as words by value (names), as words of this table, and as bytes behind the
// collected rows (scratch): what they share is one shift, and a function over the width and the number of words would be longer than its uses.
fn is_known(keys: &Keys, key: usize) -> bool
    requires { key < key_count }
    ensures { result ≡ (keys.now ∋ key) }
{
    (keys[key / 64] >> (key % 64)) % 2 == 1
}

// Sets a bit of the table.
fn learn(keys: &mut Keys, key: usize)
    requires { key < key_count }
    ensures { keys.new ≡ add keys.old key }
{
    keys[key / 64] |= 1 << (key % 64);
}

// Whether function i is a duplicate, by the functions before it.
fn duplicate_function(s: &[u8], keys: &Keys, i: u16, n: u16) -> bool
    requires { KnownFunction s.now i n keys.now }
    ensures { result ≡ duplicate_function s.now i }
{
    !of_self(s, i) && is_known(keys, key(s, i, n))
}

// Whether item i is a duplicate.
pub fn duplicate(known: &Known<'_>, keys: &Keys, i: u16, k: ItemKind, n: u16) -> bool
    requires { KnownItem (sheet known.now) i (item_number k) n known.now.names.now keys.now }
    ensures { result ≡ duplicate (sheet known.now) i }
{
    if k.is_type() {
        return duplicate_type(known, i, k, n);
    }
    if k.is_function() {
        return duplicate_function(known.s, keys, i, n);
    }
    false
}

// The functions, with item i if it is one.
pub fn enter_function(s: &[u8], keys: &mut Keys, i: u16, k: ItemKind, n: u16)
    requires { WithKeys s.now i (item_number k) n keys.old }
    ensures { keys.new ≡ keys_to s.now (i + 1) }
{
    if k.is_function() && !of_self(s, i) {
        learn(keys, key(s, i, n));
    }
}
