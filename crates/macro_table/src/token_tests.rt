ghost use Rattle.std.specs.Prelude.{◌≡◌, [], ◌∷◌};
ghost use Rattle.scan_model.specs.Spelling.{is_one_of};
ghost use Rattle.scan_model.specs.TokenTests as test;
ghost use Rattle.scan_model.specs.MacroDefinition as definition;

use scan_model::{Kind, Tok};

pub(crate) fn is_ellipsis(tok: &Tok) -> bool
    ensures { result ≡ test.is_sign ("..." ∷ []) tok.now }
{
    matches!(tok.kind, Kind::Punct) && tok.text.as_slice() == b"...".as_slice()
}

/// Whether no macro may have this name ([cpp.predefined], [cpp.replace]).
pub(crate) fn is_forbidden(name: &[u8]) -> bool
    ensures { result ≡ definition.is_forbidden name.now }
{
    is_operator_name(name) || is_variable_part_name(name)
}

/// The operators of conditions that are spelled as identifiers ([cpp.cond]).
fn is_operator_name(name: &[u8]) -> bool
    ensures { result ≡ is_one_of ("defined" ∷ "__has_include" ∷ "__has_include_next" ∷ "__has_cpp_attribute" ∷ []) name.now }
{
    is_test_name(name) || is_further_test_name(name)
}

fn is_test_name(name: &[u8]) -> bool
    ensures { result ≡ is_one_of ("defined" ∷ "__has_include" ∷ []) name.now }
{
    matches!(name, b"defined" | b"__has_include")
}

fn is_further_test_name(name: &[u8]) -> bool
    ensures { result ≡ is_one_of ("__has_include_next" ∷ "__has_cpp_attribute" ∷ []) name.now }
{
    matches!(name, b"__has_include_next" | b"__has_cpp_attribute")
}

/// What stands for a variable part, or depends on one ([cpp.replace], [cpp.subst]).
fn is_variable_part_name(name: &[u8]) -> bool
    ensures { result ≡ is_one_of ("__VA_ARGS__" ∷ "__VA_OPT__" ∷ []) name.now }
{
    matches!(name, b"__VA_ARGS__" | b"__VA_OPT__")
}
