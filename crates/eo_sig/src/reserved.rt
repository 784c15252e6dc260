//! Names that cannot be declared.
ghost use Rattle.std.specs.Prelude.{◌≡◌, bytes_eq};
ghost use Rattle.std.specs.List.{list_any};
ghost use Rattle.eo_sig.specs.Signature as sig;

/// Whether the name is reserved: one of `Type`, `Bool`, `true`, `false`, `->`, `_`, `let` and `!`,
/// or one that begins with `eo::`.
pub fn is_reserved(name: &[u8]) -> bool
    ensures { result ≡ sig.is_reserved name.now }
{
    is_word(name) || name.starts_with(b"eo::".as_slice())
}

// Whether it is one of the words; only those of its length are compared.
fn is_word(name: &[u8]) -> bool
    ensures { result ≡ list_any (bytes_eq name.now) sig.reserved_names }
{
    match name.len() {
        1 => name == b"_".as_slice() || name == b"!".as_slice(),
        2 => name == b"->".as_slice(),
        3 => name == b"let".as_slice(),
        4 => {
            name == b"Type".as_slice() || name == b"Bool".as_slice() || name == b"true".as_slice()
        }
        5 => name == b"false".as_slice(),
        _ => false,
    }
}
