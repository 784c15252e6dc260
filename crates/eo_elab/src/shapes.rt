//! Shapes of s-expressions: the lists of pairs by which `let` and binders bind names.
ghost use Rattle.std.specs.Prelude.{◌≡◌, option_map};
ghost use Rattle.eo_sexp.specs.Sexp.{sexps_of};
ghost use Rattle.eo_elab.specs.Forms.{binding_of};
ghost use Rattle.eo_elab.specs.Meaning.{is_pair, are_pairs, is_pair_list, is_let, begins_with_pairs};

use eo_sexp::{Children, Kind, Sexp};

/// Whether the arguments are a list of pairs and a body.
pub(crate) fn is_let(args: &Children<'_>) -> bool
    ensures { result ≡ is_let (sexps_of args.now) }
{
    match args.only_two() {
        Some((pairs, _)) => is_pair_list(&pairs),
        None => false,
    }
}

/// Whether the first argument is a list of pairs.
pub(crate) fn begins_with_pairs(args: &Children<'_>) -> bool
    ensures { result ≡ begins_with_pairs (sexps_of args.now) }
{
    match args.split_first() {
        Some((first, _)) => is_pair_list(&first),
        None => false,
    }
}

// One or more lists of a symbol and one thing more.
fn is_pair_list(s: &Sexp<'_>) -> bool
    ensures { result ≡ is_pair_list s.now }
{
    let pairs = s.children();
    pairs.len() != 0 && are_pairs(&pairs)
}

// Lists of a symbol and one thing more.
fn are_pairs(pairs: &Children<'_>) -> bool
    ensures { result ≡ are_pairs (sexps_of pairs.now) }
{
    for s in pairs.again() {
        if !is_pair(&s) {
            return false;
        }
    }
    true
}

fn is_pair(s: &Sexp<'_>) -> bool
    ensures { result ≡ is_pair s.now }
{
    match s.children().only_two() {
        Some((name, _)) => name.kind() == Kind::Symbol,
        None => false,
    }
}

/// The name of a pair, and what follows it; nothing, where it is no list of an atom and one more
/// part.
pub(crate) fn binding_of<'b>(s: &Sexp<'b>) -> Option<(&'b [u8], Sexp<'b>)>
    ensures { option_map (λ p. (p.0.now, p.1)) result ≡ binding_of s.now }
{
    let (name, beside) = s.children().only_two()?;
    match name.list() {
        None => Some((name.text(), beside)),
        Some(_) => None,
    }
}
