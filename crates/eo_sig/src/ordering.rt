//! The order of parameters.
ghost use Rattle.std.specs.Prelude.{◌≡◌, ◌+◌, ◌<◌, ◌≤◌, ℕ, nat_lt, length, map, All};
ghost use Rattle.eo_term.specs.Growth.{tree_in};
ghost use Rattle.eo_term.specs.ParamSet.{has};
ghost use Rattle.eo_term.specs.Tree.{uses_only};
ghost use Rattle.eo_sig.specs.Reading.{read_parameter};
ghost use Rattle.eo_sig.specs.Signature.{are_ordered};

use crate::Param;
use eo_term::{Id, ParamSet, Table};

/// Whether the type of each of these parameters, of which there are at most 64, uses earlier ones
/// only, as [`crate::Signature::add_rule`] requires. Their types are terms of the table.
pub fn are_ordered(table: &Table, params: &[Param]) -> bool
    requires live { All (λ (p : Param). p.ty < length table.now.trees) params.now }
    requires few { length params.now ≤ 64 }
    ensures { result ≡ are_ordered 0 (map (read_parameter table.now.trees) params.now) }
{
    are_ordered_from(table, params, 0)
}

// The same, where the first has this number.
fn are_ordered_from(table: &Table, params: &[Param], first: u8) -> bool
    requires live { All (λ (p : Param). p.ty < length table.now.trees) params.now }
    requires few { first + length params.now ≤ 64 }
    ensures { result ≡ are_ordered first (map (read_parameter table.now.trees) params.now) }
{
    let [param, rest @ ..] = params else {
        return true;
    };
    uses_below(table, param.ty, first) && are_ordered_from(table, rest, first + 1)
}

// Whether a type uses parameters below this number only.
fn uses_below(table: &Table, ty: Id, number: u8) -> bool
    requires ty { ty < length table.now.trees }
    requires number { number < 64 }
    ensures { result ≡ uses_only (λ j. nat_lt j number) (tree_in table.now ty) }
{
    table.uses_only(&below(number), ty)
}

// The parameters below this number.
fn below(number: u8) -> ParamSet
    requires { number < 64 }
    ensures { (j : ℕ) → has result j ≡ nat_lt j number }
{
    let mut set = ParamSet::new();
    for i in 0..number {
        set.add_all(ParamSet::of(i));
    }
    set
}
