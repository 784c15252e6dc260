//! Strings in strings.
ghost use Rattle.std.specs.Prelude.{◌≡◌, map};
ghost use Rattle.eo_ops.specs.Operators.{found, place_of};
ghost use Rattle.eo_ops.specs.Lit.{lit};
ghost use Rattle.eo_ops.specs.OpResult.{Answers};

use crate::{Lit, OpResult};

pub(crate) fn find(args: &[Lit]) -> OpResult
    ensures { Answers result (found (map lit args.now)) }
{
    match args {
        [Lit::Str(s), Lit::Str(t)] => {
            let place = first_place(s.as_slice(), t.as_slice());
            OpResult::Value(Lit::Num(place.map_or(-1, |place| place as i128)))
        }
        _ => OpResult::Stuck,
    }
}

/// The first place of `s` at which `t` occurs.
fn first_place(s: &[u32], t: &[u32]) -> Option<usize>
    ensures { result ≡ place_of t.now s.now }
{
    if t.is_empty() {
        return Some(0);
    }
    for place in 0..s.len() {
        if s[place..].starts_with(t) {
            return Some(place);
        }
    }
    None
}
