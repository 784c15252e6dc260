//! What kind of literal an argument is.
ghost use Rattle.std.specs.Prelude.{map, false};
ghost use Rattle.eo_ops.specs.Operators.{ask, is_number, is_bit_string, is_text, is_boolean};
ghost use Rattle.eo_ops.specs.Lit.{lit};
ghost use Rattle.eo_ops.specs.OpResult.{Answers};

use crate::answers::truth;
use crate::{Lit, OpResult};

pub(crate) fn is_z(args: &[Lit]) -> OpResult
    ensures { Answers result (ask is_number (map lit args.now)) }
{
    match args {
        [a] => truth(matches!(a, Lit::Num(_))),
        _ => OpResult::Stuck,
    }
}

pub(crate) fn is_bin(args: &[Lit]) -> OpResult
    ensures { Answers result (ask is_bit_string (map lit args.now)) }
{
    match args {
        [a] => truth(matches!(a, Lit::Bits { .. })),
        _ => OpResult::Stuck,
    }
}

pub(crate) fn is_str(args: &[Lit]) -> OpResult
    ensures { Answers result (ask is_text (map lit args.now)) }
{
    match args {
        [a] => truth(matches!(a, Lit::Str(_))),
        _ => OpResult::Stuck,
    }
}

pub(crate) fn is_bool(args: &[Lit]) -> OpResult
    ensures { Answers result (ask is_boolean (map lit args.now)) }
{
    match args {
        [a] => truth(matches!(a, Lit::Bool(_))),
        _ => OpResult::Stuck,
    }
}

/// No literal is a variable.
pub(crate) fn is_var(args: &[Lit]) -> OpResult
    ensures { Answers result (ask (λ _. false) (map lit args.now)) }
{
    match args {
        [_] => truth(false),
        _ => OpResult::Stuck,
    }
}
