//! Values of operators in types, whose arguments are settled and closed.
ghost use Rattle.std.specs.Prelude.{◌≡◌, ◌<◌, [], ◌∷◌, length, All};
ghost use Rattle.eo_term.specs.declared.OpCode.TheVariants as code;
ghost use Rattle.eo_term.specs.declared.OpName.TheVariants as name;
ghost use Rattle.eo_term.specs.Terms.{HasArity};
ghost use Rattle.eo_term.specs.Growth.{trees_in};
ghost use Rattle.eo_type.specs.Types.{op_in_type};
ghost use Rattle.eo_type.specs.Outcomes.{Yields, Gives, IsTyped};
ghost use Rattle.eo_type.specs.Parts.{AreArguments, on_values};

use crate::leaves::{are_values, if_value, is_constant, is_equal, truth_value};
use crate::literals::value_of;
use crate::refused::Stop;
use eo_term::{Id, OpCode, OpName, Table};
use std::alloc::Global;

/// The value of an operator in a type. Programs have none there.
pub(crate) fn op_value(
    alloc: Global,
    table: &mut Table,
    code: OpCode,
    args: &[Id],
) -> Result<Id, Stop>
    requires count { HasArity code (length args.now) }
    requires args { All (λ i. i < length table.old.trees) args.now }
    ensures { Yields table.old table.new result (op_in_type code (trees_in table.old args.now)) }
{
    match code {
        OpCode::Builtin(op) => builtin_value(alloc, table, op, args),
        OpCode::Prog(_) => Err(Stop::Untyped),
    }
}

// The value of an operator of the language.
fn builtin_value(alloc: Global, table: &mut Table, op: OpName, args: &[Id]) -> Result<Id, Stop>
    requires arguments { AreArguments table.old op args.now }
    ensures { Yields table.old table.new result (op_in_type (code.Builtin op) (trees_in table.old args.now)) }
{
    match op {
        OpName::Ite => choice(table, args[0], args[1], args[2]),
        OpName::Requires => require_equal(table, args[0], args[1], args[2]),
        OpName::IsEq => Ok(equality(table, args[0], args[1])),
        _ => value_on_values(alloc, table, op, args),
    }
}

// The branch that the condition chooses, if it is a value.
fn choice(table: &Table, condition: Id, yes: Id, no: Id) -> Result<Id, Stop>
    requires condition { condition < length table.now.trees }
    requires yes { yes < length table.now.trees }
    requires no { no < length table.now.trees }
    ensures gives { Gives table.now result (op_in_type (code.Builtin name.Ite) (trees_in table.now (condition ∷ yes ∷ no ∷ []))) }
{
    if is_constant(table, condition, 2) {
        return if_value(table, yes);
    }
    if is_constant(table, condition, 3) {
        return if_value(table, no);
    }
    Err(Stop::Untyped)
}

// The third term, if the first two are one value, and if it is a value.
fn require_equal(table: &Table, a: Id, b: Id, then: Id) -> Result<Id, Stop>
    requires a { a < length table.now.trees }
    requires b { b < length table.now.trees }
    requires then { then < length table.now.trees }
    ensures gives { Gives table.now result (op_in_type (code.Builtin name.Requires) (trees_in table.now (a ∷ b ∷ then ∷ []))) }
{
    if !table.is_value(a) || !is_equal(table, a, b) {
        return Err(Stop::Untyped);
    }
    if_value(table, then)
}

// Whether both terms are one value.
fn equality(table: &Table, a: Id, b: Id) -> Id
    requires a { a < length table.now.trees }
    requires b { b < length table.now.trees }
    ensures { IsTyped table.now (op_in_type (code.Builtin name.IsEq) (trees_in table.now (a ∷ b ∷ []))) result }
{
    let same = table.is_value(a) && is_equal(table, a, b);
    truth_value(table, same)
}

// The value of any other operator, if its arguments are values.
fn value_on_values(alloc: Global, table: &mut Table, op: OpName, args: &[Id]) -> Result<Id, Stop>
    requires arguments { AreArguments table.old op args.now }
    ensures { Yields table.old table.new result (on_values op (trees_in table.old args.now)) }
{
    if !are_values(table, args) {
        return Err(Stop::Untyped);
    }
    value_of(alloc, table, op, args)
}
