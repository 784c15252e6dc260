//! The shape of a step.
ghost use Rattle.std.specs.Prelude.{◌≡◌, option_map};
ghost use Rattle.eo_shape.specs.Reading.{read_command, read_step};
ghost use Rattle.eo_shape.specs.Shapes as shapes;

use crate::sequences::{no_symbols, symbols_in};
use crate::words::{is_keyword, symbol};
use crate::{Command, StepShape, Symbols};
use eo_sexp::{Children, Sexp};

pub(crate) fn step<'b>(parts: &Children<'b>) -> Option<Command<'b>>
    ensures { option_map read_command result ≡ shapes.step shapes.Step parts.now }
{
    let step = step_of(parts)?;
    Some(Command::Step(step))
}

pub(crate) fn step_pop<'b>(parts: &Children<'b>) -> Option<Command<'b>>
    ensures { option_map read_command result ≡ shapes.step shapes.StepPop parts.now }
{
    let step = step_of(parts)?;
    Some(Command::StepPop(step))
}

/// The step of these parts.
fn step_of<'b>(parts: &Children<'b>) -> Option<StepShape<'b>>
    ensures { option_map read_step result ≡ shapes.step_of parts.now }
{
    let (name, rest) = parts.split_first()?;
    let (stated, rest) = stated_formula(&rest);
    step_by_rule(symbol(&name)?, stated, &rest)
}

/// The first part as the formula that is stated, unless it is `:rule`; and what follows.
fn stated_formula<'b>(parts: &Children<'b>) -> (Option<Sexp<'b>>, Children<'b>)
    ensures { result ≡ shapes.stated_of parts.now }
{
    let Some((first, rest)) = parts.split_first() else {
        return (None, parts.again());
    };
    if is_keyword(&first, b":rule") {
        return (None, parts.again());
    }
    (Some(first), rest)
}

/// The step of this name that states this formula, if any, by what follows: `:rule` and the name
/// of a rule, and other parts.
fn step_by_rule<'b>(
    name: &'b [u8],
    stated: Option<Sexp<'b>>,
    parts: &Children<'b>,
) -> Option<StepShape<'b>>
    ensures { option_map read_step result ≡ shapes.step_by_rule name.now stated.entry parts.now }
{
    let (keyword, rule, rest) = parts.split_two()?;
    if !is_keyword(&keyword, b":rule") {
        return None;
    }
    step_with(name, stated, symbol(&rule)?, &rest)
}

/// The step with these parts, by what follows the name of its rule.
fn step_with<'b>(
    name: &'b [u8],
    stated: Option<Sexp<'b>>,
    rule: &'b [u8],
    parts: &Children<'b>,
) -> Option<StepShape<'b>>
    ensures { option_map read_step result ≡ shapes.step_with name.now stated.entry rule.now parts.now }
{
    let (premises, rest) = premises(parts)?;
    let args = arguments(&rest)?;
    Some(StepShape {
        name,
        stated,
        rule,
        premises,
        args,
    })
}

/// The names that are listed after `:premises`, where it comes first, or none; and what follows.
fn premises<'b>(parts: &Children<'b>) -> Option<(Symbols<'b>, Children<'b>)>
    ensures { result ≡ shapes.premise_names parts.now }
{
    let Some((keyword, list, rest)) = parts.split_two() else {
        return Some((no_symbols(parts), parts.again()));
    };
    if !is_keyword(&keyword, b":premises") {
        return Some((no_symbols(parts), parts.again()));
    }
    Some((symbols_in(&list)?, rest))
}

/// The terms that are listed after `:args`, where there is anything, and after which nothing follows.
fn arguments<'b>(parts: &Children<'b>) -> Option<Children<'b>>
    ensures { result ≡ shapes.last_arguments parts.now }
{
    if parts.len() == 0 {
        return Some(parts.none());
    }
    let (keyword, list) = parts.only_two()?;
    if !is_keyword(&keyword, b":args") {
        return None;
    }
    list.list()
}
