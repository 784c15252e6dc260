//! The shape of a rule.
ghost use Rattle.std.specs.Prelude.{◌≡◌, codes, option_map};
ghost use Rattle.eo_shape.specs.Reading.{read_command, read_premises, read_rule};
ghost use Rattle.eo_shape.specs.Rules.{read_premises_and};
ghost use Rattle.eo_shape.specs.Shapes as shapes;
ghost use Rattle.eo_shape.specs.Shapes.{list_of};

use crate::parameters::parameters;
use crate::sequences::{no_pairs, pairs};
use crate::words::{is_keyword, symbol};
use crate::{Command, PairShapes, ParameterShapes, PremisesShape, RuleShape};
use eo_sexp::{Children, Sexp};

pub(crate) fn declare_rule<'b>(parts: &Children<'b>) -> Option<Command<'b>>
    ensures { option_map read_command result ≡ shapes.declare_rule parts.now }
{
    let (name, params, rest) = parts.split_two()?;
    let rule = rule_of(symbol(&name)?, parameters(&params)?, &rest)?;
    Some(Command::DeclareRule(rule))
}

/// The rule of this name and parameters, by what follows.
fn rule_of<'b>(
    name: &'b [u8],
    params: ParameterShapes<'b>,
    parts: &Children<'b>,
) -> Option<RuleShape<'b>>
    ensures { option_map read_rule result ≡ shapes.rule_of name.now params.entry parts.now }
{
    let (assumption, rest) = optional(parts, b":assumption");
    let (premises, rest) = premises(&rest)?;
    rule_with(name, params, assumption, premises, &rest)
}

/// The rule with these parts, by what follows its premises.
fn rule_with<'b>(
    name: &'b [u8],
    params: ParameterShapes<'b>,
    assumption: Option<Sexp<'b>>,
    premises: PremisesShape<'b>,
    parts: &Children<'b>,
) -> Option<RuleShape<'b>>
    ensures { option_map read_rule result ≡
        shapes.rule_with name.now params.entry assumption.entry (read_premises premises.entry) parts.now }
{
    let (args, rest) = terms_behind(b":args", parts)?;
    let (requirements, rest) = pairs_behind(b":requires", &rest)?;
    let (conclusion, sorry) = conclusion(&rest)?;
    Some(RuleShape {
        name,
        params,
        assumption,
        premises,
        args,
        requirements,
        conclusion,
        sorry,
    })
}

/// The part after this keyword, where it comes first; and what follows.
fn optional<'b>(parts: &Children<'b>, word: &[u8]) -> (Option<Sexp<'b>>, Children<'b>)
    ensures { result ≡ shapes.optional word.now parts.now }
{
    let Some((keyword, thing, rest)) = parts.split_two() else {
        return (None, parts.again());
    };
    if !is_keyword(&keyword, word) {
        return (None, parts.again());
    }
    (Some(thing), rest)
}

/// The terms that are listed after this keyword, where it comes first, or none; and what follows.
fn terms_behind<'b>(word: &[u8], parts: &Children<'b>) -> Option<(Children<'b>, Children<'b>)>
    ensures { result ≡ shapes.optional_list list_of word.now parts.now }
{
    let Some((keyword, list, rest)) = parts.split_two() else {
        return Some((parts.none(), parts.again()));
    };
    if !is_keyword(&keyword, word) {
        return Some((parts.none(), parts.again()));
    }
    Some((list.list()?, rest))
}

/// The pairs that are listed after this keyword, where it comes first, or none; and what follows.
fn pairs_behind<'b>(word: &[u8], parts: &Children<'b>) -> Option<(PairShapes<'b>, Children<'b>)>
    ensures { result ≡ shapes.optional_list shapes.pairs_of word.now parts.now }
{
    let Some((keyword, list, rest)) = parts.split_two() else {
        return Some((no_pairs(parts), parts.again()));
    };
    if !is_keyword(&keyword, word) {
        return Some((no_pairs(parts), parts.again()));
    }
    Some((pairs(&list)?, rest))
}

/// What the premises are matched with: `:premises` with a list of patterns, `:premise-list` with a
/// pattern and what joins them, or nothing; and what follows, of which there is something.
fn premises<'b>(parts: &Children<'b>) -> Option<(PremisesShape<'b>, Children<'b>)>
    ensures { option_map read_premises_and result ≡ shapes.premises_of parts.now }
{
    let Some((keyword, patterns, joiner, rest)) = parts.split_three() else {
        return Some((PremisesShape::Each(parts.none()), parts.again()));
    };
    if is_keyword(&keyword, b":premise-list") {
        return Some((
            PremisesShape::Joined {
                pattern: patterns,
                joiner,
            },
            rest,
        ));
    }
    if is_keyword(&keyword, b":premises") {
        let (_, _, rest) = parts.split_two()?;
        return Some((PremisesShape::Each(patterns.list()?), rest));
    }
    Some((PremisesShape::Each(parts.none()), parts.again()))
}

/// The term after `:conclusion`, and whether `:sorry` follows.
fn conclusion<'b>(parts: &Children<'b>) -> Option<(Sexp<'b>, bool)>
    ensures { result ≡ shapes.conclusion_of parts.now }
{
    let (keyword, term, rest) = parts.split_two()?;
    if !is_keyword(&keyword, b":conclusion") {
        return None;
    }
    with_sorry(term, &rest)
}

/// The term, and whether these parts are `:sorry`.
fn with_sorry<'b>(term: Sexp<'b>, parts: &Children<'_>) -> Option<(Sexp<'b>, bool)>
    ensures { result ≡ option_map (λ sorry. (term.entry, sorry)) (shapes.sorry_of parts.now) }
{
    let sorry = sorry(parts)?;
    Some((term, sorry))
}

/// Whether these parts are `:sorry`, or else nothing.
fn sorry(parts: &Children<'_>) -> Option<bool>
    ensures { result ≡ shapes.sorry_of parts.now }
{
    if parts.len() == 0 {
        return Some(false);
    }
    let mark = parts.only_one()?;
    if !is_keyword(&mark, b":sorry") {
        return None;
    }
    Some(true)
}
