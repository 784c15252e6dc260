//! Lines by their letters.
ghost use Rattle.std.specs.Prelude.{◌≡◌, Option, Some, None, IfOk, MatchOption, option_map, codes, bytes_eq};
ghost use Rattle.eo_lines.specs.Lines as lines;
ghost use Rattle.eo_lines.specs.Forms.{field, fields, hex_bytes, integer, a_list, mapped, two_numbers, three_numbers};
ghost use Rattle.eo_lines.specs.Forms.{bits_use, operator_use, call_use, evaluation, call, step, term_form, form, formed};
ghost use Rattle.eo_lines.specs.Forms.{line_of};
ghost use Rattle.eo_lines.specs.Forms as forms;
ghost use Rattle.eo_lines.specs.Reading.{Takes, short, wide, short_line, term_line, evaluation_line, call_line, step_line, read_line};
ghost use Rattle.eo_lines.specs.Sizes.{if_small};

use crate::fields::Fields;
use crate::{CallLine, EvaluationLine, Line, StepLine, TermLine};
use std::alloc::{AllocError, Global};

/// The line that these bytes are. None where they have no form, and where a number has more than
/// 64 bits, or the value of a bit string more than 128.
#[tactic(auto, using(crate::proofs::SmallLines::short_is_small))]
pub fn parse(alloc: Global, bytes: &[u8]) -> Result<Option<Line>, AllocError>
    ensures { IfOk result (λ o. option_map read_line o ≡ if_small (line_of bytes.now)) }
{
    short_line_of(alloc, bytes)
}

// The line that these bytes are, where its numbers are short.
#[tactic(auto, unfolding(crate::specs::Reading::short_line))]
fn short_line_of(alloc: Global, bytes: &[u8]) -> Result<Option<Line>, AllocError>
    ensures { IfOk result (λ o. option_map read_line o ≡ short_line (fields bytes.now)) }
{
    let mut fields = Fields::new(bytes);
    let Some(letter) = fields.take() else {
        return Ok(None);
    };
    let Some(line) = line_by(alloc, letter, &mut fields)? else {
        return Ok(None);
    };
    if !fields.is_empty() {
        return Ok(None);
    }
    Ok(Some(line))
}

// The line of this letter.
fn line_by(alloc: Global, letter: &[u8], fields: &mut Fields) -> Result<Option<Line>, AllocError>
    ensures { IfOk result (λ o. Takes (form short wide letter.now) read_line fields.old o fields.new) }
{
    if letter == b"D".as_slice() {
        return declaration_line(alloc, fields);
    }
    if letter == b"R".as_slice() {
        return reference_line(alloc, fields);
    }
    if letter == b"e".as_slice() {
        return evaluation_line(alloc, fields);
    }
    if letter == b"g".as_slice() {
        return call_line(alloc, fields);
    }
    if letter == b"x".as_slice() {
        return Ok(context_line(fields));
    }
    if letter == b"u".as_slice() {
        return Ok(citation_line(fields));
    }
    if letter == b"j".as_slice() {
        return step_line(alloc, fields);
    }
    term_line(alloc, letter, fields)
}

fn declaration_line(alloc: Global, fields: &mut Fields) -> Result<Option<Line>, AllocError>
    ensures { IfOk result (λ o. Takes (mapped lines.Declares (field hex_bytes)) read_line fields.old o fields.new) }
{
    let Some(bytes) = fields.bytes(alloc)? else {
        return Ok(None);
    };
    Ok(Some(Line::Declares(bytes)))
}

fn reference_line(alloc: Global, fields: &mut Fields) -> Result<Option<Line>, AllocError>
    ensures { IfOk result (λ o. Takes (mapped lines.Refers (field hex_bytes)) read_line fields.old o fields.new) }
{
    let Some(bytes) = fields.bytes(alloc)? else {
        return Ok(None);
    };
    Ok(Some(Line::Refers(bytes)))
}

fn evaluation_line(alloc: Global, fields: &mut Fields) -> Result<Option<Line>, AllocError>
    ensures { IfOk result (λ o. Takes (mapped lines.Evaluates (evaluation short)) read_line fields.old o fields.new) }
{
    let Some(e) = evaluation(alloc, fields)? else {
        return Ok(None);
    };
    Ok(Some(Line::Evaluates(e)))
}

fn call_line(alloc: Global, fields: &mut Fields) -> Result<Option<Line>, AllocError>
    ensures { IfOk result (λ o. Takes (forms.call_line short) read_line fields.old o fields.new) }
{
    let Some(e) = evaluation(alloc, fields)? else {
        return Ok(None);
    };
    let Some(c) = call(alloc, fields)? else {
        return Ok(None);
    };
    Ok(Some(Line::Calls(e, c)))
}

fn context_line(fields: &mut Fields) -> Option<Line>
    ensures { Takes (two_numbers short lines.Assumes) read_line fields.old result fields.new }
{
    let context = fields.number()?;
    let term = fields.number()?;
    Some(Line::Assumes { context, term })
}

fn citation_line(fields: &mut Fields) -> Option<Line>
    ensures { Takes (two_numbers short lines.Cites) read_line fields.old result fields.new }
{
    let context = fields.number()?;
    let term = fields.number()?;
    Some(Line::Cites { context, term })
}

fn step_line(alloc: Global, fields: &mut Fields) -> Result<Option<Line>, AllocError>
    ensures { IfOk result (λ o. Takes (mapped lines.Steps (step short)) read_line fields.old o fields.new) }
{
    let Some(s) = step(alloc, fields)? else {
        return Ok(None);
    };
    Ok(Some(Line::Steps(s)))
}

fn term_line(alloc: Global, letter: &[u8], fields: &mut Fields) -> Result<Option<Line>, AllocError>
    ensures { IfOk result (λ o. Takes (mapped lines.States (term_form short wide letter.now)) read_line fields.old o fields.new) }
{
    let Some(term) = term_by(alloc, letter, fields)? else {
        return Ok(None);
    };
    Ok(Some(Line::States(term)))
}

fn evaluation(alloc: Global, fields: &mut Fields) -> Result<Option<EvaluationLine>, AllocError>
    ensures { IfOk result (λ o. Takes (evaluation short) evaluation_line fields.old o fields.new) }
{
    let Some(term) = fields.number() else {
        return Ok(None);
    };
    let Some(outcome) = fields.maybe_number() else {
        return Ok(None);
    };
    let Some(depth) = fields.number() else {
        return Ok(None);
    };
    let Some(listed) = fields.list(alloc)? else {
        return Ok(None);
    };
    Ok(Some(EvaluationLine {
        term,
        outcome,
        depth,
        listed,
    }))
}

fn call(alloc: Global, fields: &mut Fields) -> Result<Option<CallLine>, AllocError>
    ensures { IfOk result (λ o. Takes (call short) call_line fields.old o fields.new) }
{
    let Some(taken) = fields.maybe_number() else {
        return Ok(None);
    };
    let Some(pairs) = fields.pairs(alloc)? else {
        return Ok(None);
    };
    let Some(body) = fields.maybe_number() else {
        return Ok(None);
    };
    Ok(Some(CallLine { taken, pairs, body }))
}

fn step(alloc: Global, fields: &mut Fields) -> Result<Option<StepLine>, AllocError>
    ensures { IfOk result (λ o. Takes (step short) step_line fields.old o fields.new) }
{
    let Some(context) = fields.number() else {
        return Ok(None);
    };
    let Some(rule) = fields.number() else {
        return Ok(None);
    };
    let Some(inner) = fields.maybe_number() else {
        return Ok(None);
    };
    let Some(premises) = fields.list(alloc)? else {
        return Ok(None);
    };
    let Some(args) = fields.list(alloc)? else {
        return Ok(None);
    };
    let Some(pairs) = fields.pairs(alloc)? else {
        return Ok(None);
    };
    let Some(guarded) = fields.number() else {
        return Ok(None);
    };
    let Some(line) = fields.maybe_number() else {
        return Ok(None);
    };
    let Some(formula) = fields.number() else {
        return Ok(None);
    };
    Ok(Some(StepLine {
        context,
        rule,
        inner,
        premises,
        args,
        pairs,
        guarded,
        line,
        formula,
    }))
}

// The term of this letter.
fn term_by(
    alloc: Global,
    letter: &[u8],
    fields: &mut Fields,
) -> Result<Option<TermLine>, AllocError>
    ensures { IfOk result (λ o. Takes (term_form short wide letter.now) term_line fields.old o fields.new) }
{
    if letter == b"C".as_slice() {
        return Ok(constant(fields));
    }
    if letter == b"N".as_slice() {
        return Ok(integer(fields));
    }
    if letter == b"B".as_slice() {
        return Ok(bits(fields));
    }
    if letter == b"S".as_slice() {
        return string(alloc, fields);
    }
    if letter == b"P".as_slice() {
        return Ok(parameter(fields));
    }
    if letter == b"V".as_slice() {
        return Ok(variable(fields));
    }
    if letter == b"A".as_slice() {
        return Ok(application(fields));
    }
    if letter == b"F".as_slice() {
        return Ok(arrow(fields));
    }
    if letter == b"Q".as_slice() {
        return Ok(bound_arrow(fields));
    }
    if letter == b"O".as_slice() {
        return operator_use(alloc, fields);
    }
    if letter == b"G".as_slice() {
        return call_use(alloc, fields);
    }
    Ok(None)
}

fn constant(fields: &mut Fields) -> Option<TermLine>
    ensures { Takes (mapped lines.OfConstant (field short)) term_line fields.old result fields.new }
{
    let number = fields.number()?;
    Some(TermLine::Constant(number))
}

fn integer(fields: &mut Fields) -> Option<TermLine>
    ensures { Takes (mapped lines.OfNumber (field integer)) term_line fields.old result fields.new }
{
    let value = fields.integer()?;
    Some(TermLine::Number(value))
}

fn bits(fields: &mut Fields) -> Option<TermLine>
    ensures { Takes (bits_use short wide) term_line fields.old result fields.new }
{
    let width = fields.number()?;
    let value = fields.wide_number()?;
    Some(TermLine::Bits { width, value })
}

fn string(alloc: Global, fields: &mut Fields) -> Result<Option<TermLine>, AllocError>
    ensures { IfOk result (λ o. Takes (mapped lines.OfString (a_list short)) term_line fields.old o fields.new) }
{
    let Some(characters) = fields.list(alloc)? else {
        return Ok(None);
    };
    Ok(Some(TermLine::String(characters)))
}

fn parameter(fields: &mut Fields) -> Option<TermLine>
    ensures { Takes (mapped lines.OfParameter (field short)) term_line fields.old result fields.new }
{
    let number = fields.number()?;
    Some(TermLine::Parameter(number))
}

fn variable(fields: &mut Fields) -> Option<TermLine>
    ensures { Takes (two_numbers short lines.OfVariable) term_line fields.old result fields.new }
{
    let name = fields.number()?;
    let ty = fields.number()?;
    Some(TermLine::Variable { name, ty })
}

fn application(fields: &mut Fields) -> Option<TermLine>
    ensures { Takes (two_numbers short lines.OfApplication) term_line fields.old result fields.new }
{
    let fun = fields.number()?;
    let arg = fields.number()?;
    Some(TermLine::Application { fun, arg })
}

fn arrow(fields: &mut Fields) -> Option<TermLine>
    ensures { Takes (two_numbers short lines.OfArrow) term_line fields.old result fields.new }
{
    let from = fields.number()?;
    let to = fields.number()?;
    Some(TermLine::Arrow { from, to })
}

fn bound_arrow(fields: &mut Fields) -> Option<TermLine>
    ensures { Takes (three_numbers short lines.OfBoundArrow) term_line fields.old result fields.new }
{
    let par = fields.number()?;
    let ty = fields.number()?;
    let to = fields.number()?;
    Some(TermLine::BoundArrow { par, ty, to })
}

fn operator_use(alloc: Global, fields: &mut Fields) -> Result<Option<TermLine>, AllocError>
    ensures { IfOk result (λ o. Takes (operator_use short) term_line fields.old o fields.new) }
{
    let Some(name) = fields.name(alloc)? else {
        return Ok(None);
    };
    let Some(args) = fields.list(alloc)? else {
        return Ok(None);
    };
    Ok(Some(TermLine::Operator { name, args }))
}

fn call_use(alloc: Global, fields: &mut Fields) -> Result<Option<TermLine>, AllocError>
    ensures { IfOk result (λ o. Takes (call_use short) term_line fields.old o fields.new) }
{
    let Some(program) = fields.number() else {
        return Ok(None);
    };
    let Some(args) = fields.list(alloc)? else {
        return Ok(None);
    };
    Ok(Some(TermLine::Call { program, args }))
}
