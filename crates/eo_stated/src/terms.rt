//! Lines that state terms.
ghost use Rattle.std.specs.Prelude.{◌≡◌, ℕ, ◌<◌, ◌≤◌, ◌^◌, ◌&&◌, ◌++◌, [], ◌∷◌, length, map, All, option_map, option_and_then};
ghost use Rattle.std.specs.Prelude.{IfSome, IfOk, OnOk, nat_le, nat_lt, None, Some, is_some, MatchOption};
ghost use Rattle.eo_base.specs.Limits.{parameters_limit};
ghost use Rattle.eo_sig.specs.Signature.{constant_at, program_at};
ghost use Rattle.eo_sig.specs.Reading.{ProgramBelow, read_program};
ghost use Rattle.std.specs.List.{list_all};
ghost use Rattle.eo_base.specs.Characters.{AreCharacters, greatest_character};
ghost use Rattle.eo_lit.specs.Literals as lit;
ghost use Rattle.eo_term.specs.Growth.{tree_in, trees_in};
ghost use Rattle.eo_term.specs.Tree.{NoTree, Op, Str};
ghost use Rattle.eo_term.specs.Terms.{HasArity, text_at, trees_at};
ghost use Rattle.eo_stated.specs.Checking.{stated_of, IsHeld, Keeps, GivesTerm, Does, low};
ghost use Rattle.eo_lines.specs.Lines as lines;
ghost use Rattle.eo_lines.specs.Reading as parsed;
ghost use Rattle.eo_cert.specs.Stated as stated;
ghost use Rattle.eo_cert.specs.Terms.{by_parts, string_of, term_line};

use crate::checker::Checker;
use crate::refused::LineRefused;
use eo_lines::TermLine;
use eo_sig::{ProgramDecl, growth_law};
use eo_term::{Id, Node, OpCode, OpName, TextId};
use std::alloc::AllocError;

impl Checker {
    /// States a term.
    pub fn state_term(&mut self, line: &TermLine) -> Result<(), LineRefused>
        requires { IsHeld self.old }
        ensures held { OnOk result (IsHeld self.new) }
        ensures does { Does result (term_line (stated_of self.old) (parsed.term_line line.now)) self.new }
    {
        match self.build_term(line) {
            Ok(id) => {
                self.push_term(id)?;
                Ok(())
            }
            Err(e) => Err(e),
        }
    }

    // The term by its parts.
    fn build_term(&mut self, line: &TermLine) -> Result<Id, LineRefused>
        requires { IsHeld self.old }
        ensures gives { GivesTerm self.new.table result
            (low (by_parts (stated_of self.old) (parsed.term_line line.now))) }
        ensures keeps { Keeps self.old self.new }
    {
        match line {
            TermLine::Constant(number) => self.constant(*number),
            TermLine::Number(value) => self.intern(Node::Num(*value)),
            TermLine::Bits { width, value } => self.bits(*width, *value),
            TermLine::String(characters) => self.string(characters),
            TermLine::Parameter(number) => self.parameter(*number),
            TermLine::Variable { name, ty } => self.variable(*name, *ty),
            TermLine::Application { fun, arg } => self.application(*fun, *arg),
            TermLine::Arrow { from, to } => self.arrow(*from, *to),
            TermLine::BoundArrow { par, ty, to } => self.bound_arrow(*par, *ty, *to),
            TermLine::Operator { name, args } => self.operator(name, args),
            TermLine::Call { program, args } => self.call(*program, args),
        }
    }

    fn constant(&mut self, number: u64) -> Result<Id, LineRefused>
        requires { IsHeld self.old }
        ensures gives { GivesTerm self.new.table result
            (low (by_parts (stated_of self.old) (lines.OfConstant number))) }
        ensures keeps { Keeps self.old self.new }
    {
        if !self.has_constant(number as usize) {
            return Err(LineRefused::Bad);
        }
        self.intern(Node::Con(number as usize))
    }

    // Whether a constant has this number.
    fn has_constant(&self, number: usize) -> bool
        requires { IsHeld self.now }
        ensures { result ≡ is_some (constant_at (stated.signature (stated_of self.now)) number) }
    {
        number < self.signature.constants()
    }

    fn bits(&mut self, width: u64, value: u128) -> Result<Id, LineRefused>
        requires { IsHeld self.old }
        ensures gives { GivesTerm self.new.table result
            (low (by_parts (stated_of self.old) (lines.OfBits width value))) }
        ensures keeps { Keeps self.old self.new }
    {
        if !fits_width(width, value) {
            return Err(LineRefused::Bad);
        }
        self.intern(Node::Bits {
            width: width as u8,
            value,
        })
    }

    fn string(&mut self, numbers: &[u64]) -> Result<Id, LineRefused>
        requires { IsHeld self.old }
        ensures gives { GivesTerm self.new.table result
            (low (by_parts (stated_of self.old) (lines.OfString numbers.now))) }
        ensures keeps { Keeps self.old self.new }
    {
        if !are_characters(numbers) {
            return Err(LineRefused::Bad);
        }
        let text = self.text(numbers)?;
        self.intern(Node::Str(text))
    }

    // The text of these characters.
    fn text(&mut self, numbers: &[u64]) -> Result<TextId, AllocError>
        requires held { IsHeld self.old }
        requires characters { AreCharacters numbers.now }
        ensures text { IfOk result (λ t. text_at self.new.table.texts t ≡ numbers.now) }
        ensures live { IfOk result (λ t. t < length self.new.table.texts) }
        ensures keeps { Keeps self.old self.new }
    {
        growth_law();
        self.types.laws();
        let mut characters = Vec::new(self.alloc);
        for number in numbers {
            characters.push(*number as u32)?;
        }
        self.table.text(&characters)
    }

    fn parameter(&mut self, number: u64) -> Result<Id, LineRefused>
        requires { IsHeld self.old }
        ensures gives { GivesTerm self.new.table result
            (low (by_parts (stated_of self.old) (lines.OfParameter number))) }
        ensures keeps { Keeps self.old self.new }
    {
        if number >= 64 {
            return Err(LineRefused::Bad);
        }
        self.intern(Node::Par(number as u8))
    }

    fn variable(&mut self, name: u64, ty: u64) -> Result<Id, LineRefused>
        requires { IsHeld self.old }
        ensures gives { GivesTerm self.new.table result
            (low (by_parts (stated_of self.old) (lines.OfVariable name ty))) }
        ensures keeps { Keeps self.old self.new }
    {
        let Some(name) = self.string_at(name) else {
            return Err(LineRefused::Bad);
        };
        let Some(ty) = self.term_at(ty) else {
            return Err(LineRefused::Bad);
        };
        self.intern(Node::Var { name, ty })
    }

    // The text of the string that a number names.
    fn string_at(&self, number: u64) -> Option<TextId>
        requires { IsHeld self.now }
        ensures text { option_map (text_at self.now.table.texts) result
            ≡ option_and_then string_of (stated.term_at (stated_of self.now) number) }
        ensures live { IfSome result (λ t. t < length self.now.table.texts) }
    {
        let id = self.term_at(number)?;
        match self.table.node(id) {
            Node::Str(text) => Some(text),
            _ => None,
        }
    }

    fn application(&mut self, fun: u64, arg: u64) -> Result<Id, LineRefused>
        requires { IsHeld self.old }
        ensures gives { GivesTerm self.new.table result
            (low (by_parts (stated_of self.old) (lines.OfApplication fun arg))) }
        ensures keeps { Keeps self.old self.new }
    {
        let Some(fun) = self.term_at(fun) else {
            return Err(LineRefused::Bad);
        };
        let Some(arg) = self.term_at(arg) else {
            return Err(LineRefused::Bad);
        };
        self.intern(Node::App { fun, arg })
    }

    fn arrow(&mut self, from: u64, to: u64) -> Result<Id, LineRefused>
        requires { IsHeld self.old }
        ensures gives { GivesTerm self.new.table result (low (by_parts (stated_of self.old) (lines.OfArrow from to))) }
        ensures keeps { Keeps self.old self.new }
    {
        let Some(from) = self.term_at(from) else {
            return Err(LineRefused::Bad);
        };
        let Some(to) = self.term_at(to) else {
            return Err(LineRefused::Bad);
        };
        self.intern(Node::Arr { from, to })
    }

    fn bound_arrow(&mut self, par: u64, ty: u64, to: u64) -> Result<Id, LineRefused>
        requires { IsHeld self.old }
        ensures gives { GivesTerm self.new.table result
            (low (by_parts (stated_of self.old) (lines.OfBoundArrow par ty to))) }
        ensures keeps { Keeps self.old self.new }
    {
        if par >= 64 {
            return Err(LineRefused::Bad);
        }
        let Some(ty) = self.term_at(ty) else {
            return Err(LineRefused::Bad);
        };
        let Some(to) = self.term_at(to) else {
            return Err(LineRefused::Bad);
        };
        self.intern(Node::Qar {
            par: par as u8,
            ty,
            to,
        })
    }

    fn operator(&mut self, name: &[u8], args: &[u64]) -> Result<Id, LineRefused>
        requires { IsHeld self.old }
        ensures gives { GivesTerm self.new.table result
            (low (by_parts (stated_of self.old) (lines.OfOperator name.now args.now))) }
        ensures keeps { Keeps self.old self.new }
    {
        let Some(op) = OpName::from_word(name) else {
            return Err(LineRefused::Bad);
        };
        let Some(ids) = self.terms_at(args)? else {
            return Err(LineRefused::Bad);
        };
        if ids.len() != op.arity() {
            return Err(LineRefused::Bad);
        }
        self.intern_op(OpCode::Builtin(op), &ids)
    }

    fn call(&mut self, program: u64, args: &[u64]) -> Result<Id, LineRefused>
        requires { IsHeld self.old }
        ensures gives { GivesTerm self.new.table result
            (low (by_parts (stated_of self.old) (lines.OfCall program args.now))) }
        ensures keeps { Keeps self.old self.new }
    {
        let Some(count) = self.inputs_of(program as usize) else {
            return Err(LineRefused::Bad);
        };
        let Some(ids) = self.terms_at(args)? else {
            return Err(LineRefused::Bad);
        };
        if ids.len() != count {
            return Err(LineRefused::Bad);
        }
        self.intern_op(OpCode::Prog(program as usize), &ids)
    }

    // How many arguments the program with this number takes.
    fn inputs_of(&self, number: usize) -> Option<usize>
        requires { IsHeld self.now }
        ensures count { result ≡ option_map (λ p. length p.inputs) (program_at (stated.signature (stated_of self.now)) number) }
        ensures few { IfSome result (λ n. n ≤ parameters_limit) }
    {
        let program = self.program(number)?;
        Some(program.inputs.as_slice().len())
    }

    /// The program with this number.
    pub fn program(&self, number: usize) -> Option<&ProgramDecl>
        requires { IsHeld self.now }
        ensures program { MatchOption result (program_at (stated.signature (stated_of self.now)) number ≡ None)
            (λ d. program_at (stated.signature (stated_of self.now)) number ≡ Some (read_program self.now.table.trees d.now)) }
        ensures below { IfSome result (λ d. ProgramBelow (length self.now.table.trees) d.now) }
    {
        if number >= self.signature.programs() {
            return None;
        }
        Some(self.signature.program(number))
    }

    // The term that applies an operator.
    fn intern_op(&mut self, code: OpCode, args: &[Id]) -> Result<Id, LineRefused>
        requires held { IsHeld self.old }
        requires count { HasArity code (length args.now) }
        requires args { All (λ j. j < length self.old.table.trees) args.now }
        ensures gives { GivesTerm self.new.table result
            (low (Some (Op code (trees_at self.old.table.trees args.now)))) }
        ensures keeps { Keeps self.old self.new }
    {
        growth_law();
        self.types.laws();
        let id = self.table.intern_op(code, args)?;
        Ok(id)
    }

    /// The terms that numbers name.
    pub fn terms_at(&self, numbers: &[u64]) -> Result<Option<Vec<Id>>, AllocError>
        requires { IsHeld self.now }
        ensures trees { IfOk result (λ o. option_map (λ v. trees_in self.now.table v.items) o
            ≡ stated.terms_at (stated_of self.now) numbers.now) }
        ensures live { IfOk result (λ o. IfSome o (λ v. All (λ j. j < length self.now.table.trees) v.items)) }
    {
        let mut ids = Vec::new(self.alloc);
        for number in numbers {
            let Some(id) = self.term_at(*number) else {
                return Ok(None);
            };
            ids.push(id)?;
        }
        Ok(Some(ids))
    }
}

// Whether a bit string fits its width.
fn fits_width(width: u64, value: u128) -> bool
    ensures { result ≡ (nat_le width 128 && nat_lt value (2 ^ width)) }
{
    width <= 128 && is_below(width as u32, value)
}

// Whether a number has so many bits.
fn is_below(width: u32, value: u128) -> bool
    requires { width ≤ 128 }
    ensures { result ≡ nat_lt value (2 ^ width) }
{
    width == 128 || value < 1u128 << width
}

// Whether these are characters.
fn are_characters(numbers: &[u64]) -> bool
    ensures { result ≡ list_all (λ c. nat_le c lit.greatest_character) numbers.now }
{
    numbers.iter().all(|c| *c <= 0x2_ffff)
}
