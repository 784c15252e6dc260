//! Terms as codes: a letter for what a term is, and then its parts.
use super::world::{AND, INT, NOT, World};
use eo_term::{BOOL, FALSE, Id, OpName, TRUE, TYPE};
use std::test::Fail;

/// A term without parts.
#[derive(Clone, Copy)]
enum Leaf {
    Term(Id),
    Constant(usize),
    Number(i128),
    Parameter(u8),
}

impl World {
    /// The terms of a code, in order.
    ///
    /// Without parts there are `B` and `T`, the types `Bool` and `Type`; `t` and `f`, the formulas
    /// `true` and `false`, and `p` and `q`; the type `I` of numbers, a number `c`, the numbers `0`,
    /// `1` and `5`, and `M`, which is the largest; and the parameters `x` and `y`.
    ///
    /// With one part, there are `~`, its negation, and `N`, 999,996 negations of it; `V`, the type of
    /// vectors of this length, and `Z`, a vector of one item more; `F`, the type of proofs of this
    /// formula, and `D`, a proof of its negation; and `!`, a call of the program.
    ///
    /// With two parts, there are `&`, an item before a conjunction, and `#`, the item of a
    /// conjunction at this place; `%`, two conjunctions as one; `+`, their sum; and `@`, which
    /// applies the first to the second; `>`, the type of functions from one type to another, and `^`,
    /// that of functions whose argument is bound as `x`.
    pub(super) fn terms(&mut self, code: &str) -> Result<Vec<Id>, Fail> {
        let mut terms = Vec::new(self.alloc());
        self.read_all(code, &mut terms)?;
        Ok(terms)
    }

    // Reads the terms of a code into an empty list.
    fn read_all(&mut self, code: &str, terms: &mut Vec<Id>) -> Result<(), Fail> {
        for letter in code.as_bytes().iter().rev() {
            let id = self.read(*letter, terms)?;
            terms.push(id)?;
        }
        terms.reverse();
        Ok(())
    }

    /// The one term of a code.
    pub(super) fn term(&mut self, code: &str) -> Result<Id, Fail> {
        let terms = self.terms(code)?;
        let one = one_of(terms.as_slice());
        drop(terms);
        one
    }

    /// The one term of a code, or none.
    pub(super) fn optional(&mut self, code: &str) -> Result<Option<Id>, Fail> {
        if code.is_empty() {
            return Ok(None);
        }
        let id = self.term(code)?;
        Ok(Some(id))
    }

    /// The two terms of a code, or none.
    pub(super) fn pair(&mut self, code: &str) -> Result<Option<(Id, Id)>, Fail> {
        let terms = self.terms(code)?;
        let pair = pair_of(terms.as_slice());
        drop(terms);
        pair
    }

    // The term of a letter, before these, of which the first is last.
    fn read(&mut self, letter: u8, behind: &mut Vec<Id>) -> Result<Id, Fail> {
        if let Some(leaf) = leaf_of(letter) {
            return self.leaf(leaf);
        }
        let first = next(behind)?;
        if let Some(number) = applied_by(letter) {
            return self.apply_constant(number, first);
        }
        if is_of_two(letter) {
            let second = next(behind)?;
            return self.of_two(letter, first, second);
        }
        self.of_one(letter, first)
    }

    // A term without parts.
    fn leaf(&mut self, leaf: Leaf) -> Result<Id, Fail> {
        match leaf {
            Leaf::Term(id) => Ok(id),
            Leaf::Constant(number) => self.con(number),
            Leaf::Number(number) => self.num(number),
            Leaf::Parameter(number) => self.par(number),
        }
    }

    // A term with one part.
    fn of_one(&mut self, letter: u8, part: Id) -> Result<Id, Fail> {
        match letter {
            b'N' => self.nots(part, 999_996),
            b'!' => self.call(0, part),
            _ => Err(Fail::new("no letter")),
        }
    }

    // A term with two parts.
    fn of_two(&mut self, letter: u8, first: Id, second: Id) -> Result<Id, Fail> {
        match letter {
            b'&' => self.and(first, second),
            b'@' => self.app(first, second),
            b'>' => self.arr(first, second),
            b'^' => self.qar(first, second),
            b'+' => self.op(OpName::Add, &[first, second]),
            b'#' => self.list_operator(OpName::ListNth, first, second),
            _ => self.list_operator(OpName::ListConcat, first, second),
        }
    }

    // An operator on conjunctions.
    fn list_operator(&mut self, op: OpName, first: Id, second: Id) -> Result<Id, Fail> {
        let and = self.con(AND)?;
        self.op(op, &[and, first, second])
    }
}

// The one term, if there is one alone.
fn one_of(terms: &[Id]) -> Result<Id, Fail> {
    match terms {
        [id] => Ok(*id),
        _ => Err(Fail::new("not one term")),
    }
}

// The two terms, or none.
fn pair_of(terms: &[Id]) -> Result<Option<(Id, Id)>, Fail> {
    match terms {
        [] => Ok(None),
        [first, second] => Ok(Some((*first, *second))),
        _ => Err(Fail::new("not two terms")),
    }
}

// Takes off the last of some terms.
fn next(terms: &mut Vec<Id>) -> Result<Id, Fail> {
    match terms.pop() {
        Some(id) => Ok(id),
        None => Err(Fail::new("no part")),
    }
}

// The term without parts that a letter means, if it means one.
fn leaf_of(letter: u8) -> Option<Leaf> {
    match letter {
        b'B' => Some(Leaf::Term(BOOL)),
        b'T' => Some(Leaf::Term(TYPE)),
        b't' => Some(Leaf::Term(TRUE)),
        b'f' => Some(Leaf::Term(FALSE)),
        b'p' => Some(Leaf::Constant(4)),
        b'q' => Some(Leaf::Constant(5)),
        b'I' => Some(Leaf::Constant(INT)),
        b'c' => Some(Leaf::Constant(9)),
        b'0' => Some(Leaf::Number(0)),
        b'1' => Some(Leaf::Number(1)),
        b'5' => Some(Leaf::Number(5)),
        b'M' => Some(Leaf::Number(i128::MAX)),
        b'x' => Some(Leaf::Parameter(0)),
        b'y' => Some(Leaf::Parameter(1)),
        _ => None,
    }
}

// The constant that a letter applies to one part, if it does.
fn applied_by(letter: u8) -> Option<usize> {
    match letter {
        b'~' => Some(NOT),
        b'V' => Some(10),
        b'Z' => Some(11),
        b'F' => Some(12),
        b'D' => Some(13),
        _ => None,
    }
}

// Whether a letter has two parts.
fn is_of_two(letter: u8) -> bool {
    matches!(letter, b'&' | b'@' | b'>' | b'^' | b'+' | b'#' | b'%')
}
