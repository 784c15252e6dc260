//! The fields of a line, in order.
ghost use Rattle.std.specs.Prelude.{◌≡◌, ◌∷◌, ◌++◌, ◌+◌, ◌<◌, ℕ, List, [], Option, Some, None, IfOk, OnOk, MatchOption, IfSome, IfNone, option_map};
ghost use Rattle.std.specs.Prelude.{IsTrue, ◌↔◌, length, take, drop, position, ◌==◌, true};
ghost use Rattle.eo_lit.specs.Literals.{numeral};
ghost use Rattle.eo_lines.specs.Forms.{Field, fields, field, number_or_none, integer, hex_bytes, maybe_number, numbers, a_list, some_pairs, paired};
ghost use Rattle.eo_lines.specs.Reading.{Takes, short, wide, cut, itself};

use crate::hexadecimal::bytes_of;
use eo_lit::{LitRead, read_literal, read_numeral};
use std::alloc::{AllocError, Global};
use std::marker::Model;

/// The fields that are left of a line.
#[derive(Drop)]
pub(crate) struct Fields<'a> {
    rest: &'a [u8],
    ended: bool,
}

impl<'a> Model for Fields<'a> {
    ghost use Rattle.std.specs.Prelude.{ℕ, List};
    ghost use Rattle.eo_lines.specs.Reading.{left};

    ghost Value = { List (List ℕ) };

    ghost view = { λ a. left a.ended a.rest.now };
}

impl<'a> Fields<'a> {
    /// The fields of a line.
    pub(crate) fn new(line: &'a [u8]) -> Fields<'a>
        ensures { result ≡ fields line.now }
    {
        Fields {
            rest: line,
            ended: false,
        }
    }

    /// The next field.
    pub(crate) fn take(&mut self) -> Option<&'a [u8]>
        ensures { MatchOption result (self.old ≡ []) (λ f. self.old ≡ f.now ∷ self.new) }
    {
        if self.ended {
            return None;
        }
        let line = self.rest;
        let Some(end) = space(line) else {
            self.ended = true;
            return Some(line);
        };
        self.rest = &line[end + 1..];
        Some(&line[..end])
    }

    /// Whether no field is left.
    pub(crate) fn is_empty(&self) -> bool
        ensures { IsTrue result ↔ (self.now ≡ []) }
    {
        self.ended
    }
}

impl Fields<'_> {
    /// A number.
    pub(crate) fn number(&mut self) -> Option<u64>
        ensures { Takes (field short) itself self.old result self.new }
    {
        let field = self.take()?;
        number_of(field)
    }

    /// A number of at most 128 bits.
    pub(crate) fn wide_number(&mut self) -> Option<u128>
        ensures { Takes (field wide) itself self.old result self.new }
    {
        let field = self.take()?;
        wide_number_of(field)
    }

    /// A number, or `-` for none.
    pub(crate) fn maybe_number(&mut self) -> Option<Option<u64>>
        ensures { Takes (maybe_number short) itself self.old result self.new }
    {
        let field = self.take()?;
        number_or_none_of(field)
    }

    /// A number that may be below zero.
    pub(crate) fn integer(&mut self) -> Option<i128>
        ensures { Takes (field integer) itself self.old result self.new }
    {
        let field = self.take()?;
        integer_of(field)
    }

    /// The bytes of a field.
    pub(crate) fn name(&mut self, alloc: Global) -> Result<Option<Vec<u8>>, AllocError>
        ensures { IfOk result (λ o. Takes (field Some) (λ v. v.items) self.old o self.new) }
    {
        let Some(field) = self.take() else {
            return Ok(None);
        };
        Ok(Some(field.to_vec(alloc)?))
    }

    /// Bytes as hexadecimal digits.
    pub(crate) fn bytes(&mut self, alloc: Global) -> Result<Option<Vec<u8>>, AllocError>
        ensures { IfOk result (λ o. Takes (field hex_bytes) (λ v. v.items) self.old o self.new) }
    {
        let Some(field) = self.take() else {
            return Ok(None);
        };
        bytes_of(alloc, field)
    }

    /// A list of numbers, after its length.
    pub(crate) fn list(&mut self, alloc: Global) -> Result<Option<Vec<u64>>, AllocError>
        ensures { IfOk result (λ o. Takes (a_list short) (λ v. v.items) self.old o self.new) }
    {
        let Some(count) = self.count() else {
            return Ok(None);
        };
        self.numbers(alloc, count)
    }

    // How many numbers a list has. A line has too few bytes for more than 64 bits of them.
    fn count(&mut self) -> Option<u64>
        ensures { MatchOption result (a_list short self.old ≡ None) (λ n. field numeral self.old ≡ Some (n, self.new)) }
    {
        let field = self.take()?;
        let _left = self.rest.len();
        number_of(field)
    }

    // So many numbers.
    fn numbers(&mut self, alloc: Global, count: u64) -> Result<Option<Vec<u64>>, AllocError>
        ensures { IfOk result (λ o. Takes (numbers short count) (λ v. v.items) self.old o self.new) }
    {
        let mut found = Vec::new(alloc);
        for _i in 0..count {
            let Some(number) = self.number() else {
                return Ok(None);
            };
            found.push(number)?;
        }
        Ok(Some(found))
    }

    /// A list as pairs.
    pub(crate) fn pairs(&mut self, alloc: Global) -> Result<Option<Vec<(u64, u64)>>, AllocError>
        ensures { IfOk result (λ o. Takes (some_pairs short) (λ v. v.items) self.old o self.new) }
    {
        let Some(list) = self.list(alloc)? else {
            return Ok(None);
        };
        pairs_of(alloc, &list)
    }
}

// A list as pairs.
fn pairs_of(alloc: Global, list: &[u64]) -> Result<Option<Vec<(u64, u64)>>, AllocError>
    ensures { IfOk result (λ o. option_map (λ v. v.items) o ≡ paired list.now) }
{
    let mut found = Vec::new(alloc);
    let mut left = list;
    while let [first, second, rest @ ..] = left {
        found.push((*first, *second))?;
        left = rest;
    }
    if !left.is_empty() {
        return Ok(None);
    }
    Ok(Some(found))
}

// The place of the first space.
#[tactic(auto, using(crate::proofs::FieldCuts::fields_cut))]
fn space(line: &[u8]) -> Option<usize>
    ensures cut { fields line.now ≡ cut result line.now }
    ensures within { IfSome result (λ i. i < length line.now) }
{
    first_space(line)
}

fn first_space(line: &[u8]) -> Option<usize>
    ensures place { result ≡ position (λ b. b == 32) line.now }
    ensures within { IfSome result (λ i. i < length line.now) }
{
    line.iter().position(|b| *b == b' ')
}

// The value of a number of at most 64 bits.
fn number_of(field: &[u8]) -> Option<u64>
    ensures { result ≡ short field.now }
{
    let value = read_numeral(field)?;
    u64::try_from(value).ok()
}

// The value of a number of at most 128 bits.
fn wide_number_of(field: &[u8]) -> Option<u128>
    ensures { result ≡ wide field.now }
{
    read_numeral(field)
}

// A number, or `-` for none.
fn number_or_none_of(field: &[u8]) -> Option<Option<u64>>
    ensures { result ≡ number_or_none short field.now }
{
    if field == b"-".as_slice() {
        return Some(None);
    }
    let value = number_of(field)?;
    Some(Some(value))
}

// The value of a literal that is a number.
fn integer_of(field: &[u8]) -> Option<i128>
    ensures { result ≡ integer field.now }
{
    match read_literal(field) {
        Ok(LitRead::Num(value)) => Some(value),
        _ => None,
    }
}
