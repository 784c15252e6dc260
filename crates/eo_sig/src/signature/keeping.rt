//! One more entry in the list, and beside it in the table of its kind.
ghost use Rattle.std.specs.Prelude.{◌≡◌, ℕ, List, [], ◌∷◌, ◌++◌, length, Some, None, true, if◌then◌else◌, IfOk, OnOk, OnErr, bytes_eq};
ghost use Rattle.indexmap.specs.IndexMap.{insert_entry};
ghost use Rattle.eo_sig.specs.Signature as sig;
ghost use Rattle.eo_sig.specs.declared.records.Declared.TheVariants as declared;
ghost use Rattle.eo_sig.specs.Indexed.{with_other};
ghost use Rattle.eo_sig.specs.Overloads.{tables_of};
ghost use Rattle.eo_sig.specs.Reading.{signature, macros, read_counts, with_entry, with_macro};
ghost use Rattle.std.specs.Map.{lookup};

use super::{Named, Signature};
use crate::overloads::Overloads;
use crate::{ConstDecl, Counts, Declared, LiteralClass, MacroDecl, ProgramDecl, RuleDecl};
use eo_base::{Name, ok_with};
use eo_term::Id;
use std::alloc::AllocError;

impl Signature {
    /// Appends a constant, which takes these numbers of arguments and no other constant of its name
    /// one of them.
    pub(super) fn keep_constant(&mut self, d: ConstDecl, counts: Counts) -> Result<(), AllocError>
        requires { sig.is_apart (signature [] self.old) d.name (read_counts counts) ≡ true }
        ensures kept { OnOk result (self.new ≡ with_entry (declared.Const d counts) self.old) }
        ensures err { OnErr result (self.new ≡ self.old) }
    {
        match self.first_named(d.name.as_bytes()) {
            Some(first) => self.keep_other(first, d, counts),
            None => self.keep_new(d, counts),
        }
    }

    // The same for a name that no constant has.
    fn keep_new(&mut self, d: ConstDecl, counts: Counts) -> Result<(), AllocError>
        requires { sig.constant_named (signature [] self.old) d.name ≡ None }
        ensures kept { OnOk result (self.new ≡ with_entry (declared.Const d counts) self.old) }
        ensures err { OnErr result (self.new ≡ self.old) }
    {
        let (key, d) = ok_with(Name::new(self.alloc, d.name.as_bytes()), d)?;
        append_new(
            &mut self.entries,
            &mut self.constants,
            &mut self.firsts,
            key,
            Declared::Const(d, counts),
        )?;
        Ok(())
    }

    // The same for a name whose first constant has this number.
    fn keep_other(&mut self, first: usize, d: ConstDecl, counts: Counts) -> Result<(), AllocError>
        requires named { sig.constant_named (signature [] self.old) d.name ≡ Some first }
        requires apart { sig.is_apart (signature [] self.old) d.name (read_counts counts) ≡ true }
        ensures kept { OnOk result (self.new ≡ with_entry (declared.Const d counts) self.old) }
        ensures err { OnErr result (self.new ≡ self.old) }
    {
        append_other(
            &mut self.entries,
            &mut self.constants,
            &mut self.overloads,
            first,
            counts,
            Declared::Const(d, counts),
        )?;
        Ok(())
    }

    /// Appends a program whose name no program has.
    pub(super) fn keep_program(&mut self, d: ProgramDecl) -> Result<(), AllocError>
        requires { sig.program_named (signature [] self.old) d.name ≡ None }
        ensures kept { OnOk result (self.new ≡ with_entry (declared.Program d) self.old) }
        ensures err { OnErr result (self.new ≡ self.old) }
    {
        let (key, d) = ok_with(Name::new(self.alloc, d.name.as_bytes()), d)?;
        append(
            &mut self.entries,
            &mut self.programs,
            key,
            Declared::Program(d),
        )?;
        Ok(())
    }

    /// Appends a rule whose name no rule has.
    pub(super) fn keep_rule(&mut self, d: RuleDecl) -> Result<(), AllocError>
        requires { sig.rule_named (signature [] self.old) d.name ≡ None }
        ensures kept { OnOk result (self.new ≡ with_entry (declared.Rule d) self.old) }
        ensures err { OnErr result (self.new ≡ self.old) }
    {
        let (key, d) = ok_with(Name::new(self.alloc, d.name.as_bytes()), d)?;
        append(&mut self.entries, &mut self.rules, key, Declared::Rule(d))?;
        Ok(())
    }

    /// Appends a macro whose name no macro has.
    pub(super) fn keep_macro(&mut self, d: MacroDecl) -> Result<usize, AllocError>
        requires { sig.macro_named (macros [] self.old) d.name ≡ None }
        ensures kept { OnOk result (self.new ≡ with_macro d self.old) }
        ensures number { IfOk result (λ n. n ≡ length self.old.macros) }
        ensures err { OnErr result (self.new ≡ self.old) }
    {
        let number = self.macros.len();
        let key = Name::new(self.alloc, d.name.as_bytes())?;
        self.macros.insert(key, d)?;
        Ok(number)
    }

    /// Appends the type of a class of literals that has none.
    pub(super) fn keep_literal(&mut self, class: LiteralClass, ty: Id) -> Result<(), AllocError>
        requires { sig.literal_type (signature [] self.old) class ≡ None }
        ensures kept { OnOk result (self.new ≡ with_entry (declared.Literal class ty) self.old) }
        ensures err { OnErr result (self.new ≡ self.old) }
    {
        self.entries.push(Declared::Literal { class, ty })?;
        match class {
            LiteralClass::Numeral => self.numeral = Some(ty),
            LiteralClass::Binary => self.binary = Some(ty),
            LiteralClass::String => self.string = Some(ty),
        }
        Ok(())
    }
}

// Appends an entry, and to the names of its kind this one, with the place of the entry. A refusal
// leaves both as they were.
fn append(
    entries: &mut Vec<Declared>,
    names: &mut Named<usize>,
    name: Name,
    entry: Declared,
) -> Result<(), AllocError>
    ensures entries { OnOk result (entries.new.items ≡ entries.old.items ++ entry ∷ []) }
    ensures names { OnOk result (names.new.entries ≡ insert_entry (λ u v. bytes_eq u v) names.old.entries name (length entries.old.items)) }
    ensures no_entry { OnErr result (entries.new.items ≡ entries.old.items) }
    ensures no_name { OnErr result (names.new.entries ≡ names.old.entries) }
{
    let place = entries.len();
    let ((), (name, entry)) = ok_with(names.reserve(1), (name, entry))?;
    let ((), name) = ok_with(entries.push(entry), name)?;
    names.insert(name, place).unwrap();
    Ok(())
}

// Appends an entry, its place, and by its name the number of its place. A refusal leaves all as it
// was.
fn append_new(
    entries: &mut Vec<Declared>,
    places: &mut Vec<usize>,
    firsts: &mut Named<usize>,
    name: Name,
    entry: Declared,
) -> Result<(), AllocError>
    ensures entries { OnOk result (entries.new.items ≡ entries.old.items ++ entry ∷ []) }
    ensures places { OnOk result (places.new.items ≡ places.old.items ++ length entries.old.items ∷ []) }
    ensures names { OnOk result ((w : List ℕ) → lookup (bytes_eq w) firsts.new.entries
        ≡ (if bytes_eq name w then Some (length places.old.items) else lookup (bytes_eq w) firsts.old.entries)) }
    ensures no_entry { OnErr result (entries.new.items ≡ entries.old.items) }
    ensures no_place { OnErr result (places.new.items ≡ places.old.items) }
    ensures no_name { OnErr result (firsts.new.entries ≡ firsts.old.entries) }
{
    let number = places.len();
    let ((), (name, entry)) = ok_with(firsts.reserve(1), (name, entry))?;
    let ((), name) = ok_with(push_entry(entries, places, entry), name)?;
    firsts.insert(name, number).unwrap();
    Ok(())
}

// Appends an entry and its place.
fn push_entry(
    entries: &mut Vec<Declared>,
    places: &mut Vec<usize>,
    entry: Declared,
) -> Result<(), AllocError>
    ensures entries { OnOk result (entries.new.items ≡ entries.old.items ++ entry ∷ []) }
    ensures places { OnOk result (places.new.items ≡ places.old.items ++ length entries.old.items ∷ []) }
    ensures no_entry { OnErr result (entries.new.items ≡ entries.old.items) }
    ensures no_place { OnErr result (places.new.items ≡ places.old.items) }
{
    let place = entries.len();
    let ((), entry) = ok_with(places.reserve(1), entry)?;
    entries.push(entry)?;
    places.push(place).unwrap();
    Ok(())
}

// Appends an entry, its place, and what it takes to the constants of its name. A refusal leaves all
// as it was.
fn append_other(
    entries: &mut Vec<Declared>,
    places: &mut Vec<usize>,
    overloads: &mut Overloads,
    first: usize,
    counts: Counts,
    entry: Declared,
) -> Result<(), AllocError>
    ensures entries { OnOk result (entries.new.items ≡ entries.old.items ++ entry ∷ []) }
    ensures places { OnOk result (places.new.items ≡ places.old.items ++ length entries.old.items ∷ []) }
    ensures adds { OnOk result ((fs : List (List ℕ × ℕ)) → tables_of fs overloads.new
        ≡ with_other (tables_of fs overloads.old) first (length places.old.items) (read_counts counts)) }
    ensures no_entry { OnErr result (entries.new.items ≡ entries.old.items) }
    ensures no_place { OnErr result (places.new.items ≡ places.old.items) }
    ensures nothing { OnErr result ((fs : List (List ℕ × ℕ)) → tables_of fs overloads.new ≡ tables_of fs overloads.old) }
{
    let place = entries.len();
    let ((), entry) = ok_with(places.reserve(1), entry)?;
    let ((), entry) = ok_with(entries.reserve(1), entry)?;
    let ((), entry) = ok_with(overloads.add(first, counts, places.len()), entry)?;
    entries.push(entry).unwrap();
    places.push(place).unwrap();
    Ok(())
}
