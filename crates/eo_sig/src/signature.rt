//! The signature: how it is kept, and what its names mean.
ghost use Rattle.std.specs.Prelude.{◌≡◌, ℕ, ◌<◌, ◌≤◌, List, [], length, take, true, None, IfOk, IfSome, OnOk, option_map};
ghost use Rattle.eo_term.specs.Tree.{Tree};
ghost use Rattle.eo_term.specs.Terms.{first_trees};
ghost use Rattle.eo_sig.specs.Signature as sig;
ghost use Rattle.eo_sig.specs.Parts.{lookup_in};
ghost use Rattle.eo_sig.specs.Reading.{signature, macros, constants_of, programs_of, rules_of, IsBelow, IsWithin};
ghost use Rattle.eo_sig.specs.Reading.{first_kept, first_constant, with_entry, read_named};
ghost use Rattle.eo_sig.specs.Growth.{StaysUnder};
ghost use Rattle.eo_sig.specs.Usable.{IsUsable};

mod adding;
mod counting;
mod declaring;
mod keeping;
mod numbered;
mod overloaded;

use crate::overloads::Overloads;
use crate::{Attribute, ConstDecl, Counts, Declared, Entry, MacroDecl, Params, is_reserved};
use eo_base::{Name, NameRef, ok_with};
use eo_term::{BOOL, Id, TYPE};
use indexmap::IndexMap;
use std::alloc::{AllocError, Global};
use std::hash::{BuildHasherDefault, DefaultHasher};
use std::marker::Model;

// What is found by name. A file chooses the names, so they are hashed by SipHash.
type Named<V> = IndexMap<Name, V, BuildHasherDefault<DefaultHasher>>;

/// A place in the history of a signature's macros: how many there were.
#[derive(Clone, Copy, Debug, PartialEq, Eq)]
pub struct SigMark {
    macros: usize,
}

impl Model for SigMark {
    ghost use Rattle.std.specs.Prelude.{ℕ};

    ghost Value = { ℕ };

    ghost view = { λ a. a.macros };

    ghost inverse = { λ n. record { macros = n } };
}

/// What is declared, in order of declaration, and the macros. Constants, programs and rules are
/// each numbered from 0 in that order, and so are macros.
///
/// A name is looked up by its hash, without memory. The hash is SipHash.
#[derive(Drop)]
pub struct Signature {
    alloc: Global,
    entries: Vec<Declared>,
    // The places of the constants in `entries`, by number.
    constants: Vec<usize>,
    // By name the number of the first constant of that name.
    firsts: Named<usize>,
    overloads: Overloads,
    // By name the places in `entries`, in order: the place in the map is the number.
    programs: Named<usize>,
    rules: Named<usize>,
    macros: Named<MacroDecl>,
    numeral: Option<Id>,
    binary: Option<Id>,
    string: Option<Id>,
}

impl Model for Signature {
    ghost use Rattle.std.specs.Prelude.{map};
    ghost use Rattle.eo_sig.specs.Reading.{Kept};
    ghost use Rattle.eo_sig.specs.Held.{IsKept};
    ghost use Rattle.eo_sig.specs.Overloads.{tables_of};

    ghost Value = { Kept };

    ghost view = { λ a. record { entries = a.entries.items; macros = map (λ e. e.1) a.macros.entries } };

    ghost invariant = { λ a. IsKept a.entries.items a.constants.items (tables_of a.firsts.entries a.overloads)
        a.programs.entries a.rules.entries a.macros.entries a.numeral a.binary a.string };
}

impl Signature {
    /// A signature that declares the constants `Type`, `Bool`, `true` and `false` alone, with the
    /// numbers 0 to 3, without parameters and attribute. Their types are `Type`, `Type`, `Bool`
    /// and `Bool`. `Err`: out of memory.
    pub fn new(alloc: Global) -> Result<Signature, AllocError>
        ensures kept { IfOk result (λ s. s ≡ first_kept) }
        ensures signature { IfOk result (λ s. (ts : List Tree) → take 4 ts ≡ first_trees → signature ts s ≡ sig.first_signature) }
        ensures usable { IfOk result (λ s. (ts : List Tree) → take 4 ts ≡ first_trees → IsUsable (signature ts s)) }
        ensures below { IfOk result (λ s. IsBelow 4 s) }
    {
        let mut s = Signature::empty(alloc);
        let ((), s) = ok_with(s.keep_constants(), s)?;
        Ok(s)
    }

    /// It stays what it is where the table grows. A call costs nothing: it gives a proof this fact.
    pub fn laws(&self)
        ensures { StaysUnder self.now }
    {
        let _count = self.entries.len();
    }

    /// What the name means among constants, macros and programs, which share one space of
    /// names. Of several constants it is the first.
    pub fn lookup(&self, name: &[u8]) -> Option<Entry>
        ensures named { (ts : List Tree) → option_map read_named result ≡ lookup_in ts self.now name.now }
        ensures within { IfSome result (λ e. IsWithin self.now e) }
    {
        match self.first_named(name) {
            Some(n) => Some(Entry::Constant(n)),
            None => self.other_named(name),
        }
    }

    /// The number of the first constant of the name.
    fn first_named(&self, name: &[u8]) -> Option<usize>
        ensures named { (ts : List Tree) → result ≡ sig.constant_named (signature ts self.now) name.now }
        ensures within { IfSome result (λ n. n < length (constants_of self.now)) }
    {
        self.firsts.get(NameRef(name)).copied()
    }

    /// The macro or the program of the name.
    fn other_named(&self, name: &[u8]) -> Option<Entry>
        ensures named { (ts : List Tree) → option_map read_named result
            ≡ sig.other_named (signature ts self.now) (macros ts self.now) name.now }
        ensures within { IfSome result (λ e. IsWithin self.now e) }
    {
        match self.macros.get_index_of(NameRef(name)) {
            Some(n) => Some(Entry::Macro(n)),
            None => match self.programs.get_index_of(NameRef(name)) {
                Some(n) => Some(Entry::Program(n)),
                None => None,
            },
        }
    }

    /// The number of the rule with this name. Rules have a space of names of their own.
    pub fn rule(&self, name: &[u8]) -> Option<usize>
        ensures named { (ts : List Tree) → result ≡ sig.rule_named (signature ts self.now) name.now }
        ensures within { IfSome result (λ n. n < length (rules_of self.now)) }
    {
        self.rules.get_index_of(NameRef(name))
    }

    /// Whether a macro or a program may get the name: it is not reserved, and no constant, macro or
    /// program has it.
    pub fn is_free(&self, name: &[u8]) -> bool
        ensures { (ts : List Tree) → result ≡ sig.is_free (signature ts self.now) (macros ts self.now) name.now }
    {
        !is_reserved(name) && self.lookup(name).is_none()
    }

    /// Whether a rule may get the name: it is not reserved, and no rule has it.
    pub fn is_free_rule(&self, name: &[u8]) -> bool
        ensures { (ts : List Tree) → result ≡ sig.is_free_rule (signature ts self.now) name.now }
    {
        !is_reserved(name) && self.rule(name).is_none()
    }

    /// How many constants there are, which is the number of the next one.
    pub fn constants(&self) -> usize
        ensures count { result ≡ length (constants_of self.now) }
        ensures value { (ts : List Tree) → result ≡ length (sig.constants (signature ts self.now)) }
    {
        self.constants.len()
    }

    /// How many programs there are, which is the number of the next one.
    pub fn programs(&self) -> usize
        ensures count { result ≡ length (programs_of self.now) }
        ensures value { (ts : List Tree) → result ≡ length (sig.programs (signature ts self.now)) }
    {
        self.programs.len()
    }

    /// How many rules there are, which is the number of the next one.
    pub(crate) fn rules(&self) -> usize
        ensures count { result ≡ length (rules_of self.now) }
        ensures value { (ts : List Tree) → result ≡ length (sig.rules (signature ts self.now)) }
    {
        self.rules.len()
    }

    /// A mark of the macros that there are.
    pub fn mark(&self) -> SigMark
        ensures { result ≡ length self.now.macros }
    {
        SigMark {
            macros: self.macros.len(),
        }
    }

    /// Drops the macros that were made since the mark. All else that was declared stays.
    pub fn release(&mut self, m: SigMark)
        requires { m ≤ length self.old.macros }
        ensures entries { self.new.entries ≡ self.old.entries }
        ensures macros { self.new.macros ≡ take m self.old.macros }
        ensures below { (n : ℕ) → IsBelow n self.old → IsBelow n self.new }
    {
        self.macros.truncate(m.macros);
    }

    // A signature that declares nothing.
    fn empty(alloc: Global) -> Signature
        ensures { result ≡ record { entries = []; macros = [] } }
    {
        let overloads = Overloads::new(alloc);
        Signature {
            alloc,
            entries: Vec::new(alloc),
            constants: Vec::new(alloc),
            firsts: IndexMap::with_hasher(alloc, BuildHasherDefault::new()),
            overloads,
            programs: IndexMap::with_hasher(alloc, BuildHasherDefault::new()),
            rules: IndexMap::with_hasher(alloc, BuildHasherDefault::new()),
            macros: IndexMap::with_hasher(alloc, BuildHasherDefault::new()),
            numeral: None,
            binary: None,
            string: None,
        }
    }

    // Declares the first constants, where nothing is declared.
    fn keep_constants(&mut self) -> Result<(), AllocError>
        requires { self.old ≡ record { entries = []; macros = [] } }
        ensures { OnOk result (self.new ≡ first_kept) }
    {
        self.keep_first(b"Type", TYPE)?;
        self.keep_first(b"Bool", TYPE)?;
        self.keep_first(b"true", BOOL)?;
        self.keep_first(b"false", BOOL)?;
        Ok(())
    }

    // Declares one of the first constants.
    fn keep_first(&mut self, name: &[u8], ty: Id) -> Result<(), AllocError>
        requires { sig.is_apart (signature [] self.old) name.now (sig.Exactly 0) ≡ true }
        ensures { OnOk result (self.new ≡ with_entry (first_constant name.now ty) self.old) }
    {
        let d = ConstDecl {
            name: Name::new(self.alloc, name)?,
            params: Params::new(self.alloc),
            ty,
            attribute: Attribute::Plain,
            from_reference: false,
        };
        self.keep_constant(d, Counts::Exactly(0))?;
        Ok(())
    }
}
