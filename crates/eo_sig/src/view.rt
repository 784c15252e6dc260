//! What is declared at the place of a term.
ghost use Rattle.std.specs.Prelude.{◌≡◌, ℕ, ◌<◌, List, length, Some, slice_get, IfSome, option_map};
ghost use Rattle.eo_term.specs.Tree.{Tree};
ghost use Rattle.std.specs.Option.{option_copied};
ghost use Rattle.eo_sig.specs.Signature as sig;
ghost use Rattle.eo_sig.specs.Signature.{IsProgram};
ghost use Rattle.eo_sig.specs.Views.{own_entry};
ghost use Rattle.eo_sig.specs.Parts.{lookup_in};
ghost use Rattle.eo_sig.specs.Reading.{signature, macros, read_named, read_constant, read_macro, read_program};
ghost use Rattle.eo_sig.specs.Reading.{constants_of, programs_of, Adds, IsWithin, IsBelow, ConstBelow, MacroBelow, ProgramBelow};

use crate::{ConstDecl, Entry, MacroDecl, ProgramDecl, Signature};
use std::marker::Model;

/// What is declared at the place of a term: all that a signature declares, and in the cases of a
/// program that it does not declare yet, that program too, after all others.
#[derive(Drop)]
pub struct SignatureView<'a> {
    sig: &'a Signature,
    // The program in whose cases the term is.
    own: Option<&'a ProgramDecl>,
}

impl<'a> Model for SignatureView<'a> {
    ghost use Rattle.std.specs.Option.{option_copied};
    ghost use Rattle.eo_sig.specs.Reading.{Kept};
    ghost use Rattle.eo_sig.specs.Views.{with_own};

    ghost Value = { Kept };

    ghost view = { λ a. with_own a.sig.now (option_copied a.own) };
}

impl<'a> SignatureView<'a> {
    /// All that the signature declares.
    pub fn of(sig: &'a Signature) -> SignatureView<'a>
        ensures { result ≡ sig.now }
    {
        SignatureView { sig, own: None }
    }

    /// All that the signature declares, and after it the program. Its name need not be free: what
    /// the signature declares comes first.
    pub fn with_program(sig: &'a Signature, program: &'a ProgramDecl) -> SignatureView<'a>
        ensures adds { (ts : List Tree) → Adds ts sig.now (IsProgram (read_program ts program.now)) result }
        ensures below { (m : ℕ) → IsBelow m sig.now → ProgramBelow m program.now → IsBelow m result }
    {
        SignatureView {
            sig,
            own: Some(program),
        }
    }

    /// What the name means among constants, macros and programs; of several constants it is the
    /// first.
    pub fn lookup(&self, name: &[u8]) -> Option<Entry>
        ensures named { (ts : List Tree) → option_map read_named result ≡ lookup_in ts self.now name.now }
        ensures within { IfSome result (λ e. IsWithin self.now e) }
    {
        match self.sig.lookup(name) {
            Some(entry) => Some(entry),
            None => own_named(self.own, self.sig.programs(), name),
        }
    }

    /// What the name means as the head of so many arguments, as
    /// [`Signature::lookup_count`] says.
    pub fn lookup_count(&self, name: &[u8], n: usize) -> Option<Entry>
        ensures named { (ts : List Tree) → option_map read_named result ≡ sig.lookup_count (signature ts self.now) (macros ts self.now) name.now n }
        ensures within { IfSome result (λ e. IsWithin self.now e) }
    {
        match self.sig.lookup_count(name, n) {
            Some(entry) => Some(entry),
            None => own_named(self.own, self.sig.programs(), name),
        }
    }

    /// How many constants there are.
    pub fn constants(&self) -> usize
        ensures count { result ≡ length (constants_of self.now) }
        ensures value { (ts : List Tree) → result ≡ length (sig.constants (signature ts self.now)) }
    {
        self.sig.constants()
    }

    /// The constant with this number.
    pub fn constant(&self, n: usize) -> &'a ConstDecl
        requires { n < length (constants_of self.now) }
        ensures kept { slice_get (constants_of self.now) n ≡ Some result.now }
        ensures value { (ts : List Tree) → sig.constant_at (signature ts self.now) n ≡ Some (read_constant ts result.now) }
        ensures below { (m : ℕ) → IsBelow m self.now → ConstBelow m result.now }
    {
        self.sig.constant(n)
    }

    /// The macro with this number.
    pub fn macro_of(&self, n: usize) -> &'a MacroDecl
        requires { n < length self.now.macros }
        ensures kept { slice_get self.now.macros n ≡ Some result.now }
        ensures value { (ts : List Tree) → slice_get (macros ts self.now) n ≡ Some (read_macro ts result.now) }
        ensures below { (m : ℕ) → IsBelow m self.now → MacroBelow m result.now }
    {
        self.sig.macro_of(n)
    }

    /// The program with this number.
    pub fn program(&self, n: usize) -> &'a ProgramDecl
        requires { n < length (programs_of self.now) }
        ensures kept { slice_get (programs_of self.now) n ≡ Some result.now }
        ensures value { (ts : List Tree) → sig.program_at (signature ts self.now) n ≡ Some (read_program ts result.now) }
        ensures below { (m : ℕ) → IsBelow m self.now → ProgramBelow m result.now }
    {
        match self.own {
            Some(program) => {
                if n == self.sig.programs() {
                    return program;
                }
                self.sig.program(n)
            }
            None => self.sig.program(n),
        }
    }
}

// The program of this number, where there is one, and the name is its.
fn own_named(own: Option<&ProgramDecl>, number: usize, name: &[u8]) -> Option<Entry>
    ensures { result ≡ own_entry (option_copied own.entry) number name.now }
{
    let program = own?;
    if name != program.name.as_bytes() {
        return None;
    }
    Some(Entry::Program(number))
}
