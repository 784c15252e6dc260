//! What is decided of commands that declare.
ghost use Rattle.std.specs.Prelude.{◌≡◌, ◌<◌, Some, Ok, List, [], length, true, false, not, ◌&&◌};
ghost use Rattle.eo_sig.specs.Adding.{EntryIsFree, EntryIsOrdered};
ghost use Rattle.eo_sig.specs.Reading.{read_attribute, read_constant, read_entry, read_macro, read_named};
ghost use Rattle.eo_sig.specs.Reading.{constants_of, ConstBelow, EntryBelow, MacroBelow, IsWithin, signature, macros};
ghost use Rattle.eo_sig.specs.Signature.{is_free};
ghost use Rattle.eo_shape.specs.Reading.{read_attribute as shape_of, read_program as program_of};
ghost use Rattle.eo_term.specs.Tree.{Tree};
ghost use Rattle.eo_names.specs.Scopes.{read_file_kind};
ghost use Rattle.eo_declare.specs.Declarations.{may_be_constant};
ghost use Rattle.eo_declare.specs.Declaring.{MayRepeat, MayBeMacro};
ghost use Rattle.eo_elab.specs.Fitting.{macro_is_bound};
ghost use Rattle.eo_elab.specs.Worlds.{context_in};
ghost use Rattle.eo_session.specs.Numbered.{origin_of};
ghost use Rattle.eo_session.specs.Store.{state_of, IsConsistent, Keeps};
ghost use Rattle.eo_session.specs.State.{is_in_scope};
ghost use Rattle.eo_session.specs.Step as step;
ghost use Rattle.eo_session.specs.Step.{is_in_proof};
ghost use Rattle.eo_session.specs.Deciding.{Decides};
ghost use Rattle.eo_session.specs.Decisions.{const_effect, fun_effect, sort_effect, parameterized_effect, literals_effect};
ghost use Rattle.eo_session.specs.Decisions.{define_effect, define_fun_effect, define_sort_effect, macro_effect};
ghost use Rattle.eo_session.specs.Decisions.{program_effect, added_program_effect, entry_effect};
ghost use Rattle.eo_session.specs.Decisions.{typed_effect, checked_effect, constant_effect};

use crate::effects::Effect;
use crate::store::Store;
use crate::{Origin, Refused};
use eo_base::{FaultName, ok_with};
use eo_declare::{
    declared_const, declared_fun, declared_literals, declared_parameterized, declared_program,
    declared_sort, define_macro, defined_allowed, defined_fun, defined_sort, ordering_law,
    reference_law,
};
use eo_elab::FileKind;
use eo_sexp::{Children, Sexp};
use eo_shape::{AttributeShape, ParameterShapes, ProgramShape, Symbols};
use eo_sig::{Attribute, ConstDecl, Declared, Entry, LiteralClass, MacroDecl};

impl Store {
    /// A constant of this type is declared, which is to be a value. A constant of the reference file
    /// may be repeated without attribute, with an equal type.
    pub(crate) fn decide_const<'c>(
        &mut self,
        file_kind: FileKind,
        name: &[u8],
        ty: &Sexp<'_>,
        shape: &AttributeShape<'_>,
    ) -> Result<Effect<'c>, Refused>
        requires whole { IsConsistent self.old }
        requires outside { is_in_scope (state_of self.old) ≡ false }
        ensures decides { Decides self.new result (const_effect (state_of self.old) (read_file_kind file_kind) name.now ty.now
            (shape_of shape.now)) }
        ensures keeps { Keeps self.old self.new }
    {
        let d = declared_const(
            self.alloc,
            name,
            ty,
            shape,
            file_kind,
            &self.signature,
            &mut self.table,
        )?;
        self.decide_valued(d)
    }

    /// A constant of a function type is declared, which may repeat one as `decide_const` says.
    pub(crate) fn decide_fun<'c>(
        &mut self,
        file_kind: FileKind,
        name: &[u8],
        inputs: &Children<'_>,
        output: &Sexp<'_>,
    ) -> Result<Effect<'c>, Refused>
        requires whole { IsConsistent self.old }
        requires outside { is_in_scope (state_of self.old) ≡ false }
        ensures decides { Decides self.new result (fun_effect (state_of self.old)
            (read_file_kind file_kind) name.now inputs.now output.now) }
        ensures keeps { Keeps self.old self.new }
    {
        let d = declared_fun(
            self.alloc,
            name,
            inputs,
            output,
            file_kind,
            &self.signature,
            &mut self.table,
        )?;
        self.decide_valued(d)
    }

    /// A constant that makes a type of so many types is declared, which may repeat one as
    /// `decide_const` says.
    pub(crate) fn decide_sort<'c>(
        &mut self,
        file_kind: FileKind,
        name: &[u8],
        arity: u8,
    ) -> Result<Effect<'c>, Refused>
        requires whole { IsConsistent self.old }
        requires outside { is_in_scope (state_of self.old) ≡ false }
        ensures decides { Decides self.new result (sort_effect (state_of self.old) (read_file_kind file_kind) name.now arity) }
        ensures keeps { Keeps self.old self.new }
    {
        let d = declared_sort(
            self.alloc,
            name,
            arity,
            file_kind,
            &self.signature,
            &mut self.table,
        )?;
        self.decide_valued(d)
    }

    /// A constant with parameters is declared.
    pub(crate) fn decide_parameterized<'c>(
        &mut self,
        name: &[u8],
        params: &ParameterShapes<'_>,
        ty: &Sexp<'_>,
        shape: &AttributeShape<'_>,
    ) -> Result<Effect<'c>, Refused>
        requires whole { IsConsistent self.old }
        requires outside { is_in_scope (state_of self.old) ≡ false }
        ensures decides { Decides self.new result (parameterized_effect (state_of self.old) name.now params.now ty.now
            (shape_of shape.now)) }
        ensures keeps { Keeps self.old self.new }
    {
        let d = declared_parameterized(
            self.alloc,
            name,
            params,
            ty,
            shape,
            &self.signature,
            &mut self.table,
        )?;
        self.decide_checked(d)
    }

    /// A class of literals gets its type.
    pub(crate) fn decide_literals<'c>(
        &mut self,
        class: LiteralClass,
        ty: &Sexp<'_>,
    ) -> Result<Effect<'c>, Refused>
        requires whole { IsConsistent self.old }
        requires outside { is_in_scope (state_of self.old) ≡ false }
        ensures decides { Decides self.new result (literals_effect (state_of self.old) class ty.now) }
        ensures keeps { Keeps self.old self.new }
    {
        let ty = declared_literals(self.alloc, class, ty, &self.signature, &mut self.table)?;
        self.decide_entry(Declared::Literal { class, ty })
    }

    /// A macro is defined. A macro of the reference file may be repeated with as many parameters and
    /// an equal tree.
    pub(crate) fn decide_define<'c>(
        &mut self,
        name: &[u8],
        params: &ParameterShapes<'_>,
        body: &Sexp<'_>,
    ) -> Result<Effect<'c>, Refused>
        requires { IsConsistent self.old }
        ensures decides { Decides self.new result (define_effect (state_of self.old) name.now params.now body.now) }
        ensures keeps { Keeps self.old self.new }
    {
        if self.signature.is_free(name) {
            return self.decide_free(name, params, body);
        }
        ordering_law();
        let d = define_macro(
            self.alloc,
            name,
            params,
            body,
            &self.signature,
            &mut self.table,
        )?;
        self.decide_macro(d)
    }

    // The same for a name that is free, which is not asked again.
    fn decide_free<'c>(
        &mut self,
        name: &[u8],
        params: &ParameterShapes<'_>,
        body: &Sexp<'_>,
    ) -> Result<Effect<'c>, Refused>
        requires whole { IsConsistent self.old }
        requires free { (ts : List Tree) → is_free (signature ts self.old.signature) (macros ts self.old.signature) name.now ≡ true }
        ensures decides { Decides self.new result (define_effect (state_of self.old) name.now params.now body.now) }
        ensures keeps { Keeps self.old self.new }
    {
        ordering_law();
        let d = defined_allowed(
            self.alloc,
            name,
            params,
            body,
            &self.signature,
            &mut self.table,
        )?;
        Ok(Effect::Define(d))
    }

    /// A macro of the reference file is defined, whose body has a type that says nothing. It may
    /// repeat one as `decide_define` says.
    pub(crate) fn decide_define_fun<'c>(
        &mut self,
        name: &[u8],
        params: &ParameterShapes<'_>,
        output: &Sexp<'_>,
        body: &Sexp<'_>,
    ) -> Result<Effect<'c>, Refused>
        requires { IsConsistent self.old }
        ensures decides { Decides self.new result (define_fun_effect (state_of self.old) name.now params.now output.now body.now) }
        ensures keeps { Keeps self.old self.new }
    {
        reference_law();
        let d = defined_fun(
            self.alloc,
            name,
            params,
            output,
            body,
            &self.signature,
            &mut self.table,
        )?;
        self.decide_macro(d)
    }

    /// A macro of the reference file is defined, whose parameters are types. It may repeat one
    /// as `decide_define` says.
    pub(crate) fn decide_define_sort<'c>(
        &mut self,
        name: &[u8],
        params: &Symbols<'_>,
        ty: &Sexp<'_>,
    ) -> Result<Effect<'c>, Refused>
        requires { IsConsistent self.old }
        ensures decides { Decides self.new result (define_sort_effect (state_of self.old) name.now params.now ty.now) }
        ensures keeps { Keeps self.old self.new }
    {
        reference_law();
        let d = defined_sort(
            self.alloc,
            name,
            params,
            ty,
            &self.signature,
            &mut self.table,
        )?;
        self.decide_macro(d)
    }

    /// A program is defined. A closed proof may define none.
    pub(crate) fn decide_program<'c>(
        &mut self,
        from: Origin,
        shape: &ProgramShape<'_>,
    ) -> Result<Effect<'c>, Refused>
        requires whole { IsConsistent self.old }
        requires outside { is_in_scope (state_of self.old) ≡ false }
        ensures decides { Decides self.new result (program_effect (state_of self.old) (origin_of from) (program_of shape.now)) }
        ensures keeps { Keeps self.old self.new }
    {
        if !self.may_declare(from) {
            return Err(Refused::Fault(FaultName::ProofDeclares));
        }
        self.decide_added_program(shape)
    }

    /// Whether rules and programs may be declared there.
    pub(crate) fn may_declare(&self, from: Origin) -> bool
        ensures { result ≡ not ((state_of self.now).closed && is_in_proof (origin_of from)) }
    {
        !(self.closed && from.is_proof())
    }

    // A program is defined, which may be declared here.
    fn decide_added_program<'c>(&mut self, shape: &ProgramShape<'_>) -> Result<Effect<'c>, Refused>
        requires whole { IsConsistent self.old }
        requires outside { is_in_scope (state_of self.old) ≡ false }
        ensures decides { Decides self.new result (added_program_effect (state_of self.old) (program_of shape.now)) }
        ensures keeps { Keeps self.old self.new }
    {
        let d = declared_program(self.alloc, shape, &self.signature, &mut self.table)?;
        self.decide_entry(Declared::Program(d))
    }

    /// A declaration whose name is free is added, unless it has a fault.
    pub(crate) fn decide_entry<'c>(&self, d: Declared) -> Result<Effect<'c>, Refused>
        requires whole { IsConsistent self.now }
        requires outside { is_in_scope (state_of self.now) ≡ false }
        requires below { EntryBelow (length self.now.table.trees) d }
        requires free { EntryIsFree self.now.signature d }
        requires ordered { EntryIsOrdered self.now.table.trees d }
        ensures decides { Decides self.now result (entry_effect (state_of self.now) (read_entry self.now.table.trees d)) }
    {
        let ((), d) = ok_with(self.signature.check(&self.table, &d), d)?;
        Ok(Effect::Declare(d))
    }

    // A constant without parameters is declared. Its declared type is the value of its type.
    fn decide_valued<'c>(&mut self, d: ConstDecl) -> Result<Effect<'c>, Refused>
        requires whole { IsConsistent self.old }
        requires outside { is_in_scope (state_of self.old) ≡ false }
        requires below { ConstBelow (length self.old.table.trees) d }
        requires may { MayRepeat (context_in self.old.table self.old.signature) (read_constant self.old.table.trees d) }
        requires alone { d.params ≡ [] }
        ensures decides { Decides self.new result (typed_effect (state_of self.old) (read_constant self.old.table.trees d)) }
        ensures keeps { Keeps self.old self.new }
    {
        d.laws();
        let ty = self.type_value(d.ty)?;
        self.decide_or_repeat(ConstDecl { ty, ..d })
    }

    // A constant without parameters is declared, or is one of the reference file that it repeats.
    fn decide_or_repeat<'c>(&self, d: ConstDecl) -> Result<Effect<'c>, Refused>
        requires whole { IsConsistent self.now }
        requires outside { is_in_scope (state_of self.now) ≡ false }
        requires below { ConstBelow (length self.now.table.trees) d }
        requires may { MayRepeat (context_in self.now.table self.now.signature) (read_constant self.now.table.trees d) }
        ensures decides { Decides self.now result (constant_effect (state_of self.now) (read_constant self.now.table.trees d)) }
    {
        if self.repeats_constant(&d) {
            return Ok(Effect::Nothing);
        }
        self.decide_checked(d)
    }

    // A constant is declared, by a name that constants may have, unless it has a fault or another of
    // its name takes a number of arguments that it takes.
    fn decide_checked<'c>(&self, d: ConstDecl) -> Result<Effect<'c>, Refused>
        requires whole { IsConsistent self.now }
        requires outside { is_in_scope (state_of self.now) ≡ false }
        requires below { ConstBelow (length self.now.table.trees) d }
        requires named { may_be_constant (context_in self.now.table self.now.signature) d.name ≡ true }
        ensures decides { Decides self.now result (checked_effect (state_of self.now) (read_constant self.now.table.trees d)) }
    {
        let ((), d) = ok_with(self.signature.check_new(&self.table, &d), d)?;
        let counts = d.counts(&self.table);
        Ok(Effect::Declare(Declared::Const(d, counts)))
    }

    // A macro is defined, or is one of the reference file that it repeats.
    fn decide_macro<'c>(&self, d: MacroDecl) -> Result<Effect<'c>, Refused>
        requires whole { IsConsistent self.now }
        requires below { MacroBelow (length self.now.table.trees) d }
        requires may { MayBeMacro (context_in self.now.table self.now.signature) (read_macro self.now.table.trees d) }
        requires bound { macro_is_bound (read_macro self.now.table.trees d) ≡ true }
        ensures decides { Decides self.now result (macro_effect (state_of self.now) (read_macro self.now.table.trees d)) }
    {
        match self.signature.lookup(d.name.as_bytes()) {
            None => Ok(Effect::Define(d)),
            Some(entry) => {
                if self.repeats_macro(entry, &d) {
                    return Ok(Effect::Nothing);
                }
                Err(Refused::Fault(FaultName::Redeclared))
            }
        }
    }

    // Whether the declaration repeats a constant of the reference file: that of its name that takes
    // as many arguments.
    fn repeats_constant(&self, d: &ConstDecl) -> bool
        requires whole { IsConsistent self.now }
        requires below { ConstBelow (length self.now.table.trees) d.now }
        ensures { result ≡ step.repeats_constant (state_of self.now) (read_constant self.now.table.trees d.now) }
    {
        if !is_plain(d.attribute) {
            return false;
        }
        let n = d.arguments(&self.table);
        match self.signature.constant_taking(d.name.as_bytes(), n) {
            Some(k) => self.repeats_number(k, d),
            None => false,
        }
    }

    // Whether the constant with this number is one of the reference file, of the same type.
    fn repeats_number(&self, k: usize, d: &ConstDecl) -> bool
        requires whole { IsConsistent self.now }
        requires within { k < length (constants_of self.now.signature) }
        requires below { ConstBelow (length self.now.table.trees) d.now }
        ensures { result ≡ step.repeats (state_of self.now) (read_constant self.now.table.trees d.now) (Some k) }
    {
        let old = self.signature.constant(k);
        old.from_reference && self.table.is_same(old.ty, d.ty)
    }

    // Whether the name means a macro of the reference file that the definition repeats.
    pub(crate) fn repeats_macro(&self, entry: Entry, d: &MacroDecl) -> bool
        requires whole { IsConsistent self.now }
        requires within { IsWithin self.now.signature entry }
        requires below { MacroBelow (length self.now.table.trees) d.now }
        ensures { result ≡ step.repeats_macro (state_of self.now) (read_macro self.now.table.trees d.now) (Some (read_named entry)) }
    {
        let Entry::Macro(k) = entry else {
            return false;
        };
        let old = self.signature.macro_of(k);
        old.from_reference
            && old.params.as_slice().len() == d.params.as_slice().len()
            && self.table.is_same(old.tree, d.tree)
    }
}

// Whether nothing is said of how a constant folds its arguments.
fn is_plain(attribute: Attribute) -> bool
    ensures { (ts : List Tree) → result ≡ step.is_plain (read_attribute ts attribute) }
{
    match attribute {
        Attribute::Plain => true,
        _ => false,
    }
}
