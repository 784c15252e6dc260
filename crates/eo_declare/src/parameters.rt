//! The parameters of a declaration.
ghost use Rattle.std.specs.Prelude.{◌≡◌, ◌<◌, ◌≤◌, suc, [], ◌∷◌, ◌++◌, length, bytes_eq, IfOk, OnOk};
ghost use Rattle.std.specs.List.{list_any};
ghost use Rattle.eo_base.specs.Limits.{parameters_limit};
ghost use Rattle.eo_sig.specs.Reading.{IsBelow};
ghost use Rattle.eo_term.specs.Growth.{Grows, Makes};
ghost use Rattle.eo_term.specs.Tree.{Par};
ghost use Rattle.eo_shape.specs.Reading as shapes;
ghost use Rattle.eo_declare.specs.Declarations.{bind, bind_types, unbound};
ghost use Rattle.eo_declare.specs.Declaring.{BoundBelow, TypesBelow};
ghost use Rattle.eo_declare.specs.Gives.{GivesBound, GivesTypes, ReadsParameter, NamesType};
ghost use Rattle.eo_names.specs.Names.{local};
ghost use Rattle.eo_elab.specs.Worlds.{context_at};

use eo_base::Name;
use eo_elab::{ElabRefused, FileKind, Locals, elaborate_in};
use eo_names::names_law;
use eo_shape::{ParameterShape, ParameterShapes, Symbols};
use eo_sig::{Param, Params, Signature};
use eo_term::{Id, Node, TYPE, Table};
use std::alloc::{AllocError, Global};

/// Parameters that were read, and what their names mean.
#[derive(Drop)]
pub(crate) struct Bound {
    /// The parameters in order.
    pub(crate) params: Params,
    /// Their names.
    pub(crate) locals: Locals,
}

/// The parameters in order, in a file of this kind. The type of each may use those before it.
///
/// `Redeclared` is a name that an earlier parameter has; any other fault is that of a type.
pub(crate) fn bind(
    alloc: Global,
    shapes: &ParameterShapes<'_>,
    file_kind: FileKind,
    sig: &Signature,
    table: &mut Table,
) -> Result<Bound, ElabRefused>
    requires ready { IsBelow (length table.old.trees) sig.now }
    requires few { length shapes.now ≤ parameters_limit }
    ensures gives { GivesBound sig.now table.new result (bind (context_at table.old sig.now file_kind) unbound shapes.now) }
    ensures count { IfOk result (λ b. length b.params ≡ length shapes.now) }
    ensures grows { Grows table.old table.new }
{
    sig.laws();
    let mut bound = no_parameters(alloc)?;
    for shape in shapes.again() {
        bound.read(alloc, &shape, file_kind, sig, table)?;
    }
    Ok(bound)
}

/// Parameters of these names in order, each of which is a type.
///
/// `Redeclared` is a name that an earlier parameter has.
pub(crate) fn bind_types(
    alloc: Global,
    names: &Symbols<'_>,
    table: &mut Table,
) -> Result<Bound, ElabRefused>
    requires few { length names.now ≤ parameters_limit }
    ensures gives { GivesTypes table.new result (bind_types unbound names.now) }
    ensures count { IfOk result (λ b. length b.params ≡ length names.now) }
    ensures grows { Grows table.old table.new }
{
    let mut bound = no_parameters(alloc)?;
    for name in names.again() {
        bound.name_type(alloc, name, table)?;
    }
    Ok(bound)
}

// No parameters.
fn no_parameters(alloc: Global) -> Result<Bound, AllocError>
    ensures params { IfOk result (λ b. b.params ≡ []) }
    ensures locals { IfOk result (λ b. b.locals ≡ []) }
{
    Ok(Bound {
        params: Params::new(alloc),
        locals: Locals::new(alloc),
    })
}

impl Bound {
    // Reads one parameter more.
    fn read(
        &mut self,
        alloc: Global,
        shape: &ParameterShape<'_>,
        file_kind: FileKind,
        sig: &Signature,
        table: &mut Table,
    ) -> Result<(), ElabRefused>
        requires bound { BoundBelow (length table.old.trees) sig.now self.old }
        requires room { length self.old.params < parameters_limit }
        ensures reads { ReadsParameter sig.now file_kind table.old table.new (shapes.read_parameter shape.now) self.old self.new result }
        ensures count { OnOk result (length self.new.params ≡ suc (length self.old.params)) }
        ensures grows { Grows table.old table.new }
    {
        names_law();
        if self.has(shape.name) {
            return Err(ElabRefused::Redeclared);
        }
        let ty = elaborate_in(alloc, &shape.ty, &self.locals, file_kind, sig, table)?;
        let id = parameter(table, self.params.as_slice().len() as u8)?;
        let param = Param {
            name: Name::new(alloc, shape.name)?,
            ty,
            implicit: shape.implicit,
            list: shape.list,
        };
        self.push(param, id)?;
        Ok(())
    }

    // Reads one more parameter, which is a type.
    fn name_type(
        &mut self,
        alloc: Global,
        name: &[u8],
        table: &mut Table,
    ) -> Result<(), ElabRefused>
        requires bound { TypesBelow (length table.old.trees) self.old }
        requires room { length self.old.params < parameters_limit }
        ensures names { NamesType table.old table.new name.now self.old self.new result }
        ensures count { OnOk result (length self.new.params ≡ suc (length self.old.params)) }
        ensures grows { Grows table.old table.new }
    {
        table.laws();
        if self.has(name) {
            return Err(ElabRefused::Redeclared);
        }
        let id = parameter(table, self.params.as_slice().len() as u8)?;
        let param = Param {
            name: Name::new(alloc, name)?,
            ty: TYPE,
            implicit: false,
            list: false,
        };
        self.push(param, id)?;
        Ok(())
    }

    // Whether a parameter has the name.
    fn has(&self, name: &[u8]) -> bool
        ensures { result ≡ list_any (λ p. bytes_eq p.name name.now) self.now.params }
    {
        self.params
            .as_slice()
            .iter()
            .any(|p| p.name.as_bytes() == name)
    }

    // Adds a parameter, whose name means this term.
    fn push(&mut self, param: Param, id: Id) -> Result<(), AllocError>
        ensures params { OnOk result (self.new.params ≡ self.old.params ++ param ∷ []) }
        ensures locals { OnOk result (self.new.locals ≡ local param.name id param.list ∷ self.old.locals) }
    {
        self.locals.add(param.name.as_bytes(), id, param.list)?;
        self.params.push(param)?;
        Ok(())
    }
}

/// The parameter of this number.
pub(crate) fn parameter(table: &mut Table, i: u8) -> Result<Id, AllocError>
    requires { i < parameters_limit }
    ensures makes { Makes table.new result (Par i) }
    ensures grows { Grows table.old table.new }
{
    table.intern_low(Node::Par(i))
}
