//! The variables that a binder binds.
ghost use Rattle.std.specs.Prelude.{◌≡◌, ◌<◌, ◌≤◌, length, map, IfOk, OnOk, OnErr, []};
ghost use Rattle.eo_base.specs.Characters.{AreCharacters};
ghost use Rattle.eo_term.specs.Tree.{Var};
ghost use Rattle.eo_names.specs.Binders.{variable, variables_of};
ghost use Rattle.eo_names.specs.Names.{BindingsBelow};
ghost use Rattle.eo_names.specs.Scopes.{bound_in};
ghost use Rattle.eo_names.specs.Ready.{IsReady};
ghost use Rattle.eo_term.specs.Growth.{tree_in, Grows};
ghost use Rattle.eo_term.specs.Builds.{Builds, AreTerms};
ghost use Rattle.eo_names.specs.Gives.{GivesTerm, MakesVariables};
ghost use Rattle.eo_names.specs.Worlds.{world, bound_list_in, seen_in};

use crate::ElabRefused;
use crate::attributes::least_of;
use crate::folding::fold_constant;
use crate::laws::names_law;
use crate::locals::Bindings;
use crate::scope::Scope;
use eo_sig::SignatureView;
use eo_term::{Id, Ids, Node, Table, TermRefused, builds_law};
use std::alloc::{AllocError, Global};

/// Puts the variable of each name and type in the place of the type, and gives the list that the
/// constant `collector` makes of the variables.
///
/// A refusal is the first fault:
///
/// - `BadArity`: there are fewer names than the constant asks for.
/// - `Tall`: a variable or the list is taller than the limit.
/// - `Memory`: out of memory.
///
/// A refused call leaves the table and the names as they were.
pub fn bind(
    alloc: Global,
    collector: usize,
    names: &mut Bindings,
    scope: &Scope<'_>,
    sig: &SignatureView<'_>,
    table: &mut Table,
) -> Result<Id, ElabRefused>
    requires ready { IsReady (length table.old.trees) sig.now (bound_in scope.now) }
    requires types { BindingsBelow (length table.old.trees) names.old }
    ensures gives { GivesTerm table.new result (bound_list_in (world table.old sig.now scope.now) collector (seen_in table.old names.old)) }
    ensures below { OnOk result (BindingsBelow (length table.new.trees) names.new) }
    ensures names { OnOk result (seen_in table.new names.new ≡ map variable (seen_in table.old names.old)) }
    ensures refused { OnErr result (table.new ≡ table.old) }
    ensures unbound { OnErr result (names.new ≡ names.old) }
    ensures grows { Grows table.old table.new }
{
    let mark = table.mark();
    let mut variables = Ids::new(alloc);
    match list_or_leave(alloc, collector, names, &mut variables, scope, sig, table) {
        Ok(list) => {
            names.set_all(variables.as_slice());
            Ok(list)
        }
        Err(e) => {
            table.release(mark);
            Err(e)
        }
    }
}

// The list of the variables, which are added to none. A refused call leaves the terms that it made.
fn list_or_leave(
    alloc: Global,
    collector: usize,
    names: &Bindings,
    variables: &mut Ids,
    scope: &Scope<'_>,
    sig: &SignatureView<'_>,
    table: &mut Table,
) -> Result<Id, ElabRefused>
    requires ready { IsReady (length table.old.trees) sig.now (bound_in scope.now) }
    requires types { BindingsBelow (length table.old.trees) names.now }
    requires none { variables.old ≡ [] }
    ensures gives { GivesTerm table.new result (bound_list_in (world table.old sig.now scope.now) collector (seen_in table.old names.now)) }
    ensures variables { OnOk result (AreTerms table.new (variables_of (seen_in table.old names.now)) variables.new) }
    ensures grows { Grows table.old table.new }
{
    names_law();
    // The variables are counted before any of them is made.
    if names.len() < least_of(collector, sig) {
        return Err(ElabRefused::BadArity);
    }
    make_variables(alloc, names, variables, table)?;
    fold_constant(alloc, collector, variables.as_slice(), scope, sig, table)
}

// Adds the variable of each name and type to none.
fn make_variables(
    alloc: Global,
    names: &Bindings,
    variables: &mut Ids,
    table: &mut Table,
) -> Result<(), TermRefused>
    requires types { BindingsBelow (length table.old.trees) names.now }
    requires none { variables.old ≡ [] }
    ensures makes { MakesVariables table.new variables.new result (variables_of (seen_in table.old names.now)) }
    ensures grows { Grows table.old table.new }
{
    builds_law();
    for i in 0..names.len() {
        let (name, ty) = names.get(i);
        let id = variable(alloc, name, ty, table)?;
        variables.push(id)?;
    }
    Ok(())
}

// The variable of this name and type.
fn variable(alloc: Global, name: &[u8], ty: Id, table: &mut Table) -> Result<Id, TermRefused>
    requires { ty < length table.old.trees }
    ensures gives { Builds table.new result (Var name.now (tree_in table.old ty)) }
    ensures grows { Grows table.old table.new }
{
    let characters = characters(alloc, name)?;
    let name = table.text(characters.as_slice())?;
    table.intern(Node::Var { name, ty })
}

// The characters of a name, each of which is a byte.
fn characters(alloc: Global, name: &[u8]) -> Result<Vec<u32>, AllocError>
    ensures value { IfOk result (λ v. v.items ≡ name.now) }
    ensures characters { IfOk result (λ v. AreCharacters v.items) }
{
    let mut characters = Vec::new(alloc);
    for byte in name {
        characters.push(u32::from(*byte))?;
    }
    Ok(characters)
}
