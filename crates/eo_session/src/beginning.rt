//! What is held before the first command.
ghost use Rattle.std.specs.Prelude.{◌≡◌, IfOk};
ghost use Rattle.eo_term.specs.Terms.{first_trees};
ghost use Rattle.eo_session.specs.Beginning.{IsFirstSignature};
ghost use Rattle.eo_session.specs.Store.{state_of, IsSettled};
ghost use Rattle.eo_session.specs.State.{first_state};

use crate::store::Store;
use eo_base::ok_with;
use eo_eval::Evaluator;
use eo_pattern::Subst;
use eo_proof::Facts;
use eo_reclaim::Marks;
use eo_ref::Reference;
use eo_sig::Signature;
use eo_term::Table;
use eo_type::Types;
use std::alloc::{AllocError, Global};

impl Store {
    /// What is held before the first command.
    pub(crate) fn new(alloc: Global, closed: bool) -> Result<Store, AllocError>
        ensures settled { IfOk result IsSettled }
        ensures state { IfOk result (λ h. state_of h ≡ first_state closed) }
    {
        let table = Table::new(alloc)?;
        let (signature, table) = ok_with(first_signature(alloc), table)?;
        Ok(first(alloc, closed, table, signature))
    }
}

// A signature that declares only what is there from the start.
fn first_signature(alloc: Global) -> Result<Signature, AllocError>
    ensures { IfOk result IsFirstSignature }
{
    let signature = Signature::new(alloc)?;
    Ok(signature)
}

// What is held first, with this table and this signature.
fn first(alloc: Global, closed: bool, table: Table, signature: Signature) -> Store
    requires trees { table.trees ≡ first_trees }
    requires signature { IsFirstSignature signature }
    ensures settled { IsSettled result }
    ensures state { state_of result ≡ first_state closed }
{
    let types = Types::new(alloc);
    types.laws();
    let evaluator = Evaluator::new(alloc);
    let subst = Subst::new(alloc);
    let assertions = Reference::new(alloc);
    let facts = Facts::new(alloc);
    let marks = Marks::new(alloc);
    let kept = table.mark();
    Store {
        alloc,
        table,
        signature,
        types,
        evaluator,
        subst,
        assertions,
        has_reference: false,
        facts,
        marks,
        kept,
        sorry: false,
        closed,
        commands: 0,
    }
}
