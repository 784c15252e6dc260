//! What is held before the first line.
ghost use Rattle.std.specs.Prelude.{◌≡◌, IfOk, false};
ghost use Rattle.eo_term.specs.Terms.{first_trees};
ghost use Rattle.eo_session.specs.Beginning.{IsFirstSignature};
ghost use Rattle.eo_session.specs.Stepping.{IsNew};
ghost use Rattle.eo_cert.specs.Stated.{nothing_stated};
ghost use Rattle.eo_stated.specs.Checking.{stated_of, IsHeld};

use crate::checker::Checker;
use eo_base::ok_with;
use eo_ref::Reference;
use eo_session::Session;
use eo_sig::Signature;
use eo_term::Table;
use eo_type::Types;
use indexmap::IndexSet;
use std::alloc::{AllocError, Global};

// The terms that stand first, and what is declared of them.
#[derive(Drop)]
struct Parts {
    table: Table,
    signature: Signature,
}

impl Checker {
    /// Before the first line.
    pub fn new(alloc: Global) -> Result<Checker, AllocError>
        ensures held { IfOk result IsHeld }
        ensures stated { IfOk result (λ c. stated_of c ≡ nothing_stated) }
    {
        let parts = first_parts(alloc)?;
        let (session, parts) = ok_with(Session::new(alloc, false), parts)?;
        Ok(first(alloc, session, parts))
    }
}

fn first_parts(alloc: Global) -> Result<Parts, AllocError>
    ensures trees { IfOk result (λ p. p.table.trees ≡ first_trees) }
    ensures signature { IfOk result (λ p. IsFirstSignature p.signature) }
{
    let table = Table::new(alloc)?;
    let (signature, table) = ok_with(first_signature(alloc), table)?;
    Ok(Parts { table, signature })
}

// A signature that declares only what stands first.
fn first_signature(alloc: Global) -> Result<Signature, AllocError>
    ensures { IfOk result IsFirstSignature }
{
    let signature = Signature::new(alloc)?;
    Ok(signature)
}

// What is held first, with this session and these parts.
#[tactic(auto, unfolding(eo_cert::specs::Stated::nothing_stated, eo_session::specs::State::first_state))]
fn first(alloc: Global, session: Session, parts: Parts) -> Checker
    requires new { IsNew false session }
    requires trees { parts.table.trees ≡ first_trees }
    requires signature { IsFirstSignature parts.signature }
    ensures held { IsHeld result }
    ensures stated { stated_of result ≡ nothing_stated }
{
    let types = Types::new(alloc);
    types.laws();
    Checker {
        alloc,
        session,
        table: parts.table,
        signature: parts.signature,
        types,
        assertions: Reference::new(alloc),
        terms: Vec::new(alloc),
        contexts: Vec::new(alloc),
        derivations: Vec::new(alloc),
        block: Vec::new(alloc),
        calls: IndexSet::new(alloc),
    }
}
