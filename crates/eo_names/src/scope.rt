//! The place of a term: the kind of file, and the names that are local there.
ghost use Rattle.std.specs.Prelude.{◌≡◌, ℕ, ◌<◌, List, length, IfSome, option_map};
ghost use Rattle.eo_term.specs.Tree.{Tree};
ghost use Rattle.eo_term.specs.Terms.{tree_at};
ghost use Rattle.eo_names.specs.Contexts.{local_named, is_list};
ghost use Rattle.eo_names.specs.Names.{read_locals, AreBelow};
ghost use Rattle.eo_names.specs.Scopes.{bound_in, read_file_kind, file_kind_in};

use crate::Locals;
use crate::inside::Blocks;
use eo_term::{Id, Table};

/// Which kind of file a term is in.
#[derive(Clone, Copy, Debug, PartialEq, Eq)]
pub enum FileKind {
    /// A signature or a proof.
    Proof,
    /// A reference file, outside of its assertions.
    Reference,
    /// An assertion of a reference file.
    Assert,
}

/// The place of a term: the kind of file, and the names that are local there, which are those that
/// it was given, and before them what each `let` and each binder around it binds. Finding a name
/// takes one look-up by hash for all of these, and then a look through those that were given.
#[derive(Clone, Copy)]
pub enum Scope<'a> {
    /// The names that were given, and the kind of file.
    Outer(&'a Locals, FileKind),
    /// What each `let` and each binder around it binds, before the names around all of them.
    Within(&'a Blocks, &'a Scope<'a>),
}

impl Scope<'_> {
    /// The kind of file.
    pub fn file_kind(&self) -> FileKind
        ensures { read_file_kind result ≡ file_kind_in self.now }
    {
        match self {
            Scope::Outer(_, file_kind) => *file_kind,
            Scope::Within(_, around) => around.file_kind(),
        }
    }

    /// The term that the name means.
    pub(crate) fn find(&self, name: &[u8]) -> Option<Id>
        ensures value { (ts : List Tree) → option_map (tree_at ts) result ≡ local_named (read_locals ts (bound_in self.now)) name.now }
        ensures live { (n : ℕ) → AreBelow n (bound_in self.now) → IfSome result (λ i. i < n) }
    {
        match self {
            Scope::Outer(locals, _) => locals.find(name),
            Scope::Within(blocks, around) => match blocks.find(name) {
                Some(id) => Some(id),
                None => around.find(name),
            },
        }
    }

    /// Whether the term is a parameter that represents a list of arguments.
    pub(crate) fn is_list(&self, table: &Table, id: Id) -> bool
        requires live { id < length table.now.trees }
        requires below { AreBelow (length table.now.trees) (bound_in self.now) }
        ensures { result ≡ is_list (read_locals table.now.trees (bound_in self.now)) (tree_at table.now.trees id) }
    {
        match self {
            Scope::Outer(locals, _) => locals.is_list(table, id),
            Scope::Within(_, around) => around.is_list(table, id),
        }
    }
}
