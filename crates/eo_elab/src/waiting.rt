//! What waits for the meaning of a term.
use eo_names::{Bindings, Head};
use eo_sexp::{Children, Sexp};
use eo_term::{Id, Ids};

/// What is read once all pairs of a `let` or a binder are.
#[derive(Drop)]
pub(crate) enum Next<'b> {
    /// The body of a `let`.
    Body(Sexp<'b>),
    /// The other arguments of a constant that binds variables, of which another one makes the list.
    Others {
        binder: usize,
        collector: usize,
        others: Children<'b>,
    },
}

/// The pairs of a `let` or a binder, of which one is read.
#[derive(Drop)]
pub(crate) struct Pairs<'b> {
    /// The names of those before it, and the meanings beside them.
    pub(crate) before: Bindings,
    /// Its name.
    pub(crate) name: &'b [u8],
    /// Those after it.
    pub(crate) rest: Children<'b>,
    pub(crate) next: Next<'b>,
}

/// One thing that waits for the meaning of a term. It takes 72 bytes: pairs, which are the largest
/// and rare, are apart.
#[derive(Drop)]
pub(crate) enum Frame<'b> {
    /// Arguments wait for their head.
    Head {
        args: Children<'b>,
    },
    /// Arguments that are used so wait for one of them. The meanings of those before it are there.
    Argument {
        used: Head,
        before: Ids,
        rest: Children<'b>,
    },
    /// The pairs of a `let` or a binder wait for what follows the name of one.
    Beside(Box<Pairs<'b>>),
    /// Attributes wait for their term.
    Annotated {
        attributes: Children<'b>,
    },
    /// What a `let` or a binder binds waits for what is read inside of it.
    Inner,
}

/// What is done next.
#[derive(Drop)]
pub(crate) enum Now<'b> {
    /// A term is read.
    Read(Sexp<'b>),
    /// A meaning is given to what waits for it.
    Give(Id),
}
