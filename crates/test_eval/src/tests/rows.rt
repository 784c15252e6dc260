//! Programs to be declared, and terms to be evaluated with how that ends. Terms are written as words
//! (`words`).

/// A program: its name, how many terms a case has, and its cases, each its patterns and then its
/// body.
pub(super) type ProgramRow<'a> = (&'a str, usize, &'a [&'a str]);

/// A term, and how its evaluation is to end.
pub(super) type Row<'a> = (&'a str, Want<'a>);

/// How an evaluation is to end: with the value that has these words, or with none, as an
/// `Outcome`.
#[derive(Clone, Copy)]
pub(super) enum Want<'a> {
    Value(&'a str),
    Stuck,
    Deep,
    Range,
    Tall,
}

/// Terms that one evaluator evaluates in one world.
pub(super) struct Trial<'a> {
    pub(super) name: &'a str,
    pub(super) rows: &'a [Row<'a>],
}
