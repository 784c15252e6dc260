//! What a symbol means.
ghost use Rattle.std.specs.Prelude.{◌≡◌, if◌then◌else◌, ℕ, ◌<◌, List, length, false, IfSome, option_map};
ghost use Rattle.eo_term.specs.Tree.{Tree};
ghost use Rattle.eo_sig.specs.Reading.{programs_of, read_named, IsBelow, IsWithin};
ghost use Rattle.eo_names.specs.Meanings as meanings;
ghost use Rattle.eo_names.specs.Meanings.{word_of, global_meant, program_meant};
ghost use Rattle.eo_names.specs.Contexts.{FileKind as Kind, is_reference};
ghost use Rattle.eo_names.specs.Scopes.{bound_in, read_file_kind, file_kind_in};
ghost use Rattle.eo_names.specs.Ready.{context, IsReady};
ghost use Rattle.eo_names.specs.Symbols.{read_word, read_meant, IsLive};
ghost use Rattle.eo_names.specs.Worlds.{meant_over, meant_before_over, macro_meant_over};

use crate::scope::{FileKind, Scope};
use eo_sig::{Entry, SignatureView};
use eo_term::{Id, OpCode, OpName};

/// A symbol that is never looked up, or a name that is.
#[derive(Clone, Copy)]
pub enum Word {
    /// `_`
    Underscore,
    /// `->`
    Arrow,
    /// `let`
    Let,
    /// `!`, in a reference file.
    Annotation,
    /// Any other symbol.
    Name,
}

/// What a name means.
#[derive(Clone, Copy)]
pub enum Resolved {
    /// A term.
    Term(Id),
    /// A constant, by its number.
    Constant(usize),
    /// A macro with parameters, by its number.
    Macro(usize),
    /// An operator or a program, with how many arguments it takes.
    Operator(OpCode, usize),
    /// Nothing.
    Nothing,
}

/// Which word the symbol is in this kind of file.
pub fn word_of(symbol: &[u8], scope: &Scope<'_>) -> Word
    ensures { read_word result ≡ word_of (file_kind_in scope.now) symbol.now }
{
    if !begins_word(symbol) {
        return Word::Name;
    }
    if symbol == b"_".as_slice() {
        return Word::Underscore;
    }
    if symbol == b"->".as_slice() {
        return Word::Arrow;
    }
    if symbol == b"let".as_slice() {
        return Word::Let;
    }
    if symbol == b"!".as_slice() {
        return exclamation(scope.file_kind());
    }
    Word::Name
}

// Whether one of the words begins with the first byte of the symbol.
fn begins_word(symbol: &[u8]) -> bool
    ensures { (kind : Kind) → result ≡ false → word_of kind symbol.now ≡ meanings.Name }
{
    match symbol.first() {
        Some(b'_' | b'-' | b'l' | b'!') => true,
        _ => false,
    }
}

// Which word `!` is.
fn exclamation(file_kind: FileKind) -> Word
    ensures { read_word result ≡ (if is_reference (read_file_kind file_kind) then meanings.Annotation else meanings.Name) }
{
    match file_kind {
        FileKind::Proof => Word::Name,
        FileKind::Reference | FileKind::Assert => Word::Annotation,
    }
}

/// What the name means: an operator of the language, else the innermost local name, else the
/// first constant of the name, a macro or a program.
pub fn resolve_name(name: &[u8], scope: &Scope<'_>, sig: &SignatureView<'_>) -> Resolved
    ensures value { (ts : List Tree) → read_meant ts sig.now result ≡ meant_over ts sig.now scope.now name.now }
    ensures live { (n : ℕ) → IsReady n sig.now (bound_in scope.now) → IsLive n sig.now result }
{
    if let Some(op) = OpName::from_word(name) {
        return Resolved::Operator(OpCode::Builtin(op), op.arity());
    }
    if let Some(id) = scope.find(name) {
        return Resolved::Term(id);
    }
    entry_meant(sig.lookup(name), sig)
}

/// The same, where the name is the head of so many arguments: of several constants of the name it
/// means the one that takes so many, and where none does the first.
pub fn head_meant(name: &[u8], n: usize, scope: &Scope<'_>, sig: &SignatureView<'_>) -> Resolved
    ensures value { (ts : List Tree) → read_meant ts sig.now result ≡ meant_before_over ts sig.now scope.now name.now n }
    ensures live { (n : ℕ) → IsReady n sig.now (bound_in scope.now) → IsLive n sig.now result }
{
    if let Some(op) = OpName::from_word(name) {
        return Resolved::Operator(OpCode::Builtin(op), op.arity());
    }
    if let Some(id) = scope.find(name) {
        return Resolved::Term(id);
    }
    entry_meant(sig.lookup_count(name, n), sig)
}

// What a constant, a macro or a program is where its name stands.
fn entry_meant(entry: Option<Entry>, sig: &SignatureView<'_>) -> Resolved
    requires { IfSome entry (λ e. IsWithin sig.now e) }
    ensures value { (ts : List Tree) → read_meant ts sig.now result ≡ global_meant (context ts sig.now) (option_map read_named entry) }
    ensures live { (n : ℕ) → IsBelow n sig.now → IsLive n sig.now result }
{
    match entry {
        Some(Entry::Constant(n)) => Resolved::Constant(n),
        Some(Entry::Macro(n)) => macro_of(sig, n),
        Some(Entry::Program(n)) => program_of(sig, n),
        None => Resolved::Nothing,
    }
}

// A macro without parameters is its term.
fn macro_of(sig: &SignatureView<'_>, n: usize) -> Resolved
    requires { n < length sig.now.macros }
    ensures value { (ts : List Tree) → read_meant ts sig.now result ≡ macro_meant_over ts sig.now n }
    ensures live { (m : ℕ) → IsBelow m sig.now → IsLive m sig.now result }
{
    let defined = sig.macro_of(n);
    if defined.params.as_slice().is_empty() {
        return Resolved::Term(defined.tree);
    }
    Resolved::Macro(n)
}

fn program_of(sig: &SignatureView<'_>, n: usize) -> Resolved
    requires within { n < length (programs_of sig.now) }
    ensures value { (ts : List Tree) → read_meant ts sig.now result ≡ program_meant (context ts sig.now) n }
    ensures live { (m : ℕ) → IsBelow m sig.now → IsLive m sig.now result }
{
    let program = sig.program(n);
    Resolved::Operator(OpCode::Prog(n), program.inputs.as_slice().len())
}
