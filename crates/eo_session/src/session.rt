//! A run between two commands.
ghost use Rattle.std.specs.Prelude.{◌≡◌, ◌≢◌, false, true, not, ◌||◌, IfOk, Err, OnOk, OnErr, IfErr, List, ◌++◌};
ghost use Rattle.eo_base.specs.declared.FaultName.TheVariants.{FileAbsent};
ghost use Rattle.eo_session.specs.declared.refused.Refused.TheVariants.{Fault};
ghost use Rattle.eo_session.specs.Store.{state_of, IsConsistent, IsSettled};
ghost use Rattle.eo_session.specs.Roots.{live_count};
ghost use Rattle.eo_session.specs.Numbered.{origin_of, number_of};
ghost use Rattle.eo_session.specs.State.{begin_reference, end_fault, is_in_scope};
ghost use Rattle.eo_names.specs.Scopes.{read_file_kind};
ghost use Rattle.eo_proof.specs.Scopes.{first_false};
ghost use Rattle.eo_session.specs.Step.{is_in_proof, is_in_reference, file_kind_of, value_named};
ghost use Rattle.eo_session.specs.Commands.{placed_command, uncounted, step};
ghost use Rattle.eo_session.specs.Commands as definition;
ghost use Rattle.eo_shape.specs.Reading.{read_command};
ghost use Rattle.eo_session.specs.Notes.{Seen, seen_by, shown};
ghost use Rattle.eo_session.specs.Noting.{UnlessMemory};
ghost use Rattle.eo_session.specs.Decisions.{placed_decision};
ghost use Rattle.eo_session.specs.Stepping.{UpdatesNext, Steps, StepsTo, EndsWith};
ghost use Rattle.eo_session.specs.Stepping.{IsNew, IsAlive, GivesValue, IsSignatureOf};

use crate::noting::Source;
use crate::store::Store;
use crate::valuing::run_name;
use crate::{Next, Nobody, Observer, Origin, Refused};
use eo_base::{FaultName, Place};
use eo_elab::FileKind;
use eo_sexp::Sexp;
use eo_shape::{Command, command_of};
use eo_sig::Signature;
use eo_term::{Id, Table};
use std::alloc::{AllocError, Global};
use std::marker::Model;

impl Origin {
    /// Whether it is the proof, or a file that it includes.
    pub(crate) fn is_proof(self) -> bool
        ensures { result ≡ is_in_proof (origin_of self) }
    {
        match self {
            Origin::Signature(_) => false,
            Origin::Proof(_) => true,
            Origin::Reference(_) => false,
        }
    }

    /// Whether it is a reference file.
    pub(crate) fn is_reference(self) -> bool
        ensures { result ≡ is_in_reference (origin_of self) }
    {
        match self {
            Origin::Signature(_) => false,
            Origin::Proof(_) => false,
            Origin::Reference(_) => true,
        }
    }

    /// The kind of file, as the meaning of terms sees it.
    pub(crate) fn file_kind(self) -> FileKind
        ensures { read_file_kind result ≡ file_kind_of (origin_of self) }
    {
        match self {
            Origin::Signature(_) => FileKind::Proof,
            Origin::Proof(_) => FileKind::Proof,
            Origin::Reference(_) => FileKind::Reference,
        }
    }

    /// The number of the file in the table of paths.
    pub fn file(self) -> usize
        ensures { result ≡ number_of self }
    {
        match self {
            Origin::Signature(file) => file,
            Origin::Proof(file) => file,
            Origin::Reference(file) => file,
        }
    }

    /// The same with the number of another file.
    pub fn in_file(self, file: usize) -> Origin
        ensures same { origin_of result ≡ origin_of self }
        ensures file { number_of result ≡ file }
    {
        match self {
            Origin::Signature(_) => Origin::Signature(file),
            Origin::Proof(_) => Origin::Proof(file),
            Origin::Reference(_) => Origin::Reference(file),
        }
    }
}

/// What the check at the end of a proof returns.
#[derive(Clone, Copy, Debug, PartialEq, Eq)]
pub enum EndAnswer {
    /// `false` is a fact, and every step used a proved rule.
    Correct,
    /// `false` is a fact, and a step used a rule that is marked as unproved.
    Incomplete,
    /// What is wrong.
    Fault(FaultName),
}

/// What is declared, asserted and assumed between two commands of a check.
///
/// Once a call is refused, or there was no memory for it, the session is ended, and each later call
/// is refused too.
#[derive(Drop)]
pub struct Session {
    store: Store,
    ended: bool,
}

impl Model for Session {
    ghost use Rattle.std.specs.Prelude.{◌≡◌, false};
    ghost use Rattle.eo_session.specs.Store.{state_of, IsConsistent};
    ghost use Rattle.eo_session.specs.StateCode.{standing_code};
    ghost use Rattle.eo_session.specs.Stepping.{Standing};

    ghost Value = { Standing };

    ghost coded = { standing_code };

    ghost view = { λ a. record { ended = a.ended; state = state_of a.store; terms = a.store.table } };

    ghost invariant = { λ a. a.ended ≡ false → IsConsistent a.store };
}

impl Session {
    /// A session in which only `Type`, `Bool`, `true` and `false` are declared, without a reference
    /// file. `closed` says that the proof may declare no rules and programs.
    pub fn new(alloc: Global, closed: bool) -> Result<Session, AllocError>
        ensures { IfOk result (IsNew closed) }
    {
        let store = Store::new(alloc, closed)?;
        Ok(Session {
            store,
            ended: false,
        })
    }

    /// Begins the reference file.
    ///
    /// `SecondReference`: there is one. `Ended`: the session is ended.
    pub fn begin_reference(&mut self) -> Result<(), Refused>
        ensures steps { Steps result (begin_reference self.old.state) self.old self.new }
        ensures counted { self.new.state.commands ≡ self.old.state.commands }
        ensures alive { OnOk result (IsAlive self.new) }
    {
        if self.ended {
            return Err(Refused::Ended);
        }
        self.store.release();
        if self.store.has_reference {
            self.ended = true;
            return Err(Refused::Fault(FaultName::SecondReference));
        }
        self.store.alive_law();
        self.store.has_reference = true;
        Ok(())
    }

    /// Checks a command, and does what it says. A fault is that of the command's shape
    /// (`BadCommand`, `UnknownCommand`), then `InScope`: a scope is open, and the command is none
    /// of `define`, `assume-push`, `step` and `step-pop`; and then the first of its own checks, in
    /// this order:
    ///
    /// - `declare-const`, `declare-fun`, `declare-sort`: `Redeclared`; the terms; `BadPattern`; the
    ///   evaluation of the type, whose value is what is declared; `IllTyped`: the type of the value
    ///   is not `Type`, or `NumberRange`, `TermHeight`; `Redeclared`: another constant than that of
    ///   the reference file.
    /// - `declare-parameterized-const`: `Redeclared`; `Parameters`; the terms; `TermHeight`;
    ///   `BadPattern`; `UnboundParam`.
    /// - `declare-consts`: `Redeclared`: the class has a type; the term; `BadPattern`.
    /// - `define`: `Redeclared`; `Parameters`; the terms; `Redeclared`: another macro than that of
    ///   the reference file.
    /// - `program`: `ProofDeclares`: the session is closed, and the command is in the proof;
    ///   `Redeclared`; `Parameters`; the terms; `BadPattern`: a pattern holds an operator;
    ///   `UnboundParam`: a body uses a parameter that the patterns of its case lack.
    /// - `declare-rule`: `ProofDeclares`, as of `program`; `Redeclared`: a rule has the name, or it
    ///   is reserved; `Parameters`; the terms; `BadPattern`: a pattern holds an operator, or nothing
    ///   joins the premises; `UnboundParam`: the requirements or the conclusion use a parameter that
    ///   gets no value.
    /// - `assume`: `Redeclared`: a fact has the name, or it is reserved; the term; its evaluation,
    ///   whose value is the formula; `IllTyped`, `NumberRange`, `TermHeight`: it has no type that is
    ///   a value; `NotBool`: its type is not `Bool`; `NoReference`; `NotAsserted`.
    /// - `assume-push`: `ScopeDepth`: 1,000 scopes are open; `Redeclared` and the formula, as of
    ///   `assume`.
    /// - `step`: `Redeclared`, as of `assume`; `UnknownRule`: no rule has the name;
    ///   `UnknownPremise`: no fact has the name of a premise; the value of the formula that is
    ///   stated; those of the arguments; a fault of the rule's use ([`eo_rule::conclude`]).
    /// - `step-pop`: `NoScope`: no scope is open; `Redeclared`: a fact outside the innermost scope
    ///   has the name, or it is reserved; then as of `step`.
    /// - `include`: `BadPath`: the path is not UTF-8.
    /// - `reference`: `SecondReference`: there is a reference file; `BadPath`, as of `include`.
    ///
    /// In a reference file, whose commands are others (SMT-LIB 2.6, section 4.2 "Commands"):
    ///
    /// - `declare-const`, `declare-fun`, `declare-sort`: as above.
    /// - `define-fun`: as of `define`; its type is read before its body.
    /// - `define-sort`: as of `define`.
    /// - `assert`: the term, where a name that a term is given and that may not be declared is
    ///   `Redeclared`; its evaluation, whose value is what is asserted; `IllTyped`, `NumberRange`,
    ///   `TermHeight`, `NotBool`, as of `assume`. Then the names are macros of the reference file.
    /// - `exit`: nothing after it is read. The other commands say nothing.
    ///
    /// The faults of a term are those that [`eo_elab::term`] returns. An evaluation has one fault,
    /// which says how it ends ([`eo_eval::Evaluator::evaluate`]):
    ///
    /// - `Stuck`: it has no value.
    /// - `EvalDepth`: more than 1,000,000 calls of programs are open at once.
    /// - `EvalCalls`: more than 2,000,000 different calls are begun.
    /// - `NumberRange`: a number is out of range.
    /// - `TermHeight`: a term is too tall.
    ///
    /// It returns what is done before the next command: a file that the command names is opened, or
    /// the file of the command ends, which is no part of this call. Then [`Session::table`] has as
    /// many terms as are alive.
    ///
    /// `Ended`: an earlier call was refused. `Memory`: out of memory. A refused command is not counted.
    pub fn command(&mut self, s: &Sexp<'_>, from: Origin) -> Result<Next, Refused>
        ensures steps { StepsTo result (step self.old.state (origin_of from) s.now) self.old self.new }
        ensures present { result ≢ Err (Fault FileAbsent) }
        ensures counted { OnErr result (self.new.state.commands ≡ self.old.state.commands) }
        ensures alive { OnOk result (IsAlive self.new) }
    {
        let place = Place {
            file: from.file(),
            line: 1,
            offset: 0,
        };
        self.command_by(s, from, &[], place, &mut Nobody)
    }

    /// Does the same as [`Session::command`], and shows an accepted command, which has these bytes and
    /// begins at this place, to an observer, before it is done. One that has a fault is not shown.
    pub fn command_by<O: Observer>(
        &mut self,
        s: &Sexp<'_>,
        from: Origin,
        bytes: &[u8],
        place: Place,
        observer: &mut O,
    ) -> Result<Next, Refused>
        ensures steps { StepsTo result (step self.old.state (origin_of from) s.now) self.old self.new }
        ensures present { result ≢ Err (Fault FileAbsent) }
        ensures counted { OnErr result (self.new.state.commands ≡ self.old.state.commands) }
        ensures alive { OnOk result (IsAlive self.new) }
        ensures sees { OnOk result ((l : List Seen) → O.tells observer.old l →
            O.tells observer.new (l ++ shown self.old.state (origin_of from) bytes.now place s.now)) }
        ensures unseen { IfErr result (λ e. UnlessMemory e ((l : List Seen) → O.tells observer.old l → O.tells observer.new l)) }
    {
        if self.ended {
            return Err(Refused::Ended);
        }
        let accepted = self.store.commands;
        self.store.release();
        let source = Source { bytes, place };
        match run_command(&mut self.store, s, from, &source, observer) {
            Ok(next) => {
                self.store.alive_law();
                self.store.commands = self.store.commands.saturating_add(1);
                Ok(next)
            }
            Err(e) => {
                self.store.commands = accepted;
                self.ended = true;
                Err(e)
            }
        }
    }

    /// The value of the macro without parameters that has this name. It is a term of
    /// [`Session::table`] until the next call of this one, of [`Session::command`], of
    /// [`Session::command_by`] or of [`Session::begin_reference`], which first frees the terms
    /// that were made for it.
    ///
    /// `UnknownSymbol`: there is no such macro. `Stuck`, `EvalDepth`, `EvalCalls`, `NumberRange` and
    /// `TermHeight`: its term has no value, as [`Session::command`] says. A fault ends the session,
    /// whose state stays.
    ///
    /// `Ended`: an earlier call was refused. `Memory`: out of memory.
    pub fn value_of(&mut self, name: &[u8]) -> Result<Id, Refused>
        ensures gives { GivesValue result (value_named self.old.state name.now) self.old self.new }
        ensures state { self.new.state ≡ self.old.state }
        ensures present { result ≢ Err (Fault FileAbsent) }
    {
        if self.ended {
            return Err(Refused::Ended);
        }
        match run_name(&mut self.store, name) {
            Ok(id) => Ok(id),
            Err(e) => {
                self.ended = true;
                Err(e)
            }
        }
    }

    /// What is declared, with terms of [`Session::table`], in a session that is not ended.
    pub fn signature(&self) -> &Signature
        ensures { self.now.ended ≡ false → IsSignatureOf self.now result.now }
    {
        &self.store.signature
    }

    /// The terms.
    pub fn table(&self) -> &Table
        ensures { result.now ≡ self.now.terms }
    {
        &self.store.table
    }

    /// The check at the end of a proof, in a session that is not ended: `ScopeOpen` where a scope
    /// is open, then `NoReference` where there is no reference file, and then `NoRefutation` where
    /// `false` is no fact.
    pub fn end(&self) -> EndAnswer
        requires { self.now.ended ≡ false }
        ensures { EndsWith (end_fault self.now.state) self.now.state.sorry result }
    {
        if self.store.is_in_scope() {
            return EndAnswer::Fault(FaultName::ScopeOpen);
        }
        if !self.store.has_reference {
            return EndAnswer::Fault(FaultName::NoReference);
        }
        if !self.store.refutes() {
            return EndAnswer::Fault(FaultName::NoRefutation);
        }
        if self.store.sorry {
            return EndAnswer::Incomplete;
        }
        EndAnswer::Correct
    }

    /// The number of the command that made the first `false` outside all scopes, if one did, in a
    /// session that is not ended.
    pub fn refutation(&self) -> Option<u64>
        requires { self.now.ended ≡ false }
        ensures { result ≡ first_false self.now.state.scopes }
    {
        self.store.refutation()
    }

    /// How many terms are alive, in a session that is not ended: the different subtrees of what is
    /// declared and asserted and of the facts. The table holds no others, but for those that
    /// [`Session::value_of`] made.
    pub fn live(&self) -> usize
        requires { self.now.ended ≡ false }
        ensures { result ≡ live_count self.now.state }
    {
        self.store.live()
    }

    /// How many commands were accepted, or 2^64 - 1 where there were more. A call that is refused
    /// leaves it as it is.
    pub fn commands(&self) -> u64
        ensures { result ≡ self.now.state.commands }
    {
        self.store.commands
    }
}

// Checks a command, shows it, and does what it says.
fn run_command<O: Observer>(
    store: &mut Store,
    s: &Sexp<'_>,
    from: Origin,
    source: &Source<'_>,
    observer: &mut O,
) -> Result<Next, Refused>
    requires { IsConsistent store.old }
    ensures settled { OnOk result (IsSettled store.new) }
    ensures updates { UpdatesNext result (uncounted (state_of store.old) (origin_of from) s.now) store.new }
    ensures sees { OnOk result ((l : List Seen) → O.tells observer.old l →
        O.tells observer.new (l ++ shown (state_of store.old) (origin_of from) source.now.bytes.now source.now.place s.now)) }
    ensures unseen { IfErr result (λ e. UnlessMemory e ((l : List Seen) → O.tells observer.old l → O.tells observer.new l)) }
{
    let read = command_of(s, from.is_reference());
    match &read {
        Ok(command) => run_decided(store, command, from, source, observer),
        Err(e) => Err(Refused::from(*e)),
    }
}

// Decides what a command does, shows it, and does it.
fn run_decided<O: Observer>(
    store: &mut Store,
    command: &Command<'_>,
    from: Origin,
    source: &Source<'_>,
    observer: &mut O,
) -> Result<Next, Refused>
    requires { IsConsistent store.old }
    ensures settled { OnOk result (IsSettled store.new) }
    ensures updates { UpdatesNext result (placed_command (state_of store.old) (origin_of from) (read_command command.now)) store.new }
    ensures sees { OnOk result ((l : List Seen) → O.tells observer.old l → O.tells observer.new
        (l ++ seen_by (state_of store.old) (origin_of from) source.now.bytes.now source.now.place (read_command command.now)
        (placed_decision (state_of store.old) (origin_of from) (read_command command.now)))) }
    ensures unseen { IfErr result (λ e. UnlessMemory e ((l : List Seen) → O.tells observer.old l → O.tells observer.new l)) }
{
    let decided = store.decide(command, from)?;
    store.show(command, from, &decided.effect, source, observer)?;
    store.commit(decided.effect)?;
    Ok(decided.next)
}

/// Whether a command is allowed here: no scope is open, or it is allowed in one.
pub(crate) fn may_stand(store: &Store, command: &Command<'_>) -> bool
    ensures { result ≡ (not (is_in_scope (state_of store.now)) || definition.may_be_in_scope (read_command command.now)) }
{
    !store.is_in_scope() || may_be_in_scope(command)
}

// Whether a command is allowed in a scope.
fn may_be_in_scope(command: &Command<'_>) -> bool
    ensures { result ≡ definition.may_be_in_scope (read_command command.now) }
{
    match command {
        Command::Define { .. } => true,
        Command::AssumePush { .. } => true,
        Command::Step(_) => true,
        Command::StepPop(_) => true,
        _ => false,
    }
}
