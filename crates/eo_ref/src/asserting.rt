//! What a reference file asserts, as it is read.
ghost use Rattle.std.specs.Prelude.{◌≡◌, length, OnErr};
ghost use Rattle.eo_sig.specs.Growth.{GrowsUnder};
ghost use Rattle.eo_sig.specs.Reading.{IsBelow};
ghost use Rattle.eo_ref.specs.Answers.{assertion_in, GivesAssertion};

use crate::Assertion;
use eo_elab::{ElabRefused, Locals, Names, reference_term};
use eo_sexp::Sexp;
use eo_sig::Signature;
use eo_term::Table;
use std::alloc::Global;

/// What `(assert FORMULA)` of a reference file asserts. The formula is read as it is written, and
/// neither evaluated nor asserted yet.
///
/// A refusal is the first fault of the formula, as [`reference_term`] has it, or `Memory`: out of
/// memory.
///
/// The terms that the signature holds are terms of the table. All of these stay; a refused call
/// leaves the table as it was.
pub fn read_assertion(
    alloc: Global,
    formula: &Sexp<'_>,
    sig: &Signature,
    table: &mut Table,
) -> Result<Assertion, ElabRefused>
    requires ready { IsBelow (length table.old.trees) sig.now }
    ensures gives { GivesAssertion table.new result (assertion_in table.old sig.now formula.now) }
    ensures refused { OnErr result (table.new ≡ table.old) }
    ensures grows { GrowsUnder sig.now table.old table.new }
{
    sig.laws();
    let none = Locals::new(alloc);
    let mut names = Names::new(alloc);
    let id = reference_term(alloc, formula, &none, sig, table, true, &mut names)?;
    Ok(Assertion { formula: id, names })
}
