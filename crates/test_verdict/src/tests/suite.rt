//! A signature of propositional rules, and what is printed of commands after it.
use super::{ASSERTS_TRUE, does};
use eo_cpc::suite;
use std::alloc::{AllocError, Global};
use test_runs::{File, Want, first_wrong, honest_does, join_texts};

/// Commands after the suite, and how the line begins that is printed.
pub(crate) type Row<'a> = (&'a [u8], &'a [u8]);

const FORMULAS: &[u8] = b"(declare-const p Bool)(declare-const q Bool)(declare-const r Bool)\n";

const REFERENCE: &[u8] =
    b"(declare-const p Bool)\n(declare-const q Bool)\n(declare-const r Bool)\n(assert p)\n";

/// What is printed where all commands are accepted and `false` is no fact.
pub(crate) const ACCEPTED: &[u8] = b"refused F41 NoRefutation ";

/// What is printed where all commands are accepted and a scope is open.
pub(crate) const OPEN: &[u8] = b"refused F40 ScopeOpen ";

// The suite's signature and three formulas, and then these commands.
fn behind_suite(alloc: Global, commands: &[u8]) -> Result<Vec<u8>, AllocError> {
    let formulas = join_texts(alloc, FORMULAS, commands)?;
    join_texts(alloc, suite(), &formulas)
}

// With all of them in the proof.
fn proof_begins(alloc: Global, commands: &[u8], start: &[u8]) -> Result<bool, AllocError> {
    let proof = behind_suite(alloc, commands)?;
    does(alloc, ASSERTS_TRUE, &proof, &Want::Begins(start))
}

// With a signature as the include file.
fn check_does<'a>(
    alloc: Global,
    signature: &'a [u8],
    reference: &'a [u8],
    proof: &'a [u8],
    want: &Want<'_>,
) -> Result<bool, AllocError> {
    let line = "ethos check --include=cpc.eo --reference=r.smt2 p.eo";
    let files: [File<'_>; 3] = [
        (b"cpc.eo", signature),
        (b"r.smt2", reference),
        (b"p.eo", proof),
    ];
    honest_does(alloc, line, &files, want)
}

// With the suite as the include file, and the formulas in the reference file.
fn check_begins(alloc: Global, commands: &[u8], start: &[u8]) -> Result<bool, AllocError> {
    check_does(alloc, suite(), REFERENCE, commands, &Want::Begins(start))
}

/// Whether the line that is printed begins so for these commands after the suite and the formulas,
/// both where these are in the proof and where they are in files of their own.
pub(crate) fn begins(alloc: Global, row: Row<'_>) -> Result<bool, AllocError> {
    let (commands, start) = row;
    let in_proof = proof_begins(alloc, commands, start)?;
    let in_files = check_begins(alloc, commands, start)?;
    Ok(in_proof & in_files)
}

/// The first row whose line begins in another way.
pub(crate) fn other_start(alloc: Global, rows: &[Row<'_>]) -> Option<usize> {
    first_wrong(alloc, rows, begins)
}
