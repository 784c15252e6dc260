//! Long proofs that are written out.
use super::jobs::{Want, is_right};
use super::{OVER_BOTH, case_of};
use std::alloc::{AllocError, Global};
use std::fmt::Write;
use std::process::Abort;

fn is_trimmed(alloc: Global, text: &str, want: &str) -> Result<bool, AllocError> {
    let case = case_of(OVER_BOTH, text.as_bytes(), Want::Trimmed(want.as_bytes()));
    is_right(alloc, &case)
}

// ---- a chain of needed steps

// So many steps, of which each is needed by the next, with so many around each that lead nowhere.
fn chain(alloc: Global, needed: u32, idle: u32) -> Result<String, AllocError> {
    let mut text = String::from_str(alloc, "(assume k0 p)\n(assume n (not p))\n")?;
    for i in 0..needed {
        push_idle(&mut text, i, idle)?;
        push_link(&mut text, i)?;
    }
    push_last(&mut text, needed)?;
    Ok(text)
}

fn push_idle(text: &mut String, link: u32, count: u32) -> Result<(), AllocError> {
    for i in 0..count {
        writeln!(text, "(step x{link}_{i} :rule refl :args (p))")?;
    }
    Ok(())
}

fn push_link(text: &mut String, i: u32) -> Result<(), AllocError> {
    let next = u64::from(i) + 1;
    writeln!(text, "(step k{next} :rule keep :premises (k{i}))")
}

fn push_last(text: &mut String, last: u32) -> Result<(), AllocError> {
    writeln!(text, "(step f false :rule contra :premises (k{last} n))")
}

fn is_chain_trimmed(alloc: Global, needed: u32, idle: u32) -> Result<bool, AllocError> {
    let text = chain(alloc, needed, idle)?;
    let want = chain(alloc, needed, 0)?;
    is_trimmed(alloc, &text, &want)
}

#[test]
fn idle_steps_around_each_needed_one(rt: HostRuntime) {
    assert_eq!(rt; is_chain_trimmed(rt.alloc(), 3, 1_000), Ok(true));
    assert_eq!(rt; is_chain_trimmed(rt.alloc(), 200, 1), Ok(true));
}

// ---- nested scopes

// So many scopes, one in the other, and in each one that leads nowhere, if it is wanted.
fn scopes(alloc: Global, depth: u32, idle: bool) -> Result<String, AllocError> {
    let mut text = String::from_str(alloc, "(assume a p)\n(assume n (not p))\n")?;
    for i in 0..depth {
        push_scope(&mut text, i, idle)?;
    }
    text.push_str("(step c0 false :rule contra :premises (a n))\n")?;
    for i in 0..depth {
        push_end(&mut text, i)?;
    }
    Ok(text)
}

fn push_scope(text: &mut String, i: u32, idle: bool) -> Result<(), AllocError> {
    writeln!(text, "(assume-push h{i} p)")?;
    if idle {
        push_idle_scope(text, i)?;
    }
    Ok(())
}

fn push_idle_scope(text: &mut String, i: u32) -> Result<(), AllocError> {
    writeln!(text, "(assume-push y{i} q)")?;
    writeln!(text, "(define m{i} () (not q))")?;
    writeln!(text, "(step-pop z{i} :rule scope :premises (y{i}))")
}

fn push_end(text: &mut String, i: u32) -> Result<(), AllocError> {
    let next = u64::from(i) + 1;
    writeln!(text, "(step-pop g{i} :rule scope :premises (c{i}))")?;
    writeln!(text, "(step c{next} false :rule mp :premises (a g{i}))")
}

fn are_scopes_trimmed(alloc: Global, depth: u32) -> Result<bool, AllocError> {
    let text = scopes(alloc, depth, true)?;
    let want = scopes(alloc, depth, false)?;
    is_trimmed(alloc, &text, &want)
}

#[test]
fn nested_scopes_of_which_half_are_needed(rt: HostRuntime) {
    assert_eq!(rt; are_scopes_trimmed(rt.alloc(), 1), Ok(true));
    assert_eq!(rt; are_scopes_trimmed(rt.alloc(), 40), Ok(true));
}
