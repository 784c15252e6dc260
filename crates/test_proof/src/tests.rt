//! Facts in scopes, by known answers.
use eo_proof::{FactRefused, Facts, NoScope, UnknownPremise};
use eo_term::{FALSE, Id, TRUE};
use std::alloc::Global;
use std::test::Fail;

#[test]
fn scopes_open_and_close(rt: HostRuntime) -> Result<(), Fail> {
    assert_eq!(rt; with_facts(rt.alloc(), first_wrong)?, None);
    Ok(())
}

#[test]
fn a_thousand_scopes_may_be_open(rt: HostRuntime) -> Result<(), Fail> {
    assert_eq!(rt; with_facts(rt.alloc(), scopes_until_refused)?, Some(1_000));
    Ok(())
}

#[test]
fn the_first_false_outside_counts(rt: HostRuntime) -> Result<(), Fail> {
    assert_eq!(rt; with_facts(rt.alloc(), first_wrong_refutation)?, None);
    Ok(())
}

// What is said of facts of which there are none at first.
fn with_facts<F: FnOnce(&mut Facts) -> Result<Option<usize>, FactRefused>>(
    alloc: Global,
    tell: F,
) -> Result<Option<usize>, Fail>
    requires { F.IsAlwaysCallable tell }
{
    let mut facts = Facts::new(alloc);
    match tell(&mut facts) {
        Ok(told) => Ok(told),
        Err(_) => Err(Fail::new("refused")),
    }
}

// The number of the first wrong answer.
fn first_wrong(facts: &mut Facts) -> Result<Option<usize>, FactRefused> {
    facts.add(b"a", TRUE)?;
    facts.push(b"h", FALSE)?;
    facts.add(b"b", TRUE)?;
    if !is_right_inside(facts) {
        return Ok(Some(1));
    }
    if facts.pop() != Ok(FALSE) || !is_right_outside(facts) {
        return Ok(Some(2));
    }
    facts.add(b"b", FALSE)?;
    if facts.has_false() && facts.find(b"b") == Ok(FALSE) && !facts.is_free_outside(b"b") {
        return Ok(None);
    }
    Ok(Some(3))
}

// `a` is outside, and `h` and `b` are in one scope.
fn is_right_inside(facts: &mut Facts) -> bool {
    facts.depth() == 1
        && facts.find(b"a") == Ok(TRUE)
        && facts.find(b"h") == Ok(FALSE)
        && facts.hypothesis() == Some(FALSE)
        && !facts.has_false()
        && facts.is_free_outside(b"b")
        && !facts.is_free_outside(b"a")
        && facts.roots().count() == 3
        && is_redeclared(facts)
}

// A name of another scope is not free.
fn is_redeclared(facts: &mut Facts) -> bool {
    matches!(facts.add(b"a", FALSE), Err(FactRefused::Redeclared))
        && matches!(facts.push(b"b", FALSE), Err(FactRefused::Redeclared))
}

// `a` alone is there.
fn is_right_outside(facts: &mut Facts) -> bool {
    facts.depth() == 0
        && facts.find(b"a") == Ok(TRUE)
        && facts.find(b"b") == Err(UnknownPremise)
        && facts.hypothesis().is_none()
        && facts.roots().count() == 1
        && facts.pop() == Err(NoScope)
}

// The number of the first wrong answer about the first `false`.
fn first_wrong_refutation(facts: &mut Facts) -> Result<Option<usize>, FactRefused> {
    if facts.first_false().is_some() {
        return Ok(Some(1));
    }
    facts.push(b"h", FALSE)?;
    make(facts, b"in", FALSE, 3)?;
    if facts.first_false().is_some() {
        return Ok(Some(2));
    }
    if facts.pop() != Ok(FALSE) || facts.first_false().is_some() {
        return Ok(Some(3));
    }
    make(facts, b"true", TRUE, 4)?;
    make(facts, b"first", FALSE, 5)?;
    if facts.first_false() != Some(5) {
        return Ok(Some(4));
    }
    make(facts, b"second", FALSE, 6)?;
    facts.push(b"h", FALSE)?;
    if facts.first_false() != Some(5) {
        return Ok(Some(5));
    }
    if facts.pop() == Ok(FALSE) && facts.first_false() == Some(5) {
        return Ok(None);
    }
    Ok(Some(6))
}

// Adds a fact that the command of this number made.
fn make(facts: &mut Facts, name: &[u8], id: Id, command: u64) -> Result<(), FactRefused> {
    if facts.find(name).is_ok() {
        return Err(FactRefused::Redeclared);
    }
    facts.add_free(name, id, command)?;
    Ok(())
}

// How many scopes are opened before one is refused for their number.
fn scopes_until_refused(facts: &mut Facts) -> Result<Option<usize>, FactRefused> {
    for n in 0..2_000u16 {
        match facts.push(&n.to_be_bytes(), TRUE) {
            Ok(()) => {}
            Err(FactRefused::ScopeDepth) => return Ok(Some(facts.depth())),
            Err(e) => return Err(e),
        }
    }
    Ok(None)
}
