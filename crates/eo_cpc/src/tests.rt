//! The text as a whole.
use super::suite;

#[test]
fn lines(rt: HostRuntime) {
    let lines = suite().iter().filter(|byte| **byte == b'\n').count();
    assert_eq!(rt; lines, 70);
}

#[test]
fn ends(rt: HostRuntime) {
    assert!(rt; suite().starts_with(b"(declare-const Int Type)\n"));
    assert!(rt; suite().ends_with(b"(declare-const - (-> Int Int))\n"));
}
