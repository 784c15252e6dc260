//! Programs that a proof declares.
use super::{Refusal, Row, assert_none, assert_right, is_right, wrong_refusal};
use eo_base::Status;

#[test]
fn programs_and_other_names(rt: HostRuntime) {
    const ROWS: &[Refusal<'static>] = &[
        (
            b"(program $u () :signature (Bool) Bool ())(program $u () :signature (zz) Bool ())",
            b"refused F12 Redeclared p.eo:1:41\n",
        ),
        (
            b"(declare-const $u Bool)(program $u () :signature (zz) Bool ())",
            b"refused F12 Redeclared p.eo:1:23\n",
        ),
        (
            b"(program $u () :signature (Bool) Bool ())(declare-const $u zz)",
            b"refused F12 Redeclared p.eo:1:41\n",
        ),
        (
            b"(program $u () :signature (Bool) Bool ())(assume a $u)",
            b"refused F14 BadArity p.eo:1:41\n",
        ),
        (
            b"(program $u () :signature (Bool) Bool ())(assume $u true)",
            b"refused F41 NoRefutation p.eo:1:57\n",
        ),
        (
            b"(program $u ((x Bool)) :signature (Bool) Bool ((($u x) ($v x))))(program $v () :signature (Bool) Bool ())",
            b"refused F13 UnknownSymbol p.eo:1:0\n",
        ),
        (
            b"(program $u () :signature (Bool) Bool)",
            b"refused F11 BadCommand p.eo:1:0\n",
        ),
        (
            b"(program $u ((x Bool)) :signature (1.5) zz ())",
            b"refused F04 BadLiteral p.eo:1:0\n",
        ),
    ];
    assert_none(&rt, wrong_refusal(rt.alloc(), ROWS));
}

#[test]
fn a_reference_file_declares_no_program(rt: HostRuntime) {
    const REFERENCE: &[u8] = b"(assert true)(program $u () :signature (Bool) Bool ())\n";
    const LINE: &[u8] = b"refused F10 UnknownCommand r.smt2:1:13\n";
    let row: Row<'_> = (REFERENCE, b"", LINE, Status::Refused);
    assert_right(&rt, is_right(rt.alloc(), row));
}
