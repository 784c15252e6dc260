//! Values of the operators on lists.
mod world;

use eo_term::{Id, OpName, TermRefused};
use std::test::Fail;
use world::Sample::{Con, Front, Number, Or, Own, Stuck};
use world::{Sample, World, tell};

// The first row that is wrong, if one is: the list operator of these arguments after `fun` does not
// give what comes last in it.
fn wrong_of_none(w: &mut World, rows: &[(Sample, Sample)]) -> Result<Option<usize>, Fail> {
    for i in 0..rows.len() {
        let (fun, want) = rows[i];
        let fun = w.term(fun)?;
        if !w.gives(OpName::Nil, &[fun], want)? {
            return Ok(Some(i));
        }
    }
    Ok(None)
}

fn wrong_of_one(
    w: &mut World,
    fun: u8,
    rows: &[(OpName, Sample, Sample)],
) -> Result<Option<usize>, Fail> {
    let fun = w.term(Con(fun))?;
    for i in 0..rows.len() {
        let (op, list, want) = rows[i];
        let list = w.term(list)?;
        if !w.gives(op, &[fun, list], want)? {
            return Ok(Some(i));
        }
    }
    Ok(None)
}

fn wrong_of_two(
    w: &mut World,
    fun: u8,
    rows: &[(OpName, Sample, Sample, Sample)],
) -> Result<Option<usize>, Fail> {
    let fun = w.term(Con(fun))?;
    for i in 0..rows.len() {
        let (op, first, second, want) = rows[i];
        let first = w.term(first)?;
        let second = w.term(second)?;
        if !w.gives(op, &[fun, first, second], want)? {
            return Ok(Some(i));
        }
    }
    Ok(None)
}

// The terminator alone represents the empty list, and only a constant of the signature with a
// terminator after its items has one.
const TERMINATORS: &[(Sample, Sample)] = &[
    (Con(b'o'), Con(b'f')),
    (Con(b's'), Own("pq")),
    (Con(b'l'), Stuck),
    (Con(b'c'), Stuck),
    (Con(b'p'), Stuck),
    (Or("pf"), Stuck),
    (Number(4), Stuck),
];

fn terminators(w: &mut World) -> Result<Option<usize>, Fail> {
    wrong_of_none(w, TERMINATORS)
}

#[test]
fn a_constant_has_its_terminator(rt: HostRuntime) -> Result<(), Fail> {
    assert_eq!(rt; tell(rt.alloc(), terminators)?, None);
    assert_eq!(rt; tell(rt.alloc(), without_terminator)?, None);
    Ok(())
}

// Other operators are stuck, too, where there is no terminator.
const WITHOUT_TERMINATOR: &[(OpName, Sample, Sample)] = &[
    (OpName::ListLen, Con(b'f'), Stuck),
    (OpName::ListRev, Con(b'f'), Stuck),
    (OpName::ListSetof, Con(b'f'), Stuck),
];

fn without_terminator(w: &mut World) -> Result<Option<usize>, Fail> {
    wrong_of_one(w, b'l', WITHOUT_TERMINATOR)
}

// What is after the constant is one list.
const OF_ONE_LIST: &[(OpName, Sample, Sample)] = &[
    (OpName::ListLen, Con(b'f'), Number(0)),
    (OpName::ListLen, Or("pqpf"), Number(3)),
    (OpName::ListLen, Con(b'p'), Stuck),
    (OpName::ListLen, Con(b'o'), Stuck),
    (OpName::ListLen, Front(b'p'), Stuck),
    (OpName::ListLen, Or("pq"), Stuck),
    (OpName::ListLen, Own("pf"), Stuck),
    (OpName::ListLen, Number(0), Stuck),
    (OpName::ListRev, Con(b'f'), Con(b'f')),
    (OpName::ListRev, Or("pqrf"), Or("rqpf")),
    (OpName::ListRev, Or("pq"), Stuck),
    (OpName::ListSetof, Con(b'f'), Con(b'f')),
    (OpName::ListSetof, Or("pqpf"), Or("pqf")),
    (OpName::ListSetof, Or("rppqrqpf"), Or("rpqf")),
    (OpName::ListSetof, Or("pq"), Stuck),
];

fn of_one_list(w: &mut World) -> Result<Option<usize>, Fail> {
    wrong_of_one(w, b'o', OF_ONE_LIST)
}

#[test]
fn one_list_has_a_value(rt: HostRuntime) -> Result<(), Fail> {
    assert_eq!(rt; tell(rt.alloc(), of_one_list)?, None);
    Ok(())
}

// What is after the constant is a list and an item or a place, in the operator's order.
const OF_LIST_AND_ITEM: &[(OpName, Sample, Sample, Sample)] = &[
    (OpName::Cons, Con(b'p'), Con(b'f'), Or("pf")),
    (OpName::Cons, Con(b'p'), Or("qpf"), Or("pqpf")),
    (OpName::Cons, Con(b'p'), Con(b'q'), Stuck),
    (OpName::Cons, Con(b'p'), Or("pq"), Stuck),
    (OpName::ListNth, Or("pqf"), Number(0), Con(b'p')),
    (OpName::ListNth, Or("pqf"), Number(1), Con(b'q')),
    (OpName::ListNth, Or("pqf"), Number(2), Stuck),
    (OpName::ListNth, Or("pqf"), Number(-1), Stuck),
    (OpName::ListNth, Or("pqf"), Number(1 << 64), Stuck),
    (OpName::ListNth, Or("pqf"), Con(b'p'), Stuck),
    (OpName::ListNth, Con(b'f'), Number(0), Stuck),
    (OpName::ListNth, Or("pq"), Number(0), Stuck),
    (OpName::ListFind, Or("pqqf"), Con(b'q'), Number(1)),
    (OpName::ListFind, Or("pqqf"), Con(b'p'), Number(0)),
    (OpName::ListFind, Or("pqqf"), Con(b'f'), Number(-1)),
    (OpName::ListFind, Con(b'f'), Con(b'p'), Number(-1)),
    (OpName::ListFind, Or("pq"), Con(b'p'), Stuck),
    (OpName::ListErase, Or("pqpf"), Con(b'p'), Or("qpf")),
    (OpName::ListErase, Or("pqf"), Con(b'q'), Or("pf")),
    (OpName::ListErase, Or("pqf"), Con(b'r'), Or("pqf")),
    (OpName::ListErase, Con(b'f'), Con(b'p'), Con(b'f')),
    (OpName::ListErase, Or("pq"), Con(b'p'), Stuck),
];

fn of_list_and_item(w: &mut World) -> Result<Option<usize>, Fail> {
    wrong_of_two(w, b'o', OF_LIST_AND_ITEM)
}

#[test]
fn a_list_with_an_item_has_a_value(rt: HostRuntime) -> Result<(), Fail> {
    assert_eq!(rt; tell(rt.alloc(), of_list_and_item)?, None);
    Ok(())
}

// Two lists are after the constant.
const OF_TWO_LISTS: &[(OpName, Sample, Sample, Sample)] = &[
    (OpName::ListConcat, Con(b'f'), Con(b'f'), Con(b'f')),
    (OpName::ListConcat, Con(b'f'), Or("pf"), Or("pf")),
    (OpName::ListConcat, Or("pf"), Con(b'f'), Or("pf")),
    (OpName::ListConcat, Or("pqf"), Or("qrf"), Or("pqqrf")),
    (OpName::ListConcat, Or("pq"), Or("pf"), Stuck),
    (OpName::ListConcat, Or("pf"), Or("pq"), Stuck),
    (OpName::ListMinclude, Con(b'f'), Con(b'f'), Con(b't')),
    (OpName::ListMinclude, Or("pf"), Con(b'f'), Con(b't')),
    (OpName::ListMinclude, Con(b'f'), Or("pf"), Con(b'f')),
    (OpName::ListMinclude, Or("pqpf"), Or("ppf"), Con(b't')),
    (OpName::ListMinclude, Or("pqf"), Or("ppf"), Con(b'f')),
    (OpName::ListMinclude, Or("pqpf"), Or("rf"), Con(b'f')),
    (OpName::ListMinclude, Or("pq"), Or("pf"), Stuck),
    (OpName::ListMinclude, Or("pf"), Or("pq"), Stuck),
];

fn of_two_lists(w: &mut World) -> Result<Option<usize>, Fail> {
    wrong_of_two(w, b'o', OF_TWO_LISTS)
}

#[test]
fn two_lists_have_a_value(rt: HostRuntime) -> Result<(), Fail> {
    assert_eq!(rt; tell(rt.alloc(), of_two_lists)?, None);
    Ok(())
}

// A terminator that is itself an application of its constant is the empty list, and no item and
// rest.
const OF_OWN_LIST: &[(OpName, Sample, Sample)] = &[
    (OpName::ListLen, Own("pq"), Number(0)),
    (OpName::ListLen, Own("ppq"), Number(1)),
    (OpName::ListLen, Own("rqpq"), Number(2)),
    (OpName::ListLen, Con(b'q'), Stuck),
    (OpName::ListLen, Own("qp"), Stuck),
    (OpName::ListRev, Own("pq"), Own("pq")),
    (OpName::ListRev, Own("rqpq"), Own("qrpq")),
    (OpName::ListSetof, Own("pq"), Own("pq")),
    (OpName::ListSetof, Own("qqpq"), Own("qpq")),
];

fn of_own_list(w: &mut World) -> Result<Option<usize>, Fail> {
    wrong_of_one(w, b's', OF_OWN_LIST)
}

// The same for operators of two arguments.
const OF_OWN_LISTS: &[(OpName, Sample, Sample, Sample)] = &[
    (OpName::Cons, Con(b'r'), Own("pq"), Own("rpq")),
    (OpName::ListConcat, Own("pq"), Own("pq"), Own("pq")),
    (OpName::ListConcat, Own("rpq"), Own("qpq"), Own("rqpq")),
    (OpName::ListNth, Own("pq"), Number(0), Stuck),
    (OpName::ListNth, Own("rpq"), Number(0), Con(b'r')),
    (OpName::ListNth, Own("rpq"), Number(1), Stuck),
    (OpName::ListFind, Own("rpq"), Con(b'p'), Number(-1)),
    (OpName::ListErase, Own("pq"), Con(b'p'), Own("pq")),
    (OpName::ListErase, Own("rpq"), Con(b'r'), Own("pq")),
    (OpName::ListMinclude, Own("pq"), Own("pq"), Con(b't')),
    (OpName::ListMinclude, Own("pq"), Own("ppq"), Con(b'f')),
];

fn of_own_lists(w: &mut World) -> Result<Option<usize>, Fail> {
    wrong_of_two(w, b's', OF_OWN_LISTS)
}

#[test]
fn a_terminator_may_be_an_application(rt: HostRuntime) -> Result<(), Fail> {
    assert_eq!(rt; tell(rt.alloc(), of_own_list)?, None);
    assert_eq!(rt; tell(rt.alloc(), of_own_lists)?, None);
    Ok(())
}

// The list of 999,998 items, which is as tall as a term may be, and its parts.
#[derive(Clone, Copy)]
struct LongLists {
    or: Id,
    item: Id,
    whole: Id,
    less: Id,
    half: Id,
}

fn long_lists(w: &mut World) -> Result<LongLists, Fail> {
    Ok(LongLists {
        or: w.term(Con(b'o'))?,
        item: w.term(Con(b'p'))?,
        whole: w.long(999_998)?,
        less: w.long(999_997)?,
        half: w.long(499_999)?,
    })
}

// Whether the tallest list is read.
fn reads_tallest(w: &mut World) -> Result<bool, Fail> {
    let t = long_lists(w)?;
    let counted = w.gives(OpName::ListLen, &[t.or, t.whole], Number(999_998))?;
    let is_set = w.gives(OpName::ListSetof, &[t.or, t.whole], Or("pf"))?;
    Ok(counted & is_set)
}

// Whether the tallest list is made from others, and others from it.
fn makes_tallest(w: &mut World) -> Result<bool, Fail> {
    let t = long_lists(w)?;
    let turned = makes(w, OpName::ListRev, &[t.or, t.whole], t.whole)?;
    let longer = makes(w, OpName::Cons, &[t.or, t.item, t.less], t.whole)?;
    let shorter = makes(w, OpName::ListErase, &[t.or, t.whole, t.item], t.less)?;
    let joined = makes(w, OpName::ListConcat, &[t.or, t.half, t.half], t.whole)?;
    Ok(turned & longer & shorter & joined)
}

// Whether the value is this term.
fn makes(w: &mut World, op: OpName, args: &[Id], want: Id) -> Result<bool, Fail> {
    Ok(w.value(op, args)?? == Some(want))
}

// Whether one item more is refused, and so is an item that is as tall as a term may be.
fn refuses_taller(w: &mut World) -> Result<bool, Fail> {
    let t = long_lists(w)?;
    let one = w.term(Or("pf"))?;
    let end = w.term(Con(b'f'))?;
    let longer = refuses(w, OpName::Cons, &[t.or, t.item, t.whole])?;
    let taller = refuses(w, OpName::Cons, &[t.or, t.whole, end])?;
    let behind = refuses(w, OpName::ListConcat, &[t.or, one, t.whole])?;
    let before = refuses(w, OpName::ListConcat, &[t.or, t.whole, one])?;
    Ok(longer & taller & behind & before)
}

// Whether the value is refused, since it is too tall.
fn refuses(w: &mut World, op: OpName, args: &[Id]) -> Result<bool, Fail> {
    is_tall(w.value(op, args)?)
}

fn is_tall(answer: Result<Option<Id>, TermRefused>) -> Result<bool, Fail> {
    match answer {
        Ok(_) => Ok(false),
        Err(TermRefused::Tall) => Ok(true),
        Err(TermRefused::Memory(e)) => Err(Fail::from(e)),
    }
}

#[test]
fn a_list_is_as_tall_as_a_term_may_be(rt: HostRuntime) -> Result<(), Fail> {
    assert!(rt; tell(rt.alloc(), reads_tallest)?);
    assert!(rt; tell(rt.alloc(), makes_tallest)?);
    assert!(rt; tell(rt.alloc(), refuses_taller)?);
    Ok(())
}
