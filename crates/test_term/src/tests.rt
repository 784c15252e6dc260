mod world;

use eo_term::*;
use std::alloc::{AllocError, Global};
use std::test::Fail;
use world::World;

// Whether the check holds in a new table. It alone owns one: each exit of a function that does is
// expensive to prove.
fn holds<F: FnOnce(&mut World) -> Result<bool, Fail>>(alloc: Global, check: F) -> Result<bool, Fail>
    requires { F.IsAlwaysCallable check }
{
    let mut world = World::new(alloc)?;
    let answer = check(&mut world);
    drop(world);
    answer
}

fn pair(world: &mut World) -> Result<Id, Fail> {
    world.make(Node::App {
        fun: TYPE,
        arg: BOOL,
    })
}

// An application that is made twice is one term, the fifth.
fn application_is_one(world: &mut World) -> Result<bool, Fail> {
    let first = pair(world)?;
    let second = pair(world)?;
    Ok((first == second) & (world.len() == 5))
}

fn and(world: &mut World, args: &[Id; 2]) -> Result<Id, Fail> {
    world.apply(OpCode::Builtin(OpName::And), args)
}

// An operator is one term when it is made twice, and another over the same arguments in another
// order.
fn operator_is_one(world: &mut World) -> Result<bool, Fail> {
    let first = and(world, &[TRUE, FALSE])?;
    let second = and(world, &[TRUE, FALSE])?;
    let turned = and(world, &[FALSE, TRUE])?;
    Ok((first == second) & (first != turned))
}

#[test]
fn one_tree_has_one_id(rt: HostRuntime) -> Result<(), Fail> {
    assert!(rt; holds(rt.alloc(), application_is_one)?);
    assert!(rt; holds(rt.alloc(), operator_is_one)?);
    Ok(())
}

// A term of the greatest height.
fn chain(world: &mut World) -> Result<Id, Fail> {
    let mut id = TYPE;
    for _ in 1..HEIGHT_LIMIT {
        id = world.make(Node::App { fun: id, arg: TRUE })?;
    }
    Ok(id)
}

// That term is as tall as it was made, and has a new term for each step.
fn limit_is_reached(world: &mut World) -> Result<bool, Fail> {
    let id = chain(world)?;
    Ok((world.facts_of(id)? == (HEIGHT_LIMIT, true, true)) & (world.len() == 1_000_003))
}

// An application of that term, and an operator over it, are too tall, and no terms.
fn more_is_refused(world: &mut World) -> Result<bool, Fail> {
    let id = chain(world)?;
    let applied = world.is_too_tall(Node::App { fun: id, arg: TRUE })?;
    let over = world.is_op_too_tall(OpCode::Prog(0), &[id])?;
    Ok(applied & over & (world.len() == 1_000_003))
}

#[test]
fn a_chain_of_applications_ends_at_the_limit(rt: HostRuntime) -> Result<(), Fail> {
    assert!(rt; holds(rt.alloc(), limit_is_reached)?);
    assert!(rt; holds(rt.alloc(), more_is_refused)?);
    Ok(())
}

// Whether a term has this root, and is read with this height, as a value or not, and as closed or
// not.
fn is(world: &World, id: Id, node: &Node, told: (u32, bool, bool)) -> Result<bool, Fail> {
    let root = world.node(id)?;
    Ok((root == *node) & (world.facts_of(id)? == told))
}

// Whether the term that is made with this root is read so.
fn reads_back(world: &mut World, node: Node, told: (u32, bool, bool)) -> Result<bool, Fail> {
    let id = world.make(node)?;
    is(world, id, &node, told)
}

fn leaves_read_back(world: &mut World) -> Result<bool, Fail> {
    let constant = reads_back(world, Node::Con(7), (1, true, true))?;
    let parameter = reads_back(world, Node::Par(3), (1, false, false))?;
    Ok(constant & parameter)
}

fn numbers_read_back(world: &mut World) -> Result<bool, Fail> {
    let small = reads_back(world, Node::Num(-1), (1, true, true))?;
    let large = reads_back(world, Node::Num(1 << 63), (1, true, true))?;
    let least = reads_back(world, Node::Num(i128::MIN), (1, true, true))?;
    Ok(small & large & least)
}

// The longest bit string.
fn bits_read_back(world: &mut World) -> Result<bool, Fail> {
    let id = world.ones()?;
    let ones = Node::Bits {
        width: 128,
        value: u128::MAX,
    };
    is(world, id, &ones, (1, true, true))
}

fn texts_read_back(world: &mut World) -> Result<bool, Fail> {
    let name = world.text(&[104, 0x2_ffff])?;
    let text = world.is_text(name, &[104, 0x2_ffff])?;
    let string = reads_back(world, Node::Str(name), (1, true, true))?;
    let variable = reads_back(world, Node::Var { name, ty: BOOL }, (2, true, true))?;
    Ok(text & string & variable)
}

fn literals_read_back(world: &mut World) -> Result<bool, Fail> {
    let numbers = numbers_read_back(world)?;
    let bits = bits_read_back(world)?;
    let texts = texts_read_back(world)?;
    Ok(numbers & bits & texts)
}

fn application_reads_back(world: &mut World) -> Result<bool, Fail> {
    let arg = world.make(Node::Par(3))?;
    reads_back(world, Node::App { fun: TYPE, arg }, (2, false, false))
}

fn function_types_read_back(world: &mut World) -> Result<bool, Fail> {
    let (par, ty) = (0, BOOL);
    let to = world.make(Node::Arr { from: ty, to: ty })?;
    let free = reads_back(world, Node::Arr { from: ty, to: ty }, (2, true, true))?;
    let bound = reads_back(world, Node::Qar { par, ty, to }, (3, false, true))?;
    Ok(free & bound)
}

fn trees_read_back(world: &mut World) -> Result<bool, Fail> {
    let application = application_reads_back(world)?;
    let function_types = function_types_read_back(world)?;
    Ok(application & function_types)
}

#[test]
fn each_kind_of_node_reads_back(rt: HostRuntime) -> Result<(), Fail> {
    assert!(rt; holds(rt.alloc(), leaves_read_back)?);
    assert!(rt; holds(rt.alloc(), literals_read_back)?);
    assert!(rt; holds(rt.alloc(), trees_read_back)?);
    Ok(())
}

// The root of a call of a program on two arguments.
fn call() -> Node {
    Node::Op {
        code: OpCode::Prog(7),
        count: 2,
    }
}

// A program over a parameter.
fn program_reads_back(world: &mut World) -> Result<bool, Fail> {
    let par = world.make(Node::Par(0))?;
    let id = world.apply(OpCode::Prog(7), &[TRUE, par])?;
    is(world, id, &call(), (2, false, false))
}

#[test]
fn an_operator_reads_back(rt: HostRuntime) -> Result<(), Fail> {
    assert!(rt; holds(rt.alloc(), program_reads_back)?);
    Ok(())
}

// Of what was made for it, a carried term leaves its part alone.
fn one_tree_is_kept(world: &mut World) -> Result<bool, Fail> {
    let kept = world.carry_back()?;
    let (height, _, _) = world.facts_of(kept)?;
    Ok((world.node(kept)? == call()) & (height == 3) & (world.len() == 6))
}

#[test]
fn carry_keeps_one_tree(rt: HostRuntime) -> Result<(), Fail> {
    assert!(rt; holds(rt.alloc(), one_tree_is_kept)?);
    Ok(())
}

// Of the texts that were made for it, a carried string leaves its own alone, as the first.
fn own_text_is_kept(world: &mut World) -> Result<bool, Fail> {
    let text = world.carried_text()?;
    let own = world.is_text(text, &[98])?;
    Ok(own & (text.place() == 0) & (world.texts() == 1) & (world.len() == 5))
}

#[test]
fn carry_keeps_the_texts_in_use(rt: HostRuntime) -> Result<(), Fail> {
    assert!(rt; holds(rt.alloc(), own_text_is_kept)?);
    Ok(())
}

// A term is there before a release and not after it, and a number that is then made reads back.
fn newer_terms_are_dropped(world: &mut World) -> Result<bool, Fail> {
    let counts = world.release_text()?;
    let number = world.make(Node::Num(-3))?;
    Ok((counts == (5, 4)) & (world.node(number)? == Node::Num(-3)))
}

#[test]
fn release_drops_the_newer_terms(rt: HostRuntime) -> Result<(), Fail> {
    assert!(rt; holds(rt.alloc(), newer_terms_are_dropped)?);
    Ok(())
}

// A term with parameter 3 outside every operator, and parameter 5 inside one that no type may hold.
fn with_parameters(world: &mut World) -> Result<Id, Fail> {
    let outside = world.make(Node::Par(3))?;
    let inside = world.make(Node::Par(5))?;
    let op = world.apply(OpCode::Builtin(OpName::Typeof), &[inside])?;
    world.make(Node::App {
        fun: outside,
        arg: op,
    })
}

// Whether the set has the parameters 3 and 5 or not, and has not 4.
fn has(set: ParamSet, third: bool, fifth: bool) -> bool {
    (set.has(3) == third) & !set.has(4) & (set.has(5) == fifth)
}

// Both occur in the term.
fn parameters_are_told(world: &mut World) -> Result<bool, Fail> {
    let id = with_parameters(world)?;
    let known = world.parameters(id)?;
    Ok(has(known, true, true) & (known.upper_bound() == 6))
}

// One of them occurs outside every operator.
fn open_parameters_are_told(world: &mut World) -> Result<bool, Fail> {
    let id = with_parameters(world)?;
    Ok(has(world.open_parameters(id)?, true, false))
}

// The term has an operator, may be no declared type, and uses another parameter than the third.
fn kinds_are_told(world: &mut World) -> Result<bool, Fail> {
    let id = with_parameters(world)?;
    Ok(world.kinds(id)? == [false, false, false])
}

#[test]
fn what_is_kept_with_a_term_is_told(rt: HostRuntime) -> Result<(), Fail> {
    assert!(rt; holds(rt.alloc(), parameters_are_told)?);
    assert!(rt; holds(rt.alloc(), open_parameters_are_told)?);
    assert!(rt; holds(rt.alloc(), kinds_are_told)?);
    Ok(())
}

// A memo has nothing at first, and then what is kept for a term, and nothing for that
// other.
fn what_is_kept_is_told(memo: &mut Memo) -> Result<bool, AllocError> {
    let first = memo.get(TRUE);
    memo.keep(TRUE, FALSE)?;
    let kept = memo.get(TRUE) == Some(FALSE);
    Ok(first.is_none() & kept & memo.get(FALSE).is_none())
}

// The same of a new memo, which it alone owns.
fn new_memo_tells(alloc: Global) -> Result<bool, AllocError> {
    let mut memo = Memo::new(alloc);
    let answer = what_is_kept_is_told(&mut memo);
    drop(memo);
    answer
}

#[test]
fn a_memo_tells_what_it_keeps(rt: HostRuntime) -> Result<(), Fail> {
    assert!(rt; new_memo_tells(rt.alloc())?);
    Ok(())
}
