//! Terms as words: a word for what a term is, and then its parts.
use super::rows::ProgramRow;
use super::world::World;
use eo_term::{Id, Node, OpName, TRUE};
use std::test::Fail;

/// What a word means. The parts of a term follow its word.
#[derive(Clone, Copy)]
enum Word {
    /// A constant, by its number.
    Constant(usize),
    Number(i128),
    /// A parameter, by its number.
    Parameter(u8),
    /// The string of this character.
    Text(u8),
    /// An operator on these numbers.
    OfNumbers(OpName, i128, i128),
    /// The call of the program 0 on `true`.
    Endless,
    /// An operator on its arguments.
    Operator(OpName),
    /// The program of this number, on so many arguments.
    Program(usize, usize),
    /// The variable of this name, of a type.
    Variable(u8),
    /// A term applied to another.
    Application,
    /// The type of functions from one type to another.
    Arrow,
    /// The type of functions whose argument is bound as the parameter 0.
    Bound,
    /// What is made of a term, and of that, so many times.
    Repeated(Step, usize),
}

/// What is made of a term: its conjunction with itself, or `p` applied to it.
#[derive(Clone, Copy)]
enum Step {
    Both,
    Apply,
}

/// The words. `stuck` has no value, and the evaluation of `deep` and of `range` ends at once: too
/// many calls are open, or a number is out of range. `f_of_none` is `f` on no arguments, `both_60`
/// a conjunction with itself, 60 times over, and `p_2` is `p` applied to what `p` is applied to.
const WORDS: &[(&str, Word)] = &[
    ("Type", Word::Constant(0)),
    ("Bool", Word::Constant(1)),
    ("true", Word::Constant(2)),
    ("false", Word::Constant(3)),
    ("p", Word::Constant(4)),
    ("OR", Word::Constant(5)),
    ("x", Word::Parameter(0)),
    ("y", Word::Parameter(1)),
    ("0", Word::Number(0)),
    ("1", Word::Number(1)),
    ("2", Word::Number(2)),
    ("60", Word::Number(60)),
    ("999998", Word::Number(999_998)),
    ("999999", Word::Number(999_999)),
    ("1000000", Word::Number(1_000_000)),
    ("-1", Word::Number(-1)),
    ("-4", Word::Number(-4)),
    ("-7", Word::Number(-7)),
    ("least", Word::Number(i128::MIN)),
    ("'x'", Word::Text(b'x')),
    ("stuck", Word::OfNumbers(OpName::Zdiv, 1, 0)),
    ("range", Word::OfNumbers(OpName::Add, i128::MAX, 1)),
    ("deep", Word::Endless),
    ("ite", Word::Operator(OpName::Ite)),
    ("requires", Word::Operator(OpName::Requires)),
    ("is_eq", Word::Operator(OpName::IsEq)),
    ("is_ok", Word::Operator(OpName::IsOk)),
    ("typeof", Word::Operator(OpName::Typeof)),
    ("var", Word::Operator(OpName::Var)),
    ("nameof", Word::Operator(OpName::Nameof)),
    ("is_z", Word::Operator(OpName::IsZ)),
    ("is_bool", Word::Operator(OpName::IsBool)),
    ("and", Word::Operator(OpName::And)),
    ("or", Word::Operator(OpName::Or)),
    ("not", Word::Operator(OpName::Not)),
    ("add", Word::Operator(OpName::Add)),
    ("neg", Word::Operator(OpName::Neg)),
    ("zdiv", Word::Operator(OpName::Zdiv)),
    ("nil", Word::Operator(OpName::Nil)),
    ("cons", Word::Operator(OpName::Cons)),
    ("list_len", Word::Operator(OpName::ListLen)),
    ("list_rev", Word::Operator(OpName::ListRev)),
    ("endless", Word::Program(0, 1)),
    ("countdown", Word::Program(1, 1)),
    ("same", Word::Program(2, 1)),
    ("f", Word::Program(3, 1)),
    ("f_of_none", Word::Program(3, 0)),
    ("g", Word::Program(4, 1)),
    ("second", Word::Program(5, 2)),
    ("nothing", Word::Program(6, 0)),
    ("k", Word::Program(7, 1)),
    ("d", Word::Program(8, 1)),
    ("outer", Word::Program(9, 2)),
    ("e", Word::Program(10, 1)),
    ("t", Word::Program(11, 1)),
    ("u", Word::Program(12, 1)),
    ("v", Word::Program(13, 1)),
    ("negation", Word::Program(14, 1)),
    ("variable", Word::Variable(b'x')),
    ("app", Word::Application),
    ("arr", Word::Arrow),
    ("bound", Word::Bound),
    ("both_60", Word::Repeated(Step::Both, 60)),
    ("p_1", Word::Repeated(Step::Apply, 1)),
    ("p_2", Word::Repeated(Step::Apply, 2)),
    ("p_999997", Word::Repeated(Step::Apply, 999_997)),
    ("p_999998", Word::Repeated(Step::Apply, 999_998)),
    ("p_999999", Word::Repeated(Step::Apply, 999_999)),
];

/// The programs, by their numbers. The tests say what each is for.
pub(super) const PROGRAMS: &[ProgramRow<'static>] = &[
    ("endless", 2, &["x endless x"]),
    ("countdown", 2, &["0 true", "x countdown add x -1"]),
    ("same", 2, &["x x"]),
    ("f", 2, &["x true", "true false"]),
    ("g", 2, &["false true"]),
    ("second", 3, &["x x x", "x y y"]),
    ("nothing", 1, &["false"]),
    ("k", 2, &["x countdown x"]),
    ("d", 2, &["0 true", "x and d add x -1 d add -1 x"]),
    ("outer", 3, &["x y ite is_eq same y y x y"]),
    ("e", 2, &["x both_60 not same x"]),
    ("t", 2, &["x p_2 x"]),
    ("u", 2, &["x is_eq x not not not same true"]),
    ("v", 2, &["x u x"]),
    ("negation", 2, &["x not x"]),
];

impl World {
    /// The one term of some words.
    pub(super) fn term(&mut self, words: &str) -> Result<Id, Fail> {
        let mut terms = Vec::new(self.alloc());
        let term = self.one_term(words, &mut terms);
        drop(terms);
        term
    }

    // The one term of some words, which is alone among these.
    fn one_term(&mut self, words: &str, terms: &mut Vec<Id>) -> Result<Id, Fail> {
        self.push_terms(words, terms)?;
        match terms.as_slice() {
            [id] => Ok(*id),
            _ => Err(Fail::new("not one term")),
        }
    }

    /// The terms of some words, before these, of which the first is last.
    pub(super) fn push_terms(&mut self, words: &str, behind: &mut Vec<Id>) -> Result<(), Fail> {
        let words: Vec<&str> = words.split(' ').collect(self.alloc())?;
        let pushed = self.push_all(words.as_slice(), behind);
        drop(words);
        pushed
    }

    fn push_all(&mut self, words: &[&str], behind: &mut Vec<Id>) -> Result<(), Fail> {
        for word in words.iter().rev() {
            let id = self.read(word, behind)?;
            behind.push(id)?;
        }
        Ok(())
    }

    // The term of a word, before these, of which its parts are the last.
    fn read(&mut self, word: &str, behind: &mut Vec<Id>) -> Result<Id, Fail> {
        let Some(word) = find(WORDS, word) else {
            return Err(Fail::new("no word"));
        };
        match parts(&word) {
            0 => self.leaf(&word),
            1 => self.of(&word, &[next(behind)?]),
            2 => self.of(&word, &next_two(behind)?),
            _ => self.of(&word, &next_three(behind)?),
        }
    }

    // A term without parts.
    fn leaf(&mut self, word: &Word) -> Result<Id, Fail> {
        match *word {
            Word::Constant(number) => self.node(Node::Con(number)),
            Word::Number(number) => self.node(Node::Num(number)),
            Word::Parameter(number) => self.node(Node::Par(number)),
            Word::Text(letter) => self.string(letter),
            Word::OfNumbers(op, first, second) => self.of_numbers(op, first, second),
            Word::Endless => self.call(0, &[TRUE]),
            Word::Program(number, _) => self.call(number, &[]),
            _ => Err(Fail::new("no leaf")),
        }
    }

    // An operator on these numbers.
    fn of_numbers(&mut self, op: OpName, first: i128, second: i128) -> Result<Id, Fail> {
        let first = self.node(Node::Num(first))?;
        let second = self.node(Node::Num(second))?;
        self.op(op, &[first, second])
    }

    // A term with these parts.
    fn of(&mut self, word: &Word, parts: &[Id]) -> Result<Id, Fail> {
        match (*word, parts) {
            (Word::Operator(op), _) => self.op(op, parts),
            (Word::Program(number, _), _) => self.call(number, parts),
            (_, [part]) => self.of_one(word, *part),
            (_, [first, second]) => self.of_two(word, *first, *second),
            _ => Err(Fail::new("no parts")),
        }
    }

    // A term with one part.
    fn of_one(&mut self, word: &Word, part: Id) -> Result<Id, Fail> {
        match *word {
            Word::Variable(letter) => self.var(letter, part),
            Word::Repeated(step, times) => self.repeat_step(&step, part, times),
            _ => Err(Fail::new("not of one part")),
        }
    }

    // A term with two parts.
    fn of_two(&mut self, word: &Word, first: Id, second: Id) -> Result<Id, Fail> {
        match *word {
            Word::Application => self.app(first, second),
            Word::Arrow => self.node(Node::Arr {
                from: first,
                to: second,
            }),
            Word::Bound => self.node(Node::Qar {
                par: 0,
                ty: first,
                to: second,
            }),
            _ => Err(Fail::new("not of two parts")),
        }
    }

    // A term applied to another.
    fn app(&mut self, fun: Id, arg: Id) -> Result<Id, Fail> {
        self.node(Node::App { fun, arg })
    }

    // What is made of a term, and of that, so many times.
    fn repeat_step(&mut self, step: &Step, id: Id, times: usize) -> Result<Id, Fail> {
        let mut id = id;
        for _ in 0..times {
            id = self.once(step, id)?;
        }
        Ok(id)
    }

    fn once(&mut self, step: &Step, id: Id) -> Result<Id, Fail> {
        match step {
            Step::Both => self.op(OpName::And, &[id, id]),
            Step::Apply => {
                let fun = self.node(Node::Con(4))?;
                self.app(fun, id)
            }
        }
    }
}

// What a word means, if anything.
fn find(words: &[(&str, Word)], word: &str) -> Option<Word> {
    for row in words {
        if row.0 == word {
            return Some(row.1);
        }
    }
    None
}

// How many parts the term of a word has.
fn parts(word: &Word) -> usize {
    match *word {
        Word::Operator(op) => op.arity(),
        Word::Program(_, count) => count,
        Word::Variable(_) | Word::Repeated(_, _) => 1,
        Word::Application | Word::Arrow | Word::Bound => 2,
        _ => 0,
    }
}

// Takes off the last of some terms.
fn next(terms: &mut Vec<Id>) -> Result<Id, Fail> {
    match terms.pop() {
        Some(id) => Ok(id),
        None => Err(Fail::new("no part")),
    }
}

fn next_two(terms: &mut Vec<Id>) -> Result<[Id; 2], Fail> {
    Ok([next(terms)?, next(terms)?])
}

fn next_three(terms: &mut Vec<Id>) -> Result<[Id; 3], Fail> {
    Ok([next(terms)?, next(terms)?, next(terms)?])
}
