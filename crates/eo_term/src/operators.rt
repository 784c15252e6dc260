//! The operators of the language (Ethos manual, computational operators).
ghost use Rattle.std.specs.Prelude.{◌≡◌, find};
ghost use Rattle.eo_term.specs.Operators.{arity, operator, operator_named, is_named};

use crate::OpName;

/// All operators.
const ALL: [OpName; 40] = [
    OpName::Ite,
    OpName::Requires,
    OpName::IsEq,
    OpName::IsOk,
    OpName::Typeof,
    OpName::Var,
    OpName::Nameof,
    OpName::IsZ,
    OpName::IsBin,
    OpName::IsStr,
    OpName::IsBool,
    OpName::IsVar,
    OpName::And,
    OpName::Or,
    OpName::Xor,
    OpName::Not,
    OpName::Add,
    OpName::Mul,
    OpName::Neg,
    OpName::Zdiv,
    OpName::Zmod,
    OpName::IsNeg,
    OpName::Gt,
    OpName::Len,
    OpName::Concat,
    OpName::Extract,
    OpName::Find,
    OpName::ToZ,
    OpName::ToBin,
    OpName::ToStr,
    OpName::Nil,
    OpName::Cons,
    OpName::ListLen,
    OpName::ListConcat,
    OpName::ListNth,
    OpName::ListFind,
    OpName::ListRev,
    OpName::ListErase,
    OpName::ListSetof,
    OpName::ListMinclude,
];

impl OpName {
    /// The operator of this name; `None`, where there is none.
    #[tactic(auto, unfolding(crate::specs::Operators::operator_named))]
    pub fn from_word(word: &[u8]) -> Option<OpName>
        ensures { result ≡ operator_named word.now }
    {
        if !word.starts_with(b"eo::") {
            return None;
        }
        first_named(word, &ALL)
    }

    /// How many arguments it takes.
    pub fn arity(self) -> usize
        ensures { result ≡ arity self }
    {
        match self {
            OpName::IsOk
            | OpName::Typeof
            | OpName::Nameof
            | OpName::IsZ
            | OpName::IsBin
            | OpName::IsStr
            | OpName::IsBool
            | OpName::IsVar
            | OpName::Not
            | OpName::Neg
            | OpName::IsNeg
            | OpName::Len
            | OpName::ToZ
            | OpName::ToStr
            | OpName::Nil => 1,
            OpName::IsEq
            | OpName::Var
            | OpName::And
            | OpName::Or
            | OpName::Xor
            | OpName::Add
            | OpName::Mul
            | OpName::Zdiv
            | OpName::Zmod
            | OpName::Gt
            | OpName::Concat
            | OpName::Find
            | OpName::ToBin
            | OpName::ListLen
            | OpName::ListRev
            | OpName::ListSetof => 2,
            OpName::Ite
            | OpName::Requires
            | OpName::Extract
            | OpName::Cons
            | OpName::ListConcat
            | OpName::ListNth
            | OpName::ListFind
            | OpName::ListErase
            | OpName::ListMinclude => 3,
        }
    }

    /// Whether a declared type may hold it.
    pub(crate) fn is_in_types(self) -> bool
        ensures { result ≡ (operator self).in_types }
    {
        match self {
            OpName::IsOk
            | OpName::Typeof
            | OpName::Var
            | OpName::Nameof
            | OpName::Nil
            | OpName::Cons
            | OpName::ListLen
            | OpName::ListConcat
            | OpName::ListNth
            | OpName::ListFind
            | OpName::ListRev
            | OpName::ListErase
            | OpName::ListSetof
            | OpName::ListMinclude => false,
            _ => true,
        }
    }

    /// Its name.
    pub fn word(self) -> &'static [u8]
        ensures { result.now ≡ (operator self).word }
    {
        match self {
            OpName::Ite => b"eo::ite",
            OpName::Requires => b"eo::requires",
            OpName::IsEq => b"eo::is_eq",
            OpName::IsOk => b"eo::is_ok",
            OpName::Typeof => b"eo::typeof",
            OpName::Var => b"eo::var",
            OpName::Nameof => b"eo::nameof",
            OpName::IsZ => b"eo::is_z",
            OpName::IsBin => b"eo::is_bin",
            OpName::IsStr => b"eo::is_str",
            OpName::IsBool => b"eo::is_bool",
            OpName::IsVar => b"eo::is_var",
            OpName::And => b"eo::and",
            OpName::Or => b"eo::or",
            OpName::Xor => b"eo::xor",
            OpName::Not => b"eo::not",
            OpName::Add => b"eo::add",
            OpName::Mul => b"eo::mul",
            OpName::Neg => b"eo::neg",
            OpName::Zdiv => b"eo::zdiv",
            OpName::Zmod => b"eo::zmod",
            OpName::IsNeg => b"eo::is_neg",
            OpName::Gt => b"eo::gt",
            OpName::Len => b"eo::len",
            OpName::Concat => b"eo::concat",
            OpName::Extract => b"eo::extract",
            OpName::Find => b"eo::find",
            OpName::ToZ => b"eo::to_z",
            OpName::ToBin => b"eo::to_bin",
            OpName::ToStr => b"eo::to_str",
            OpName::Nil => b"eo::nil",
            OpName::Cons => b"eo::cons",
            OpName::ListLen => b"eo::list_len",
            OpName::ListConcat => b"eo::list_concat",
            OpName::ListNth => b"eo::list_nth",
            OpName::ListFind => b"eo::list_find",
            OpName::ListRev => b"eo::list_rev",
            OpName::ListErase => b"eo::list_erase",
            OpName::ListSetof => b"eo::list_setof",
            OpName::ListMinclude => b"eo::list_minclude",
        }
    }
}

// The first of these operators that has the name.
fn first_named(word: &[u8], ops: &[OpName]) -> Option<OpName>
    ensures { result ≡ find (is_named word.now) ops.now }
{
    for op in ops {
        if word == op.word() {
            return Some(*op);
        }
    }
    None
}
