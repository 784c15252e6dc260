//! Constants and rules to be declared, and uses of rules with what they give. Terms are written as codes
//! (`codes`).
use eo_base::FaultName;
use eo_term::Id;

/// A constant: its name, its type, and the terminator of its lists if it has one.
pub(super) type ConstRow<'a> = (&'a str, &'a str, &'a str);

/// A rule: its name, the types of its parameters, its assumption if it has one, its premises, its
/// arguments, the two terms that it requires to be equal if it does, and its conclusion. After a
/// `*` is what the list of all premises, joined by `and`, is matched with.
pub(super) type RuleRow<'a> = (
    &'a str,
    &'a str,
    &'a str,
    &'a str,
    &'a str,
    &'a str,
    &'a str,
);

/// A use of a rule: its name, the assumption that it discharges if it does, the premises, the
/// arguments, the formula that it is said to conclude if any is, and what it gives.
pub(super) type UseRow<'a> = (&'a str, &'a str, &'a str, &'a str, &'a str, Want<'a>);

/// Rules, with the cases of a program that they may call, each a pattern and a body, and uses of the
/// rules.
pub(super) struct Trial<'a> {
    pub(super) name: &'a str,
    pub(super) cases: &'a [(&'a str, &'a str)],
    pub(super) rules: &'a [RuleRow<'a>],
    pub(super) uses: &'a [UseRow<'a>],
}

/// What a use of a rule is to give: a formula, as a code, or a fault.
#[derive(Clone, Copy)]
pub(super) enum Want<'a> {
    Formula(&'a str),
    Fault(FaultName),
}

/// What a use of a rule gives.
#[derive(Clone, Copy, PartialEq, Eq, Debug)]
pub(super) enum Told {
    Formula(Id),
    Fault(FaultName),
}

/// The terms of a rule.
#[derive(Drop)]
pub(super) struct Form {
    pub(super) types: Vec<Id>,
    pub(super) assumption: Option<Id>,
    pub(super) premises: Vec<Id>,
    /// Whether there is one pattern, for the list of all premises.
    pub(super) joins: bool,
    pub(super) args: Vec<Id>,
    pub(super) requirement: Option<(Id, Id)>,
    pub(super) conclusion: Id,
}

/// The terms that a use of a rule gives to it.
#[derive(Drop)]
pub(super) struct Given {
    pub(super) assumption: Option<Id>,
    pub(super) premises: Vec<Id>,
    pub(super) args: Vec<Id>,
    pub(super) stated: Option<Id>,
}
