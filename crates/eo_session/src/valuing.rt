//! The value of a name.
ghost use Rattle.std.specs.Prelude.{◌≡◌, ◌<◌, length, IfOk, IfSome, option_map, option_and_then, slice_get};
ghost use Rattle.eo_eval.specs.Outcomes.{IsValueOf};
ghost use Rattle.eo_sig.specs.Reading.{macros};
ghost use Rattle.eo_sig.specs.Signature.{lookup};
ghost use Rattle.eo_term.specs.Growth.{tree_in};
ghost use Rattle.eo_session.specs.Store.{state_of, IsConsistent, Keeps};
ghost use Rattle.eo_session.specs.Step.{value_named, macro_tree, plain_tree};
ghost use Rattle.eo_session.specs.Stepping.{GivesTerm};

use crate::Refused;
use crate::store::Store;
use eo_base::FaultName;
use eo_sig::Entry;
use eo_term::Id;

/// The value of the macro without parameters that has this name, once what was made for an earlier
/// one is freed. `UnknownSymbol`: there is no such macro.
pub(crate) fn run_name(store: &mut Store, name: &[u8]) -> Result<Id, Refused>
    requires { IsConsistent store.old }
    ensures whole { IsConsistent store.new }
    ensures same { state_of store.new ≡ state_of store.old }
    ensures value { IfOk result (IsValueOf store.new.table) }
    ensures gives { GivesTerm store.new result (value_named (state_of store.old) name.now) }
{
    store.release();
    store.value_named(name)
}

impl Store {
    // The value of the macro without parameters that has this name.
    fn value_named(&mut self, name: &[u8]) -> Result<Id, Refused>
        requires { IsConsistent self.old }
        ensures gives { GivesTerm self.new result (value_named (state_of self.old) name.now) }
        ensures value { IfOk result (IsValueOf self.new.table) }
        ensures keeps { Keeps self.old self.new }
    {
        match self.macro_named(name) {
            Some(id) => self.evaluate(id),
            None => Err(Refused::Fault(FaultName::UnknownSymbol)),
        }
    }

    // The term of the macro without parameters that has this name.
    fn macro_named(&self, name: &[u8]) -> Option<Id>
        requires { IsConsistent self.now }
        ensures tree { option_map (tree_in self.now.table) result
            ≡ macro_tree (state_of self.now).macros (lookup (state_of self.now).signature (state_of self.now).macros name.now) }
        ensures live { IfSome result (λ id. id < length self.now.table.trees) }
    {
        match self.signature.lookup(name) {
            Some(Entry::Macro(number)) => self.term_of_macro(number),
            _ => None,
        }
    }

    // The term of the macro with this number, where it has no parameters.
    fn term_of_macro(&self, number: usize) -> Option<Id>
        requires whole { IsConsistent self.now }
        requires within { number < length self.now.signature.macros }
        ensures tree { option_map (tree_in self.now.table) result
            ≡ option_and_then plain_tree (slice_get (macros self.now.table.trees self.now.signature) number) }
        ensures live { IfSome result (λ id. id < length self.now.table.trees) }
    {
        let defined = self.signature.macro_of(number);
        if defined.params.as_slice().is_empty() {
            return Some(defined.tree);
        }
        None
    }
}
