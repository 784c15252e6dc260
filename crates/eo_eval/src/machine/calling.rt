//! Calls of programs.
ghost use Rattle.std.specs.Prelude.{◌≡◌, ◌<◌, ◌++◌, ◌∷◌, [], ℕ, List, length, All, Some, false, IfOk, IfSome, IfNone, OnOk};
ghost use Rattle.eo_sig.specs.Growth.{GrowsUnder};
ghost use Rattle.eo_sig.specs.Reading.{IsBelow, signature};
ghost use Rattle.eo_stack.specs.Bodies.{Finds, MakesBody, chosen_case};
ghost use Rattle.eo_stack.specs.Evaluation.{body_of};
ghost use Rattle.eo_eval.specs.Ready.{Goes, Ready, Calling, CallingAt, SameButHeld, Recalls, called_at, outcome_from, told_call, told_run};
ghost use Rattle.eo_stack.specs.Machine.{calls};
ghost use Rattle.eo_stack.specs.Reading.{read_call, call_at, begun, Remembers};
ghost use Rattle.eo_stack.specs.declared.stack.Control.TheVariants as next;
ghost use Rattle.eo_sig.specs.Signature as spec;
ghost use Rattle.eo_term.specs.Tree.{Tree, is_tall};
ghost use Rattle.eo_pattern.specs.Steps.{put_in};
ghost use Rattle.eo_stack.specs.Scopes.{IsValueSlot};
ghost use Rattle.eo_stack.specs.declared.stack.Frame.TheVariants as frame;

use crate::machine::Machine;
use crate::machine::memory::use_memo;
use eo_base::limits::CALLS;
use eo_pattern::substitute;
use eo_sig::Signature;
use eo_stack::{CallKey, CallMemo, Control, Frame, find_body, fits_unsubstituted};
use eo_term::{Id, Table, TermRefused};
use eo_type::Types;
use std::alloc::AllocError;

impl Machine {
    /// A program is called on values, where so many calls may open.
    pub(crate) fn call(
        &mut self,
        sig: &Signature,
        table: &mut Table,
        types: &Types,
        key: CallKey,
        left: u32,
    ) -> Result<Control, AllocError>
        requires key { All (λ i. i < length table.old.trees) key.args }
        requires calling { Calling sig.now table.old types.now self.old (read_call table.old.trees key) }
        ensures goes { IfOk result (Goes sig.now table.new types.now self.new
            (told_call sig.now table.old self.old (read_call table.old.trees key) left)) }
        ensures grows { GrowsUnder sig.now table.old table.new }
    {
        sig.laws();
        if left == 0 {
            return Ok(Control::Deep);
        }
        match self.begin_call(sig, table, types, key, left)? {
            Some(place) => self.call_begun(sig, table, types, place, left),
            None => Ok(Control::Calls),
        }
    }

    // The place of a call, which begins if it was not begun before; none, where too many calls were.
    fn begin_call(
        &mut self,
        sig: &Signature,
        table: &Table,
        types: &Types,
        key: CallKey,
        left: u32,
    ) -> Result<Option<usize>, AllocError>
        requires left { 0 < left }
        requires key { All (λ i. i < length table.now.trees) key.args }
        requires calling { Calling sig.now table.now types.now self.old (read_call table.now.trees key) }
        ensures place { IfOk result (λ r. IfSome r (λ p. p < length self.new.calls.entries)) }
        ensures calling { IfOk result (λ r. IfSome r (λ p. Calling sig.now table.now types.now self.new (called_at table.now self.new p))) }
        ensures told { IfOk result (λ r. IfSome r (λ p. told_call sig.now table.now self.new (called_at table.now self.new p) left
            ≡ told_call sig.now table.now self.old (read_call table.now.trees key) left)) }
        ensures full { IfOk result (λ r. IfNone r (outcome_from sig.now table.now self.new next.Calls
            ≡ told_call sig.now table.now self.old (read_call table.now.trees key) left)) }
        ensures ready { IfOk result (λ r. IfNone r (Ready sig.now table.now types.now self.new next.Calls)) }
    {
        table.laws();
        if let Some(place) = self.calls.get_index_of(&key) {
            return Ok(Some(place));
        }
        let place = self.calls.len();
        if place >= CALLS {
            return Ok(None);
        }
        self.calls.insert(key, CallMemo::Open)?;
        Ok(Some(place))
    }

    // A call that was begun: what is known of it is used, or it goes on with its body.
    fn call_begun(
        &mut self,
        sig: &Signature,
        table: &mut Table,
        types: &Types,
        place: usize,
        left: u32,
    ) -> Result<Control, AllocError>
        requires left { 0 < left }
        requires called { CallingAt sig.now table.old types.now self.old place }
        ensures goes { IfOk result (Goes sig.now table.new types.now self.new
            (told_call sig.now table.old self.old (called_at table.old self.old place) left)) }
        ensures grows { GrowsUnder sig.now table.old table.new }
    {
        sig.laws();
        match self.known_call(place, left) {
            Some(now) => Ok(now),
            None => self.run(sig, table, types, place, left - 1),
        }
    }

    // What is known of a call that was begun, where so many calls may open.
    fn known_call(&self, place: usize, left: u32) -> Option<Control>
        requires { place < length self.now.calls.entries }
        ensures { (S : spec.Signature) (most : ℕ) (ts : List Tree) →
            Remembers S most ts self.now.calls.entries self.now.terms.entries self.now.locals.entries →
            IfSome result (λ n. Recalls ts (begun ts self.now.calls.entries) (calls S most (call_at (begun ts
            self.now.calls.entries) place)) left n) }
    {
        let (_, known) = self.calls.get_index(place).unwrap();
        use_memo(*known, left)
    }

    // A call that was begun goes on with its body, where so many calls may open.
    fn run(
        &mut self,
        sig: &Signature,
        table: &mut Table,
        types: &Types,
        place: usize,
        left: u32,
    ) -> Result<Control, AllocError>
        requires called { CallingAt sig.now table.old types.now self.old place }
        ensures goes { IfOk result (Goes sig.now table.new types.now self.new
            (told_run sig.now table.old self.old (called_at table.old self.old place) left)) }
        ensures grows { GrowsUnder sig.now table.old table.new }
    {
        sig.laws();
        match self.find(sig, table, place)? {
            Some(body) => self.enter_body(sig, table, types, place, left, body),
            None => {
                self.finish_call(place, CallMemo::Stuck { deepest: 1 });
                Ok(Control::Stuck { deepest: 1 })
            }
        }
    }

    // The body of a call that was begun. The values of its parameters are then held.
    fn find(
        &mut self,
        sig: &Signature,
        table: &Table,
        place: usize,
    ) -> Result<Option<Id>, AllocError>
        requires place { place < length self.old.calls.entries }
        requires keys { All (λ c. All (λ i. i < length table.now.trees) c.0.args) self.old.calls.entries }
        requires below { IsBelow (length table.now.trees) sig.now }
        ensures found { IfOk result (λ o. Finds table.now self.new.subst o
            (chosen_case (signature table.now.trees sig.now) (called_at table.now self.old place))) }
        ensures same { SameButHeld self.old self.new }
    {
        let (key, _) = self.calls.get_index(place).unwrap();
        find_body(
            sig,
            table,
            &mut self.subst,
            key.program,
            key.args.as_slice(),
        )
    }

    // A call goes on with the body that was found for it.
    fn enter_body(
        &mut self,
        sig: &Signature,
        table: &mut Table,
        types: &Types,
        place: usize,
        left: u32,
        body: Id,
    ) -> Result<Control, AllocError>
        requires called { CallingAt sig.now table.old types.now self.old place }
        requires found { Finds table.old self.old.subst (Some body)
            (chosen_case (signature table.old.trees sig.now) (called_at table.old self.old place)) }
        ensures goes { IfOk result (Goes sig.now table.new types.now self.new
            (told_run sig.now table.old self.old (called_at table.old self.old place) left)) }
        ensures grows { GrowsUnder sig.now table.old table.new }
    {
        if fits_unsubstituted(table, &self.subst, body) {
            return self.enter_in_env(sig, table, types, place, left, body);
        }
        self.make_body(sig, table, types, place, left, body)
    }

    // A call goes on with a body in which what is held is substituted first: with it, it may be too tall.
    fn make_body(
        &mut self,
        sig: &Signature,
        table: &mut Table,
        types: &Types,
        place: usize,
        left: u32,
        body: Id,
    ) -> Result<Control, AllocError>
        requires called { CallingAt sig.now table.old types.now self.old place }
        requires found { Finds table.old self.old.subst (Some body)
            (chosen_case (signature table.old.trees sig.now) (called_at table.old self.old place)) }
        ensures goes { IfOk result (Goes sig.now table.new types.now self.new
            (told_run sig.now table.old self.old (called_at table.old self.old place) left)) }
        ensures grows { GrowsUnder sig.now table.old table.new }
    {
        sig.laws();
        types.laws();
        let made = substitute(table, &self.subst, body);
        self.enter_made(sig, table, types, place, left, made)
    }

    // A call goes on with a body whose parameters are held.
    fn enter_in_env(
        &mut self,
        sig: &Signature,
        table: &Table,
        types: &Types,
        place: usize,
        left: u32,
        body: Id,
    ) -> Result<Control, AllocError>
        requires called { CallingAt sig.now table.now types.now self.old place }
        requires found { Finds table.now self.old.subst (Some body)
            (chosen_case (signature table.now.trees sig.now) (called_at table.now self.old place)) }
        requires low { is_tall (put_in table.now self.old.subst body) ≡ false }
        requires values { All (IsValueSlot table.now.trees) self.old.subst.values }
        ensures { IfOk result (Goes sig.now table.now types.now self.new
            (told_run sig.now table.now self.old (called_at table.now self.old place) left)) }
    {
        // No list holds so many calls that this count ends.
        let Some(here) = place.checked_add(1) else {
            return Err(AllocError);
        };
        self.open(place, body)?;
        self.scope.open(here, self.subst.slots())?;
        Ok(Control::Eval { id: body, left })
    }

    // A call goes on with a body that was made, with its parameters substituted.
    fn enter_made(
        &mut self,
        sig: &Signature,
        table: &Table,
        types: &Types,
        place: usize,
        left: u32,
        made: Result<Id, TermRefused>,
    ) -> Result<Control, AllocError>
        requires called { CallingAt sig.now table.now types.now self.old place }
        requires body { MakesBody table.now made (body_of (signature table.now.trees sig.now) (called_at table.now self.old place)) }
        ensures { IfOk result (Goes sig.now table.now types.now self.new
            (told_run sig.now table.now self.old (called_at table.now self.old place) left)) }
    {
        match made {
            Ok(body) => {
                self.open(place, body)?;
                self.scope.open(0, &[])?;
                Ok(Control::Eval { id: body, left })
            }
            Err(TermRefused::Tall) => Ok(Control::Tall),
            Err(TermRefused::Memory(e)) => Err(e),
        }
    }

    // A call waits for its body.
    fn open(&mut self, place: usize, body: Id) -> Result<(), AllocError>
        ensures frames { OnOk result (self.new.stack.frames.items ≡ self.old.stack.frames.items
            ++ frame.Body place body self.old.scope.base self.old.scope.here (length self.old.locals.entries) ∷ []) }
        ensures values { self.new.stack.values.items ≡ self.old.stack.values.items }
        ensures scope { self.new.scope ≡ self.old.scope }
        ensures subst { self.new.subst ≡ self.old.subst }
        ensures calls { self.new.calls ≡ self.old.calls }
        ensures terms { self.new.terms ≡ self.old.terms }
        ensures locals { self.new.locals ≡ self.old.locals }
    {
        let frame = Frame::Body {
            place,
            body,
            base: self.scope.base(),
            here: self.scope.here(),
            kept: self.locals.len(),
        };
        self.stack.wait(frame)
    }
}
