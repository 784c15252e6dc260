//! What waits for a result, and the values that are collected.
ghost use Rattle.std.specs.Prelude.{◌≡◌, ◌<◌, ℕ, List, ◌++◌, ◌∷◌, [], take};
ghost use Rattle.std.specs.Prelude.{OnOk, OnErr, IfOk, IfSome, IfNone, option_map, is_some};
ghost use Rattle.eo_term.specs.Tree.{Tree};
ghost use Rattle.eo_term.specs.Terms.{tree_at};
ghost use Rattle.eo_stack.specs.Evaluation.{Value, Stuck};
ghost use Rattle.eo_stack.specs.Reading.{node_of, awaits_body, deepest_of, values_before};
ghost use Rattle.eo_stack.specs.Reading.{depth_of, result_of, given_in, deeper, memo_of, ControlBelow};

use eo_term::Id;
use std::alloc::{AllocError, Global};

/// What was finished, with how many calls must be allowed to open for it.
#[derive(Clone, Copy)]
pub enum CallMemo {
    /// It was begun, and is not finished.
    Open,
    /// A value.
    Value { id: Id, deepest: u32 },
    /// None.
    Stuck { deepest: u32 },
}

/// One thing that waits. `deepest` is the inner depth of what it had so far, and `left` is how many
/// calls may open.
#[derive(Clone, Copy)]
pub enum Frame {
    /// A node waits for the value of its next part. Those of the parts before it are collected,
    /// from a place on.
    Parts {
        id: Id,
        base: usize,
        deepest: u32,
        left: u32,
    },
    /// A choice waits for its condition.
    Choice {
        id: Id,
        left: u32,
    },
    /// A test waits for its argument, which may be stuck.
    Tested {
        id: Id,
    },
    /// A comparison waits for its first term.
    EqLeft {
        id: Id,
        left: u32,
    },
    /// It waits for its second one, the first having this value.
    EqRight {
        id: Id,
        first: Id,
        deepest: u32,
    },
    /// The same, the first being stuck.
    EqStuck {
        id: Id,
        deepest: u32,
    },
    /// A requirement waits for its first term.
    RequireLeft {
        id: Id,
        left: u32,
    },
    /// It waits for its second one, the first having this value.
    RequireRight {
        id: Id,
        first: Id,
        deepest: u32,
        left: u32,
    },
    /// The same, the first being stuck.
    RequireStuck {
        id: Id,
        deepest: u32,
    },
    /// A node waits for another term, whose result is its own.
    Tail {
        id: Id,
        deepest: u32,
    },
    /// A call waits for its body. Before it, the values of parameters were those of the call before
    /// `here`, from `base` on, and so many terms with parameters were remembered.
    Body {
        place: usize,
        body: Id,
        base: usize,
        here: usize,
        kept: usize,
    },
}

/// What is done next.
#[derive(Clone, Copy)]
pub enum Control {
    /// A term is evaluated, where so many calls may open.
    Eval { id: Id, left: u32 },
    /// A value is given to what waits for it.
    Value { id: Id, deepest: u32 },
    /// There is no value for what waits for one.
    Stuck { deepest: u32 },
    /// Too many calls are open.
    Deep,
    /// Too many different calls were begun.
    Calls,
    /// A number is out of range.
    Range,
    /// A term is too tall.
    Tall,
}

impl Frame {
    /// The term that waits. A call is known by its body.
    pub fn node(&self) -> Id
        ensures { result ≡ node_of self.now }
    {
        match *self {
            Frame::Parts { id, .. } => id,
            Frame::Choice { id, .. } => id,
            Frame::Tested { id } => id,
            Frame::EqLeft { id, .. } => id,
            Frame::EqRight { id, .. } => id,
            Frame::EqStuck { id, .. } => id,
            Frame::RequireLeft { id, .. } => id,
            Frame::RequireRight { id, .. } => id,
            Frame::RequireStuck { id, .. } => id,
            Frame::Tail { id, .. } => id,
            Frame::Body { body, .. } => body,
        }
    }

    /// Whether a call waits for the body that is this term.
    pub fn is_body(&self, id: Id) -> bool
        ensures { result ≡ awaits_body self.now id }
    {
        match *self {
            Frame::Body { body, .. } => body == id,
            _ => false,
        }
    }

    /// How many calls had to be allowed to open for what it had so far.
    pub fn deepest(&self) -> u32
        ensures { result ≡ deepest_of self.now }
    {
        match *self {
            Frame::Parts { deepest, .. } => deepest,
            Frame::EqRight { deepest, .. } => deepest,
            Frame::EqStuck { deepest, .. } => deepest,
            Frame::RequireRight { deepest, .. } => deepest,
            Frame::RequireStuck { deepest, .. } => deepest,
            Frame::Tail { deepest, .. } => deepest,
            _ => 0,
        }
    }
}

impl Control {
    /// The value that is given, if one is.
    pub fn value(&self) -> Option<Id>
        ensures some { (ts : List Tree) → IfSome result (λ i. result_of ts self.now ≡ Value (tree_at ts i)) }
        ensures none { (ts : List Tree) → IfNone result (result_of ts self.now ≡ Stuck) }
        ensures given { (ts : List Tree) → option_map (tree_at ts) result ≡ given_in ts self.now }
        ensures live { (n : ℕ) → ControlBelow n self.now → IfSome result (λ i. i < n) }
    {
        match *self {
            Control::Value { id, .. } => Some(id),
            _ => None,
        }
    }

    /// What a call whose body gives this is known to give, where so many calls may open.
    pub fn memo(&self, deepest: u32) -> CallMemo
        ensures { result ≡ memo_of self.now deepest }
    {
        match *self {
            Control::Value { id, .. } => CallMemo::Value { id, deepest },
            _ => CallMemo::Stuck { deepest },
        }
    }

    /// The same result, given by a call whose body gives this.
    pub fn deeper(&self, deepest: u32) -> Control
        ensures { result ≡ deeper self.now deepest }
    {
        match *self {
            Control::Value { id, .. } => Control::Value { id, deepest },
            _ => Control::Stuck { deepest },
        }
    }

    /// Whether a value is given.
    pub fn is_value(&self) -> bool
        ensures { (ts : List Tree) → result ≡ is_some (given_in ts self.now) }
    {
        matches!(*self, Control::Value { .. })
    }

    /// How many calls had to be allowed to open for what is given.
    pub fn deepest(&self) -> u32
        ensures { result ≡ depth_of self.now }
    {
        match *self {
            Control::Value { deepest, .. } => deepest,
            Control::Stuck { deepest } => deepest,
            _ => 0,
        }
    }
}

/// What waits, the last thing first to be given a result, and the values that are collected.
#[derive(Drop)]
pub struct Stack {
    pub frames: Vec<Frame>,
    pub values: Vec<Id>,
}

impl Stack {
    /// Nothing waits.
    pub fn new(alloc: Global) -> Stack
        ensures frames { result.frames.items ≡ [] }
        ensures values { result.values.items ≡ [] }
    {
        Stack {
            frames: Vec::new(alloc),
            values: Vec::new(alloc),
        }
    }

    /// Nothing waits any more.
    pub fn clear(&mut self)
        ensures frames { self.new.frames.items ≡ [] }
        ensures values { self.new.values.items ≡ [] }
    {
        self.frames.clear();
        self.values.clear();
    }

    /// One more thing waits.
    pub fn wait(&mut self, frame: Frame) -> Result<(), AllocError>
        ensures frames { OnOk result (self.new.frames.items ≡ self.old.frames.items ++ frame ∷ []) }
        ensures values { self.new.values.items ≡ self.old.values.items }
    {
        self.frames.push(frame)?;
        Ok(())
    }

    /// One more value is collected.
    pub fn collect(&mut self, id: Id) -> Result<(), AllocError>
        ensures values { OnOk result (self.new.values.items ≡ self.old.values.items ++ id ∷ []) }
        ensures frames { self.new.frames.items ≡ self.old.frames.items }
    {
        self.values.push(id)?;
        Ok(())
    }

    /// The values that were collected from a place on go.
    pub fn cut(&mut self, base: usize)
        ensures values { self.new.values.items ≡ take base self.old.values.items }
        ensures frames { self.new.frames.items ≡ self.old.frames.items }
    {
        self.values.truncate(base);
    }

    /// The last thing that waits is taken off.
    pub fn pop(&mut self) -> Option<Frame>
        ensures some { IfSome result (λ f. self.old.frames.items ≡ self.new.frames.items ++ f ∷ []) }
        ensures none { IfNone result (self.old.frames.items ≡ []) }
        ensures same { IfNone result (self.new.frames.items ≡ []) }
        ensures values { self.new.values.items ≡ self.old.values.items }
    {
        self.frames.pop()
    }

    /// The values that were collected for what was taken off go.
    pub fn leave(&mut self, frame: &Frame)
        ensures values { self.new.values.items ≡ values_before self.old.values.items frame.now }
        ensures frames { self.new.frames.items ≡ self.old.frames.items }
    {
        match *frame {
            Frame::Parts { base, .. } => self.values.truncate(base),
            _ => {}
        }
    }
}
