//! The sink in memory.
ghost use Rattle.std.specs.Prelude.{◌≡◌, ◌≤◌, ◌-◌, ◌^◌, Some, IfOk, OnOk, OnErr};
ghost use Rattle.eo_io.specs.Calls.{with_piece, with_failing};
ghost use Rattle.eo_io.specs.Sink.{Writes, WriteHasCause};
ghost use Rattle.eo_io.specs.Memory.{first_written, written_by_plan, write_answer, after_write};

use crate::call_plan::CallPlan;
use crate::{Put, Sink};
use std::alloc::{AllocError, Global};
use std::marker::Model;

/// A sink that keeps what is written to it, up to its room. Its writes are numbered from 1, and
/// those whose numbers are given to `fail` fail.
#[derive(Drop)]
pub struct MemorySink {
    bytes: Vec<u8>,
    room: usize,
    plan: CallPlan,
}

impl Model for MemorySink {
    ghost use Rattle.std.specs.Prelude.{◌≤◌, ◌-◌, ◌^◌, length, vec_capacity};
    ghost use Rattle.eo_io.specs.Memory.{Written};

    ghost Value = { Written };

    ghost view = { λ a. record { bytes = a.bytes.items; room = a.room; plan = a.plan } };

    ghost invariant = { λ a. (length a.bytes.items ≤ a.room) × (a.room ≤ vec_capacity a.bytes) × (a.plan.faults ≤ 2 ^ 64 - 1) };
}

impl MemorySink {
    /// A sink that takes so many bytes in all, whose room it takes at once. `Err` is out of
    /// memory.
    pub fn new(alloc: Global, room: usize) -> Result<MemorySink, AllocError>
        ensures { IfOk result (λ sink. sink ≡ first_written room) }
    {
        Ok(MemorySink {
            bytes: Vec::with_capacity(alloc, room)?,
            room,
            plan: CallPlan::new(alloc),
        })
    }

    /// Lets a write take at most n bytes, n at least 1.
    pub fn piece(&mut self, n: usize)
        requires { 1 ≤ n }
        ensures { self.new ≡ written_by_plan (with_piece n self.old.plan) self.old }
    {
        self.plan.set_piece(n);
    }

    /// Lets the write with this number fail. `Err`: out of memory, and the sink is as before.
    pub fn fail(&mut self, call: u64) -> Result<(), AllocError>
        ensures ok { OnOk result (self.new ≡ written_by_plan (with_failing call self.old.plan) self.old) }
        ensures err { OnErr result (self.new ≡ self.old) }
    {
        self.plan.fail(call)
    }

    /// The bytes written.
    pub fn bytes(&self) -> &[u8]
        ensures { result.now ≡ self.now.bytes }
    {
        self.bytes.as_slice()
    }
}

impl Sink for MemorySink {
    ghost written = { λ s. Some s.bytes };

    ghost faults = { λ s. s.plan.faults };

    /// A write fails exactly where its number was given to `fail`, or the room is used up and the
    /// piece is not empty. Each other takes as much as the room and `piece` allow.
    fn write(&mut self, bytes: &[u8]) -> Put
        ensures writes { Writes result bytes.now (Some self.old.bytes) (Some self.new.bytes) }
        ensures cause { WriteHasCause result bytes.now self.old.plan.faults self.new.plan.faults }
        ensures later { self.old.plan.faults ≤ self.new.plan.faults }
        ensures bounded { self.new.plan.faults ≤ 2 ^ 64 - 1 }
        ensures answer { result ≡ write_answer self.old bytes.now }
        ensures after { self.new ≡ after_write self.old bytes.now }
    {
        let left = self.room - self.bytes.len();
        let failed = self.plan.fails_next() || (left == 0 && !bytes.is_empty());
        self.plan.count(failed);
        if failed {
            return Put::Failed;
        }
        let n = bytes.len().min(self.plan.piece()).min(left);
        self.bytes.extend_from_slice(&bytes[..n]).unwrap();
        Put::Took(n)
    }
}
