//! A queue of entries, in batches.
ghost use Rattle.std.specs.Prelude.{◌≡◌, ◌↔◌, ◌+◌, ◌<◌, [], ◌∷◌, ◌++◌, length, Bool, ℕ, None, Some, is_ok, IfOk, IfSome, OnOk, OnErr, IsErrOf};
ghost use Rattle.flush_queue.specs.Queue.{no_batch, next_ticket, IsGiven, outcome, settled, settled_by};
ghost use Rattle.flush_queue.specs.Appends.{Appends};

use db_outside::{Batch, BatchStop, Failed};
use db_store::Store;
use entry_codec::Log;
use std::alloc::{AllocError, Global};
use std::marker::Model;

/// The most bytes of a body, and those that stand round it in a record.
const MOST_RECORD: usize = 16_777_253;

/// A ticket is for an entry that was offered. It tells the number of its batch.
#[derive(Clone, Copy)]
pub struct Ticket {
    number: usize,
}

impl Model for Ticket {
    ghost use Rattle.std.specs.Prelude.{ℕ};

    ghost Value = { ℕ };

    ghost view = { λ t. t.number };

    ghost inverse = { λ n. record { number = n } };
}

/// A queue is the batch of the entries that wait, and whether each earlier batch was written.
///
/// The memory of a settle is taken by the offer before it.
#[derive(Drop)]
pub struct FlushQueue {
    alloc: Global,
    batch: Batch,
    // the next batch, which is there while one waits
    next: Option<Batch>,
    results: Vec<bool>,
}

impl Model for FlushQueue {
    ghost use Rattle.std.specs.Prelude.{◌≡◌, ◌⊎◌, ◌<◌, [], Some, IfSome, vec_len, vec_capacity};
    ghost use Rattle.flush_queue.specs.Queue.{AtQueue};

    ghost Value = { AtQueue };

    ghost view = { λ q. record { waiting = q.batch; results = q.results.items } };

    ghost invariant = { λ q. IfSome q.next (λ b. b ≡ [])
        × ((q.batch ≡ []) ⊎ ((q.next ≡ Some []) × (vec_len q.results < vec_capacity q.results))) };
}

// An empty batch, if there is none yet.
fn make_next(alloc: Global, next: &mut Option<Batch>) -> Result<(), AllocError>
    requires { IfSome next.old (λ b. b ≡ []) }
    ensures ready { OnOk result (next.new ≡ Some []) }
    ensures stays { OnErr result (next.new ≡ next.old) }
{
    if next.is_none() {
        *next = Some(Batch::new(alloc)?);
    }
    Ok(())
}

impl FlushQueue {
    /// A queue in which nothing waits.
    pub fn new(alloc: Global) -> Result<FlushQueue, AllocError>
        ensures { IfOk result (λ q. q ≡ no_batch) }
    {
        Ok(FlushQueue {
            alloc,
            batch: Batch::new(alloc)?,
            next: None,
            results: Vec::new(alloc),
        })
    }

    /// The spelling of an entry waits behind those offered before. `Full` tells that it doesn't fit
    /// beside them, so settle first. A stop leaves all as it was.
    pub fn offer(&mut self, entry: &[u8]) -> Result<Ticket, BatchStop>
        ensures ticket { IfOk result (λ t. t ≡ next_ticket self.old) }
        ensures added { OnOk result
            (self.new ≡ record self.old { waiting = self.old.waiting ++ entry.now }) }
        ensures full { IsErrOf result BatchStop.Full
            ↔ (16777216 < length self.old.waiting + length entry.now) }
        ensures given { (t : ℕ) → IsGiven self.old t → IsGiven self.new t }
        ensures stays { OnErr result (self.new ≡ self.old) }
    {
        if entry.len() > MOST_RECORD - self.batch.bytes().len() {
            return Err(BatchStop::Full);
        }
        if self.results.reserve(1).is_err() || make_next(self.alloc, &mut self.next).is_err() {
            return Err(BatchStop::Memory);
        }
        self.batch.add(entry)?;
        Ok(Ticket {
            number: self.results.len(),
        })
    }

    /// Whether the batch of a ticket was written. None tells that it waits.
    pub fn outcome(&self, ticket: Ticket) -> Option<bool>
        requires { IsGiven self.now ticket }
        ensures { result ≡ outcome self.now ticket }
    {
        self.results.get(ticket.number).copied()
    }

    /// Writes the batch of a ticket by one append, if it waits, and tells whether it was written, now
    /// or earlier. It takes no memory.
    pub fn settle<St: Store, J: Log<St>>(
        &mut self,
        log: &mut J,
        ticket: Ticket,
    ) -> Result<(), Failed>
        requires { IsGiven self.old ticket }
        ensures log { outcome self.old ticket ≡ None
            → Appends J.Log self.old.waiting log.old log.new result }
        ensures queue { self.new
            ≡ settled_by (outcome self.old ticket) self.old (is_ok result) }
        ensures spared { (w : Bool) → outcome self.old ticket ≡ Some w → log.new ≡ log.old }
        ensures answer { (w : Bool) → outcome self.old ticket ≡ Some w → is_ok result ≡ w }
        ensures given { (t : ℕ) → IsGiven self.old t → IsGiven self.new t }
    {
        match self.outcome(ticket) {
            Some(true) => Ok(()),
            Some(false) => Err(Failed),
            None => self.settle_waiting::<St, J>(log),
        }
    }

    // Writes the batch that waits.
    fn settle_waiting<St: Store, J: Log<St>>(&mut self, log: &mut J) -> Result<(), Failed>
        requires { self.old.waiting ≡ [] → ⊥ }
        ensures log { Appends J.Log self.old.waiting log.old log.new result }
        ensures queue { self.new ≡ settled self.old (is_ok result) }
    {
        let told = log.append(&self.batch);
        if let Some(fresh) = self.next.take() {
            self.batch = fresh;
        }
        self.results.push_reserved(told.is_ok());
        told
    }
}
