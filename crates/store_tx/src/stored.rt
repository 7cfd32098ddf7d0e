//! What a line asks of the log: its entry goes to the log and then to the store, or the state is written
//! as an image.
ghost use Rattle.std.specs.Prelude.{◌≡◌, ◌≤◌, Some, None, true, false, length, IfOk, OnOk, OnErr};
ghost use Rattle.db_outside.specs.Record.{most_body};
ghost use Rattle.db_store.specs.Body.{IsShort, IsShortIf};
ghost use Rattle.db_store.specs.Fits.{fits};
ghost use Rattle.db_store.specs.State.{dataset_of};
ghost use Rattle.entry_codec.specs.Spelling.{spelling};
ghost use Rattle.entry_codec.specs.Laws.{IsNamed, IsEntry};
ghost use Rattle.store_tx.specs.Ends.{grown};
ghost use Rattle.store_tx.specs.Stored.{Stores, entry_called, told_if, stored_if, FitsIf, IsNamedIf, SparesIf};

use db_outside::{Batch, BatchStop};
use db_store::Store;
use db_value::{Entry, Refusal, Reply};
use entry_codec::{CheckpointStop, Log, encode, fitting_law};
use std::alloc::{AllocError, Global};

/// What a line asks of the log.
#[derive(Drop)]
pub enum LogCall {
    /// The log isn't called.
    Nothing,
    /// An entry is to be stored.
    Append { entry: Entry },
    /// The state is to be written as an image.
    Save,
}

/// What a line that ends a transaction is to do: what it is told, what is asked of the log first, and
/// the branch to which its session moves.
#[derive(Drop)]
pub struct Plan {
    pub told: Reply,
    pub call: LogCall,
    pub moved: Option<u32>,
}

/// What a line was told, and whether the log failed to do what it was asked for.
#[derive(Drop)]
pub struct Answer {
    pub told: Reply,
    pub failed: bool,
}

/// A plan that asks nothing of the log and moves nobody.
pub fn plain(told: Reply) -> Plan
    ensures told { result.told ≡ told }
    ensures call { result.call ≡ LogCall.Nothing }
    ensures moved { result.moved ≡ None }
{
    Plan {
        told,
        call: LogCall::Nothing,
        moved: None,
    }
}

/// An answer for which no log is called. It does nothing to store and log.
pub fn unmarked<St: Store, J: Log<St>>(_store: &St, _log: &J, told: Reply) -> Answer
    ensures told { result.told ≡ told }
    ensures failed { result.failed ≡ false }
    ensures stores { Stores J.Log (St.state _store.now) false LogCall.Nothing _log.now _log.now }
{
    Answer {
        told,
        failed: false,
    }
}

// The batch of one entry, ready to be appended. An entry that fits is within the rules of spelling.
fn batch_of<St: Store>(alloc: Global, _store: &St, entry: &Entry) -> Result<Batch, AllocError>
    requires fits { fits (dataset_of (St.state _store.now)) entry.now ≡ true }
    requires named { IsNamed entry.now }
    requires short { IsShort entry.now }
    ensures bytes { IfOk result (λ b. b ≡ spelling entry.now) }
    ensures within { OnOk result (IsEntry entry.now) }
    ensures few { IfOk result (λ b. length b ≤ most_body) }
{
    fitting_law();
    let bytes = encode(alloc, entry)?;
    let mut batch = Batch::new(alloc)?;
    match batch.add(bytes.as_slice()) {
        Ok(()) => Ok(batch),
        Err(BatchStop::Full) => unreachable!(),
        Err(BatchStop::Memory) => Err(AllocError),
    }
}

// Adds an entry that no log has to store.
fn add_entry<St: Store>(store: &mut St, entry: &Entry) -> Result<(), AllocError>
    requires fits { fits (dataset_of (St.state store.old)) entry.now ≡ true }
    ensures ok { OnOk result (St.state store.new ≡ grown (St.state store.old) (Some entry.now)) }
    ensures err { OnErr result (St.state store.new ≡ St.state store.old) }
    ensures spare { OnOk result
        (SparesIf (Some entry.now) (St.spare store.old) (St.spare store.new)) }
    ensures spared { OnErr result (St.spare store.old ≤ St.spare store.new) }
{
    match entry {
        Entry::Commit { .. } => {
            let commit = store.prepare(entry)?;
            store.install(commit);
        }
        Entry::Branch { .. } => {
            let branch = store.prepare_branch(entry)?;
            store.install_branch(branch);
        }
    }
    Ok(())
}

// Stores an entry, and adds it. It tells whether the log failed; then the state stays.
fn store_entry<St: Store, J: Log<St>>(
    alloc: Global,
    store: &mut St,
    log: &mut J,
    entry: &Entry,
) -> Result<bool, AllocError>
    requires fits { fits (dataset_of (St.state store.old)) entry.now ≡ true }
    requires named { IsNamed entry.now }
    requires short { IsShort entry.now }
    ensures state { IfOk result (λ failed. St.state store.new
        ≡ grown (St.state store.old) (stored_if failed (Some entry.now))) }
    ensures stores { IfOk result (λ failed. Stores J.Log (St.state store.old) failed
        (LogCall.Append entry.now) log.old log.new) }
    ensures err { OnErr result ((St.state store.new ≡ St.state store.old) × (log.new ≡ log.old)) }
    ensures spare { OnOk result
        (SparesIf (Some entry.now) (St.spare store.old) (St.spare store.new)) }
    ensures spared { OnErr result (St.spare store.old ≤ St.spare store.new) }
{
    if log.stores_nothing() {
        add_entry(store, entry)?;
        return Ok(false);
    }
    let batch = batch_of(alloc, store, entry)?;
    match entry {
        Entry::Commit { .. } => {
            let prepared = store.prepare(entry)?;
            match log.append(&batch) {
                Err(_) => Ok(true),
                Ok(()) => {
                    store.install(prepared);
                    Ok(false)
                }
            }
        }
        Entry::Branch { .. } => {
            let prepared = store.prepare_branch(entry)?;
            match log.append(&batch) {
                Err(_) => Ok(true),
                Ok(()) => {
                    store.install_branch(prepared);
                    Ok(false)
                }
            }
        }
    }
}

/// Writes the state of a store as an image. It tells whether the log failed. Want of memory calls no
/// log.
pub fn save<St: Store, J: Log<St>>(store: &St, log: &mut J) -> Result<bool, AllocError>
    ensures stores { IfOk result (λ failed. Stores J.Log (St.state store.now) failed LogCall.Save
        log.old log.new) }
    ensures err { OnErr result (log.new ≡ log.old) }
{
    match log.checkpoint(store) {
        Ok(()) => Ok(false),
        Err(CheckpointStop::DiskFault) => Ok(true),
        Err(CheckpointStop::Memory) => Err(AllocError),
    }
}

/// What a line is told, or that the log failed.
pub fn told_if(failed: bool, told: Reply) -> Reply
    ensures { result ≡ told_if failed told }
{
    if failed {
        return Reply::Refused {
            why: Refusal::FaultDisk,
        };
    }
    told
}

fn answered(told: Reply, failed: bool) -> Answer
    ensures told { result.told ≡ told_if failed told }
    ensures failed { result.failed ≡ failed }
{
    Answer {
        told: told_if(failed, told),
        failed,
    }
}

/// Carries a plan out: its entry, if it has one, is stored in the log and then added to the store; or
/// the log writes an image. All memory is taken before the log is called. If the log fails, the line is
/// refused for the disk, and the state stays.
pub fn carry_out<St: Store, J: Log<St>>(
    alloc: Global,
    store: &mut St,
    log: &mut J,
    plan: Plan,
) -> Result<Answer, AllocError>
    requires fits { FitsIf (dataset_of (St.state store.old)) (entry_called plan.call) }
    requires named { IsNamedIf (entry_called plan.call) }
    requires short { IsShortIf (entry_called plan.call) }
    ensures told { IfOk result (λ a. a.told ≡ told_if a.failed plan.told) }
    ensures state { IfOk result (λ a. St.state store.new
        ≡ grown (St.state store.old) (stored_if a.failed (entry_called plan.call))) }
    ensures stores { IfOk result (λ a. Stores J.Log (St.state store.old) a.failed plan.call log.old
        log.new) }
    ensures err { OnErr result ((St.state store.new ≡ St.state store.old) × (log.new ≡ log.old)) }
    ensures spare { OnOk result
        (SparesIf (entry_called plan.call) (St.spare store.old) (St.spare store.new)) }
    ensures spared { OnErr result (St.spare store.old ≤ St.spare store.new) }
{
    let Plan { told, call, .. } = plan;
    match call {
        LogCall::Nothing => Ok(unmarked(store, log, told)),
        LogCall::Append { entry } => {
            let failed = store_entry(alloc, store, log, &entry)?;
            Ok(answered(told, failed))
        }
        LogCall::Save => {
            let failed = save(store, log)?;
            let answer = answered(told, failed);
            Ok(answer)
        }
    }
}
