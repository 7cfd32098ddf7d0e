//! The entries of a journal, taken into a store.
ghost use Rattle.std.specs.Prelude.{◌≡◌, ◌+◌, ◌<◌, Option, Some, None, true, false, option_map, IfOk, OnOk};
ghost use Rattle.db_store.specs.Fits.{fits, IsCommit, IsBranch};
ghost use Rattle.db_store.specs.State.{dataset_of, grow};
ghost use Rattle.entry_codec.specs.Grammar.{entries_in};
ghost use Rattle.generations.specs.Files.{applied};
ghost use Rattle.generations.specs.Replays.{TakesBody, Replays};

use db_store::Store;
use db_value::Entry;
use entry_codec::{EntryStop, decode};
use gate_journal::{Body, Cause};
use std::alloc::{AllocError, Global};

fn is_commit(entry: &Entry) -> bool
    ensures commit { result ≡ true → IsCommit entry.now }
    ensures branch { result ≡ false → IsBranch entry.now }
{
    match entry {
        Entry::Commit { .. } => true,
        Entry::Branch { .. } => false,
    }
}

// Adds an entry that fits.
fn take_fitting<St: Store>(store: &mut St, entry: &Entry) -> Result<(), AllocError>
    requires { fits (dataset_of (St.state store.old)) entry.now ≡ true }
    ensures { OnOk result (St.state store.new ≡ grow (St.state store.old) entry.now) }
{
    if is_commit(entry) {
        let prepared = store.prepare(entry)?;
        store.install(prepared);
        return Ok(());
    }
    let prepared = store.prepare_branch(entry)?;
    store.install_branch(prepared);
    Ok(())
}

// Adds an entry where it fits, and tells whether it did.
fn take<St: Store>(store: &mut St, entry: &Entry) -> Result<bool, AllocError>
    ensures fits { IfOk result (λ fit. fit ≡ fits (dataset_of (St.state store.old)) entry.now) }
    ensures taken { IfOk result (λ fit.
        fit ≡ true → St.state store.new ≡ grow (St.state store.old) entry.now) }
{
    if !store.fits(entry) {
        return Ok(false);
    }
    take_fitting(store, entry)?;
    Ok(true)
}

// The entries of a body, where it is entries one after another.
fn entries_of(alloc: Global, body: &[u8]) -> Result<Option<Vec<Entry>>, AllocError>
    ensures { IfOk result (λ o. option_map (λ v. v.items) o ≡ entries_in body.now) }
{
    let mut entries: Vec<Entry> = Vec::new(alloc);
    let mut at = 0usize;
    'entries: while at < body.len() {
        match decode(alloc, &body[at..]) {
            Err(EntryStop::NotAnEntry) => return Ok(None),
            Err(EntryStop::Memory) => return Err(AllocError),
            Ok((entry, size)) => {
                at += size;
                entries.push(entry)?;
            }
        }
    }
    Ok(Some(entries))
}

// Adds entries in order, each of which has to fit, and tells whether all did.
fn take_all<St: Store>(store: &mut St, entries: &[Entry]) -> Result<bool, AllocError>
    ensures all { IfOk result (λ fit.
        fit ≡ true → applied (St.state store.old) entries.now ≡ Some (St.state store.new)) }
    ensures unfit { IfOk result (λ fit.
        fit ≡ false → applied (St.state store.old) entries.now ≡ None) }
{
    for entry in entries {
        if !take(store, entry)? {
            return Ok(false);
        }
    }
    Ok(true)
}

// What became of a body.
pub enum Taken {
    // So many entries were added.
    All { entries: usize },
    NotEntries,
    Unfit,
}

// Adds the entries of a body.
fn take_body<St: Store>(alloc: Global, store: &mut St, body: &[u8]) -> Result<Taken, AllocError>
    ensures { IfOk result (λ t. TakesBody t (St.state store.old) body.now (St.state store.new)) }
{
    let Some(entries) = entries_of(alloc, body)? else {
        return Ok(Taken::NotEntries);
    };
    if !take_all(store, &entries)? {
        return Ok(Taken::Unfit);
    }
    Ok(Taken::All {
        entries: entries.len(),
    })
}

/// What became of the bodies of a journal.
pub enum Replayed {
    /// So many entries were added.
    All { entries: u64 },
    /// The record at this place is the first that is no entries, or has one that doesn't fit.
    Damaged { at: u64, cause: Cause },
}

fn sum(a: u64, b: u64) -> Result<u64, AllocError>
    ensures { IfOk result (λ n. n ≡ a + b) }
{
    match a.checked_add(b) {
        Some(n) => Ok(n),
        None => Err(AllocError),
    }
}

/// Adds the entries of bodies in order, of which the first one's gate stands at a place.
pub fn take_bodies<St: Store>(
    alloc: Global,
    store: &mut St,
    from: u64,
    bodies: &[Body],
) -> Result<Replayed, AllocError>
    ensures { IfOk result (λ r.
        Replays r (St.state store.old) from bodies.now (St.state store.new)) }
{
    let mut at = from;
    let mut count = 0u64;
    for body in bodies {
        match take_body(alloc, store, body.as_slice())? {
            Taken::NotEntries => {
                return Ok(Replayed::Damaged {
                    at,
                    cause: Cause::Grammar,
                });
            }
            Taken::Unfit => {
                return Ok(Replayed::Damaged {
                    at,
                    cause: Cause::EntryUnfit,
                });
            }
            Taken::All { entries } => {
                count = sum(count, entries as u64)?;
                at = sum(at, sum(37, body.as_slice().len() as u64)?)?;
            }
        }
    }
    Ok(Replayed::All { entries: count })
}
