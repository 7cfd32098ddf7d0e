//! What an entry has, and whether its changes fit a schema and a table.
ghost use Rattle.std.specs.Prelude.{◌≡◌, ◌+◌, ◌<◌, ◌≤◌, ◌-◌, ◌^◌, ◌&&◌, true, nat_le, length, drop};
ghost use Rattle.std.specs.FinMap as finite;
ghost use Rattle.std.specs.List.{list_all};
ghost use Rattle.db_value.specs.PackedChanges.{change_here};
ghost use Rattle.db_store.specs.Fits.{changes_of, second_of, IsCommit, IsBranch, makes_version, first_is_before, ascends, has_fields, has_widths, change_fits, changes_fit, is_within, most_keys};
ghost use Rattle.db_store.specs.Table.{with_changes, relation_at};
ghost use Rattle.store_catalogue.specs.Entries.{branch_of, name_of, origin_of};
ghost use Rattle.db_store.specs.Counts.{recounted};

use crate::KeyedTable;
use db_value::{Changes, Entry, Name, Schema, VersionPlace, Widths};

/// The most changes of an entry.
const MOST_CHANGES: usize = 65_536;

/// The most keys of a relation.
const MOST_KEYS: usize = 262_144;

/// The changes of a commit.
pub fn changes_of(entry: &Entry) -> &Changes
    requires { IsCommit entry.now }
    ensures { result.now ≡ changes_of entry.now }
{
    match entry {
        Entry::Commit {
            branch: _,
            second: _,
            changes,
        } => changes,
        Entry::Branch { .. } => unreachable!(),
    }
}

/// The second parent that an entry gives.
pub fn second_of(entry: &Entry) -> Option<VersionPlace>
    ensures { result ≡ second_of entry.now }
{
    match entry {
        Entry::Commit {
            branch: _,
            second,
            changes: _,
        } => *second,
        Entry::Branch { .. } => None,
    }
}

/// The branch of a commit.
pub fn branch_of(entry: &Entry) -> u32
    requires { IsCommit entry.now }
    ensures { result ≡ branch_of entry.now }
{
    match entry {
        Entry::Commit {
            branch,
            second: _,
            changes: _,
        } => *branch,
        Entry::Branch { .. } => unreachable!(),
    }
}

/// The name of a new branch.
pub fn name_of(entry: &Entry) -> Name
    requires { IsBranch entry.now }
    ensures { result ≡ name_of entry.now }
{
    match entry {
        Entry::Commit { .. } => unreachable!(),
        Entry::Branch { name, origin: _ } => *name,
    }
}

/// The origin of a new branch.
pub fn origin_of(entry: &Entry) -> VersionPlace
    requires { IsBranch entry.now }
    ensures { result ≡ origin_of entry.now }
{
    match entry {
        Entry::Commit { .. } => unreachable!(),
        Entry::Branch { name: _, origin } => *origin,
    }
}

/// Is there a change or a second parent?
pub fn makes_version(second: &Option<VersionPlace>, changes: &Changes) -> bool
    ensures { result ≡ makes_version second.now changes.now }
{
    second.is_some() || changes.len() > 0
}

// Stands a change before the next one in order, if there is a next one?
#[tactic(auto, using(crate::proofs::FitLemmas::before_next, crate::proofs::FitLemmas::before_none))]
fn stands_before_next(changes: &Changes, at: usize) -> bool
    requires { at < length changes.now }
    ensures { result ≡ first_is_before (drop at changes.now) }
{
    if changes.len() - at <= 1 {
        return true;
    }
    let next = at + 1;
    let first = changes.relation(at);
    let second = changes.relation(next);
    first < second || (first == second && changes.key(at) < changes.key(next))
}

// Does a change put fields that meet these widths, and tell the same widths, or does it delete?
fn change_meets(widths: &Widths, changes: &Changes, at: usize) -> bool
    requires { at < length changes.now }
    ensures { result ≡ (has_fields widths.now (change_here changes.now at).fields && has_widths
        widths.now (change_here changes.now at).fields (change_here changes.now at).widths) }
{
    let puts = changes.puts(at);
    let Some(own) = changes.widths(at) else {
        return !puts;
    };
    puts && own.are_same(widths) && changes.meets(at, widths)
}

fn change_fits(schema: &Schema, changes: &Changes, at: usize) -> bool
    requires { at < length changes.now }
    ensures { result ≡ change_fits schema.now (change_here changes.now at) }
{
    let relation = changes.relation(at);
    if relation as usize >= schema.relations().len() {
        return false;
    }
    change_meets(&schema.widths(relation), changes, at)
}

// Do changes ascend, and does each fit a schema? It goes over them once.
#[tactic(auto, using(crate::proofs::FitLemmas::fit_next, crate::proofs::FitLemmas::unordered, crate::proofs::FitLemmas::unfit))]
fn ascend_and_fit(schema: &Schema, changes: &Changes) -> bool
    ensures { result ≡ (ascends changes.now && list_all (change_fits schema.now) changes.now) }
{
    for at in 0..changes.len() {
        if !stands_before_next(changes, at) {
            return false;
        }
        if !change_fits(schema, changes, at) {
            return false;
        }
    }
    true
}

/// Are there few enough changes, ascending, and does each fit a schema: is it of one of its relations,
/// with the widths of that one and fields that meet them?
pub fn changes_fit(schema: &Schema, changes: &Changes) -> bool
    ensures { result ≡ changes_fit schema.now changes.now }
{
    changes.len() <= MOST_CHANGES && ascend_and_fit(schema, changes)
}

/// The count after a change of a key that was there or wasn't, and is put or deleted.
pub fn recount(count: usize, was_there: bool, is_put: bool) -> usize
    requires { count < 2 ^ 64 - 1 }
    ensures { result ≡ recounted count was_there is_put }
{
    match (was_there, is_put) {
        (true, true) => count,
        (true, false) => count.saturating_sub(1),
        (false, true) => count + 1,
        (false, false) => count,
    }
}

// How many keys a relation has after changes. It takes no memory.
fn count_after<T: KeyedTable>(table: &T, relation: u8, changes: &Changes) -> usize
    requires few { length changes.now ≤ MOST_CHANGES }
    requires ascending { ascends changes.now ≡ true }
    requires relation { relation < length (T.table_of table.now) }
    ensures { result
        ≡ finite.len (relation_at (with_changes (T.table_of table.now) changes.now) relation) }
{
    let mut count = table.keys(relation) as usize;
    for at in 0..changes.len() {
        let own = changes.relation(at);
        if own != relation {
            continue;
        }
        let key = changes.key(at);
        count = recount(count, table.has(relation, key), changes.puts(at));
    }
    count
}

// Has a relation few enough keys after changes? They are counted only if there were too many, should each
// change put a new key.
fn stays_within<T: KeyedTable>(table: &T, relation: u8, changes: &Changes) -> bool
    requires few { length changes.now ≤ MOST_CHANGES }
    requires ascending { ascends changes.now ≡ true }
    requires relation { relation < length (T.table_of table.now) }
    ensures { result
        ≡ nat_le (finite.len (relation_at (with_changes (T.table_of table.now) changes.now) relation))
        most_keys }
{
    if table.keys(relation) as usize + changes.len() <= MOST_KEYS {
        return true;
    }
    count_after(table, relation, changes) <= MOST_KEYS
}

/// Has every relation of a table, which has so many relations, few enough keys after changes? It
/// counts them where there could be too many, and takes no memory.
pub fn is_within<T: KeyedTable>(table: &T, width: u8, changes: &Changes) -> bool
    requires few { length changes.now ≤ MOST_CHANGES }
    requires ascending { ascends changes.now ≡ true }
    requires width { width ≡ length (T.table_of table.now) }
    ensures { result ≡ is_within (with_changes (T.table_of table.now) changes.now) }
{
    for relation in 0..width {
        if !stays_within(table, relation, changes) {
            return false;
        }
    }
    true
}
