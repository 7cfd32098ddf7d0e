//! How many records scans and merges of versions of a plain store read. What they answer is asked of
//! the program.
ghost use Rattle.std.specs.Prelude.{◌≡◌, ◌<◌, length, IfOk};
ghost use Rattle.std.specs.List.{All};
ghost use Rattle.db_store.specs.Parts.{AreOf};

use crate::asserts::same;
use crate::made::{Made, make_all};
use crate::watched::{Watched, counted};
use db_store::Store;
use db_value::{Pred, Prefer, Schema, Steps};
use field_merge::{MergeStop, merge_tables};
use multi_scan::scan;
use plain_store::PlainStore;
use std::alloc::Global;
use std::cell::Cell;
use std::marker::Brand;
use std::process::Abort;
use std::sync::ledger::{Blank, Ledger};
use std::test::Fail;

// The first relation has 3, 4, 3, 2 and 2 records after them, the second one 1.
#[rattlefmt::skip]
const COMMITS: [Made; 5] = [
    Made::Commit(0, None, &[(0, 1, &[10, 20]), (0, 2, &[1, 1]), (0, 3, &[3, 3]), (1, 5, &[5, 5])]),
    Made::Commit(0, None, &[(0, 1, &[11, 20]), (0, 4, &[4, 4])]),
    Made::Commit(0, None, &[(0, 1, &[10, 21]), (0, 2, &[]), (0, 4, &[]), (0, 9, &[9, 9]), (1, 5, &[5, 6])]),
    Made::Commit(0, None, &[(0, 1, &[12, 5]), (0, 2, &[1, 1]), (0, 3, &[]), (0, 9, &[]), (1, 5, &[7, 5])]),
    Made::Commit(0, None, &[(0, 2, &[2, 1])]),
];

fn five_versions(alloc: Global) -> Result<PlainStore, Fail> {
    let (schema, _) = Schema::read(alloc, b"relation items a b\nrelation notes a b\nend\n")?;
    let mut store = PlainStore::new(alloc, schema)?;
    make_all(alloc, &mut store, &COMMITS)?;
    Ok(store)
}

// Views of versions of one store.
fn views_of<'a, St: Store>(
    alloc: Global,
    store: &St,
    positions: &[u32],
    reads: &'a Cell<u32>,
) -> Result<Vec<Watched<'a, St::View>>, Fail>
    ensures wide { IfOk result (λ ws. All (λ w. 0 < length (St.View.table w.view)) ws.items) }
    ensures parts { IfOk result (λ ws.
        All (λ w. AreOf (St.state store.now) (St.View.parts_of w.view)) ws.items) }
{
    let mut views = Vec::new(alloc);
    for position in positions {
        let view = counted(store, *position, reads)?;
        views.push(view)?;
    }
    Ok(views)
}

// Scans the first relation of versions.
fn scan_counted<St: Store, L: Ledger>(
    alloc: Global,
    store: &St,
    positions: &[u32],
    reads: &Cell<u32>,
    blank: Blank,
) -> Result<(), Fail>
    requires name { blank.name ≡ L.name }
    requires parts { blank.parts ≡ L.parts }
    requires some { 0 < L.parts }
{
    let views = views_of(alloc, store, positions, reads)?;
    let mut steps = Steps::<L>::open(blank);
    scan(alloc, &views, 0, &Pred::always(alloc), &mut steps)?;
    Ok(())
}

// How many records it reads, where nobody else counts the steps.
fn read_by_scan(alloc: Global, store: &PlainStore, positions: &[u32]) -> Result<u32, Fail> {
    let reads = Cell::new(0);
    scan_counted::<PlainStore, Brand>(alloc, store, positions, &reads, Blank::new(1))?;
    Ok(reads.get())
}

// How many records a merge reads that prefers the left side. The versions are base, left, right.
fn read_by_merge<St: Store>(alloc: Global, store: &St, positions: &[u32; 3]) -> Result<u32, Fail> {
    let reads = Cell::new(0);
    let base = counted(store, positions[0], &reads)?;
    let left = counted(store, positions[1], &reads)?;
    let right = counted(store, positions[2], &reads)?;
    match merge_tables(alloc, store.schema(), &base, &left, &right, Prefer::Left) {
        Ok(_) => Ok(reads.get()),
        Err(MergeStop::Memory) => Err("no memory".into()),
        Err(MergeStop::Conflict { .. }) => Err("a conflict".into()),
    }
}

#[rattlefmt::skip]
const SCANNED: [(&str, &[u32], u32); 5] = [
    // what is asked                     of versions   records read
    ("three views that share a part",    &[3, 3, 3],    3),
    ("two that share one, and another",  &[3, 2, 3],    7),
    ("two parts, each shared by two",    &[5, 1, 5, 1], 5),
    ("none that is shared",              &[1, 2, 3],    10),
    ("one view",                         &[2],          4),
];

#[rattlefmt::skip]
const MERGED: [(&str, [u32; 3], u32); 6] = [
    // what is merged              base, left, right  records read
    ("a version with itself",      [1, 1, 1],         0),
    ("the last one with itself",   [5, 5, 5],         0),
    ("left is the ancestor",       [1, 1, 2],         13),
    ("right is the ancestor",      [1, 2, 1],         13),
    ("both sides are one",         [1, 2, 2],         14),
    ("three versions",             [1, 2, 3],         13),
];

fn scans(rt: &impl Abort, alloc: Global, store: &PlainStore) -> Result<(), Fail> {
    for (name, positions, read) in &SCANNED {
        same(rt, name, read_by_scan(alloc, store, positions)?, *read);
    }
    Ok(())
}

#[test]
fn reads_a_shared_part_once(rt: HostRuntime) -> Result<(), Fail> {
    let store = five_versions(rt.alloc())?;
    scans(&rt, rt.alloc(), &store)
}

fn merges(rt: &impl Abort, alloc: Global, store: &PlainStore) -> Result<(), Fail> {
    for (name, positions, read) in &MERGED {
        same(rt, name, read_by_merge(alloc, store, positions)?, *read);
    }
    Ok(())
}

#[test]
fn reads_no_part_that_all_three_show(rt: HostRuntime) -> Result<(), Fail> {
    let store = five_versions(rt.alloc())?;
    merges(&rt, rt.alloc(), &store)
}
