//! What fits a plain store, and a copy of it that grew. The expected answers are written by hand.
use crate::asserts::holds;
use crate::made::{Made, entry_of, make_all};
use db_store::Store;
use db_value::Schema;
use plain_store::PlainStore;
use std::alloc::Global;
use std::process::Abort;
use std::test::Fail;

/// Three branches, one of them of position 0 of another, and two merges.
#[rattlefmt::skip]
const BRANCHED: [Made; 7] = [
    Made::Commit(0, None, &[(0, 1, &[7])]),
    Made::Commit(0, None, &[(0, 1, &[]), (0, 2, &[7])]),
    Made::Branch("old", (0, 1)),
    Made::Branch("deep", (1, 0)),
    Made::Commit(1, None, &[(0, 3, &[7])]),
    Made::Commit(0, Some((1, 1)), &[(0, 4, &[7])]),
    Made::Commit(2, Some((1, 0)), &[]),
];

const MORE: [Made; 2] = [
    Made::Commit(1, None, &[(0, 9, &[7])]),
    Made::Branch("late", (0, 3)),
];

#[rattlefmt::skip]
const FITS: [(&str, Made, bool, bool); 19] = [
    // what is added             the entry                                                     fits, after more
    ("a put",                    Made::Commit(1, None, &[(0, 5, &[7])]),                       true,  true),
    ("a deletion of no key",     Made::Commit(1, None, &[(0, 5, &[])]),                        true,  true),
    ("a merge alone",            Made::Commit(0, Some((2, 0)), &[]),                           true,  true),
    ("two relations",            Made::Commit(2, None, &[(0, 5, &[7]), (1, 2, &[7, 8])]),      true,  true),
    ("nothing",                  Made::Commit(0, None, &[]),                                   false, false),
    ("a branch to come",         Made::Commit(3, None, &[(0, 5, &[7])]),                       false, true),
    ("a parent to come",         Made::Commit(0, Some((1, 2)), &[]),                           false, true),
    ("a parent on no branch",    Made::Commit(0, Some((4, 0)), &[]),                           false, false),
    ("a key twice",              Made::Commit(0, None, &[(0, 5, &[7]), (0, 5, &[])]),          false, false),
    ("keys that fall",           Made::Commit(0, None, &[(0, 6, &[7]), (0, 5, &[])]),          false, false),
    ("relations that fall",      Made::Commit(0, None, &[(1, 2, &[7, 8]), (0, 5, &[])]),       false, false),
    ("a field too many",         Made::Commit(0, None, &[(0, 5, &[7, 8])]),                    false, false),
    ("a field too few",          Made::Commit(0, None, &[(1, 5, &[7])]),                       false, false),
    ("no relation",              Made::Commit(0, None, &[(2, 5, &[])]),                        false, false),
    ("a new branch",             Made::Branch("new", (2, 1)),                                  true,  true),
    ("a name that is there",     Made::Branch("old", (0, 0)),                                  false, false),
    ("a name to come",           Made::Branch("late", (0, 0)),                                 true,  false),
    ("of a version to come",     Made::Branch("new", (1, 2)),                                  false, true),
    ("of no branch",             Made::Branch("new", (4, 0)),                                  false, false),
];

fn branched(alloc: Global) -> Result<PlainStore, Fail> {
    let (schema, _) = Schema::read(alloc, b"relation items a\nrelation notes b c\nend\n")?;
    let mut store = PlainStore::new(alloc, schema)?;
    make_all(alloc, &mut store, &BRANCHED)?;
    Ok(store)
}

fn are_told(
    rt: &impl Abort,
    alloc: Global,
    old: &PlainStore,
    new: &PlainStore,
) -> Result<(), Fail> {
    for (name, made, fits, later) in &FITS {
        let entry = entry_of(alloc, made)?;
        holds(
            rt,
            name,
            old.fits(&entry) == *fits && new.fits(&entry) == *later,
        );
    }
    Ok(())
}

fn grows_beside_a_copy(rt: &impl Abort, alloc: Global, store: &PlainStore) -> Result<(), Fail> {
    let mut copy = store.duplicate()?;
    make_all(alloc, &mut copy, &MORE)?;
    are_told(rt, alloc, store, &copy)
}

#[test]
fn entries_fit_by_the_table(rt: HostRuntime) -> Result<(), Fail> {
    let store = branched(rt.alloc())?;
    grows_beside_a_copy(&rt, rt.alloc(), &store)
}
