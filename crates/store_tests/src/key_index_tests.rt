//! The index against the standard library's map.
use crate::asserts::holds;
use key_index::{KeyIndex, SpotChange, SpotChanges};
use std::alloc::{AllocError, Global};
use std::collections::BTreeMap;
use std::process::Abort;
use std::test::Fail;

type Place = Option<(u32, u32)>;

type Tree = BTreeMap<u64, (u32, u32)>;

// So many keys that leaves and nodes split, and join again as the keys go. A prime, so that each
// step below reaches all.
const KEYS: u32 = 9_001;

/// What is changed: all keys in the order of a step, so many at once. Of five one after another the
/// first so many are put, the others removed.
struct Round {
    name: &'static str,
    step: u32,
    put: u32,
    at_once: u32,
    batches: u32,
}

#[rattlefmt::skip]
const ROUNDS: [Round; 9] = [
    Round { name: "put in ascending order",         step: 1,     put: 5, at_once: 1,     batches: KEYS },
    Round { name: "some removed, descending",       step: 9_000, put: 1, at_once: 1,     batches: KEYS },
    Round { name: "put in scattered order",         step: 2_741, put: 5, at_once: 1,     batches: KEYS },
    Round { name: "removed in ascending order",     step: 1,     put: 0, at_once: 1,     batches: KEYS },
    Round { name: "all at once, and some again",    step: 7,     put: 3, at_once: 9_050, batches: 1 },
    Round { name: "the same in descending order",   step: 9_000, put: 2, at_once: 9_050, batches: 1 },
    Round { name: "a hundred at once, descending",  step: 9_000, put: 4, at_once: 100,   batches: 91 },
    Round { name: "a hundred at once, scattered",   step: 2_741, put: 1, at_once: 100,   batches: 91 },
    Round { name: "all removed at once",            step: 1,     put: 0, at_once: KEYS,  batches: 1 },
];

fn change_tree(tree: &mut Tree, key: u64, place: Place) -> Result<(), AllocError> {
    match place {
        Some(place) => {
            tree.insert(key, place)?;
        }
        None => {
            tree.remove(&key);
        }
    }
    Ok(())
}

// The change with a number: a key, and where it stands then.
fn change(round: &Round, number: u32) -> (u64, Place) {
    let key = u64::from(number).wrapping_mul(u64::from(round.step)) % u64::from(KEYS);
    let place = if number % 5 < round.put {
        Some((number, round.step))
    } else {
        None
    };
    (key, place)
}

// A batch of changes, which are made in the tree.
fn push_batch(
    items: &mut Vec<SpotChange>,
    tree: &mut Tree,
    round: &Round,
    batch: u32,
) -> Result<(), AllocError> {
    for at in 0..round.at_once {
        let number = batch.wrapping_mul(round.at_once).wrapping_add(at);
        let (key, place) = change(round, number);
        change_tree(tree, key, place)?;
        items.push(SpotChange { key, place })?;
    }
    Ok(())
}

fn changed(
    alloc: Global,
    index: &KeyIndex,
    tree: &mut Tree,
    round: &Round,
    batch: u32,
) -> Result<KeyIndex, AllocError> {
    let mut items = Vec::new(alloc);
    push_batch(&mut items, tree, round, batch)?;
    index.with_changes(&SpotChanges::of(items))
}

fn turned(
    alloc: Global,
    index: KeyIndex,
    tree: &mut Tree,
    round: &Round,
) -> Result<KeyIndex, AllocError> {
    let mut index = index;
    for batch in 0..round.batches {
        index = changed(alloc, &index, tree, round, batch)?;
    }
    Ok(index)
}

fn agree(index: &KeyIndex, tree: &Tree) -> bool {
    for key in 0..u64::from(KEYS) + 2 {
        if index.find(key) != tree.get(&key).copied() {
            return false;
        }
    }
    true
}

fn agrees_in_each_round(rt: &impl Abort, alloc: Global, tree: &mut Tree) -> Result<(), AllocError> {
    let mut index = KeyIndex::new(alloc);
    for round in &ROUNDS {
        index = turned(alloc, index, tree, round)?;
        holds(rt, round.name, agree(&index, tree));
    }
    Ok(())
}

#[test]
fn agrees_with_a_tree_in_each_order(rt: HostRuntime) -> Result<(), Fail> {
    let mut tree = BTreeMap::new(rt.alloc());
    agrees_in_each_round(&rt, rt.alloc(), &mut tree)?;
    Ok(())
}
