//! What makes a version or a branch of a store.
use db_store::Store;
use db_value::{Changes, Entry, Fields, Name, Record, Value, VersionPlace, Widths};
use std::alloc::Global;
use std::test::Fail;

/// A relation, a key, and the fields that are put there, or none to delete what is there.
pub type Step = (u8, u64, &'static [i64]);

/// A branch and a position.
pub type Pair = (u32, u32);

/// A commit on a branch, with a second parent or without one, or a branch made from a place.
pub enum Made {
    Commit(u32, Option<Pair>, &'static [Step]),
    Branch(&'static str, Pair),
}

pub fn at(pair: Pair) -> VersionPlace {
    let (branch, position) = pair;
    VersionPlace { branch, position }
}

fn place_of(pair: Option<Pair>) -> Option<VersionPlace> {
    match pair {
        None => None,
        Some(pair) => Some(at(pair)),
    }
}

fn fields_of(alloc: Global, numbers: &[i64]) -> Result<Fields, Fail> {
    let mut values = Vec::new(alloc);
    for number in numbers {
        values.push(Value::Number { value: *number })?;
    }
    Ok(Fields::of(&values).ok_or("too many fields")?)
}

// As many widths of numbers.
fn widths_of(numbers: &[i64]) -> Result<Widths, Fail> {
    let widths = [0u8; 15].get(..numbers.len()).and_then(Widths::of);
    Ok(widths.ok_or("too many columns")?)
}

// A change more: of a record that is put, or of a key that is deleted.
fn put_step(alloc: Global, changes: &mut Changes, step: &Step) -> Result<(), Fail> {
    let (relation, key, numbers) = step;
    if numbers.is_empty() {
        return Ok(changes.remove(*relation, *key)?);
    }
    let row = Record {
        key: *key,
        fields: fields_of(alloc, numbers)?,
    };
    Ok(changes.put(*relation, &row, &widths_of(numbers)?)?)
}

fn commit_of(
    alloc: Global,
    branch: u32,
    second: Option<Pair>,
    steps: &[Step],
) -> Result<Entry, Fail> {
    let mut changes = Changes::new(alloc);
    for step in steps {
        put_step(alloc, &mut changes, step)?;
    }
    Ok(Entry::Commit {
        branch,
        second: place_of(second),
        changes,
    })
}

pub fn entry_of(alloc: Global, made: &Made) -> Result<Entry, Fail> {
    match made {
        Made::Commit(branch, second, steps) => commit_of(alloc, *branch, *second, steps),
        Made::Branch(name, origin) => Ok(Entry::Branch {
            name: Name::read(name.as_bytes()).ok_or("no name")?,
            origin: at(*origin),
        }),
    }
}

// Adds an entry, if it fits.
fn add<St: Store>(store: &mut St, entry: &Entry) -> Result<(), Fail> {
    if !store.fits(entry) {
        return Err("doesn't fit".into());
    }
    match entry {
        Entry::Commit { .. } => {
            let prepared = store.prepare(entry)?;
            store.install(prepared);
        }
        Entry::Branch { .. } => {
            let prepared = store.prepare_branch(entry)?;
            store.install_branch(prepared);
        }
    }
    Ok(())
}

pub fn make_all<St: Store>(alloc: Global, store: &mut St, all: &[Made]) -> Result<(), Fail> {
    for made in all {
        add(store, &entry_of(alloc, made)?)?;
    }
    Ok(())
}
