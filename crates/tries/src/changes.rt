//! Changes of working tables, each with its answer.
ghost use Rattle.std.specs.Prelude.{◌≡◌, ◌<◌, ◌∷◌, [], true, length, IfOk};
ghost use Rattle.db_value.specs.Relations.{widths_at};
ghost use Rattle.db_value.specs.declared.value.Value.TheVariants.{Number};
ghost use Rattle.db_store.specs.State.{dataset_of};
ghost use Rattle.db_store.specs.Dataset.{IsMade};
ghost use Rattle.db_store.specs.Overlay.{untouched};
ghost use Rattle.db_store.specs.WorkState.{overlays_of};
ghost use Rattle.tries.specs.Changes.{HasTwoNumbers, IsOver, first_set, two_changes};

use anyhow::Result;
use db_store::{Store, View, Work, WorkStop};
use db_value::{Changes, Fields, Record, Schema, Set, Sets, Value, VersionPlace, Widths};
use plain_store::PlainStore;
use std::alloc::{AllocError, Global};

// One change of a working table.
#[derive(Clone, Copy)]
enum Step {
    Insert(u64),
    Update(u64),
    Delete(u64),
}

// Fields of two columns of numbers.
fn two_fields(first: i64, second: i64) -> Fields
    ensures { result ≡ Number first ∷ (Number second ∷ []) }
{
    let mut fields = Fields::one(&Value::Number { value: first });
    fields.push(&Value::Number { value: second });
    fields
}

// Has the first relation two columns of numbers?
fn has_two_numbers(schema: &Schema) -> bool
    ensures { result ≡ true → HasTwoNumbers schema.now }
{
    if schema.relations().is_empty() {
        return false;
    }
    match Widths::of(&[0, 0]) {
        None => false,
        Some(widths) => schema.widths(0).are_same(&widths),
    }
}

// The last version of the first branch.
fn head_place<St: Store>(store: &St) -> VersionPlace
    requires { 0 < length (dataset_of (St.state store.now)).branches }
    ensures { IsMade (dataset_of (St.state store.now)) result }
{
    VersionPlace {
        branch: 0,
        position: store.last(0),
    }
}

// A new value of the first column.
fn one_set() -> Sets
    ensures { result ≡ first_set ∷ [] }
{
    let mut sets = Sets::new();
    sets.push(Set {
        column: 0,
        value: Value::Number { value: 5 },
    });
    sets
}

// Changes of two keys of the first relation, whose columns have these widths.
fn two_changes(alloc: Global, widths: &Widths) -> Result<Changes, AllocError>
    ensures { IfOk result (λ cs. cs ≡ two_changes widths.now) }
{
    let fields = two_fields(1, 2);
    let mut changes = Changes::new(alloc);
    changes.put(0, &Record { key: 1, fields }, widths)?;
    changes.put(0, &Record { key: 2, fields }, widths)?;
    Ok(changes)
}

// The answer to a step of a working table over this schema.
fn take_step<V: View>(
    _schema: &Schema,
    work: &mut Work<V>,
    step: Step,
    sets: &Sets,
) -> Result<(), WorkStop>
    requires schema { HasTwoNumbers _schema.now }
    requires work { IsOver _schema.now work.old }
    requires sets { sets.now ≡ first_set ∷ [] }
    ensures { IsOver _schema.now work.new }
{
    match step {
        Step::Insert(key) => {
            let fields = two_fields(1, 2);
            work.insert(0, &Record { key, fields })
        }
        Step::Update(key) => work.update(0, key, sets),
        Step::Delete(key) => work.delete(0, key),
    }
}

// The answers to all steps, and to the changes of a merge in a second and a third working table.
fn answers_of<V: View>(
    schema: &Schema,
    work: &mut Work<V>,
    merged: &mut Work<V>,
    crowded: &mut Work<V>,
    from: VersionPlace,
    sets: &Sets,
    changes: &Changes,
) -> [Result<(), WorkStop>; 12]
    requires schema { HasTwoNumbers schema.now }
    requires work { IsOver schema.now work.old }
    requires merged { IsOver schema.now merged.old × (overlays_of merged.old ≡ untouched) }
    requires crowded { IsOver schema.now crowded.old
        × (overlays_of crowded.old ≡ untouched) }
    requires sets { sets.now ≡ first_set ∷ [] }
    requires changes { changes.now ≡ two_changes (widths_at schema.now 0) }
{
    [
        take_step(schema, work, Step::Insert(1), sets),
        take_step(schema, work, Step::Insert(1), sets),
        take_step(schema, work, Step::Update(1), sets),
        take_step(schema, work, Step::Update(9), sets),
        take_step(schema, work, Step::Insert(2), sets),
        take_step(schema, work, Step::Delete(2), sets),
        take_step(schema, work, Step::Delete(2), sets),
        take_step(schema, work, Step::Insert(3), sets),
        take_step(schema, work, Step::Insert(4), sets),
        take_step(schema, work, Step::Insert(2), sets),
        merged.adopt(from, changes),
        crowded.adopt(from, changes),
    ]
}

fn text_of(answer: &Result<(), WorkStop>) -> &'static str {
    match answer {
        Ok(()) => "ok",
        Err(WorkStop::KeyThere) => "key there",
        Err(WorkStop::KeyMissing) => "key missing",
        Err(WorkStop::TableFull { .. }) => "table full",
        Err(WorkStop::Room) => "room",
        Err(WorkStop::BodyFull) => "body full",
    }
}

fn tell_answers<R: Print>(rt: &R, answers: &[Result<(), WorkStop>; 12]) -> Result<()> {
    println!(rt; "done")?;
    for answer in answers {
        println!(rt; "{}", text_of(answer))?;
    }
    Ok(())
}

// A working table over the table of a place.
fn work_over<St: Store>(
    alloc: Global,
    store: &St,
    at: VersionPlace,
    room: u32,
) -> Result<Work<St::View>, AllocError>
    requires { IsMade (dataset_of (St.state store.now)) at }
    ensures over { IfOk result (λ w.
        IsOver (dataset_of (St.state store.now)).schema w) }
    ensures untouched { IfOk result (λ w. overlays_of w ≡ untouched) }
{
    let view = store.view(at)?;
    Work::over(alloc, view, room, store.schema())
}

fn tell_changes<St: Store, R: Print + AllocGlobal>(rt: &R, store: &St) -> Result<()> {
    let schema = store.schema();
    if store.branches() == 0 || !has_two_numbers(schema) {
        return Ok(());
    }
    let alloc = rt.alloc();
    let sets = one_set();
    let changes = two_changes(alloc, &schema.widths(0))?;
    let at = head_place(store);
    let mut work = work_over(alloc, store, at, 3)?;
    let mut merged = work_over(alloc, store, at, 2)?;
    let mut crowded = work_over(alloc, store, at, 1)?;
    println!(rt; "begun")?;
    let answers = answers_of(
        schema,
        &mut work,
        &mut merged,
        &mut crowded,
        at,
        &sets,
        &changes,
    );
    tell_answers(rt, &answers)
}

/// Makes working tables, writes `begun`, changes them, and then writes an answer a line: what takes memory
/// between `begun` and `done` is a change.
pub fn try_changes<R: Print + AllocGlobal>(rt: &R) -> Result<()> {
    let (schema, _) = Schema::read(rt.alloc(), b"relation items a b\nend\n".as_slice())?;
    let store = PlainStore::new(rt.alloc(), schema)?;
    tell_changes(rt, &store)
}
