//! A note with its pen and passes, on one thread. What is seen was counted by hand.
ghost use Rattle.std.specs.Prelude.{◌≡◌, [], ◌∷◌, Some, None, IfOk};
ghost use Rattle.history_note.specs.Shown.{new_pen};
ghost use Rattle.history_note.specs.Views.{noted_line};

use crate::asserts::holds;
use crate::boards::new_store;
use db_store::Store;
use db_value::{ListOf, Reply, Step};
use history_note::{Note, Pass, Pen};
use plain_store::PlainStore;
use std::alloc::{AllocError, Global};
use std::process::Abort;
use std::test::Fail;

// A line is written with the first pass, and one more is left. That is written while the pen carries
// the second pass. Then the first pass comes back.
fn line_written_later<St: Store>(
    note: &Note<St>,
    pen: &mut Pen<St>,
    step: &Step,
) -> Result<(Pass<St>, Pass<St>), AllocError>
    requires { pen.old ≡ new_pen note.now }
    ensures note { IfOk result (λ r. (r.0.note ≡ note.now.note) × (r.1.note ≡ note.now.note)) }
    ensures left { IfOk result (λ r. (r.0.left ≡ None) × (r.1.left ≡ None)) }
    ensures seen { IfOk result (λ r.
        (r.0.seen ≡ noted_line 3 step.now ∷ noted_line 3 step.now ∷ [])
        × (r.1.seen ≡ noted_line 3 step.now ∷ noted_line 3 step.now ∷ [])) }
    ensures mine { IfOk result (λ r. (r.0.mine ≡ 0 ∷ 1 ∷ []) × (r.1.mine ≡ [])) }
{
    let first = note.issue(pen, 3, 7)?;
    let second = note.issue(pen, 4, 8)?;
    note.take_in(pen, first);
    note.write(pen, 3, step);
    note.leave(pen, &step.line);
    let first = note.hand_out(pen)?;
    note.take_in(pen, second);
    note.write(pen, 3, step);
    let second = note.hand_out(pen)?;
    note.take_in(pen, first);
    if !pen.carries() {
        return Err(AllocError);
    }
    let first = note.hand_out(pen)?;
    Ok((first, second))
}

// A line is left, and is what the pass left that is handed out then.
fn line_left<St: Store>(
    note: &Note<St>,
    pen: &mut Pen<St>,
    step: &Step,
) -> Result<Pass<St>, AllocError>
    requires { pen.old ≡ new_pen note.now }
    ensures note { IfOk result (λ p. p.note ≡ note.now.note) }
    ensures left { IfOk result (λ p. p.left ≡ Some step.now.line) }
{
    let first = note.issue(pen, 3, 7)?;
    note.take_in(pen, first);
    note.leave(pen, &step.line);
    let first = note.hand_out(pen)?;
    Ok(first)
}

fn new_note(alloc: Global) -> Result<(Note<PlainStore>, Pen<PlainStore>), Fail>
    ensures { IfOk result (λ r. r.1 ≡ new_pen r.0) }
{
    let store = new_store(alloc)?;
    let (note, pen) = Note::new(alloc, &store)?;
    Ok((note, pen))
}

fn new_step(alloc: Global) -> Result<Step, Fail> {
    let line = ListOf::of(b"7 begin".as_slice().to_vec(alloc)?);
    Ok(Step {
        line,
        failed: false,
        reply: Reply::Done,
    })
}

// Each load tells how long the list is.
fn loads<St: Store>(note: &Note<St>, pen: &mut Pen<St>, step: &Step) -> Result<bool, AllocError>
    requires { pen.old ≡ new_pen note.now }
{
    let (mut first, mut second) = line_written_later(note, pen, step)?;
    Ok(!pen.carries() && note.load(&mut first) == 2 && note.load(&mut second) == 2)
}

// No line is in the list.
fn loads_none<St: Store>(
    note: &Note<St>,
    pen: &mut Pen<St>,
    step: &Step,
) -> Result<bool, AllocError>
    requires { pen.old ≡ new_pen note.now }
{
    let mut first = line_left(note, pen, step)?;
    Ok(!pen.carries() && note.load(&mut first) == 0)
}

#[test]
fn a_line_that_is_left_is_kept(rt: HostRuntime) -> Result<(), Fail> {
    let step = new_step(rt.alloc())?;
    let (note, mut pen) = new_note(rt.alloc())?;
    let is_told = loads_none(&note, &mut pen, &step)?;
    holds(&rt, "no line, and no pass is carried", is_told);
    Ok(())
}

#[test]
fn a_line_that_is_left_is_written_later(rt: HostRuntime) -> Result<(), Fail> {
    let step = new_step(rt.alloc())?;
    let (note, mut pen) = new_note(rt.alloc())?;
    let are_told = loads(&note, &mut pen, &step)?;
    holds(&rt, "two lines, and no pass is carried", are_told);
    Ok(())
}
