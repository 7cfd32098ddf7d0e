//! The history of a bitmap.
ghost use Rattle.std.specs.Prelude.{◌≡◌, ◌+◌, ◌-◌, ◌/◌, ◌%◌, ◌<◌, ◌≤◌, ◌^◌, [], ◌∷◌, ◌++◌, length, take, drop, OnOk, IfOk, IfSome};
ghost use Rattle.std.proofs.Common.{get_or};
ghost use Rattle.commit_history.specs.Combined.{xor_of, combined};
ghost use Rattle.commit_history.specs.Runs.{composites, completed, completed_by, next_of};

use crate::delta::Delta;
use crate::level::{Level, NextItem};
use plain_bits::Bits;
use std::alloc::{AllocError, Global};
use std::marker::Model;

const RUN: usize = 16;

/// A history is a list of deltas, in the order of the commits.
///
/// ```text
/// deltas   0 1 2 .. 15 | 16 .. 31 | .. | 256 ..
/// by_16         0      |    1     | .. |           the exclusive or of each full run of 16 deltas
/// by_256                    0          |           the exclusive or of each full run of 16 of those
/// by_4096                                          and so on
/// ```
///
/// So the bitmap after a commit is the exclusive or of at most 15 of each, and of all in `by_4096`.
#[derive(Drop)]
pub struct History {
    alloc: Global,
    deltas: Level,
    by_16: Level,
    by_256: Level,
    by_4096: Level,
}

impl Model for History {
    ghost use Rattle.std.specs.Prelude.{Bool, List};
    ghost use Rattle.commit_history.specs.Runs.{AreLevels};

    ghost Value = { List (List Bool) };

    ghost view = { λ h. h.deltas };

    ghost invariant = { λ h. AreLevels h.deltas h.by_16 h.by_256 h.by_4096 };
}

/// A delta that can be pushed onto a history, with all that the push needs.
#[derive(Drop)]
pub struct NextDelta {
    delta: NextItem,
    by_16: Option<NextItem>,
    by_256: Option<NextItem>,
    by_4096: Option<NextItem>,
}

impl Model for NextDelta {
    ghost use Rattle.std.specs.Prelude.{◌<◌, ◌-◌, ◌^◌};
    ghost use Rattle.commit_history.specs.Runs.{Next, next_code};

    ghost Value = { Next };

    ghost coded = { next_code };

    ghost view = { λ n. record { delta = n.delta; by_16 = n.by_16; by_256 = n.by_256; by_4096 = n.by_4096 } };

    ghost invariant = { λ n. n.delta.count < 2 ^ 32 - 1 };
}

// Changes in a bitmap the places of all deltas, one after another.
fn combine_all(deltas: &[Delta], bits: &mut Bits) -> Result<(), AllocError>
    ensures { OnOk result (bits.new ≡ xor_of (combined deltas.now) bits.old) }
{
    for delta in deltas {
        delta.combine(bits)?;
    }
    Ok(())
}

// The exclusive or of some deltas and one more.
fn composite(alloc: Global, deltas: &[Delta], last: &Delta) -> Result<Delta, AllocError>
    ensures { IfOk result (λ made. made ≡ combined (deltas.now ++ last.now ∷ [])) }
{
    let mut bits = Bits::new(alloc);
    combine_all(deltas, &mut bits)?;
    last.combine(&mut bits)?;
    let made = Delta::of_bits(alloc, &bits)?;
    Ok(made)
}

// The last items of a level, as many as asked for.
#[tactic(auto, using(std::proofs::lemmas::List::take_rest))]
fn last_items(level: &Level, count: usize) -> &[Delta]
    requires { count ≤ length level.now }
    ensures { result.now ≡ drop (length level.now - count) level.now }
{
    &level.as_slice()[level.len() - count..]
}

// The composite for `above` of the run that one item more completes below it, if it does.
fn complete(
    alloc: Global,
    level: &Level,
    above: &Level,
    item: &Delta,
) -> Result<Option<NextItem>, AllocError>
    requires few { length level.now < 2 ^ 32 }
    requires above { above.now ≡ composites level.now }
    ensures { IfOk result (λ next. next ≡ completed level.now item.now) }
{
    if level.len() % RUN != RUN - 1 {
        return Ok(None);
    }
    let made = composite(alloc, last_items(level, RUN - 1), item)?;
    Ok(Some(above.ready(made)?))
}

// The same where the item is itself a composite, if there is one.
fn complete_by(
    alloc: Global,
    level: &Level,
    above: &Level,
    item: &Option<NextItem>,
) -> Result<Option<NextItem>, AllocError>
    requires few { length level.now < 2 ^ 32 }
    requires above { above.now ≡ composites level.now }
    ensures { IfOk result (λ next. next ≡ completed_by level.now item.now) }
{
    match item {
        None => Ok(None),
        Some(item) => complete(alloc, level, above, item.delta()),
    }
}

// The items after the last full run of the first n.
fn rest(level: &Level, n: usize) -> &[Delta]
    requires { n ≤ length level.now }
    ensures { result.now ≡ take (n % RUN) (drop (n - n % RUN) level.now) }
{
    &level.as_slice()[n - n % RUN..n]
}

fn count_rest(level: &Level, n: usize) -> usize
    requires { n ≤ length level.now }
    ensures { result ≡ n % RUN }
{
    rest(level, n).len()
}

fn combine_rest(level: &Level, n: usize, bits: &mut Bits) -> Result<(), AllocError>
    requires { n ≤ length level.now }
    ensures { OnOk result (bits.new
        ≡ xor_of (combined (take (n % RUN) (drop (n - n % RUN) level.now))) bits.old) }
{
    combine_all(rest(level, n), bits)
}

impl History {
    /// A history without deltas.
    pub fn new(alloc: Global) -> History
        ensures { result ≡ [] }
    {
        History {
            alloc,
            deltas: Level::new(alloc),
            by_16: Level::new(alloc),
            by_256: Level::new(alloc),
            by_4096: Level::new(alloc),
        }
    }

    /// How many deltas there are.
    pub fn len(&self) -> u32
        ensures { result ≡ length self.now }
    {
        self.deltas.len() as u32
    }

    /// The delta of a commit.
    pub fn delta(&self, index: u32) -> &Delta
        requires { index < length self.now }
        ensures { result.now ≡ get_or self.now index [] }
    {
        &self.deltas.as_slice()[index as usize]
    }

    /// Takes all memory that a push needs. The delta is the places that are true in a bitmap.
    pub fn ready(&self, delta: Bits) -> Result<NextDelta, AllocError>
        requires { length self.now < 2 ^ 32 - 1 }
        ensures { IfOk result (λ next. next ≡ next_of self.now delta) }
    {
        let delta = Delta::of_bits(self.alloc, &delta)?;
        self.ready_delta(delta)
    }

    /// Takes all memory that a push of the delta needs. This history stays as it is.
    pub fn ready_delta(&self, delta: Delta) -> Result<NextDelta, AllocError>
        requires { length self.now < 2 ^ 32 - 1 }
        ensures { IfOk result (λ next. next ≡ next_of self.now delta) }
    {
        let by_16 = complete(self.alloc, &self.deltas, &self.by_16, &delta)?;
        let by_256 = complete_by(self.alloc, &self.by_16, &self.by_256, &by_16)?;
        let by_4096 = complete_by(self.alloc, &self.by_256, &self.by_4096, &by_256)?;
        let delta = self.deltas.ready(delta)?;
        Ok(NextDelta {
            delta,
            by_16,
            by_256,
            by_4096,
        })
    }

    /// Puts a delta after the others. It was made ready for this history, or for one whose deltas
    /// are the same. This takes no memory.
    pub fn push(&mut self, next: NextDelta)
        requires { next ≡ next_of self.old next.delta.item }
        ensures { self.new ≡ self.old ++ next.delta.item ∷ [] }
    {
        self.deltas.push(next.delta);
        self.by_16.push_if(next.by_16);
        self.by_256.push_if(next.by_256);
        self.by_4096.push_if(next.by_4096);
    }

    /// The bitmap after the first `n` commits: the exclusive or of as many deltas.
    pub fn at(&self, n: u32) -> Result<Bits, AllocError>
        requires { n ≤ length self.now }
        ensures { IfOk result (λ bits. bits ≡ combined (take n self.now)) }
    {
        let n = n as usize;
        let mut bits = Bits::new(self.alloc);
        combine_all(&self.by_4096.as_slice()[..n / 4096], &mut bits)?;
        combine_rest(&self.by_256, n / 256, &mut bits)?;
        combine_rest(&self.by_16, n / 16, &mut bits)?;
        combine_rest(&self.deltas, n, &mut bits)?;
        Ok(bits)
    }

    /// How many bitmaps `at` combines: at most 64 for the first 65,536 commits.
    pub fn bitmaps_at(&self, n: u32) -> u32
        requires { n ≤ length self.now }
        ensures count { result ≡ n / 4096 + n / 256 % RUN + n / 16 % RUN + n % RUN }
        ensures few { n ≤ 65536 → result ≤ 64 }
    {
        let n = n as usize;
        let by_4096 = self.by_4096.as_slice()[..n / 4096].len();
        let by_256 = count_rest(&self.by_256, n / 256);
        let by_16 = count_rest(&self.by_16, n / 16);
        (by_4096 + by_256 + by_16 + count_rest(&self.deltas, n)) as u32
    }

    /// An equal history of its own.
    pub fn duplicate(&self) -> Result<History, AllocError>
        ensures { IfOk result (λ copy. copy ≡ self.now) }
    {
        let deltas = self.deltas.duplicate()?;
        let by_16 = self.by_16.duplicate()?;
        let by_256 = self.by_256.duplicate()?;
        let by_4096 = self.by_4096.duplicate()?;
        Ok(History {
            alloc: self.alloc,
            deltas,
            by_16,
            by_256,
            by_4096,
        })
    }
}
