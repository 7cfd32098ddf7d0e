//! The rows of a branch: for each of its segments the history of its bits.
ghost use Rattle.std.specs.Prelude.{◌≡◌, ℕ, ◌+◌, ◌-◌, ◌<◌, ◌≤◌, ◌^◌, ◌++◌, ◌∷◌, [], true, length, IfOk, OnOk};
ghost use Rattle.std.specs.List.{All};
ghost use Rattle.plain_bits.specs.Truth.{bit_of, IsClearFrom};
ghost use Rattle.commit_history.specs.Runs.{next_of};
ghost use Rattle.hybrid_view.specs.Deltas.{slots_of};
ghost use Rattle.bit_rows.specs.Short.{end_of, shortest};
ghost use Rattle.bit_rows.specs.Rows.{kept_row_at, next_at, pushed_row, shortest_row};

use crate::more::{MoreRows, add_row};
use commit_history::{Delta, History, NextDelta};
use plain_bits::Bits;
use std::alloc::{AllocError, Global};
use std::marker::Model;

// The true places of a bitmap, ascending, and where they end.
#[tactic(auto, using(crate::proofs::ShortLemmas::end_push, crate::proofs::ShortLemmas::slots_next, crate::proofs::ShortLemmas::slots_rest))]
fn places_of(alloc: Global, bits: &Bits) -> Result<(Vec<u32>, u32), AllocError>
    ensures places { IfOk result (λ p. p.0.items ≡ slots_of bits.now) }
    ensures end { IfOk result (λ p. p.1 ≡ end_of p.0.items) }
    ensures within { IfOk result (λ p. All (λ place. place < p.1) p.0.items) }
{
    let mut places = Vec::new(alloc);
    let mut end = 0;
    'places: while end < bits.len() {
        match bits.next_one(end) {
            None => return Ok((places, end)),
            Some(place) => {
                places.push(place)?;
                end = place + 1;
            }
        }
    }
    Ok((places, end))
}

/// The delta that changes the true places of a bitmap, as short as it can be.
pub fn short_delta(alloc: Global, bits: &Bits) -> Result<Delta, AllocError>
    ensures { IfOk result (λ delta. delta ≡ shortest (slots_of bits.now)) }
{
    let (places, end) = places_of(alloc, bits)?;
    Delta::of_places(alloc, end, &places)
}

// Where the true places of a bitmap end.
fn end_in(bits: &Bits) -> u32
    ensures within { result ≤ length bits.now }
    ensures clear { IsClearFrom bits.now result }
    ensures last { 0 < result → bit_of bits.now (result - 1) ≡ true }
{
    let mut end = bits.len();
    while end > 0 {
        if bits.get(end - 1) {
            return end;
        }
        end -= 1;
    }
    0
}

// The same delta, made word by word: where many places are true.
fn whole_delta(alloc: Global, bits: &Bits) -> Result<Delta, AllocError>
    ensures { IfOk result (λ delta. delta ≡ shortest (slots_of bits.now)) }
{
    let end = end_in(bits);
    Delta::of_front(alloc, bits, end)
}

/// What a branch has of a segment: the position at which the row begins, and what each position from
/// there on changes in its bits.
#[derive(Drop)]
pub struct BitRow {
    segment: u32,
    from: u32,
    deltas: History,
}

impl Model for BitRow {
    ghost use Rattle.bit_rows.specs.Rows.{KeptRow, row_code};

    ghost Value = { KeptRow };

    ghost coded = { row_code };

    ghost view = { λ r. record { segment = r.segment; from = r.from; deltas = r.deltas } };
}

impl BitRow {
    /// The row of a segment from a position on, at which these bits are true.
    pub fn begin(alloc: Global, segment: u32, from: u32, bits: &Bits) -> Result<BitRow, AllocError>
        ensures { IfOk result (λ row. row
            ≡ record {
              segment = segment;
              from = from;
              deltas = shortest (slots_of bits.now) ∷ [];
            }) }
    {
        let mut deltas = History::new(alloc);
        let next = deltas.ready_delta(whole_delta(alloc, bits)?)?;
        deltas.push(next);
        Ok(BitRow {
            segment,
            from,
            deltas,
        })
    }

    /// The row of a segment from a position on, at which and after which these deltas change bits.
    #[tactic(auto, using(crate::proofs::ShortLemmas::shorts_next))]
    pub fn of(
        alloc: Global,
        segment: u32,
        from: u32,
        deltas: &History,
    ) -> Result<BitRow, AllocError>
        ensures { IfOk result (λ row. row ≡ shortest_row segment from deltas.now) }
    {
        let mut short = History::new(alloc);
        for index in 0..deltas.len() {
            let bits = deltas.delta(index).bits(alloc)?;
            let next = short.ready_delta(whole_delta(alloc, &bits)?)?;
            short.push(next);
        }
        Ok(BitRow {
            segment,
            from,
            deltas: short,
        })
    }

    /// The number of its segment.
    pub fn segment(&self) -> u32
        ensures { result ≡ self.now.segment }
    {
        self.segment
    }

    /// The position at which it begins.
    pub fn from(&self) -> u32
        ensures { result ≡ self.now.from }
    {
        self.from
    }

    /// What its positions change, from the first one on.
    pub fn deltas(&self) -> &History
        ensures { result.now ≡ self.now.deltas }
    {
        &self.deltas
    }

    /// Takes all the memory that a push of the true places of a bitmap needs.
    pub fn ready(&self, alloc: Global, bits: &Bits) -> Result<NextDelta, AllocError>
        requires { length self.now.deltas < 2 ^ 32 - 1 }
        ensures { IfOk result (λ next. next
            ≡ next_of self.now.deltas (shortest (slots_of bits.now))) }
    {
        let delta = short_delta(alloc, bits)?;
        self.deltas.ready_delta(delta)
    }

    /// Adds a delta that is ready for it. It takes no memory.
    pub fn push(&mut self, next: NextDelta)
        requires { next ≡ next_of self.old.deltas next.delta.item }
        ensures { self.new ≡ pushed_row self.old next }
    {
        self.deltas.push(next);
    }

    /// The same row with a history of its own.
    pub fn duplicate(&self) -> Result<BitRow, AllocError>
        ensures { IfOk result (λ row. row ≡ self.now) }
    {
        Ok(BitRow {
            segment: self.segment,
            from: self.from,
            deltas: self.deltas.duplicate()?,
        })
    }
}

/// What is ready for the rows of a relation, one for each.
#[derive(Drop)]
pub struct NextDeltas {
    items: Vec<NextDelta>,
}

impl Model for NextDeltas {
    ghost use Rattle.std.specs.Prelude.{List};
    ghost use Rattle.std.specs.Coded.{coded_list};
    ghost use Rattle.commit_history.specs.Runs.{Next, next_code};

    ghost Value = { List Next };

    ghost coded = { coded_list next_code };

    ghost view = { λ n. n.items.items };
}

impl NextDeltas {
    /// These.
    pub fn of(items: Vec<NextDelta>) -> NextDeltas
        ensures { result ≡ items.items }
    {
        NextDeltas { items }
    }
}

// Adds to each row the delta that is ready for it.
fn push_each(rows: &mut Vec<BitRow>, mut nexts: Vec<NextDelta>)
    requires count { length nexts.items ≡ length rows.old.items }
    requires ready { (i : ℕ) → i < length rows.old.items
        → next_at nexts.items i ≡ next_of (kept_row_at rows.old.items i).deltas
        (next_at nexts.items i).delta.item }
    ensures count { length rows.new.items ≡ length rows.old.items }
    ensures each { (i : ℕ) → i < length rows.old.items
        → kept_row_at rows.new.items i
        ≡ pushed_row (kept_row_at rows.old.items i) (next_at nexts.items i) }
{
    // From the last one on, so that each can be moved out of the list.
    while let Some(next) = nexts.pop() {
        let index = nexts.len();
        rows[index].push(next);
    }
}

/// The rows of a relation, by ascending segment. The last one is of the branch's head.
#[derive(Drop)]
pub struct BitRows {
    items: Vec<BitRow>,
}

impl Model for BitRows {
    ghost use Rattle.std.specs.Prelude.{List};
    ghost use Rattle.std.specs.Coded.{coded_list};
    ghost use Rattle.bit_rows.specs.Rows.{KeptRow, row_code};

    ghost Value = { List KeptRow };

    ghost coded = { coded_list row_code };

    ghost view = { λ r. r.items.items };
}

impl BitRows {
    /// These rows.
    pub fn of(items: Vec<BitRow>) -> BitRows
        ensures { result ≡ items.items }
    {
        BitRows { items }
    }

    /// How many rows.
    pub fn len(&self) -> usize
        ensures { result ≡ length self.now }
    {
        self.items.len()
    }

    /// A row.
    pub fn row(&self, index: usize) -> &BitRow
        requires { index < length self.now }
        ensures { result.now ≡ kept_row_at self.now index }
    {
        &self.items[index]
    }

    /// Adds to each row the delta that is ready for it. It takes no memory.
    pub fn push(&mut self, nexts: NextDeltas)
        requires count { length nexts ≡ length self.old }
        requires ready { (i : ℕ) → i < length self.old
            → next_at nexts i ≡ next_of (kept_row_at self.old i).deltas
            (next_at nexts i).delta.item }
        ensures count { length self.new ≡ length self.old }
        ensures each { (i : ℕ) → i < length self.old
            → kept_row_at self.new i ≡ pushed_row (kept_row_at self.old i) (next_at nexts i) }
    {
        push_each(&mut self.items, nexts.items);
    }

    /// Adds the row of another head. It takes no memory.
    pub fn add(&mut self, more: MoreRows)
        requires { length self.old < more.room }
        ensures { self.new ≡ self.old ++ more.row ∷ [] }
    {
        add_row(&mut self.items, more);
    }

    /// The same rows with histories of their own.
    pub fn duplicate(&self, alloc: Global) -> Result<BitRows, AllocError>
        ensures { IfOk result (λ rows. rows ≡ self.now) }
    {
        let mut items = Vec::with_capacity(alloc, self.items.len())?;
        for row in &self.items {
            items.push(row.duplicate()?)?;
        }
        Ok(BitRows { items })
    }
}
