//! How rows of bits are read.
ghost use Rattle.std.specs.Prelude.{◌≡◌, ◌≤◌, ◌<◌, ◌+◌, ◌*◌, ◌/◌, ◌%◌, ◌^◌, ◌==◌, ◌||◌, nat_le, nat_lt, true, [], length, IfOk};
ghost use Rattle.image_text.specs.Reading.{Gives, repeat, next_word, words_for, spans, are_words, next_delta, rises, are_blank, next_row};

use crate::image::{Delta, RowPart, Stop};
use crate::numbers::Reader;
use crate::versions::last_of;
use db_value::ListOf;
use std::alloc::Global;

fn words_for(size: u32) -> u64
    ensures { result ≡ words_for size }
{
    (size as u64 + 63) / 64
}

fn spans(size: u32, first: u32, count: u32) -> bool
    ensures { result ≡ spans size first count }
{
    if count == 0 {
        first == 0
    } else {
        first as u64 + count as u64 <= words_for(size)
    }
}

fn is_end(size: u32, words: u64, last: u64) -> bool
    ensures { result ≡ (nat_le words (size / 64) || nat_lt last (2 ^ (size % 64))) }
{
    words <= (size / 64) as u64 || last < 1u64 << (size % 64)
}

#[tactic(auto, unfolding(crate::specs::Reading::are_words))]
fn are_words(size: u32, first: u32, words: &[u64]) -> bool
    ensures { result ≡ are_words size first words.now }
{
    match words {
        [] => true,
        [head, rest @ ..] => {
            let last = words[rest.len()];
            *head > 0 && last > 0 && is_end(size, first as u64 + words.len() as u64, last)
        }
    }
}

fn rises(rows: &[RowPart], branch: u32) -> bool
    ensures { result ≡ rises rows.now branch }
{
    match rows {
        [] => true,
        [_, rest @ ..] => rows[rest.len()].branch < branch,
    }
}

fn is_blank(delta: &Delta) -> bool
    ensures { result ≡ (length delta.now.words == 0) }
{
    delta.words.as_slice().is_empty()
}

fn are_blank(deltas: &[Delta]) -> bool
    ensures { result ≡ are_blank deltas.now }
{
    deltas.iter().all(|d| is_blank(d))
}

impl<'a> Reader<'a> {
    fn next_word(&mut self, words: &mut Vec<u64>) -> Result<(), Stop>
        ensures { Gives (λ x. (words.new.items, self.new.rest.now)) result
            (next_word words.old.items self.old.rest.now) }
    {
        let word = self.u64()?;
        words.push(word)?;
        Ok(())
    }

    #[tactic(auto, using(crate::proofs::Loop::goes_on, crate::proofs::Loop::ends, crate::proofs::Loop::is_done))]
    fn words(&mut self, alloc: Global, count: u32) -> Result<Vec<u64>, Stop>
        ensures { Gives (λ x. (x.items, self.new.rest.now)) result
            (repeat next_word count [] self.old.rest.now) }
    {
        let mut words: Vec<u64> = Vec::new(alloc);
        for _ in 0..count {
            self.next_word(&mut words)?;
        }
        Ok(words)
    }

    #[tactic(auto, unfolding(crate::specs::Reading::next_delta))]
    fn next_delta(&mut self, alloc: Global, size: u32, deltas: &mut Vec<Delta>) -> Result<(), Stop>
        ensures { Gives (λ x. (deltas.new.items, self.new.rest.now)) result
            (next_delta size deltas.old.items self.old.rest.now) }
    {
        let left = self.left();
        let first = self.u32()?;
        let count = self.u32()?;
        if !spans(size, first, count) {
            return Err(Stop::Fault(left));
        }
        let words = self.words(alloc, count)?;
        if !are_words(size, first, &words) {
            return Err(Stop::Fault(left));
        }
        let words = ListOf::of(words);
        deltas.push(Delta { first, words })?;
        Ok(())
    }

    #[tactic(auto, using(crate::proofs::Loop::goes_on, crate::proofs::Loop::ends, crate::proofs::Loop::is_done))]
    fn deltas(
        &mut self,
        alloc: Global,
        size: u32,
        count: u32,
        deltas: &mut Vec<Delta>,
    ) -> Result<(), Stop>
        ensures { Gives (λ x. (deltas.new.items, self.new.rest.now)) result
            (repeat (next_delta size) count deltas.old.items self.old.rest.now) }
    {
        for _ in 0..count {
            self.next_delta(alloc, size, deltas)?;
        }
        Ok(())
    }

    #[tactic(auto, unfolding(crate::specs::Reading::next_row))]
    fn next_row(
        &mut self,
        alloc: Global,
        lasts: &[u32],
        size: u32,
        rows: &mut Vec<RowPart>,
    ) -> Result<(), Stop>
        ensures { Gives (λ x. (rows.new.items, self.new.rest.now)) result
            (next_row lasts.now size rows.old.items self.old.rest.now) }
    {
        let left = self.left();
        let branch = self.u32()?;
        if branch as usize >= lasts.len() || !rises(rows, branch) {
            return Err(Stop::Fault(left));
        }
        let last = last_of(lasts, branch);
        let from_left = self.left();
        let from = self.u32()?;
        if from > last {
            return Err(Stop::Fault(from_left));
        }
        let mut deltas: Vec<Delta> = Vec::new(alloc);
        self.next_delta(alloc, size, &mut deltas)?;
        if from != 0 && !are_blank(&deltas) {
            return Err(Stop::Fault(left));
        }
        self.deltas(alloc, size, last - from, &mut deltas)?;
        let deltas = ListOf::of(deltas);
        rows.push(RowPart {
            branch,
            from,
            deltas,
        })?;
        Ok(())
    }

    /// So many rows, by ascending branch.
    #[tactic(auto, using(crate::proofs::Loop::goes_on, crate::proofs::Loop::ends, crate::proofs::Loop::is_done))]
    pub fn rows(
        &mut self,
        alloc: Global,
        lasts: &[u32],
        size: u32,
        count: u32,
    ) -> Result<Vec<RowPart>, Stop>
        ensures { Gives (λ x. (x.items, self.new.rest.now)) result
            (repeat (next_row lasts.now size) count [] self.old.rest.now) }
    {
        let mut rows: Vec<RowPart> = Vec::new(alloc);
        for _ in 0..count {
            self.next_row(alloc, lasts, size, &mut rows)?;
        }
        Ok(rows)
    }
}
