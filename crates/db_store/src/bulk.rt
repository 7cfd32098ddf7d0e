//! How many bytes the changes of a transaction have in its entry, counted as they come.
ghost use Rattle.std.specs.Prelude.{◌≡◌, ◌≤◌, ◌<◌, ◌+◌, ◌*◌, ◌^◌, nat_le, nat_lt, true, cond, Some, None, length, map};
ghost use Rattle.std.specs.List.{list_all};
ghost use Rattle.db_store.specs.Body.{is_of_texts, any_of_texts, second_size, most_entry};
ghost use Rattle.db_store.specs.Bulk.{no_bulk, weight, exchanged, size_in, bulk_of, with_own};

use db_value::row_form::size_of_row;
use db_value::{Changes, VersionPlace, Widths};

/// The most bytes of an entry.
pub const MOST_ENTRY: u64 = 16_777_216;

fn is_of_texts(width: u8) -> bool
    ensures { result ≡ is_of_texts width }
{
    width != 0
}

/// Is one of these columns of texts?
pub fn any_of_texts(widths: &[u8]) -> bool
    ensures { result ≡ any_of_texts widths.now }
{
    for at in 0..widths.len() {
        if is_of_texts(widths[at]) {
            return true;
        }
    }
    false
}

fn one_if(holds: bool) -> u64
    ensures { result ≡ cond holds 1 0 }
{
    if holds { 1 } else { 0 }
}

/// How many bytes an entry has for a second parent, or for none.
pub fn size_of_second(second: &Option<VersionPlace>) -> usize
    ensures size { result ≡ second_size second.now }
    ensures few { result ≤ 9 }
{
    match second {
        None => 1,
        Some(_) => 9,
    }
}

/// How many bytes changes have in an entry without texts and in one with texts, and how many of them
/// have a text.
#[derive(Clone, Copy)]
pub struct Bulk {
    plain: u64,
    wide: u64,
    texts: u64,
}

impl Bulk {
    /// No changes.
    pub fn none() -> Bulk
        ensures { result ≡ no_bulk }
    {
        Bulk {
            plain: 0,
            wide: 0,
            texts: 0,
        }
    }

    /// The change of a key of a relation with these widths. It puts a record or deletes it.
    pub fn of_change(widths: &Widths, puts: bool) -> Bulk
        ensures weight { result ≡ weight (cond puts (Some widths.now) None) }
        ensures plain { result.plain ≤ 4000 }
        ensures wide { result.wide ≤ 4000 }
        ensures texts { result.texts ≤ 1 }
    {
        if !puts {
            return Bulk {
                plain: 10,
                wide: 10,
                texts: 0,
            };
        }
        let own = widths.as_slice();
        let size = size_of_row(own) as u64;
        Bulk {
            plain: 10 + size,
            wide: 10 + (own.len() as u64 + size),
            texts: one_if(any_of_texts(own)),
        }
    }

    /// These changes, one of which is now that of a key of a relation with these widths. It puts a
    /// record or deletes it.
    pub fn exchange(&self, old: &Bulk, widths: &Widths, puts: bool) -> Bulk
        requires plain { old.now.plain ≤ self.now.plain }
        requires wide { old.now.wide ≤ self.now.wide }
        requires texts { old.now.texts ≤ self.now.texts }
        requires small_plain { self.now.plain < 2 ^ 62 }
        requires small_wide { self.now.wide < 2 ^ 62 }
        requires small_texts { self.now.texts < 2 ^ 62 }
        ensures bulk { result
            ≡ exchanged self.now old.now (weight (cond puts (Some widths.now) None)) }
        ensures more_plain { result.plain ≤ self.now.plain + 4000 }
        ensures more_wide { result.wide ≤ self.now.wide + 4000 }
        ensures more_texts { result.texts ≤ self.now.texts + 4000 }
    {
        let new = Bulk::of_change(widths, puts);
        Bulk {
            plain: self.plain - old.plain + new.plain,
            wide: self.wide - old.wide + new.wide,
            texts: self.texts - old.texts + new.texts,
        }
    }

    // How many bytes the changes have.
    fn size(&self) -> u64
        ensures { result ≡ size_in self.now }
    {
        if self.texts > 0 {
            self.wide
        } else {
            self.plain
        }
    }

    /// Can an entry with this second parent take the changes?
    pub fn fits(&self, second: &Option<VersionPlace>) -> bool
        ensures { result
            ≡ nat_le (9 + second_size second.now + size_in self.now) most_entry }
    {
        self.size() <= MOST_ENTRY - (9 + size_of_second(second) as u64)
    }
}

/// Takes an entry surely all changes of so many keys, whose rows take at most so many bytes?
pub fn is_sure(room: u32, most: u16) -> bool
    ensures sure { result ≡ true → 18 + room * (9 + most) ≤ most_entry }
    ensures few { most < 2 ^ 16 }
{
    room as u64 <= (MOST_ENTRY - 18) / (9 + most as u64)
}

/// What changes have, each with the widths of its relation.
pub fn bulk_of(changes: &Changes, widths: &[Widths]) -> Bulk
    requires few { length changes.now < 2 ^ 32 }
    requires relations { list_all (λ c. nat_lt c.relation (length widths.now)) changes.now ≡ true }
    ensures { result ≡ bulk_of (map (with_own widths.now) changes.now) }
{
    let none = Bulk::none();
    let mut bulk = none;
    for at in 0..changes.len() {
        let relation = changes.relation(at) as usize;
        bulk = bulk.exchange(&none, &widths[relation], changes.puts(at));
    }
    bulk
}
