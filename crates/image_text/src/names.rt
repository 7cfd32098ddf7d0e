//! How names, relations and branches are read.
ghost use Rattle.std.specs.Prelude.{◌≡◌, ◌≤◌, ◌<◌, [], length, IfOk};
ghost use Rattle.db_value.specs.Schema.{is_declared};
ghost use Rattle.image_text.specs.Reading.{Gives, repeat, name_at, width_at, has_column, next_column, next_relation, relations_at, is_named, has_turn, is_earlier, is_position, base_of, next_branch, branches_at};

use crate::image::{BranchPart, Format, Stop};
use crate::numbers::Reader;
use db_value::widths::MOST_WIDTH;
use db_value::{Column, ListOf, Name, Relation, VersionPlace};
use std::alloc::Global;

const MOST_BYTES: usize = 32;

const MOST_COLUMNS: u8 = 15;

const MOST_RELATIONS: u8 = 8;

const MOST_BRANCHES: u32 = 1024;

fn is_declared(relations: &[Relation], name: &Name) -> bool
    ensures { result ≡ is_declared relations.now name.now }
{
    relations.iter().any(|r| r.name == *name)
}

fn has_column(columns: &[Column], name: &Name) -> bool
    ensures { result ≡ has_column columns.now name.now }
{
    columns.iter().any(|c| c.name == *name)
}

fn is_named(branches: &[BranchPart], name: &Name) -> bool
    ensures { result ≡ is_named branches.now name.now }
{
    branches.iter().any(|b| b.name == *name)
}

fn has_turn(branches: &[BranchPart], name: &Name) -> bool
    ensures { result ≡ has_turn branches.now name.now }
{
    match branches {
        [] => name.as_bytes() == b"master".as_slice(),
        [_, ..] => !is_named(branches, name),
    }
}

fn is_earlier(branches: &[BranchPart], origin: u32) -> bool
    ensures { result ≡ is_earlier branches.now origin }
{
    match branches {
        [] => origin == 0,
        [_, ..] => (origin as usize) < branches.len(),
    }
}

fn is_position(branches: &[BranchPart], position: u32) -> bool
    ensures { result ≡ is_position branches.now position }
{
    match branches {
        [] => position == 0,
        [_, ..] => true,
    }
}

fn base_of(bases: &[VersionPlace], at: VersionPlace) -> VersionPlace
    ensures { result ≡ base_of bases.now at }
{
    if at.position != 0 {
        return at;
    }
    match bases.get(at.branch as usize) {
        None => VersionPlace {
            branch: 0,
            position: 0,
        },
        Some(base) => *base,
    }
}

impl<'a> Reader<'a> {
    /// A name behind its length.
    #[tactic(auto, unfolding(crate::specs::Reading::name_at))]
    pub fn name(&mut self) -> Result<Name, Stop>
        ensures { Gives (λ x. (x, self.new.rest.now)) result (name_at self.old.rest.now) }
    {
        let left = self.left();
        let len = self.u8()? as usize;
        if len == 0 || len > MOST_BYTES {
            return Err(Stop::Fault(left));
        }
        if self.rest.len() < len {
            return Err(Stop::Fault(0));
        }
        let (text, rest) = self.rest.split_at(len);
        self.rest = rest;
        match Name::read(text) {
            None => Err(Stop::Fault(left)),
            Some(name) => Ok(name),
        }
    }

    // The width of a column. Format one has none, since all of its columns are of numbers.
    #[tactic(auto, unfolding(crate::specs::Reading::width_at))]
    fn width(&mut self, format: Format) -> Result<u8, Stop>
        ensures { Gives (λ x. (x, self.new.rest.now)) result
            (width_at format self.old.rest.now) }
    {
        match format {
            Format::One => Ok(0),
            Format::Two => {
                let left = self.left();
                let width = self.u8()?;
                if width > MOST_WIDTH {
                    return Err(Stop::Fault(left));
                }
                Ok(width)
            }
        }
    }

    #[tactic(auto, unfolding(crate::specs::Reading::next_column))]
    fn next_column(&mut self, format: Format, columns: &mut Vec<Column>) -> Result<(), Stop>
        ensures { Gives (λ x. (columns.new.items, self.new.rest.now)) result
            (next_column format columns.old.items self.old.rest.now) }
    {
        let left = self.left();
        let name = self.name()?;
        if has_column(columns, &name) {
            return Err(Stop::Fault(left));
        }
        let width = self.width(format)?;
        columns.push(Column { name, width })?;
        Ok(())
    }

    #[tactic(auto, using(crate::proofs::Loop::goes_on, crate::proofs::Loop::ends, crate::proofs::Loop::is_done))]
    fn columns(&mut self, alloc: Global, format: Format, count: u8) -> Result<Vec<Column>, Stop>
        ensures { Gives (λ x. (x.items, self.new.rest.now)) result
            (repeat (next_column format) count [] self.old.rest.now) }
    {
        let mut columns: Vec<Column> = Vec::new(alloc);
        for _ in 0..count {
            self.next_column(format, &mut columns)?;
        }
        Ok(columns)
    }

    #[tactic(auto, unfolding(crate::specs::Reading::next_relation))]
    fn next_relation(
        &mut self,
        alloc: Global,
        format: Format,
        relations: &mut Vec<Relation>,
    ) -> Result<(), Stop>
        ensures { Gives (λ x. (relations.new.items, self.new.rest.now)) result
            (next_relation format relations.old.items self.old.rest.now) }
    {
        let left = self.left();
        let name = self.name()?;
        if is_declared(relations, &name) {
            return Err(Stop::Fault(left));
        }
        let left = self.left();
        let count = self.u8()?;
        if count == 0 || count > MOST_COLUMNS {
            return Err(Stop::Fault(left));
        }
        let columns = ListOf::of(self.columns(alloc, format, count)?);
        relations.push(Relation { name, columns })?;
        Ok(())
    }

    #[tactic(auto, using(crate::proofs::Loop::goes_on, crate::proofs::Loop::ends, crate::proofs::Loop::is_done))]
    fn relations_of(
        &mut self,
        alloc: Global,
        format: Format,
        count: u8,
    ) -> Result<Vec<Relation>, Stop>
        ensures { Gives (λ x. (x.items, self.new.rest.now)) result
            (repeat (next_relation format) count [] self.old.rest.now) }
    {
        let mut relations: Vec<Relation> = Vec::new(alloc);
        for _ in 0..count {
            self.next_relation(alloc, format, &mut relations)?;
        }
        Ok(relations)
    }

    /// One to 8 relations.
    #[tactic(auto, unfolding(crate::specs::Reading::relations_at))]
    pub fn relations(&mut self, alloc: Global, format: Format) -> Result<Vec<Relation>, Stop>
        ensures { Gives (λ x. (x.items, self.new.rest.now)) result
            (relations_at format self.old.rest.now) }
    {
        let left = self.left();
        let count = self.u8()?;
        if count == 0 || count > MOST_RELATIONS {
            return Err(Stop::Fault(left));
        }
        self.relations_of(alloc, format, count)
    }

    #[tactic(auto, unfolding(crate::specs::Reading::next_branch))]
    fn next_branch(
        &mut self,
        branches: &mut Vec<BranchPart>,
        bases: &mut Vec<VersionPlace>,
    ) -> Result<(), Stop>
        ensures { Gives (λ x. ((branches.new.items, bases.new.items), self.new.rest.now)) result
            (next_branch (branches.old.items, bases.old.items) self.old.rest.now) }
    {
        let left = self.left();
        let name = self.name()?;
        if !has_turn(branches, &name) {
            return Err(Stop::Fault(left));
        }
        let left = self.left();
        let branch = self.u32()?;
        if !is_earlier(branches, branch) {
            return Err(Stop::Fault(left));
        }
        let left = self.left();
        let position = self.u32()?;
        if !is_position(branches, position) {
            return Err(Stop::Fault(left));
        }
        let origin = VersionPlace { branch, position };
        let base = base_of(bases, origin);
        branches.push(BranchPart { name, origin })?;
        bases.push(base)?;
        Ok(())
    }

    #[tactic(auto, using(crate::proofs::Loop::goes_on, crate::proofs::Loop::ends, crate::proofs::Loop::is_done))]
    fn branches_of(
        &mut self,
        alloc: Global,
        count: u32,
    ) -> Result<(Vec<BranchPart>, Vec<VersionPlace>), Stop>
        ensures { Gives (λ x. ((x.0.items, x.1.items), self.new.rest.now)) result
            (repeat next_branch count ([], []) self.old.rest.now) }
    {
        let mut branches: Vec<BranchPart> = Vec::new(alloc);
        let mut bases: Vec<VersionPlace> = Vec::new(alloc);
        for _ in 0..count {
            self.next_branch(&mut branches, &mut bases)?;
        }
        Ok((branches, bases))
    }

    /// One to 1,024 branches, and the version that position 0 of each is.
    #[tactic(auto, unfolding(crate::specs::Reading::branches_at))]
    pub fn branches(&mut self, alloc: Global) -> Result<(Vec<BranchPart>, Vec<VersionPlace>), Stop>
        ensures { Gives (λ x. ((x.0.items, x.1.items), self.new.rest.now)) result
            (branches_at self.old.rest.now) }
    {
        let left = self.left();
        let count = self.u32()?;
        if count == 0 || count > MOST_BRANCHES {
            return Err(Stop::Fault(left));
        }
        self.branches_of(alloc, count)
    }
}
