//! How versions are read.
ghost use Rattle.std.specs.Prelude.{◌≡◌, ◌<◌, true, [], length, replicate, IfOk};
ghost use Rattle.std.proofs.Common.{get_or};
ghost use Rattle.image_text.specs.Reading.{Gives, repeat, root, last_of, is_there, is_begun, second_at, next_version, versions_at};

use crate::image::{MadeVersion, Stop};
use crate::numbers::Reader;
use db_value::VersionPlace;
use std::alloc::{AllocError, Global};

/// The last position that a branch has.
const LAST: u32 = 65535;

/// The last position of a branch, and 0 where there is none.
pub fn last_of(lasts: &[u32], branch: u32) -> u32
    ensures { result ≡ last_of lasts.now branch }
{
    match lasts.get(branch as usize) {
        None => 0,
        Some(last) => *last,
    }
}

/// Was the version made?
pub fn is_there(lasts: &[u32], at: VersionPlace) -> bool
    ensures { result ≡ is_there lasts.now at }
{
    at.position <= last_of(lasts, at.branch)
}

fn base_at(bases: &[VersionPlace], branch: u32) -> VersionPlace
    ensures { result ≡ get_or bases.now branch root }
{
    match bases.get(branch as usize) {
        None => VersionPlace {
            branch: 0,
            position: 0,
        },
        Some(base) => *base,
    }
}

fn is_begun(bases: &[VersionPlace], lasts: &[u32], branch: u32) -> bool
    ensures begun { result ≡ is_begun bases.now lasts.now branch }
    ensures within { result ≡ true → branch < length lasts.now }
{
    (branch as usize) < lasts.len() && is_there(lasts, base_at(bases, branch))
}

/// So many zeros.
pub fn zeros(alloc: Global, count: usize) -> Result<Vec<u32>, AllocError>
    ensures { IfOk result (λ v. v.items ≡ replicate count 0) }
{
    Ok(vec![in alloc; 0u32; count]?)
}

impl<'a> Reader<'a> {
    #[tactic(auto, unfolding(crate::specs::Reading::second_at))]
    fn second(
        &mut self,
        bases: &[VersionPlace],
        lasts: &[u32],
    ) -> Result<Option<VersionPlace>, Stop>
        ensures { Gives (λ x. (x, self.new.rest.now)) result
            (second_at bases.now lasts.now self.old.rest.now) }
    {
        let left = self.left();
        let flag = self.u8()?;
        if flag > 1 {
            return Err(Stop::Fault(left));
        }
        if flag == 0 {
            return Ok(None);
        }
        let left = self.left();
        let branch = self.u32()?;
        if !is_begun(bases, lasts, branch) {
            return Err(Stop::Fault(left));
        }
        let left = self.left();
        let position = self.u32()?;
        if position > last_of(lasts, branch) {
            return Err(Stop::Fault(left));
        }
        Ok(Some(VersionPlace { branch, position }))
    }

    #[tactic(auto, unfolding(crate::specs::Reading::next_version))]
    fn next_version(
        &mut self,
        bases: &[VersionPlace],
        lasts: &mut Vec<u32>,
        versions: &mut Vec<MadeVersion>,
    ) -> Result<(), Stop>
        ensures { Gives (λ x. ((lasts.new.items, versions.new.items), self.new.rest.now)) result
            (next_version bases.now (lasts.old.items, versions.old.items) self.old.rest.now) }
    {
        let left = self.left();
        let branch = self.u32()?;
        if !is_begun(bases, lasts, branch) {
            return Err(Stop::Fault(left));
        }
        let last = last_of(lasts, branch);
        if last >= LAST {
            return Err(Stop::Fault(left));
        }
        let second = self.second(bases, lasts)?;
        lasts[branch as usize] = last + 1;
        versions.push(MadeVersion { branch, second })?;
        Ok(())
    }

    #[tactic(auto, using(crate::proofs::Loop::goes_on, crate::proofs::Loop::ends, crate::proofs::Loop::is_done))]
    fn versions_of(
        &mut self,
        alloc: Global,
        bases: &[VersionPlace],
        count: u32,
    ) -> Result<(Vec<u32>, Vec<MadeVersion>), Stop>
        ensures { Gives (λ x. ((x.0.items, x.1.items), self.new.rest.now)) result
            (repeat (next_version bases.now) count (replicate (length bases.now) 0, [])
            self.old.rest.now) }
    {
        let mut lasts: Vec<u32> = zeros(alloc, bases.len())?;
        let mut versions: Vec<MadeVersion> = Vec::new(alloc);
        for _ in 0..count {
            self.next_version(bases, &mut lasts, &mut versions)?;
        }
        Ok((lasts, versions))
    }

    /// The versions in the order made, and the last position of each branch.
    #[tactic(auto, unfolding(crate::specs::Reading::versions_at))]
    pub fn versions(
        &mut self,
        alloc: Global,
        bases: &[VersionPlace],
    ) -> Result<(Vec<u32>, Vec<MadeVersion>), Stop>
        ensures { Gives (λ x. ((x.0.items, x.1.items), self.new.rest.now)) result
            (versions_at bases.now self.old.rest.now) }
    {
        let count = self.u32()?;
        self.versions_of(alloc, bases, count)
    }
}
