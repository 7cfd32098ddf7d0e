//! The store.
ghost use Rattle.std.specs.Prelude.{◌≡◌, ◌<◌, ◌≤◌, ◌+◌, ◌^◌, ◌&&◌, nat_lt, length, map, IfOk, IfSome, vec_len, vec_capacity};
ghost use Rattle.std.specs.FinMap.{len};
ghost use Rattle.std.specs.List.{All};
ghost use Rattle.std.specs.Arc.{arc_value};
ghost use Rattle.std.proofs.Common.{get_or};
ghost use Rattle.db_value.specs.declared.entry.Entry.TheVariants.{Commit};
ghost use Rattle.db_value.specs.Schema.{most_relations};
ghost use Rattle.db_store.specs.Dataset.{branch_at, version_at, head_of, proper, proper_if, is_made, IsMade};
ghost use Rattle.db_store.specs.Fits.{fits, second_fits, most_branches, most_versions};
ghost use Rattle.db_store.specs.Sound.{IsSound};
ghost use Rattle.db_store.specs.Counted.{IsCounted};
ghost use Rattle.db_store.specs.Layout.{new_layout};
ghost use Rattle.db_store.specs.LaidOut.{IsLaid};
ghost use Rattle.db_store.specs.Order.{numbers_if, number_of, lineage, IsOrdered};
ghost use Rattle.db_store.specs.Parts.{AreOf};
ghost use Rattle.db_store.specs.State.{laid};
ghost use Rattle.hybrid_view.specs.Live.{table_of, parts_in, lived_at};
ghost use Rattle.store_catalogue.specs.Numbers.{list_if};
ghost use Rattle.store_catalogue.specs.ByName.{AreNumbers};
ghost use Rattle.bit_rows.specs.Kept.{no_kept};
ghost use Rattle.hybrid_store.specs.Lanes.{kept_layout};
ghost use Rattle.hybrid_store.specs.Ready.{IsReady};
ghost use Rattle.hybrid_store.specs.ReadyBranch.{IsReadyBranch};
ghost use Rattle.hybrid_store.specs.Stored.{kept_dataset, IsStored, HasRoom, HasVersions};

use crate::commit::HybridPrepared;
use crate::install::put_records;
use crate::install_branch::{HybridPreparedBranch, add_heads, turn_if};
use crate::new::{ROOT, new_heads, new_lane, new_segments};
use crate::same::same_lanes;
use bit_rows::{HybridLane, KeptSegments, layout_lines, same_lists};
use db_store::{Parents, Store};
use db_value::{Changes, Entry, LayoutLines, Name, Schema, VersionPlace};
use hybrid_view::HybridView;
use std::alloc::{AllocError, Global};
use store_catalogue::{
    BranchNames, add_version, branch_of, changes_fit, changes_of, is_within, makes_version,
    name_of, new_graph, number_in, origin_of, second_of,
};
use version_graph::Graph;

/// The most branches.
pub(crate) const MOST_BRANCHES: usize = 1024;

/// The most versions of a branch.
const MOST_VERSIONS: usize = 65_536;

/// A hybrid store keeps records in segments, which branches share, and for each branch rows of bits
/// over them. A commit appends to the heads of its branch; a branch copies no record.
#[derive(Drop)]
pub struct HybridStore {
    pub(crate) alloc: Global,
    pub(crate) schema: Schema,
    pub(crate) lanes: Vec<HybridLane>,
    pub(crate) segments: Vec<KeptSegments>,
    pub(crate) names: BranchNames,
    pub(crate) order: Vec<VersionPlace>,
    pub(crate) graph: Graph,
    pub(crate) spare: usize,
    ghost laid: { IsLaid (kept_layout schema lanes.items order.items segments.items) },
    ghost stored: { IsStored schema lanes.items segments.items },
    ghost sound: { IsSound (kept_dataset schema lanes.items order.items segments.items) },
    ghost counted: { IsCounted (kept_dataset schema lanes.items order.items segments.items) },
    ghost few_relations: { length schema ≤ most_relations },
    ghost branch_room: { most_branches ≤ vec_capacity lanes },
    ghost named: { AreNumbers names.numbers (kept_dataset schema lanes.items order.items segments.items) },
    ghost names_count: { len names.numbers ≡ length lanes.items },
    ghost names_room: { most_branches ≤ names.room },
    ghost rooms: { All (HasRoom spare) lanes.items },
    ghost order_room: { vec_len order + spare ≤ vec_capacity order },
    ghost ordered: { IsOrdered (kept_dataset schema lanes.items order.items segments.items) },
    ghost lined: { graph.versions ≡ lineage (kept_dataset schema lanes.items order.items segments.items) },
    ghost graph_room: { spare ≤ graph.spare },
    ghost numbered: { length order.items + spare < 2 ^ 32 },
}

#[tactic(auto, using(crate::proofs::StoredLemmas::kept_count, crate::proofs::StoredLemmas::kept_name, crate::proofs::StoredLemmas::kept_base, crate::proofs::StoredLemmas::kept_versions, crate::proofs::StoredLemmas::kept_second))]
impl HybridStore {
    ghost use Rattle.hybrid_store.specs.Store.{dataset_in, state_of, spare_of};

    /// A store of the new dataset of a schema: master alone, with an empty head in each relation.
    pub fn new(alloc: Global, schema: Schema) -> Result<HybridStore, AllocError>
        ensures state { IfOk result (λ s. state_of s ≡ laid (new_layout schema)) }
        ensures spare { IfOk result (λ s. spare_of s ≡ 0) }
    {
        let Some(name) = Name::read(b"master") else {
            return Err(AllocError);
        };
        let heads = new_heads(alloc, schema.relations())?;
        let segments = new_segments(alloc, &heads)?;
        let master = new_lane(alloc, name, &heads)?;
        let mut lanes = Vec::with_capacity(alloc, MOST_BRANCHES)?;
        lanes.push(master)?;
        let mut names = BranchNames::with_room(alloc, MOST_BRANCHES)?;
        names.add(name, 0);
        let mut order = Vec::new(alloc);
        order.push(ROOT)?;
        let graph = new_graph(alloc)?;
        Ok(HybridStore {
            alloc,
            schema,
            lanes,
            segments,
            names,
            order,
            graph,
            spare: 0,
        })
    }

    // A branch.
    pub(crate) fn lane(&self, branch: u32) -> &HybridLane
        requires { branch < length self.now.lanes.items }
        ensures lane { result.now ≡ get_or self.now.lanes.items branch no_kept }
        ensures name { result.now.name ≡ (branch_at (dataset_in self.now) branch).name }
        ensures base { result.now.base ≡ (branch_at (dataset_in self.now) branch).base }
        ensures count { length result.now.seconds
            ≡ length (branch_at (dataset_in self.now) branch).versions }
        ensures versions { HasVersions result.now }
    {
        &self.lanes[branch as usize]
    }

    // How many relations.
    pub(crate) fn width(&self) -> u8
        ensures { result ≡ length self.now.schema }
    {
        self.segments.len() as u8
    }

    /// Is the place made?
    pub fn is_made(&self, at: VersionPlace) -> bool
        ensures { result ≡ is_made (dataset_in self.now) at }
    {
        (at.branch as usize) < self.lanes.len()
            && (at.position as usize) < self.lane(at.branch).count()
    }

    // Is a second parent made, if there is one?
    fn second_fits(&self, second: &Option<VersionPlace>) -> bool
        ensures { result ≡ second_fits (dataset_in self.now) second.now }
    {
        match second {
            None => true,
            Some(at) => self.is_made(*at),
        }
    }

    // Is the branch there, with room for a version?
    fn has_room(&self, branch: u32) -> bool
        ensures { result ≡ (nat_lt branch (length (dataset_in self.now).branches) && nat_lt
            (length (branch_at (dataset_in self.now) branch).versions) most_versions) }
    {
        (branch as usize) < self.lanes.len() && self.lane(branch).count() < MOST_VERSIONS
    }

    /// Where the version at a made place was made.
    pub fn made_at(&self, at: VersionPlace) -> VersionPlace
        requires { IsMade (dataset_in self.now) at }
        ensures { result ≡ proper (dataset_in self.now) at }
    {
        if at.position == 0 {
            self.lane(at.branch).base()
        } else {
            at
        }
    }

    fn second_at(&self, at: Option<VersionPlace>) -> Option<VersionPlace>
        requires { IfSome at (λ p. IsMade (dataset_in self.now) p) }
        ensures { result ≡ proper_if (dataset_in self.now) at }
    {
        match at {
            None => None,
            Some(at) => Some(self.made_at(at)),
        }
    }

    // The number of the version at a made place.
    pub(crate) fn number(&self, at: VersionPlace) -> u32
        requires { IsMade (dataset_in self.now) at }
        ensures number { result ≡ number_of (dataset_in self.now) at }
        ensures there { result < length self.now.graph.versions }
    {
        number_in(&self.order, self.made_at(at))
    }

    pub(crate) fn number_if(&self, at: Option<VersionPlace>) -> Option<u32>
        requires { IfSome at (λ p. IsMade (dataset_in self.now) p) }
        ensures number { list_if result
            ≡ numbers_if (dataset_in self.now).order (proper_if (dataset_in self.now) at) }
        ensures there { IfSome result (λ n. n < length self.now.graph.versions) }
    {
        match at {
            None => None,
            Some(at) => Some(self.number(at)),
        }
    }

    // The view of a branch's last version.
    fn last_view(&self, branch: u32) -> &HybridView
        requires { branch < length self.now.lanes.items }
        ensures table { table_of (arc_value result.now.table)
            ≡ head_of (dataset_in self.now) branch }
        ensures wide { length (table_of (arc_value result.now.table)) ≡ length self.now.schema }
        ensures parts { AreOf (state_of self.now)
            (λ r. parts_in (lived_at (arc_value result.now.table) r)) }
    {
        self.lane(branch).view()
    }

    fn commit_fits(&self, branch: u32, second: &Option<VersionPlace>, changes: &Changes) -> bool
        ensures { result ≡ fits (dataset_in self.now) (Commit branch second.now changes.now) }
    {
        if !self.has_room(branch) {
            return false;
        }
        if !self.second_fits(second) {
            return false;
        }
        if !makes_version(second, changes) {
            return false;
        }
        if !changes_fit(&self.schema, changes) {
            return false;
        }
        is_within(self.last_view(branch).table(), self.width(), changes)
    }

    // The second parent of a version of a branch.
    fn second_of(&self, at: VersionPlace) -> Option<VersionPlace>
        requires { IsMade (dataset_in self.now) at }
        ensures { result ≡ (version_at (dataset_in self.now) at).second }
    {
        self.lane(at.branch).second(at.position as usize)
    }
}

#[tactic(auto, using(crate::proofs::StoredLemmas::kept_count, crate::proofs::StoredLemmas::kept_name, crate::proofs::StoredLemmas::kept_base, crate::proofs::StoredLemmas::kept_versions, crate::proofs::StoredLemmas::kept_second))]
impl Store for HybridStore {
    ghost use Rattle.hybrid_store.specs.Store.{state_of, spare_of};
    ghost use Rattle.hybrid_store.specs.LastsRules.{ready_lasts};

    type View = HybridView;

    type Prepared = HybridPrepared;

    type PreparedBranch = HybridPreparedBranch;

    ghost state = { state_of };

    ghost spare = { spare_of };

    ghost Prepares = { λ p s e. IsReady p.branch p.second p.deltas.items (arc_value p.head.table) (map arc_value p.records.items) s e };

    ghost PreparesBranch = { λ p s e. IsReadyBranch p.origin p.lane (map arc_value p.heads.items) p.turned s e };

    ghost lasts = { λ p s e f r apart. ready_lasts p.branch p.second p.deltas.items (arc_value p.head.table) (map arc_value p.records.items) s e f r apart };

    ghost sound = { λ s. s.sound };

    ghost ordered = { λ s. s.ordered };

    ghost counted = { λ s. s.counted };

    fn schema(&self) -> &Schema {
        &self.schema
    }

    fn branches(&self) -> u32 {
        self.lanes.len() as u32
    }

    fn branch(&self, name: &Name) -> Option<u32> {
        self.names.number(name)
    }

    fn branch_name(&self, branch: u32) -> Name {
        self.lane(branch).name()
    }

    fn last(&self, branch: u32) -> u32 {
        (self.lane(branch).count() - 1) as u32
    }

    fn proper(&self, at: VersionPlace) -> VersionPlace {
        self.made_at(at)
    }

    fn parents(&self, at: VersionPlace) -> Parents {
        let at = self.made_at(at);
        if at.position == 0 {
            return Parents {
                first: None,
                second: None,
            };
        }
        let before = VersionPlace {
            branch: at.branch,
            position: at.position - 1,
        };
        Parents {
            first: Some(self.made_at(before)),
            second: self.second_at(self.second_of(at)),
        }
    }

    fn common(&self, a: VersionPlace, b: VersionPlace) -> Result<VersionPlace, AllocError> {
        let last = self.graph.common(self.number(a), self.number(b))?;
        Ok(self.order[last as usize])
    }

    fn fits(&self, entry: &Entry) -> bool {
        match entry {
            Entry::Commit {
                branch,
                second,
                changes,
            } => self.commit_fits(*branch, second, changes),
            Entry::Branch { name, origin } => {
                self.names.number(name).is_none()
                    && self.lanes.len() < MOST_BRANCHES
                    && self.is_made(*origin)
            }
        }
    }

    fn view(&self, at: VersionPlace) -> Result<HybridView, AllocError> {
        let view = self.view_at(at)?;
        Ok(view)
    }

    fn layout_report(&self) -> Result<LayoutLines, AllocError> {
        let lines = layout_lines(self.alloc, &self.schema, &self.lanes, &self.segments)?;
        Ok(lines)
    }

    fn duplicate(&self) -> Result<HybridStore, AllocError> {
        let schema = self.schema.duplicate()?;
        let lanes = same_lanes(self.alloc, &self.lanes)?;
        let segments = same_lists(self.alloc, &self.segments)?;
        let names = self.names.duplicate(self.alloc, MOST_BRANCHES)?;
        let order = Vec::from_slice(self.alloc, &self.order)?;
        let graph = self.graph.duplicate()?;
        Ok(HybridStore {
            alloc: self.alloc,
            schema,
            lanes,
            segments,
            names,
            order,
            graph,
            spare: 0,
        })
    }

    fn prepare(&mut self, entry: &Entry) -> Result<HybridPrepared, AllocError> {
        let prepared = self.prepare_commit(branch_of(entry), second_of(entry), changes_of(entry))?;
        self.raise()?;
        Ok(prepared)
    }

    fn install(&mut self, prepared: HybridPrepared) {
        let HybridPrepared {
            branch,
            second,
            deltas,
            head,
            records,
        } = prepared;
        let position = self.lane(branch).count() as u32;
        let place = VersionPlace { branch, position };
        let first = self.number(VersionPlace {
            branch,
            position: position - 1,
        });
        let other = self.number_if(second);
        add_version(&mut self.graph, first, other);
        put_records(
            &mut self.segments,
            &self.lanes[branch as usize],
            branch,
            records,
        );
        self.lanes[branch as usize].push(second, deltas, head);
        self.order.push_reserved(place);
        self.spare -= 1;
    }

    fn prepare_branch(&mut self, entry: &Entry) -> Result<HybridPreparedBranch, AllocError> {
        let name = name_of(entry);
        let origin = origin_of(entry);
        let view = self.seen_at(origin)?;
        let at_head = self.is_last(origin);
        let prepared = self.begin_of(name, origin, &view, at_head)?;
        Ok(prepared)
    }

    fn install_branch(&mut self, prepared: HybridPreparedBranch) {
        let HybridPreparedBranch {
            origin,
            lane,
            heads,
            turned,
        } = prepared;
        let number = self.lanes.len() as u32;
        turn_if(&mut self.lanes, &mut self.segments, origin, turned);
        add_heads(&mut self.segments, number, heads);
        self.names.add(lane.name(), number);
        self.lanes.push_reserved(lane);
        self.spare = 0;
    }
}
