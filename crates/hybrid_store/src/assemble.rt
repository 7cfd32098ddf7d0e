//! A store of parts.
ghost use Rattle.std.specs.Prelude.{◌≡◌, ◌≤◌, length, IfOk};
ghost use Rattle.db_store.specs.State.{laid};
ghost use Rattle.hybrid_store.specs.Parts.{AreSound, layout_of_parts};

use crate::part_lanes::{bare_lanes, put_versions, seen_lanes};
use crate::part_lines::{graph_of, names_of};
use crate::part_rows::lists_of;
use crate::parts::LayoutParts;
use crate::store::HybridStore;
use db_value::Schema;
use std::alloc::{AllocError, Global};

/// More versions than can be numbered.
const MOST_NUMBERS: usize = 0x1_0000_0000;

// How many relations a schema has.
fn width_of(schema: &Schema) -> u8
    requires { length schema.now ≤ 8 }
    ensures { result ≡ length schema.now }
{
    schema.relations().len() as u8
}

impl HybridStore {
    ghost use Rattle.hybrid_store.specs.Store.{state_of, spare_of};

    /// A store of the layout of parts. What the last version of each branch has is made anew.
    pub fn assemble(alloc: Global, parts: LayoutParts) -> Result<HybridStore, AllocError>
        requires { AreSound parts }
        ensures state { IfOk result (λ s. state_of s ≡ laid (layout_of_parts parts)) }
        ensures spare { IfOk result (λ s. spare_of s ≡ 0) }
    {
        let LayoutParts {
            schema,
            branches,
            versions,
            segments,
        } = parts;
        let width = width_of(&schema);
        let mut bare = bare_lanes(alloc, branches.as_slice(), segments.as_slice(), width)?;
        let order = put_versions(alloc, &mut bare, versions.as_slice())?;
        if order.len() >= MOST_NUMBERS {
            return Err(AllocError);
        }
        let lists = lists_of(alloc, width, segments)?;
        let lanes = seen_lanes(alloc, bare, &lists)?;
        let names = names_of(alloc, &lanes)?;
        let graph = graph_of(alloc, &lanes, &order)?;
        Ok(HybridStore {
            alloc,
            schema,
            lanes,
            segments: lists,
            names,
            order,
            graph,
            spare: 0,
        })
    }
}
