//! The relations, branches and versions of an image, from those of a store.
ghost use Rattle.std.specs.Prelude.{◌≡◌, ◌<◌, ◌≤◌, ◌^◌, true, length, IfOk};
ghost use Rattle.std.specs.List.{All};
ghost use Rattle.db_value.specs.Relations.{has_columns};
ghost use Rattle.db_store.specs.Layout.{lane_at};
ghost use Rattle.hybrid_store.specs.Store.{layout_of};
ghost use Rattle.image_text.specs.Spelling.{FitsRelation};
ghost use Rattle.db_image.specs.Images.{branch_image, branches_image, versions_image};

use crate::image_segments::branch_count;
use db_store::Store;
use db_value::{Column, Columns, ListOf, Relation};
use hybrid_store::HybridStore;
use image_text::{BranchPart as BranchRead, MadeVersion as VersionRead};
use std::alloc::{AllocError, Global};

// The same columns.
fn columns_image(alloc: Global, columns: &[Column]) -> Result<Columns, AllocError>
    ensures value { IfOk result (λ made. made ≡ columns.now) }
    ensures short { IfOk result (λ made. All (λ column. length column.name ≤ 32) made) }
{
    let mut made = Vec::with_capacity(alloc, columns.len())?;
    for column in columns {
        let _count = column.name.count();
        made.push(*column)?;
    }
    Ok(ListOf::of(made))
}

// The same relation.
fn relation_image(alloc: Global, relation: &Relation) -> Result<Relation, AllocError>
    requires { has_columns relation.now ≡ true }
    ensures value { IfOk result (λ made. made ≡ relation.now) }
    ensures fits { IfOk result FitsRelation }
{
    let _count = relation.name.count();
    let columns = columns_image(alloc, relation.columns.as_slice())?;
    Ok(Relation {
        name: relation.name,
        columns,
    })
}

/// The same relations.
pub(crate) fn relations_image(
    alloc: Global,
    relations: &[Relation],
) -> Result<ListOf<Relation>, AllocError>
    requires { All (λ relation. has_columns relation ≡ true) relations.now }
    ensures value { IfOk result (λ made. made ≡ relations.now) }
    ensures fits { IfOk result (λ made. All FitsRelation made) }
{
    let mut made = Vec::with_capacity(alloc, relations.len())?;
    for relation in relations {
        made.push(relation_image(alloc, relation)?)?;
    }
    Ok(ListOf::of(made))
}

// A branch.
fn branch_image(store: &HybridStore, branch: u32) -> BranchRead
    requires { branch < length (layout_of store.now).lanes }
    ensures value { result ≡ branch_image (lane_at (layout_of store.now) branch) }
    ensures short { length result.name ≤ 32 }
{
    let name = store.branch_name(branch);
    let _count = name.count();
    BranchRead {
        name,
        origin: store.origin(branch),
    }
}

/// The branches.
pub(crate) fn branches_image(
    alloc: Global,
    store: &HybridStore,
) -> Result<ListOf<BranchRead>, AllocError>
    ensures value { IfOk result (λ made. made ≡ branches_image (layout_of store.now)) }
    ensures short { IfOk result (λ made. All (λ branch. length branch.name ≤ 32) made) }
    ensures few { IfOk result (λ made. length made < 2 ^ 32) }
{
    let mut made = Vec::new(alloc);
    for branch in 0..branch_count(store) {
        made.push(branch_image(store, branch))?;
    }
    Ok(ListOf::of(made))
}

/// The versions after the root, in the order made.
pub(crate) fn versions_image(
    alloc: Global,
    store: &HybridStore,
) -> Result<ListOf<VersionRead>, AllocError>
    ensures value { IfOk result (λ made. made ≡ versions_image (layout_of store.now)) }
    ensures few { IfOk result (λ made. length made < 2 ^ 32) }
{
    let mut made = Vec::new(alloc);
    for index in 0..store.versions() {
        let version = store.version(index);
        made.push(VersionRead {
            branch: version.branch,
            second: version.second,
        })?;
    }
    Ok(ListOf::of(made))
}
