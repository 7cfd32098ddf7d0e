//! Questions to views, where nobody counts the steps.
ghost use Rattle.std.specs.Prelude.{◌≡◌, ◌<◌, None, length, map, IfOk};
ghost use Rattle.std.specs.List.{All};
ghost use Rattle.db_value.specs.Relations.{columns_at, widths_at};
ghost use Rattle.db_value.specs.Condition.{holds};
ghost use Rattle.db_value.specs.Pred.{pred_holds, condition_stop};
ghost use Rattle.db_store.specs.Rows.{marked, rows_where};
ghost use Rattle.multi_scan.specs.Agree.{AllAgree};
ghost use Rattle.multi_scan.specs.Places.{shown};
ghost use Rattle.multi_scan.specs.Multi.{multi};
ghost use Rattle.version_join.specs.Join.{join_of, minus_of};
ghost use Rattle.db_store.specs.Found.{plain};

use db_store::View;
use db_value::{
    Name, Pairs, Pred, PredStop, Rows, Schema, SharedList, Steps, Terms, VersionName, VersionNames,
};
use multi_scan::{list, scan};
use std::alloc::{AllocError, Global};
use std::marker::Brand;
use std::sync::ledger::{Blank, Ledger};
use version_join::{join, minus};

/// A condition on a relation that has its columns, of the kinds of their values.
pub fn condition(
    alloc: Global,
    schema: &Schema,
    relation: u8,
    terms: &Terms,
) -> Result<Pred, AllocError>
    requires relation { relation < length schema.now }
    requires asked { condition_stop (columns_at schema.now relation)
        (widths_at schema.now relation) terms.now ≡ None }
    ensures { IfOk result (λ p. pred_holds p ≡ holds (columns_at schema.now relation) terms.now) }
{
    match Pred::resolve(alloc, schema, relation, terms) {
        Ok(pred) => Ok(pred),
        Err(PredStop::NoColumn { .. }) => unreachable!(),
        Err(PredStop::WrongKind { .. }) => unreachable!(),
        Err(PredStop::Memory) => Err(AllocError),
    }
}

fn plain(branch: Name) -> VersionName
    ensures { result ≡ plain branch }
{
    VersionName {
        branch,
        position: None,
    }
}

fn plain_items(alloc: Global, names: &[Name]) -> Result<Vec<VersionName>, AllocError>
    ensures { IfOk result (λ all. all.items ≡ map plain names.now) }
{
    names.iter().map(|name| plain(*name)).collect(alloc)
}

/// Plain names of branches.
pub fn plain_names(alloc: Global, names: &[Name]) -> Result<VersionNames, AllocError>
    ensures { IfOk result (λ all. all ≡ map plain names.now) }
{
    let all = plain_items(alloc, names)?;
    Ok(SharedList::of(alloc, all)?)
}

fn list_counted<V: View, L: Ledger>(
    alloc: Global,
    view: &V,
    relation: u8,
    pred: &Pred,
    blank: Blank,
) -> Result<Rows, AllocError>
    requires relation { relation < length (V.table view.now) }
    requires name { blank.name ≡ L.name }
    requires parts { blank.parts ≡ L.parts }
    requires some { 0 < L.parts }
    ensures { IfOk result (λ rows.
        rows ≡ map marked (rows_where (pred_holds pred.now) relation (V.table view.now))) }
{
    let mut steps = Steps::<L>::open(blank);
    let rows = list(alloc, view, relation, pred, &mut steps)?;
    Ok(rows)
}

/// The rows of a relation for which a condition holds, by key.
pub fn list_rows<V: View>(
    alloc: Global,
    view: &V,
    relation: u8,
    pred: &Pred,
) -> Result<Rows, AllocError>
    requires { relation < length (V.table view.now) }
    ensures { IfOk result (λ rows.
        rows ≡ map marked (rows_where (pred_holds pred.now) relation (V.table view.now))) }
{
    list_counted::<V, Brand>(alloc, view, relation, pred, Blank::new(1))
}

fn scan_counted<V: View, L: Ledger>(
    alloc: Global,
    views: &[V],
    relation: u8,
    pred: &Pred,
    blank: Blank,
) -> Result<Rows, AllocError>
    requires relation { All (λ v. relation < length (V.table v)) views.now }
    requires agree { AllAgree (shown V.parts_of relation views.now) }
    requires name { blank.name ≡ L.name }
    requires parts { blank.parts ≡ L.parts }
    requires some { 0 < L.parts }
    ensures { IfOk result (λ rows.
        rows ≡ multi (pred_holds pred.now) relation (map V.table views.now)) }
{
    let mut steps = Steps::<L>::open(blank);
    let rows = scan(alloc, views, relation, pred, &mut steps)?;
    Ok(rows)
}

/// The rows of a relation in several views for which a condition holds, each with the positions of
/// the views that have it.
pub fn scan_rows<V: View>(
    alloc: Global,
    views: &[V],
    relation: u8,
    pred: &Pred,
) -> Result<Rows, AllocError>
    requires relation { All (λ v. relation < length (V.table v)) views.now }
    requires agree { AllAgree (shown V.parts_of relation views.now) }
    ensures { IfOk result (λ rows.
        rows ≡ multi (pred_holds pred.now) relation (map V.table views.now)) }
{
    scan_counted::<V, Brand>(alloc, views, relation, pred, Blank::new(1))
}

fn join_counted<V: View, L: Ledger>(
    alloc: Global,
    left: &V,
    r: u8,
    pred: &Pred,
    right: &V,
    s: u8,
    blank: Blank,
) -> Result<Pairs, AllocError>
    requires left { r < length (V.table left.now) }
    requires right { s < length (V.table right.now) }
    requires name { blank.name ≡ L.name }
    requires parts { blank.parts ≡ L.parts }
    requires some { 0 < L.parts }
    ensures { IfOk result (λ pairs.
        pairs ≡ join_of (pred_holds pred.now) (V.table left.now) r (V.table right.now) s) }
{
    let mut steps = Steps::<L>::open(blank);
    let pairs = join(alloc, left, r, pred, right, s, &mut steps)?;
    Ok(pairs)
}

/// The rows of a relation of the left view for which a condition holds, beside those with their keys
/// of a relation of the right one.
pub fn join_rows<V: View>(
    alloc: Global,
    left: &V,
    r: u8,
    pred: &Pred,
    right: &V,
    s: u8,
) -> Result<Pairs, AllocError>
    requires left { r < length (V.table left.now) }
    requires right { s < length (V.table right.now) }
    ensures { IfOk result (λ pairs.
        pairs ≡ join_of (pred_holds pred.now) (V.table left.now) r (V.table right.now) s) }
{
    join_counted::<V, Brand>(alloc, left, r, pred, right, s, Blank::new(1))
}

fn minus_counted<V: View, L: Ledger>(
    alloc: Global,
    left: &V,
    right: &V,
    r: u8,
    blank: Blank,
) -> Result<Rows, AllocError>
    requires left { r < length (V.table left.now) }
    requires right { r < length (V.table right.now) }
    requires name { blank.name ≡ L.name }
    requires parts { blank.parts ≡ L.parts }
    requires some { 0 < L.parts }
    ensures { IfOk result (λ rows.
        rows ≡ map marked (minus_of (V.table left.now) (V.table right.now) r)) }
{
    let mut steps = Steps::<L>::open(blank);
    let rows = minus(alloc, left, right, r, &mut steps)?;
    Ok(rows)
}

/// The rows of a relation of the left view that the right one lacks or has changed.
pub fn minus_rows<V: View>(alloc: Global, left: &V, right: &V, r: u8) -> Result<Rows, AllocError>
    requires left { r < length (V.table left.now) }
    requires right { r < length (V.table right.now) }
    ensures { IfOk result (λ rows.
        rows ≡ map marked (minus_of (V.table left.now) (V.table right.now) r)) }
{
    minus_counted::<V, Brand>(alloc, left, right, r, Blank::new(1))
}
