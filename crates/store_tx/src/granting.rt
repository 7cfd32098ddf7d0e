//! What an open transaction is granted from the store: its branch, and versions that are named.
ghost use Rattle.std.specs.Prelude.{◌≡◌, ◌<◌, ℕ, List, [], ◌∷◌, Some, None, true, false, length, is_some, IfOk, IfSome, OnOk, OnErr};
ghost use Rattle.std.specs.List.{list_all};
ghost use Rattle.db_store.specs.Dataset.{head_of, head_place, IsMade};
ghost use Rattle.db_store.specs.Parts.{IsViewable, AreOf};
ghost use Rattle.db_store.specs.State.{dataset_of};
ghost use Rattle.lock_table.specs.Rows.{Row};
ghost use Rattle.db_store.specs.Overlay.{untouched};
ghost use Rattle.store_tx.specs.Statements.{IsReady, MayAct, IsRefusedFor, begun_tx, held_by, lacking_at, lacking_of, lacking_over};
ghost use Rattle.db_store.specs.Found.{found, branch_names};
ghost use Rattle.branch_tx.specs.Found.{Lacking, source_of};
ghost use Rattle.branch_tx.specs.Alone.{ground_of};
ghost use Rattle.branch_tx.specs.Granted.{tx_in, is_current, AreAllOf};
ghost use Rattle.branch_tx.specs.TxState.{AreMet};
ghost use Rattle.branch_tx.specs.Covers.{covers, holds_alone, has_version, has_at, has_heads, has_over};
ghost use Rattle.line_needs.specs.Needs.{found_needs, source_needs, names_needs, scan_needs, needs};
ghost use Rattle.store_tx.specs.Keeps.{Keeps, IsKept, IsOn, HasNeeds, KeepsWith, KeepsBy, IsBack, IsMore, GrantsMore, head_need, needs_in};

use branch_tx::{Tx, plain_names};
use db_store::{Store, Work};
use db_value::{ListOf, Names, Refusal, VersionName, VersionPlace};
use std::alloc::{AllocError, Global};
use stmt_text::{ScanOver, Stmt};
use version_log::find_version;

/// The most versions of a branch.
const MOST_VERSIONS: u32 = 65_536;

/// The last version of a branch.
pub fn head_place<St: Store>(store: &St, branch: u32) -> VersionPlace
    requires { branch < length (dataset_of (St.state store.now)).branches }
    ensures place { result ≡ head_place (dataset_of (St.state store.now)) branch }
    ensures made { IsMade (dataset_of (St.state store.now)) result }
{
    VersionPlace {
        branch,
        position: store.last(branch),
    }
}

// The table of the head of a branch.
fn head_view<St: Store>(store: &St, branch: u32) -> Result<St::View, AllocError>
    requires { branch < length (dataset_of (St.state store.now)).branches }
    ensures table { IfOk result (λ v.
        St.View.table v ≡ head_of (dataset_of (St.state store.now)) branch) }
    ensures wide { IfOk result (λ v.
        length (St.View.table v) ≡ length (dataset_of (St.state store.now)).schema) }
    ensures viewable { IfOk result (λ v. IsViewable (St.View.table v) (St.View.parts_of v)) }
    ensures parts { IfOk result (λ v. AreOf (St.state store.now) (St.View.parts_of v)) }
    ensures met { IfOk result (λ v.
        AreMet (dataset_of (St.state store.now)).schema (St.View.table v)) }
{
    store.view(head_place(store, branch))
}

// Has a branch as many versions as it can have?
fn is_full<St: Store>(store: &St, branch: u32) -> bool
    requires { branch < length (dataset_of (St.state store.now)).branches }
    ensures { result ≡ (ground_of (dataset_of (St.state store.now)) branch).full }
{
    store.last(branch) + 1 >= MOST_VERSIONS
}

/// A transaction on a branch, to which nothing is granted yet.
pub fn open_tx<St: Store>(
    alloc: Global,
    store: &St,
    branch: u32,
    room: u32,
) -> Result<Tx<St>, AllocError>
    requires { branch < length (dataset_of (St.state store.now)).branches }
    ensures keeps { IfOk result (λ t. (rows : List Row) (s : ℕ)
        → Keeps (dataset_of (St.state store.now)) rows s branch t) }
    ensures tx { IfOk result (λ t. tx_in t ≡ begun_tx room) }
    ensures shown { IfOk result (λ t. AreAllOf (St.state store.now) t) }
{
    let below = head_view(store, branch)?;
    let schema = store.schema();
    let work = Work::over(alloc, below, room, schema)?;
    let name = store.branch_name(branch);
    Tx::over(alloc, schema, work, name)
}

// Puts the head of its branch under the transaction, which has touched nothing.
fn hold<St: Store>(store: &St, tx: &mut Tx<St>, branch: u32, alone: bool) -> Result<(), AllocError>
    requires on { IsOn (St.state store.now) branch tx.old }
    requires untouched { tx.old.overlays ≡ untouched }
    ensures ok { OnOk result (tx.new
        ≡ held_by (dataset_of (St.state store.now)) branch alone tx.new.below tx.old) }
    ensures shown { AreAllOf (St.state store.now) tx.new }
    ensures err { OnErr result (tx.new ≡ tx.old) }
{
    let view = head_view(store, branch)?;
    tx.hold(view, alone, is_full(store, branch));
    Ok(())
}

/// Grants the transaction its branch, exclusively where it is asked for alone.
pub fn grant_head<St: Store>(
    store: &St,
    tx: &mut Tx<St>,
    branch: u32,
    alone: bool,
) -> Result<(), AllocError>
    requires kept { IsKept (St.state store.now) branch tx.old }
    ensures keeps { OnOk result (KeepsBy (St.state store.now) branch (head_need branch alone)
        tx.old tx.new) }
    ensures held { OnOk result (is_some tx.new.held ≡ true) }
    ensures alone { OnOk result (alone ≡ true → holds_alone tx.new.held ≡ true) }
    ensures more { GrantsMore (St.state store.now) tx.old tx.new }
{
    if tx.holds_alone() {
        return Ok(());
    }
    if tx.is_held() && !alone {
        return Ok(());
    }
    hold(store, tx, branch, alone)
}

// Lends the transaction a version of another name than its own branch's.
fn lend<St: Store>(
    store: &St,
    tx: &mut Tx<St>,
    branch: u32,
    version: &VersionName,
) -> Result<Option<Refusal>, AllocError>
    requires kept { IsKept (St.state store.now) branch tx.old }
    requires other { is_current tx.old version.now ≡ false }
    ensures keeps { OnOk result (KeepsWith (St.state store.now) branch
        (found_needs (found (dataset_of (St.state store.now)) version.now)) tx.old tx.new) }
    ensures granted { IfOk result (λ o. o ≡ None → has_version tx.new version.now ≡ true) }
    ensures lacks { IfOk result (λ o. IfSome o (λ why.
        source_of branch (found (dataset_of (St.state store.now)) version.now) ≡ Lacking why)) }
    ensures more { GrantsMore (St.state store.now) tx.old tx.new }
{
    if tx.has_lent(version) {
        return Ok(None);
    }
    match find_version(store, version) {
        Err(why) => Ok(Some(why)),
        Ok(at) => {
            let view = store.view(at)?;
            tx.lend(*version, view)?;
            Ok(None)
        }
    }
}

// Grants the transaction the version with a name, or tells why there is none.
fn grant_version<St: Store>(
    store: &St,
    tx: &mut Tx<St>,
    branch: u32,
    version: &VersionName,
) -> Result<Option<Refusal>, AllocError>
    requires kept { IsKept (St.state store.now) branch tx.old }
    ensures keeps { OnOk result (KeepsWith (St.state store.now) branch
        (found_needs (found (dataset_of (St.state store.now)) version.now)) tx.old tx.new) }
    ensures granted { IfOk result (λ o. o ≡ None → has_version tx.new version.now ≡ true) }
    ensures lacks { IfOk result (λ o. IfSome o (λ why.
        source_of branch (found (dataset_of (St.state store.now)) version.now) ≡ Lacking why)) }
    ensures more { GrantsMore (St.state store.now) tx.old tx.new }
{
    if tx.is_current(version) {
        grant_head(store, tx, branch, false)?;
        return Ok(None);
    }
    let lacking = lend(store, tx, branch, version)?;
    Ok(lacking)
}

// Grants the transaction what a look-up reads, or tells why it isn't there.
fn grant_at<St: Store>(
    store: &St,
    tx: &mut Tx<St>,
    branch: u32,
    at: &Option<VersionName>,
) -> Result<Option<Refusal>, AllocError>
    requires kept { IsKept (St.state store.now) branch tx.old }
    ensures keeps { OnOk result (KeepsWith (St.state store.now) branch
        (source_needs (dataset_of (St.state store.now)) branch at.now) tx.old tx.new) }
    ensures granted { IfOk result (λ o. o ≡ None → has_at tx.new at.now ≡ true) }
    ensures lacks { IfOk result (λ o. IfSome o (λ why.
        lacking_at (dataset_of (St.state store.now)) branch at.now ≡ Some why)) }
    ensures more { GrantsMore (St.state store.now) tx.old tx.new }
{
    match at {
        None => {
            grant_head(store, tx, branch, false)?;
            Ok(None)
        }
        Some(version) => {
            let lacking = grant_version(store, tx, branch, version)?;
            Ok(lacking)
        }
    }
}

// Grants the transaction the versions with these names, or tells why the first that isn't there isn't.
fn grant_names<St: Store>(
    store: &St,
    tx: &mut Tx<St>,
    branch: u32,
    names: &[VersionName],
) -> Result<Option<Refusal>, AllocError>
    requires needs { HasNeeds (St.state store.now) branch
        (names_needs (dataset_of (St.state store.now)) names.now) tx.old }
    ensures keeps { OnOk result (KeepsWith (St.state store.now) branch
        (names_needs (dataset_of (St.state store.now)) names.now) tx.old tx.new) }
    ensures granted { IfOk result (λ o. o ≡ None → list_all (has_version tx.new) names.now ≡ true) }
    ensures lacks { IfOk result (λ o. IfSome o (λ why.
        lacking_of (dataset_of (St.state store.now)) branch names.now ≡ Some why)) }
    ensures more { GrantsMore (St.state store.now) tx.old tx.new }
{
    for name in names {
        match grant_version(store, tx, branch, name)? {
            Some(why) => return Ok(Some(why)),
            None => {}
        }
    }
    Ok(None)
}

// Grants the transaction two versions, or tells why the first that isn't there isn't.
fn grant_two<St: Store>(
    store: &St,
    tx: &mut Tx<St>,
    branch: u32,
    first: &VersionName,
    second: &VersionName,
) -> Result<Option<Refusal>, AllocError>
    requires needs { HasNeeds (St.state store.now) branch
        (names_needs (dataset_of (St.state store.now)) (first.now ∷ second.now ∷ [])) tx.old }
    ensures keeps { OnOk result (KeepsWith (St.state store.now) branch
        (names_needs (dataset_of (St.state store.now)) (first.now ∷ second.now ∷ [])) tx.old
        tx.new) }
    ensures granted { IfOk result
        (λ o. o ≡ None → list_all (has_version tx.new) (first.now ∷ second.now ∷ []) ≡ true) }
    ensures lacks { IfOk result (λ o. IfSome o (λ why.
        lacking_of (dataset_of (St.state store.now)) branch (first.now ∷ second.now ∷ [])
        ≡ Some why)) }
    ensures more { GrantsMore (St.state store.now) tx.old tx.new }
{
    let names = [*first, *second];
    let lacking = grant_names(store, tx, branch, &names)?;
    Ok(lacking)
}

// The names of all branches, in the order made.
fn branch_names<St: Store>(alloc: Global, store: &St) -> Result<Names, AllocError>
    ensures { IfOk result (λ names. names ≡ branch_names (dataset_of (St.state store.now))) }
{
    let mut names = Vec::new(alloc);
    for branch in 0..store.branches() {
        names.push(store.branch_name(branch))?;
    }
    Ok(ListOf::of(names))
}

// Grants the transaction the heads of all branches, and notes their names.
fn grant_heads<St: Store>(
    store: &St,
    tx: &mut Tx<St>,
    branch: u32,
) -> Result<Option<Refusal>, AllocError>
    requires needs { HasNeeds (St.state store.now) branch
        (scan_needs (dataset_of (St.state store.now)) branch ScanOver.Heads) tx.old }
    ensures keeps { OnOk result (KeepsWith (St.state store.now) branch
        (scan_needs (dataset_of (St.state store.now)) branch ScanOver.Heads) tx.old tx.new) }
    ensures granted { IfOk result (λ o. o ≡ None → has_heads tx.new tx.new.heads ≡ true) }
    ensures lacks { IfOk result (λ o. IfSome o (λ why.
        lacking_over (dataset_of (St.state store.now)) branch ScanOver.Heads ≡ Some why)) }
    ensures more { GrantsMore (St.state store.now) tx.old tx.new }
{
    let heads = branch_names(tx.allocator(), store)?;
    let names = plain_names(tx.allocator(), heads.as_slice())?;
    match grant_names(store, tx, branch, names.as_slice())? {
        Some(why) => Ok(Some(why)),
        None => {
            tx.lend_heads(&heads)?;
            Ok(None)
        }
    }
}

// Grants the transaction the versions that a scan goes over, or tells why the first that isn't there
// isn't.
fn grant_over<St: Store>(
    store: &St,
    tx: &mut Tx<St>,
    branch: u32,
    over: &ScanOver,
) -> Result<Option<Refusal>, AllocError>
    requires needs { HasNeeds (St.state store.now) branch
        (scan_needs (dataset_of (St.state store.now)) branch over.now) tx.old }
    ensures keeps { OnOk result (KeepsWith (St.state store.now) branch
        (scan_needs (dataset_of (St.state store.now)) branch over.now) tx.old tx.new) }
    ensures granted { IfOk result (λ o. o ≡ None → has_over tx.new over.now ≡ true) }
    ensures lacks { IfOk result (λ o. IfSome o (λ why.
        lacking_over (dataset_of (St.state store.now)) branch over.now ≡ Some why)) }
    ensures more { GrantsMore (St.state store.now) tx.old tx.new }
{
    match over {
        ScanOver::Current => {
            grant_head(store, tx, branch, false)?;
            Ok(None)
        }
        ScanOver::Named { names } => {
            let lacking = grant_names(store, tx, branch, names.as_slice())?;
            Ok(lacking)
        }
        ScanOver::Heads => {
            let lacking = grant_heads(store, tx, branch)?;
            Ok(lacking)
        }
    }
}

/// Grants the transaction what a statement that it doesn't cover needs, or tells which version isn't
/// there.
pub fn grant<St: Store>(
    store: &St,
    tx: &mut Tx<St>,
    branch: u32,
    stmt: &Stmt,
) -> Result<Option<Refusal>, AllocError>
    requires may { MayAct (St.state store.now) branch stmt.now tx.old }
    requires uncovered { covers tx.old stmt.now ≡ false }
    ensures keeps { OnOk result (KeepsWith (St.state store.now) branch
        (needs_in (St.state store.now) branch tx.old stmt.now) tx.old tx.new) }
    ensures covered { IfOk result (λ o. o ≡ None → covers tx.new stmt.now ≡ true) }
    ensures lacks { IfOk result
        (λ o. IfSome o (IsRefusedFor (St.state store.now) branch tx.old stmt.now)) }
    ensures more { GrantsMore (St.state store.now) tx.old tx.new }
{
    match stmt {
        Stmt::Insert { .. } => {
            grant_head(store, tx, branch, true)?;
            Ok(None)
        }
        Stmt::Update { .. } => {
            grant_head(store, tx, branch, true)?;
            Ok(None)
        }
        Stmt::Delete { .. } => {
            grant_head(store, tx, branch, true)?;
            Ok(None)
        }
        Stmt::Get { at, .. } => {
            let lacking = grant_at(store, tx, branch, at)?;
            Ok(lacking)
        }
        Stmt::Scan { over, .. } => {
            let lacking = grant_over(store, tx, branch, over)?;
            Ok(lacking)
        }
        Stmt::Join { first, second, .. } => {
            let lacking = grant_two(store, tx, branch, first, second)?;
            Ok(lacking)
        }
        Stmt::Minus { first, second, .. } => {
            let lacking = grant_two(store, tx, branch, first, second)?;
            Ok(lacking)
        }
        _ => Ok(None),
    }
}

/// Grants the transaction what a statement needs, where the statement reads or changes records. Want
/// of memory takes back what was granted.
pub fn grant_or_back<St: Store>(
    store: &St,
    tx: &mut Tx<St>,
    branch: u32,
    stmt: &Stmt,
) -> Result<(), AllocError>
    requires may { MayAct (St.state store.now) branch stmt.now tx.old }
    ensures ready { OnOk result (IsReady (St.state store.now) branch stmt.now tx.new) }
    ensures keeps { OnOk result (KeepsWith (St.state store.now) branch
        (needs_in (St.state store.now) branch tx.old stmt.now) tx.old tx.new) }
    ensures more { OnOk result (IsMore tx.old tx.new) }
    ensures shown { AreAllOf (St.state store.now) tx.new }
    ensures err { OnErr result (IsBack branch tx.old tx.new) }
{
    let known = tx.knows(stmt);
    if tx.covers(stmt, &known) {
        return Ok(());
    }
    let before = tx.mark();
    match grant(store, tx, branch, stmt) {
        Ok(_lacking) => Ok(()),
        Err(stop) => {
            tx.back_to(before);
            Err(stop)
        }
    }
}
