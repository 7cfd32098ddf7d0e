//! The versions that were lent to a transaction.
ghost use Rattle.std.specs.Prelude.{◌≡◌, ◌++◌, ◌∷◌, [], List, None, Some, OnOk, OnErr, IfNone, IfSome, length, is_some, ◌-◌};
ghost use Rattle.db_value.specs.declared.version.VersionName.{VersionName};
ghost use Rattle.branch_tx.specs.Granted.{lent_table};
ghost use Rattle.branch_tx.specs.Shown.{parts_by, IsAmong};
ghost use Rattle.branch_tx.specs.Lending.{ArePlaces, no_views, and_view, first_views};

use crate::key::NameKey;
use db_store::View;
use db_value::VersionName;
use std::alloc::{AllocError, Global};
use std::collections::BTreeMap;
use std::marker::Model;

// A version that was lent, under its name.
#[derive(Drop)]
struct Lent<V: View> {
    name: VersionName,
    view: V,
}

/// The versions that were lent, in the order lent. Of several under one name the first is found. To
/// find one takes steps in the logarithm of their number.
#[derive(Drop)]
pub struct Lending<V: View> {
    lent: Vec<Lent<V>>,
    places: BTreeMap<NameKey, usize>,
}

impl<V: View> Model for Lending<V> {
    ghost use Rattle.std.specs.Prelude.{map};
    ghost use Rattle.branch_tx.specs.Shown.{parts_by};
    ghost use Rattle.branch_tx.specs.Lending.{Views, ArePlaces, views_code};

    ghost Value = { Views };

    ghost coded = { views_code };

    ghost view = { λ l. (
      map (λ x. (x.name, V.table x.view)) l.lent.items,
      map (λ x. parts_by (V.parts_of x.view)) l.lent.items,
    ) };

    ghost invariant = { λ l. ArePlaces (map (λ x. x.name) l.lent.items) l.places };
}

// Notes the place of a name behind others, unless one of them is the same.
fn note(
    places: &mut BTreeMap<NameKey, usize>,
    name: &VersionName,
    place: usize,
) -> Result<(), AllocError>
    ensures ok { OnOk result ((names : List VersionName) → place ≡ length names
        → ArePlaces names places.old → ArePlaces (names ++ name.now ∷ []) places.new) }
    ensures err { OnErr result ((names : List VersionName) → ArePlaces names places.old
        → ArePlaces names places.new) }
{
    let key = NameKey::of(name);
    if places.contains_key(&key) {
        return Ok(());
    }
    match places.insert(key, place) {
        Ok(_) => Ok(()),
        Err(_) => Err(AllocError),
    }
}

// Forgets the place of a name behind others, unless one of them is the same.
fn forget(places: &mut BTreeMap<NameKey, usize>, name: &VersionName, place: usize)
    ensures { (names : List VersionName) → place ≡ length names
        → ArePlaces (names ++ name.now ∷ []) places.old → ArePlaces names places.new }
{
    let key = NameKey::of(name);
    if places.get(&key).copied() == Some(place) {
        places.remove(&key);
    }
}

impl<V: View> Lending<V> {
    /// Nothing was lent.
    pub fn new(alloc: Global) -> Lending<V>
        ensures { result ≡ no_views }
    {
        Lending {
            lent: Vec::new(alloc),
            places: BTreeMap::new(alloc),
        }
    }

    /// How many were lent.
    pub fn len(&self) -> usize
        ensures { result ≡ length self.now.0 }
    {
        self.lent.len()
    }

    /// Where it takes its memory.
    pub fn allocator(&self) -> &Global {
        self.lent.allocator()
    }

    /// Adds a view under a name.
    pub fn push(&mut self, name: VersionName, view: V) -> Result<(), AllocError>
        ensures ok { OnOk result (self.new
            ≡ and_view self.old name (V.table view) (parts_by (V.parts_of view))) }
        ensures err { OnErr result (self.new ≡ self.old) }
    {
        let place = self.lent.len();
        self.lent.push(Lent { name, view })?;
        match note(&mut self.places, &name, place) {
            Ok(()) => Ok(()),
            Err(stop) => {
                self.lent.truncate(place);
                Err(stop)
            }
        }
    }

    /// The view that was lent under a name; none if none was.
    pub fn find(&self, name: &VersionName) -> Option<&V>
        ensures none { IfNone result (lent_table self.now.0 name.now ≡ None) }
        ensures some { IfSome result (λ v.
            lent_table self.now.0 name.now ≡ Some (V.table v.now)) }
        ensures shown { IfSome result (λ v. IsAmong self.now.1 (parts_by (V.parts_of v.now))) }
    {
        match self.places.get(&NameKey::of(name)) {
            None => None,
            Some(place) => Some(&self.lent[*place].view),
        }
    }

    /// Was a view lent under a name?
    pub fn has(&self, name: &VersionName) -> bool
        ensures { result ≡ is_some (lent_table self.now.0 name.now) }
    {
        self.places.contains_key(&NameKey::of(name))
    }

    // Takes back the last one.
    fn pop(&mut self)
        ensures { self.new ≡ first_views (length self.old.0 - 1) self.old }
    {
        if let Some(last) = self.lent.pop() {
            forget(&mut self.places, &last.name, self.lent.len());
        }
    }

    /// Keeps the first few. It takes no memory.
    pub fn keep_first(&mut self, count: usize)
        ensures { self.new ≡ first_views count self.old }
    {
        while self.lent.len() > count {
            self.pop();
        }
    }
}
