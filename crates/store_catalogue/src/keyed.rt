//! Tables whose keys are counted and looked up without memory.
ghost use Rattle.std.specs.Prelude.{◌≡◌, ◌<◌, length, is_some};
ghost use Rattle.std.specs.FinMap as finite;
ghost use Rattle.db_store.specs.Table.{Table, relation_at};

/// What a store keeps of one version: a table of which it can tell how many keys a relation has, and
/// whether a key is one of them.
pub trait KeyedTable {
    /// The table.
    ghost table_of: { Self → Table };

    /// How many keys a relation has.
    fn keys(&self, relation: u8) -> u32
        requires { relation < length (table_of self.now) }
        ensures { result ≡ finite.len (relation_at (table_of self.now) relation) };

    /// Has a relation a key?
    fn has(&self, relation: u8, key: u64) -> bool
        requires { relation < length (table_of self.now) }
        ensures { result ≡ is_some (finite.get (relation_at (table_of self.now) relation) key) };
}
