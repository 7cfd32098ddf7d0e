//! Stores and boards that the tests share.
ghost use Rattle.std.specs.Prelude.{◌≡◌, IfOk};
ghost use Rattle.db_outside.specs.Count.{counted};
ghost use Rattle.db_core.specs.Kept.{Stands, new_kept};

use db_core::{Board, Opened};
use db_store::Store;
use db_value::Schema;
use entry_codec::Log;
use plain_store::PlainStore;
use std::alloc::Global;
use std::test::Fail;

/// A store of one relation.
pub fn new_store(alloc: Global) -> Result<PlainStore, Fail> {
    let (schema, _) = Schema::read(alloc, b"relation items a\nend\n")?;
    Ok(PlainStore::new(alloc, schema)?)
}

/// A board on which nothing was run, under these names.
pub fn new_board<St: Store, J: Log<St>, T: Opened>(
    alloc: Global,
    store: St,
    log: J,
) -> Result<Board<St, J, T>, Fail>
    requires { (T.opened ≡ St.state store) × (T.first ≡ counted (J.faults log)) }
    ensures kept { IfOk result (λ b. b.kept ≡ new_kept T.opened T.first) }
    ensures stands { IfOk result (λ b. Stands b.kept) }
    ensures log { IfOk result (λ b. b.log ≡ log) }
{
    match Board::<St, J, T>::new(alloc, store, log) {
        Err(_) => Err("no board".into()),
        Ok(board) => Ok(board),
    }
}
