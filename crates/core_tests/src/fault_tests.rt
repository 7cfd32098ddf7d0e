//! A core whose log fails at some appends and at each checkpoint. The replies are written by hand.
ghost use Rattle.std.specs.Prelude.{◌≡◌};
ghost use Rattle.db_outside.specs.Count.{counted};

use crate::asserts::{holds, is_spelled, line_of};
use crate::desk_tests::new_store;
use db_core::Core;
use db_outside::{Batch, Failed};
use db_store::Store;
use entry_codec::{CheckpointStop, Log};
use std::alloc::Global;
use std::process::Abort;
use std::test::Fail;

/// A log that takes batches and drops them, and fails at its first batch and at every second one after
/// it, and at each checkpoint.
#[derive(Drop)]
pub struct Faulty {
    pub fails: bool,
    pub count: u64,
}

impl<St: Store> Log<St> for Faulty {
    ghost faults = { λ log. log.count };

    ghost counts = { λ _. (0, 0) };

    ghost Keeps = { λ _ _ _ _. ⊥ };

    ghost Owes = { λ _ _ _ _. ⊥ };

    ghost generation = { λ _. 0 };

    ghost moment = { λ _. (0, 0) };

    ghost opens_now = { λ _ _. ⊥ };

    ghost opens_since = { λ _ _ _. ⊥ };

    ghost Quiet = { λ _ _. Unit {0} };

    fn stores_nothing(&self) -> bool {
        false
    }

    fn append(&mut self, _batch: &Batch) -> Result<(), Failed> {
        let fails = self.fails;
        self.fails = !fails;
        if !fails {
            return Ok(());
        }
        self.count = self.count.saturating_add(1);
        Err(Failed)
    }

    fn checkpoint(&mut self, _store: &St) -> Result<(), CheckpointStop> {
        self.count = self.count.saturating_add(1);
        Err(CheckpointStop::DiskFault)
    }

    fn fault_count(&self) -> u64
        ensures { result ≡ counted self.now.count }
    {
        self.count
    }

    ghost kept_opens = { λ log s es f keeps o opens. absurd opens };

    ghost owes_opens = { λ log s es f owes o opens. absurd opens };

    ghost counts_now = { λ log t o le opens. opens };

    ghost only_now = { λ log o opens. opens };
}

// A row is the line and its reply.
const ROWS: [&str; 22] = [
    "> 1 insert items 1 1 1\nrefused 19 fault disk\n",
    "> 1 get items 1\nnone\n",
    "> 1 insert items 1 1 1\nok master@1\n",
    "> 1 branch dev of master\nrefused 19 fault disk\n",
    "> 1 on dev\nrefused 4 no branch dev\n",
    "> 1 branch dev of master\nok dev@0\n",
    "> 1 begin\nok\n",
    "> 1 insert items 2 2 2\nok\n",
    "> 1 insert items 1 1 1\nrefused 6 key there items 1\n",
    "> 1 commit\nrefused 19 fault disk\n",
    "> 1 commit\nrefused 11 no transaction\n",
    "> 1 get items 2\nnone\n",
    "> 2 insert items 2 2 2\nok master@2\n",
    "> 1 merge dev\nrefused 19 fault disk\n",
    "> 1 merge dev\nok master@3\n",
    "> 1 insert items 1 5 5\nrefused 6 key there items 1\n",
    "> 1 abort\nrefused 11 no transaction\n",
    "> 1 checkpoint\nrefused 19 fault disk\n",
    "> 1 begin\nok\n",
    "> 1 checkpoint\nrefused 10 in transaction\n",
    "> 1 get items 1\nrow 1 1 1\n",
    "> 1 commit\nok\n",
];

// How often the log fails in these rows.
const FAULTS: u64 = 5;

fn tell_row<St: Store>(
    rt: &impl Abort,
    core: &mut Core<St, Faulty>,
    row: &str,
) -> Result<(), Fail> {
    let bytes = core.line(line_of(row)?.as_bytes())?;
    holds(rt, row, is_spelled(row, "", bytes.as_slice()));
    Ok(())
}

fn tell_all<St: Store>(rt: &impl Abort, core: &mut Core<St, Faulty>) -> Result<(), Fail> {
    for row in &ROWS {
        tell_row(rt, core, row)?;
    }
    Ok(())
}

fn run<St: Store>(rt: &impl Abort, alloc: Global, store: St, log: Faulty) -> Result<(), Fail> {
    let Ok(mut core) = Core::new(alloc, store, log) else {
        return Err("no core".into());
    };
    tell_all(rt, &mut core)?;
    let (store, log) = core.into_parts();
    holds(rt, "its faults", log.count == FAULTS);
    holds(rt, "its versions", store.last(0) == 3);
    Ok(())
}

#[test]
fn a_failed_append_refuses_its_line_alone(rt: HostRuntime) -> Result<(), Fail> {
    let log = Faulty {
        fails: true,
        count: 0,
    };
    run(&rt, rt.alloc(), new_store(rt.alloc())?, log)
}
