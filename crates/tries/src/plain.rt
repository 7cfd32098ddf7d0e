//! A script on a new dataset in memory, over whole tables: what `decibel try` does over segments.

use db_core::Core;
use db_outside::{Sink, Source};
use db_value::Schema;
use entry_codec::NoLog;
use plain_store::PlainStore;
use script_run::{read_all, run_script};
use std::alloc::{AllocError, Global};

// A core over a new dataset in memory.
fn new_core(alloc: Global, schema: Schema) -> Result<Core<PlainStore, NoLog>, AllocError> {
    let store = PlainStore::new(alloc, schema)?;
    match Core::new(alloc, store, NoLog) {
        Ok(core) => Ok(core),
        Err((stop, _, _)) => Err(stop),
    }
}

/// Runs an input's schema and script. Were they run to the end?
pub fn try_plain<S: Source, K: Sink>(alloc: Global, source: &mut S, sink: &mut K) -> bool {
    let Ok(input) = read_all(alloc, source) else {
        return false;
    };
    let Ok((schema, taken)) = Schema::read(alloc, &input) else {
        return false;
    };
    let Ok(mut core) = new_core(alloc, schema) else {
        return false;
    };
    run_script(&mut core, &input[taken..], sink).is_ok()
}
