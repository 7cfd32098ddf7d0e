//! What the C library is asked first.
use std::alloc::{AllocError, Global};

/// Takes a first piece of memory and gives it back, before anything else is called. With its first piece the C library reads whether the
/// system gives large pages to those who ask for them, which takes most page faults away where its setting `glibc.malloc.hugetlb=1` asks.
/// glibc 2.36 reads it to a place on the stack that it doesn't clear, and understands it only if a zero byte stands behind it, as it does
/// as long as no function has left anything there. If it isn't understood, the pages are small, and nothing else is lost.
pub fn take_first(alloc: Global) {
    let _piece: Result<Vec<u8>, AllocError> = Vec::with_capacity(alloc, 1);
}
