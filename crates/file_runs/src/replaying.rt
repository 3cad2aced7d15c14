//! Runs of `replay` over the files `x` and `y`.

use crate::comparing::leaves;
use crate::running::is_shown;
use crate::told::{File, bytes_of, holds, put_file, sure_store_of};
use std::alloc::Global;
use std::test::Fail;
use tcm_edges::MemStore;

/// The name of a run, the files `x` and `y`, the status, and the first and the further lines that are printed.
pub type Replayed = (&'static str, File, File, u8, &'static str, &'static str);

/// What reports show of the epochs 0, 2 and 3 of the entries that letters tell.
pub const AT_0: &str = "NODES 0 0 0\n";

pub const AT_2: &str = "NODES 2 1 0\n\
    1 a dc1 r1 JOINED 0\n";

pub const AT_3: &str = "NODES 3 1 0\n\
    1 a dc1 r1 JOINED 0\n\
    PLACE 3 ks 2\n\
    (min,0] read 1 write 1\n\
    (0,max] read 1 write 1\n";

/// The words of a run over the files `x` and `y`.
pub const REPLAY: [&str; 3] = ["replay", "x", "y"];

/// Whether the file `y` has these contents.
pub fn holds_second(alloc: Global, store: &MemStore, file: File) -> Result<bool, Fail> {
    match file {
        Some(told) => {
            let bytes = bytes_of(alloc, told)?;
            Ok(store.file("y") == Some(bytes.as_slice()))
        }
        None => Ok(store.file("y").is_none()),
    }
}

/// Replays each pair of files. They are unchanged.
pub fn replays(alloc: Global, rows: &[Replayed]) -> Result<(), Fail> {
    for row in rows {
        let (name, first, second, status, counts, state) = *row;
        let text = format!(in alloc; "{counts}{state}")?;
        let mut store = sure_store_of(alloc, first)?;
        put_file(alloc, &mut store, "y", second)?;
        is_shown(alloc, name, &REPLAY, &mut store, (status, text.as_str()))?;
        leaves(alloc, name, "x", holds(alloc, &store, first)?)?;
        leaves(alloc, name, "y", holds_second(alloc, &store, second)?)?;
    }
    Ok(())
}
