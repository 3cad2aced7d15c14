//! Comparisons of what a run did with what is wanted. Each fails with the name of the run.

use std::alloc::Global;
use std::str::from_utf8;
use std::test::Fail;
use tcm_session::Status;

/// Fails unless a run ended with the wanted status.
pub fn ends(alloc: Global, run: &str, status: Status, wanted: u8) -> Result<(), Fail> {
    if status == Status(wanted) {
        return Ok(());
    }
    let why = format!(in alloc; "{run}: it ended with {status:?}, wanted is {wanted}")?;
    Err(Fail::new(why))
}

/// Fails unless a run printed the wanted text.
pub fn prints(alloc: Global, run: &str, printed: &[u8], wanted: &str) -> Result<(), Fail> {
    if printed == wanted.as_bytes() {
        return Ok(());
    }
    let text = from_utf8(printed).unwrap_or("no text");
    let why = format!(in alloc; "{run}: it printed {text:?}, wanted is {wanted:?}")?;
    Err(Fail::new(why))
}

/// Fails unless a run left this file, or another thing, as is wanted.
pub fn leaves(alloc: Global, run: &str, file: &str, is_wanted: bool) -> Result<(), Fail> {
    if is_wanted {
        return Ok(());
    }
    let why = format!(in alloc; "{run}: it left {file} in another way than is wanted")?;
    Err(Fail::new(why))
}
