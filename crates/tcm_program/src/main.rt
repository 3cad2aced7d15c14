//! The program `tcm`: a run of `tcm_session` over standard input, standard output and the files of the system.
#![tactic(auto)]

#[cfg(test)]
mod tests;

use cluster_terms::Memory;
use durable_log::FileDisk;
use std::env;
use std::io::ErrorKind;
use std::process::ExitCode;
use tcm_edges::{FileStore, InputSource, OutputSink};
use tcm_session::{durable_words, run, run_durable};

/// The words after the program's name, or no words if a word isn't UTF-8 text: then the program prints its usage line.
/// Fails only if memory runs out.
fn words_after_name(rt: &HostRuntime) -> Result<Vec<String>, Memory> {
    match env::args(rt) {
        Ok(words) => Ok(words.skip(1).collect(rt.alloc())?),
        Err(error) if error.kind() == ErrorKind::OutOfMemory => Err(Memory),
        Err(_) => Ok(Vec::new(rt.alloc())),
    }
}

/// Exits with the status of the run, or with 1 if memory runs out before the run.
fn main(rt: HostRuntime) -> ExitCode {
    let Ok(words) = words_after_name(&rt) else {
        return ExitCode::FAILURE;
    };
    let mut input = InputSource::new(rt.stdin());
    let mut out = OutputSink::new(rt.stdout());
    let alloc = rt.alloc();
    let status = match durable_words(&words) {
        Some((path, words)) => {
            let Ok(path) = String::from_str(alloc, path) else {
                return ExitCode::FAILURE;
            };
            let disk = FileDisk::new(rt, path);
            let (status, _disk) = run_durable(alloc, words, &mut input, &mut out, disk);
            status
        }
        None => {
            let mut store = FileStore::new(rt);
            run(alloc, &words, &mut input, &mut out, &mut store)
        }
    };
    ExitCode::from(status.0)
}
