//! Renders music of the SPC700 and its S-DSP to sound files: the program, over any host and over real files.
#![tactic(auto)]

#[cfg(test)]
mod demo_tests;
#[cfg(test)]
mod disk_tests;
#[cfg(test)]
mod failing_tests;
mod given;
#[cfg(test)]
mod hostile_tests;
mod run;
#[cfg(test)]
mod runs;
#[cfg(test)]
mod tests;

use crate::given::{given_of, run_given};
use disk_host::{DiskHost, RealDisk};
use std::alloc::Global;
use std::process::ExitCode;
use std::{env, fs, io};

/// A file that is always there, and empty.
const NOTHING: &str = "/dev/null";

/// The words after the program's name.
fn words_of(alloc: Global, rt: &(impl std::rt::Env + AllocGlobal)) -> io::Result<Vec<String>> {
    let mut words = Vec::new(alloc);
    for word in env::args(rt)?.skip(1) {
        words.push(word)?;
    }
    Ok(words)
}

fn main(rt: HostRuntime) -> ExitCode {
    // A standard stream that is closed gets an empty file in its place, so that no input or output gets it.
    let _places = (
        fs::open(&rt, NOTHING),
        fs::open(&rt, NOTHING),
        fs::open(&rt, NOTHING),
    );
    let disk = RealDisk::new(&rt, rt.stdout(), rt.stderr());
    let mut host = DiskHost::new(disk);
    let given = given_of(words_of(rt.alloc(), &rt));
    ExitCode::from(run_given(rt.alloc(), &given, &mut host))
}
