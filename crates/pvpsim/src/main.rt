//! `pvpsim`: runs scripts on a settlement bank and prints its books, and begins and serves actors of a bank.
#![tactic(auto)]

use pvp_audit::DiskShelf;
use pvp_command::{Disk, Piped, Served, command_on, no_words, served_by, tell_served};
use pvp_places::{ServeFault, Task};
use pvp_serve::{begin, serve};
use std::io::BufReader;
use std::process::ExitCode;
use std::{env, io};

fn main(rt: HostRuntime) -> ExitCode {
    let words = match words(&rt) {
        Ok(words) => words,
        Err(refusal) => return ExitCode::from(no_words(refusal.kind(), &mut rt.stderr())),
    };
    if let Some(Served { task, explains }) = served_by(rt.alloc(), words.as_slice()) {
        let told = match task {
            Task::Begin(beginning) => begin(rt, &beginning),
            Task::Serve(order) => match BufReader::new(rt.alloc(), rt.stdin()) {
                Ok(terminal) => serve(rt, terminal, &order),
                Err(_) => Err(ServeFault::NoMemory),
            },
        };
        return ExitCode::from(tell_served(told, explains, &mut rt.stderr()));
    }
    ExitCode::from(command_on(
        &rt,
        rt.alloc(),
        words.as_slice(),
        &Disk { rt: &rt },
        &mut DiskShelf::new(&rt),
        &mut Piped::new(rt.stdout()),
        &mut rt.stderr(),
    ))
}

/// The words of the command line, the program's own name first.
fn words<R: env::Env + AllocGlobal>(rt: &R) -> io::Result<Vec<String>> {
    Ok(env::args(rt)?.collect(rt.alloc())?)
}
