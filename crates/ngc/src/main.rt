//! The program `ngc`: one call of `ng_console`, which does the work and whose contracts say what it does.
#![tactic(auto)]

use ng_console::start;
use std::io;
use std::process::ExitCode;

fn main(rt: HostRuntime) -> ExitCode {
    ExitCode::from(start(&rt, &mut rt.reader(), &mut io::writer(&rt)))
}
