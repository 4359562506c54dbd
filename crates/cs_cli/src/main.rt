//! The recovery tool for scripts: the commands of `cs_commands` over the system's folders.
#![tactic(auto)]

use cs_commands::{Folders, Stop, report, run};
use std::process::ExitCode;
use std::{env, io};

fn main(rt: HostRuntime) -> ExitCode {
    let alloc = rt.alloc();
    let mut places = Folders::new(alloc, rt);
    let mut out = rt.stdout();
    let mut err = rt.stderr();
    let status = match env::args(&rt) {
        Ok(args) => match args.skip(1).collect::<Vec<String>>(alloc) {
            Ok(words) => run(
                &rt,
                alloc,
                words.as_slice(),
                &mut places,
                &mut out,
                &mut err,
            ),
            Err(_) => report(&Stop::Memory, &mut err),
        },
        Err(e) if e.kind() == io::ErrorKind::OutOfMemory => report(&Stop::Memory, &mut err),
        Err(_) => report(&Stop::Usage, &mut err),
    };
    ExitCode::from(status)
}
