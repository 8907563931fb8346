//! The verbs of a host that starts programs.
//!
//!   program SHELL        the answer to the script that the input is, started as step 0 of leg 0 in this folder
//!   program uses ACTION  the same of an action without inputs, for which `./stub` stands where it is `stubbed`

use case_hosts::text_calls::put_played;
use case_reader::Page;
use case_reader::samples::pair;
use command_run::machine::{HostSetup, Machine};
use flow_commands::Masks;

/// A host of programs in this folder, with the stub of the one action that has one.
fn host<R: Machine>(rt: &R, page: &mut Page<'_>) -> Option<R::Host> {
    let stubs = page.have(pair(page.alloc, "stubbed", "./stub"))?;
    let folder = rt.whole_path(".").ok()?;
    let setup = HostSetup {
        work: folder.as_str(),
        stubs,
        masks: Masks::empty(page.alloc),
        progress: None,
    };
    rt.host(page.alloc, setup).ok()
}

/// What a host of programs answers, in this folder.
pub fn program<R: Machine>(rt: &R, page: &mut Page<'_>) {
    match host(rt, page) {
        Some(host) => put_played(page, &host),
        None => page.put("no host"),
    }
}
