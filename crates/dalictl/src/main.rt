//! The program `dalictl`.
//!
//! All of it is the crate `commands`, here over the machine's files, words, terminal, threads and
//! devices. Its help, and docs/LANGUAGE.md, say what it does. How the program ends is a
//! `commands::ExitStatus`, by its number.
#![tactic(auto)]

use commands::ExitStatus;
use livehouse::{DownReasons, HostDevices, HostSite, LineStarter, hold_standard_files};
use std::process::ExitCode;
use std::sync::Arc;

fn main(rt: HostRuntime) -> ExitCode {
    let _held = hold_standard_files(&rt);
    let devices = HostDevices { rt };
    let Ok(starter) = LineStarter::start(rt.alloc(), rt) else {
        return ExitCode::from(ExitStatus::Failed.number());
    };
    let Ok(reasons) = Arc::new(rt.alloc(), DownReasons::new(rt.alloc())) else {
        return ExitCode::from(ExitStatus::Failed.number());
    };
    let site = HostSite {
        rt: &rt,
        devices: &devices,
        starter: &starter,
        reasons: &reasons,
    };
    ExitCode::from(commands::run(&rt, &rt, &site).number())
}
