// Two event logs side by side: `compare FILE FILE`. Each log is checked whole, the first and then the second; then the groups are paired
// by number, and each pair that differs is shown with both sides in words. What is listed is what the steps of `comparing` tell of the
// bytes read. Logs may be of any length: they are read in parts, once for the check, once for the pairs, once for the pairs shown.
#![tactic(auto)]

mod checking;
mod listing;
mod page;
mod reading;
mod says;
mod showing;
mod turns;

use crate::listing::{Checked, Listing};
use crate::page::{Page, Stopped};
use crate::says::Name;
use crate::turns::Pass;
use comparing::Log;
use input::Source;
use output::Output;
use std::env::FillError;
use std::fs::File;
use std::rt::{Env, Files};

// Whether there is an argument of this number.
fn is_given<R: Env>(rt: &R, i: usize) -> bool {
    let mut byte = [0u8; 1];
    match rt.arg(i, &mut byte) {
        Err(FillError::NotPresent) => false,
        _ => true,
    }
}

// The log of this name; none where it cannot be opened, which standard error then says.
fn open_log<R: Files<File = File>>(rt: &R, to: Output, name: &Name) -> Option<Source> {
    input::open_file(rt, to, name.bytes())
}

// The log that an argument names, if its check finds nothing wrong; what it finds is said.
fn check<R: Env + Files<File = File>>(
    rt: &R,
    to: Output,
    log: Log,
    i: usize,
) -> Result<Checked, Stopped> {
    let name = Name::of(rt, to, i)?;
    let mut source = open_log(rt, to, &name).ok_or(Stopped)?;
    match checking::check_log(log, &mut source, to)?.verdict() {
        Ok(size) => Ok(Checked { name, size }),
        Err(fault) => {
            says::refuse(to, &name, fault);
            Err(Stopped)
        }
    }
}

// The first log is checked whole, then the second, before any pairing.
fn compare_logs<R: Env + Files<File = File>>(rt: &R, to: Output) -> Result<(), Stopped> {
    let first = check(rt, to, Log::First, 1)?;
    let second = check(rt, to, Log::Second, 2)?;
    let a = open_log(rt, to, &first.name);
    let b = open_log(rt, to, &second.name);
    let c = open_log(rt, to, &first.name);
    let d = open_log(rt, to, &second.name);
    let (Some(a), Some(b), Some(c), Some(d)) = (a, b, c, d) else {
        return Err(Stopped);
    };
    let mut listing = Listing {
        pairs: Pass::new(a, b),
        lines: Pass::new(c, d),
        first,
        second,
        page: Page::new(to),
    };
    listing.list(to)
}

// Checks both logs, then lists how they differ.
fn main(rt: HostRuntime) {
    let to = Output::new(rt.stdout(), rt.stderr());
    if !is_given(&rt, 2) || is_given(&rt, 3) {
        to.say(b"usage: compare FILE FILE\n");
        return;
    }
    let _ = compare_logs(&rt, to);
}
