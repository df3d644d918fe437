//! Times the calls of the containers.
//!
//! usage: bench WHAT ROUNDS [N ..]
//!
//! WHAT is a kind of rows, the name of one row, or all. The kinds are lookups, inserts, growth, removals,
//! walks, wholes, sets, algebra, caches, budgets and texts. For each N and each row it prints a line `name N
//! ns_per_operation operations` to standard output, with the least time of ROUNDS rounds of about a million
//! operations, and a line `checksum name N hex` of all results to standard error. If ROUNDS is 0, each row is
//! done once and not timed, and only its checksum is printed, to standard output.
//!
//! An operation is a call or, if a call is one for all entries, an entry.
#![tactic(auto)]

mod algebra;
mod budgets;
mod caches;
mod entries;
mod fill;
mod growth;
mod inserts;
mod keys;
mod lists;
mod lookups;
mod plan;
mod random;
mod removals;
mod request;
mod results;
mod sets;
mod texts;
mod walks;
mod wholes;

use keys::Keys;
use plan::Plan;
use request::Request;
use std::alloc::Global;
use std::process::ExitCode;
use std::{env, io};

fn main(rt: HostRuntime) -> io::Result<ExitCode> {
    let Some(request) = Request::read(rt.alloc(), env::args(&rt)?)? else {
        return refuse(&rt);
    };
    for size in &request.sizes {
        if !time_rows(&rt, rt.alloc(), &request, *size)? {
            return refuse(&rt);
        }
    }
    Ok(ExitCode::SUCCESS)
}

/// Prints how the program is called.
fn refuse(rt: &HostRuntime) -> io::Result<ExitCode> {
    eprintln!(rt;
        "usage: bench WHAT ROUNDS [N ..], where WHAT is all, a row, or one of lookups, inserts, growth, \
         removals, walks, wholes, sets, algebra, caches, budgets, texts"
    )?;
    Ok(ExitCode::from(2))
}

/// Does the requested rows at one size, and returns whether there are any.
fn time_rows(rt: &HostRuntime, alloc: Global, request: &Request, size: usize) -> io::Result<bool> {
    let keys = Keys::new(alloc, size)?;
    let plan = Plan::new(rt, request, &keys);
    all_rows(&plan);
    plan.end()
}

/// Each row, in the order of the table.
fn all_rows(plan: &Plan<'_>) {
    lookups::rows(plan);
    inserts::rows(plan);
    entries::rows(plan);
    growth::rows(plan);
    removals::rows(plan);
    walks::rows(plan);
    wholes::rows(plan);
    sets::rows(plan);
    algebra::rows(plan);
    caches::rows(plan);
    budgets::rows(plan);
    texts::rows(plan);
}
