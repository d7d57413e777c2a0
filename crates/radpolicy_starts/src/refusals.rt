//! Refusals of what is in the files.

ghost use Rattle.radpolicy.specs.Faults.{IsPrintedWith};

use crate::plans::StartPlan;
use crate::start_files::StartFiles;
use avp_lists::Octets;
use radpolicy::Fault;
use radpolicy_common::refuse;
use radpolicy_help::{STANDARD_INPUT, Source, Sources, refuse_explained};
use std::alloc::{AllocError, Global};

fn octets_in(file: &Option<Octets>) -> &[u8] {
    match file {
        Some(octets) => octets.as_slice(),
        None => &[],
    }
}

// The name of the request in a place: that of its file, and that of the record in it.
fn request_name(alloc: Global, plan: &StartPlan<'_>) -> Result<String, AllocError> {
    let path = plan.request.unwrap_or(STANDARD_INPUT);
    match plan.record {
        Some(name) => format!(in alloc; "{path} record {name}"),
        None => format!(in alloc; "{path}"),
    }
}

// The file whose lines a fault is of. A list's lines are in a file of their own, or in the request's record.
fn lines_with<'a>(
    plan: &StartPlan<'a>,
    files: &'a StartFiles,
    request: &'a str,
    fault: &Fault,
) -> Source<'a> {
    let (path, text) = match fault {
        Fault::Reply(_) => (plan.reply, octets_in(&files.reply)),
        Fault::Control(_) => (plan.control, octets_in(&files.control)),
        _ => (None, files.request.as_slice()),
    };
    Source {
        path: path.unwrap_or(request),
        text,
    }
}

// The files of a plan. The request is that, or the list, whose lines a fault is of.
fn sources_of<'a>(
    plan: &'a StartPlan<'a>,
    files: &'a StartFiles,
    request: &'a str,
    fault: &Fault,
) -> Sources<'a> {
    Sources {
        files: &files.dictionary,
        dictionaries: &plan.dictionaries,
        request: lines_with(plan, files, request, fault),
        is_request_wider: true,
        hidden: &plan.hidden,
        policy: Source {
            path: plan.policy,
            text: files.policy.as_slice(),
        },
        script: Source {
            path: "",
            text: &[],
        },
        secret: plan.secret.unwrap_or(""),
    }
}

/// Refuses what is in the files of a plan: says the fault with its place and what helps, and gives its status.
pub fn refuse_files(
    rt: &HostRuntime,
    program: &str,
    plan: &StartPlan<'_>,
    files: &StartFiles,
    fault: &Fault,
) -> u8
    requires { IsPrintedWith files.now.dictionary fault.now }
{
    let Ok(request) = request_name(rt.alloc(), plan) else {
        return refuse(rt, program, fault, &files.dictionary);
    };
    let sources = sources_of(plan, files, request.as_str(), fault);
    refuse_explained(rt, program, fault, &files.dictionary, &sources)
}
