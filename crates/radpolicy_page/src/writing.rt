//! The page, as it is written.

use crate::command_line::Plan;
use crate::fixed_page::{AFTER_DATA, AFTER_LISTS, BEFORE_LISTS};
use radpolicy_common::{Call, Comments, Output, OutputFault, Outputs};
use radpolicy_page_data::Page;
use radpolicy_starts::StartPlan;
use std::alloc::{AllocError, Global};

/// What the program is called in its faults and in the pages that it writes.
pub const PROGRAM: &str = "radpolicy-page";

// The whole page: the fixed one with the parts that are of a run.
fn page_text(alloc: Global, page: &Page) -> Result<Vec<u8>, AllocError> {
    let mut text = Vec::new(alloc);
    text.extend_from_slice(BEFORE_LISTS.as_bytes())?;
    text.extend_from_slice(&page.lists)?;
    text.extend_from_slice(AFTER_LISTS.as_bytes())?;
    text.extend_from_slice(&page.run)?;
    text.extend_from_slice(AFTER_DATA.as_bytes())?;
    Ok(text)
}

// The paths of all files that were read.
fn inputs_of<'a>(alloc: Global, plan: &StartPlan<'a>) -> Result<Vec<&'a str>, AllocError> {
    let mut inputs = Vec::from_slice(alloc, &plan.dictionaries)?;
    inputs.push(plan.request.unwrap_or("/dev/stdin"))?;
    inputs.push(plan.policy)?;
    for path in [plan.secret, plan.reply, plan.control] {
        if let Some(path) = path {
            inputs.push(path)?;
        }
    }
    Ok(inputs)
}

/// Writes the page to a file, or to standard output.
pub fn write_page<'a>(
    rt: &HostRuntime,
    plan: &Plan<'a>,
    page: &Page,
) -> Result<(), OutputFault<'a>> {
    let text = page_text(rt.alloc(), page)?;
    let inputs = inputs_of(rt.alloc(), &plan.start)?;
    let call = Call {
        program: PROGRAM,
        is_forced: plan.is_forced,
        inputs: &inputs,
    };
    let output = Output {
        path: plan.output,
        comments: Comments::Html,
    };
    Outputs::plan(rt, call, &[output])?.write(rt, &[text.as_slice()])
}
