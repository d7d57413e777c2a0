//! The files that the program writes.

use crate::command_line::Plan;
use crate::sources::{FIRST, policy_path};
use crate::{Import, Made, PROGRAM};
use radpolicy_common::{Call, Comments, Output, OutputFault, Outputs, mark_line};
use radpolicy_import_conditions::Names;
use radpolicy_import_policies::{Imported, LineOrigin, initial_template, origin_map};
use server_configuration::Configuration;
use std::alloc::{AllocError, Global};

// The outputs, the policy last. All have comments of `#`.
fn outputs_of<'p>(alloc: Global, plan: &Plan<'p>) -> Result<Vec<Output<'p>>, AllocError> {
    let mut outputs = Vec::new(alloc);
    for path in [plan.own_dictionary, plan.map, plan.initial_template] {
        if path.is_some() {
            outputs.push(Output {
                path,
                comments: Comments::Hash,
            })?;
        }
    }
    outputs.push(Output {
        path: plan.output,
        comments: Comments::Hash,
    })?;
    Ok(outputs)
}

// Adds the paths of the policies that modules' words name.
fn push_policies<'a>(inputs: &mut Vec<&'a str>, plan: &'a Plan<'_>) -> Result<(), AllocError> {
    for word in &plan.modules {
        if let Some(path) = policy_path(word) {
            inputs.push(path)?;
        }
    }
    Ok(())
}

// Adds the paths of the files that a configuration was read from.
fn push_files<'a>(
    inputs: &mut Vec<&'a str>,
    configuration: &'a Configuration,
) -> Result<(), AllocError> {
    for file in &configuration.files {
        if file.path.as_slice() != FIRST
            && let Ok(path) = str::from_utf8(&file.path)
        {
            inputs.push(path)?;
        }
    }
    Ok(())
}

// The paths of all files that were read: those that the words name, and those that are included.
fn inputs_of<'a>(
    alloc: Global,
    import: &'a Import<'_, '_, '_>,
) -> Result<Vec<&'a str>, AllocError> {
    let mut inputs = Vec::new(alloc);
    for path in import.dictionaries {
        inputs.push(*path)?;
    }
    push_policies(&mut inputs, import.plan)?;
    if let Some(path) = import.plan.initial {
        inputs.push(path)?;
    }
    push_files(&mut inputs, import.configuration)?;
    Ok(inputs)
}

// The same lines, which can be added to.
fn copied(alloc: Global, lines: &[LineOrigin]) -> Result<Vec<LineOrigin>, AllocError> {
    let mut copies = Vec::new(alloc);
    for line in lines {
        copies.push(LineOrigin {
            origin: line.origin,
            policies: line.policies.clone()?,
            statements: line.statements,
        })?;
    }
    Ok(copies)
}

// The lines of the policy's file, which has the program's own line too: it is said to come from where the first does.
fn lines_in_file(alloc: Global, imported: &Imported) -> Result<Vec<LineOrigin>, AllocError> {
    let mut lines = copied(alloc, &imported.lines)?;
    if let Some(first) = imported.lines.first() {
        let above = mark_line(Comments::Hash, &imported.text) - 1;
        let own = LineOrigin {
            origin: first.origin,
            policies: Vec::new(alloc),
            statements: 0,
        };
        lines.insert(above.min(lines.len()), own)?;
    }
    Ok(lines)
}

// Where the lines come from of the policy as it is written.
fn map_of(
    alloc: Global,
    import: &Import<'_, '_, '_>,
    imported: &Imported,
    has_mark: bool,
) -> Result<Vec<u8>, AllocError> {
    if has_mark {
        let lines = lines_in_file(alloc, imported)?;
        return origin_map(alloc, import.configuration, &lines);
    }
    origin_map(alloc, import.configuration, &imported.lines)
}

fn template_of(
    alloc: Global,
    import: &Import<'_, '_, '_>,
    made: Made<'_>,
) -> Result<Vec<u8>, AllocError> {
    let names = Names {
        dictionary: made.dictionary,
        others: made.others,
    };
    let (configuration, imported) = (import.configuration, made.imported);
    initial_template(alloc, configuration, names, import.hidden, imported)
}

// Writes the texts that are asked for, in the order of their outputs.
fn write_texts<'p>(
    rt: &HostRuntime,
    import: &Import<'_, 'p, '_>,
    made: Made<'_>,
    outputs: &Outputs<'p>,
) -> Result<(), OutputFault<'p>> {
    let (alloc, plan) = (rt.alloc(), import.plan);
    let map = map_of(alloc, import, made.imported, outputs.has_mark(plan.output))?;
    let template = template_of(alloc, import, made)?;
    let mut texts: Vec<&[u8]> = Vec::new(alloc);
    if let Some(own) = made.own {
        texts.push(own.text)?;
    }
    if plan.map.is_some() {
        texts.push(&map)?;
    }
    if plan.initial_template.is_some() {
        texts.push(&template)?;
    }
    texts.push(&made.imported.text)?;
    outputs.write(rt, &texts)
}

/// Writes the policy, and what is told of it, as far as that is asked for: all of it, or no file.
pub fn write_made<'p>(
    rt: &HostRuntime,
    import: &Import<'_, 'p, '_>,
    made: Made<'_>,
) -> Result<(), OutputFault<'p>> {
    let inputs = inputs_of(rt.alloc(), import)?;
    let call = Call {
        program: PROGRAM,
        is_forced: import.plan.is_forced,
        inputs: &inputs,
    };
    let outputs = Outputs::plan(rt, call, &outputs_of(rt.alloc(), import.plan)?)?;
    write_texts(rt, import, made, &outputs)
}
