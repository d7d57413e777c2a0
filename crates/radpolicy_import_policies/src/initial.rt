//! Pairs of initial lists, as lines of a file.

ghost use Rattle.std.specs.Prelude.{◌≡◌, ◌+◌, ◌++◌, ◌≤◌, ℕ, List, length, map, IfOk, OnOk};
ghost use Rattle.server_configuration.specs.Places.{AreOnLines, HasLine, line_feeds};
ghost use Rattle.server_configuration.specs.declared.items.Item.{Item as Part};
ghost use Rattle.radpolicy_import_policies.specs.InitialLists.{AddsFile, AddsItems, item_of_file};

use server_configuration::{Configuration, Fault, Item, SourceFile, read_items};
use std::alloc::{AllocError, Global};

// Adds a file, and gives its place.
#[tactic(auto, using(crate::proofs::InitialItems::adds_file, crate::proofs::InitialItems::line_of_added, crate::proofs::InitialItems::lines_after))]
fn add_file(
    alloc: Global,
    files: &mut Vec<SourceFile>,
    path: &[u8],
    octets: &[u8],
) -> Result<usize, AllocError>
    ensures at { IfOk result (λ file. file ≡ length files.old.items) }
    ensures adds { OnOk result (AddsFile path.now octets.now files.old.items files.new.items) }
    ensures place { IfOk result (λ file. (line : ℕ) → 1 ≤ line
        → line ≤ 1 + line_feeds octets.now → HasLine files.new.items file line) }
    ensures stay { OnOk result ((items : List Part) → AreOnLines files.old.items items
        → AreOnLines files.new.items items) }
{
    let file = files.len();
    let (path, octets) = (
        Vec::from_slice(alloc, path)?,
        Vec::from_slice(alloc, octets)?,
    );
    files.push(SourceFile {
        path,
        octets,
        depth: 0,
    })?;
    Ok(file)
}

// Adds the items of the file at a place, in no section.
fn add_items(items: &mut Vec<Item>, file: usize, added: Vec<Item>) -> Result<(), AllocError>
    ensures { OnOk result (items.new.items
        ≡ items.old.items ++ map (item_of_file file) added.items) }
{
    for item in added {
        items.push(Item {
            file,
            section: None,
            ..item
        })?;
    }
    Ok(())
}

/// Adds a file to a configuration, whose lines are pairs of initial lists, as `reply:Class = 1` and
/// `control:User-Name = "bob"`, and says how many there are. That they are such pairs an import tells.
#[tactic(auto, using(crate::proofs::InitialItems::adds_items, crate::proofs::InitialItems::lines_of_added))]
pub fn add_initial(
    alloc: Global,
    configuration: &mut Configuration,
    path: &[u8],
    octets: &[u8],
) -> Result<usize, Fault>
    // What was there stays, and the file and its items follow it.
    ensures files { OnOk result (AddsFile path.now octets.now
        configuration.old.files.items configuration.new.files.items) }
    ensures items { IfOk result (λ count. AddsItems (length configuration.old.files.items) count
        configuration.old.items.items configuration.new.items.items) }
    // Each item is still on a line of a file.
    ensures lines { AreOnLines configuration.old.files.items configuration.old.items.items
        → OnOk result (AreOnLines configuration.new.files.items configuration.new.items.items) }
{
    let items = read_items(alloc, octets)?;
    let count = items.len();
    let file = add_file(alloc, &mut configuration.files, path, octets)?;
    add_items(&mut configuration.items, file, items)?;
    Ok(count)
}
