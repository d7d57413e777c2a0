//! Configurations, as they were read.

ghost use Rattle.std.specs.Prelude.{◌≡◌, false, IfOk, IfErr};
ghost use Rattle.server_configuration.specs.Lookups.{first_place, is_pair_in, is_section_in, is_section_with_in, places_in};
ghost use Rattle.server_configuration.specs.References.{has_reference};
ghost use Rattle.server_configuration.specs.declared.references.ReferenceFaultKind.TheVariants as why;

use crate::items::{Content, Item, Text};
use crate::lookups::{first_pair, first_section, first_section_with};
use crate::paths::parent;
use crate::references::{ReferenceFault, Referent, Scope, Variable, referent_of, resolved};
use crate::sources::SourceFile;
use std::alloc::{AllocError, Global};

/// What was read: the files in the order in which they were opened, and their items in the order in which the server
/// sees them. An include is an item, and the items of what it includes follow it.
#[derive(Debug, Drop, PartialEq, Eq)]
pub struct Configuration {
    pub files: Vec<SourceFile>,
    pub items: Vec<Item>,
}

/// What `${confdir}` stands for in the configuration of these files: the folder of the first.
pub(crate) fn first_folder(files: &[SourceFile]) -> &[u8] {
    match files.first() {
        Some(file) => parent(&file.path),
        None => b"",
    }
}

impl Configuration {
    /// The places of the items that a section holds, or that no section does.
    pub fn children(&self, alloc: Global, section: Option<usize>) -> Result<Vec<usize>, AllocError>
        ensures { IfOk result (λ places. places.items ≡ places_in section 0 self.now.items.items) }
    {
        let mut places = Vec::new(alloc);
        for (place, item) in self.items.iter().enumerate() {
            if item.is_in(section) {
                places.push(place)?;
            }
        }
        Ok(places)
    }

    /// The place of the pair of this name, or of the word.
    pub fn pair(&self, section: Option<usize>, name: &[u8]) -> Option<usize>
        ensures { result ≡ first_place (is_pair_in section name.now) 0 self.now.items.items }
    {
        first_pair(&self.items, section, name)
    }

    /// The place of the section of this name.
    pub fn section(&self, section: Option<usize>, name: &[u8]) -> Option<usize>
        ensures { result ≡ first_place (is_section_in section name.now) 0 self.now.items.items }
    {
        first_section(&self.items, section, name)
    }

    /// The place of the section of this name and second name, as `client NAME {`.
    pub fn section_with(&self, section: Option<usize>, name: &[u8], second: &[u8]) -> Option<usize>
        ensures { result
            ≡ first_place (is_section_with_in section name.now second.now) 0 self.now.items.items }
    {
        first_section_with(&self.items, section, name, second)
    }

    /// The value of the pair at a place.
    pub fn value(&self, place: usize) -> Option<&Text> {
        match &self.items.get(place)?.content {
            Content::Pair { value, .. } => value.as_ref(),
            _ => None,
        }
    }

    /// What `${name}` leads to in a section, or at the top.
    pub fn referent(&self, section: Option<usize>, name: &[u8]) -> Option<Referent> {
        referent_of(&self.items, section, name)
    }

    /// A text of a section with its references filled in. `$ENV{NAME}` stays as it is where there is no variable of
    /// the name.
    pub fn resolved<'a>(
        &'a self,
        alloc: Global,
        section: Option<usize>,
        text: &'a [u8],
        variables: &'a [Variable],
    ) -> Result<Vec<u8>, ReferenceFault>
        ensures plain { has_reference text.now ≡ false
            → IfOk result (λ filled. filled.items ≡ text.now) }
        ensures refused { has_reference text.now ≡ false
            → IfErr result (λ fault. fault.kind ≡ why.Memory) }
    {
        let scope = Scope {
            items: self.items.as_slice(),
            folder: first_folder(&self.files),
            variables,
        };
        resolved(alloc, &scope, section, text)
    }
}
