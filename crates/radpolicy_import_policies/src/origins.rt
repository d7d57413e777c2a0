//! Where lines of a policy come from.

ghost use Rattle.std.specs.Prelude.{◌≡◌, option_map, slice_get};
ghost use Rattle.radpolicy_import_policies.specs.Origins.{origin_in};

use server_configuration::Configuration;

/// A line of a file of a configuration.
#[derive(Clone, Copy, Debug, PartialEq, Eq)]
pub struct Origin {
    /// The file's place among those of the configuration.
    pub file: usize,
    /// The line's number, from 1 on.
    pub line: usize,
}

/// Where a line of a policy comes from.
#[derive(Debug, Drop)]
pub struct LineOrigin {
    pub origin: Origin,
    /// The places of the policies that it was put in by, the outermost first.
    pub policies: Vec<usize>,
    /// How many statements it is: 0 for what belongs to one that an earlier line is, as a brace.
    pub statements: usize,
}

/// Where the item at a place begins.
pub fn origin_of(configuration: &Configuration, place: usize) -> Option<Origin>
    ensures { result ≡ option_map origin_in (slice_get configuration.now.items.items place) }
{
    let item = configuration.items.get(place)?;
    Some(Origin {
        file: item.file,
        line: item.line,
    })
}
