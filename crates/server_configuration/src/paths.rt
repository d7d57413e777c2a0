//! Paths of files that are included.

ghost use Rattle.std.specs.Prelude.{◌≡◌};
ghost use Rattle.server_configuration.specs.Names.{is_included_name, are_name_octets, is_name_octet};

use std::alloc::{AllocError, Global};

fn is_name_octet(octet: u8) -> bool
    ensures { result ≡ is_name_octet octet }
{
    octet.is_ascii_uppercase()
        || octet.is_ascii_lowercase()
        || octet.is_ascii_digit()
        || octet == b'.'
        || octet == b'_'
        || octet == b'-'
}

fn are_name_octets(octets: &[u8]) -> bool
    ensures { result ≡ are_name_octets octets.now }
{
    let mut rest = octets;
    while let [octet, after @ ..] = rest {
        if !is_name_octet(*octet) {
            return false;
        }
        rest = after;
    }
    true
}

/// Whether a file of this name is read where its folder is included.
pub(crate) fn is_included_name(name: &[u8]) -> bool
    ensures { result ≡ is_included_name name.now }
{
    match name {
        [] => false,
        [first, ..] => *first != b'.' && are_name_octets(name),
    }
}

/// Whether a path names a folder by the `/` at its end.
pub(crate) fn is_folder(path: &[u8]) -> bool {
    path.last() == Some(&b'/')
}

// The path up to its last `/`.
fn folder_of(path: &[u8]) -> &[u8] {
    match path.iter().rposition(|octet| *octet == b'/') {
        Some(place) => path.split_at(place + 1).0,
        None => &[],
    }
}

/// The folder of a file, without the `/` at its end; a path without `/` is left as it is.
pub(crate) fn parent(path: &[u8]) -> &[u8] {
    match path.iter().rposition(|octet| *octet == b'/') {
        Some(place) => path.split_at(place).0,
        None => path,
    }
}

/// A path in the folder of the file that names it, unless it begins with `/`.
pub(crate) fn beside(alloc: Global, naming: &[u8], path: &[u8]) -> Result<Vec<u8>, AllocError> {
    if path.first() == Some(&b'/') {
        return Vec::from_slice(alloc, path);
    }
    joined(alloc, folder_of(naming), path)
}

/// A name in a folder, whose path ends in `/`.
pub(crate) fn joined(alloc: Global, folder: &[u8], name: &[u8]) -> Result<Vec<u8>, AllocError> {
    let mut path = Vec::from_slice(alloc, folder)?;
    path.extend_from_slice(name)?;
    Ok(path)
}
