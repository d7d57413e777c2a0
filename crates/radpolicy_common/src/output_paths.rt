//! Paths of what a program has open already.

ghost use Rattle.std.specs.Prelude.{◌≡◌, ◌≢◌, ◌<◌, ◌++◌, decimal, ℕ, IfOk, IfSome, None, Some};
ghost use Rattle.radpolicy_common.specs.OutputPaths.{IsDescriptorPath};

use std::alloc::{AllocError, Global};

// The number whose decimal digits are all that is in a path behind a folder's.
fn number_in(alloc: Global, folder: &str, path: &str) -> Result<Option<u16>, AllocError>
    ensures found { IfOk result (λ found. IfSome found (λ number.
        path.now ≡ folder.now ++ decimal number)) }
    ensures none { IfOk result (λ found. found ≡ None → (number : ℕ) → number < 65536
        → path.now ≢ folder.now ++ decimal number) }
{
    let Some(digits) = path.strip_prefix(folder) else {
        return Ok(None);
    };
    let Ok(number) = digits.parse::<u16>() else {
        return Ok(None);
    };
    // `+5` and `05` are names of other files.
    if format!(in alloc; "{number}")?.as_str() == digits {
        Ok(Some(number))
    } else {
        Ok(None)
    }
}

/// The number of the open descriptor that a path stands for.
pub(crate) fn open_descriptor(alloc: Global, path: &str) -> Result<Option<u16>, AllocError>
    ensures found { IfOk result (λ found. IfSome found (IsDescriptorPath path.now)) }
    ensures none { IfOk result (λ found. found ≡ None → (number : ℕ) → number < 65536
        → ¬ (IsDescriptorPath path.now number)) }
{
    if path == "/dev/stdout" {
        return Ok(Some(1));
    }
    if path == "/dev/stderr" {
        return Ok(Some(2));
    }
    if let Some(number) = number_in(alloc, "/dev/fd/", path)? {
        return Ok(Some(number));
    }
    let found = number_in(alloc, "/proc/self/fd/", path)?;
    Ok(found)
}
