//! Why no page is made.

ghost use Rattle.std.specs.Prelude.{◌≡◌};
ghost use Rattle.radpolicy_page_data.specs.declared.faults.PageFault.TheVariants.{Memory};

use std::alloc::AllocError;
use thiserror::Error;

/// Why no page is made of a run.
#[derive(Clone, Copy, Debug, PartialEq, Eq, Error)]
pub enum PageFault {
    #[error("out of memory")]
    Memory,
    #[error("the page is too large")]
    TooLarge,
}

impl From<AllocError> for PageFault {
    ghost from_gives = { λ _ fault. fault ≡ Memory };

    fn from(_error: AllocError) -> PageFault {
        PageFault::Memory
    }
}
