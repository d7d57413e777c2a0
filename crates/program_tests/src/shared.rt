//! What the tests of runs share: the head of a request, an attribute, and that secrets are hidden.

use avp_lists::AttrId;
use radpolicy::{RequestHead, RequestKind};
use radpolicy_common::{Hiding, SecretValues};

/// Of an Access-Request.
pub const HEAD: RequestHead = RequestHead {
    kind: RequestKind::Access,
    id: 0,
    authenticator: None,
};

pub const CLASS: AttrId = AttrId::Plain(25);

/// Secret values are hidden, and no others are given.
pub const HIDING: Hiding<'static> = Hiding {
    secrets: SecretValues::Hidden,
    given: &[],
};
