// What an image says of its site beside its pairs.
ghost use Rattle.std.specs.Prelude.{◌≡◌};

use common_types::{Admin, Host};
use std::alloc::AllocError;

/// What an image says of its site beside its pairs: of which form it is, and under which name clients find the site.
#[derive(Debug, PartialEq, Eq, Drop)]
pub struct Banner {
    /// The form of the image: 0 is flat pages, 1 a tree.
    pub version: u16,
    /// The name of the host that clients connect to.
    pub host: Host,
    /// The port that they connect to, not 0.
    pub port: u16,
    /// Who keeps the site.
    pub admin: Admin,
}

impl Clone for Banner {
    ghost is_clone = { λ a b. b ≡ a };

    fn clone(&self) -> Result<Self, AllocError> {
        Ok(Banner {
            version: self.version,
            host: self.host.clone()?,
            port: self.port,
            admin: self.admin.clone()?,
        })
    }
}
