// The site of a script that names no image.
ghost use Rattle.std.specs.Prelude.{◌≡◌, IfOk, codes};
ghost use Rattle.host_types.specs.Site.{fresh_site, IsSite};

use host_types::{Admin, Host, Stamp, Title};
use mem_site::MemSite;
use std::alloc::{AllocError, Global};

/// `localhost`, port 7070, kept by Ada, with an empty top menu titled `Top`.
pub fn small_site(alloc: Global) -> Result<MemSite, AllocError>
    ensures fresh { IfOk result (λ site. site ≡ fresh_site (codes "localhost") 7070 (codes "Ada <ada@localhost>") (codes "Top") 0) }
    ensures valid { IfOk result IsSite }
{
    let Ok(host) = Host::new(b"localhost") else {
        unreachable!()
    };
    let Ok(admin) = Admin::new(b"Ada <ada@localhost>") else {
        unreachable!()
    };
    let Ok(title) = Title::new(b"Top") else {
        unreachable!()
    };
    MemSite::new(alloc, host, 7070, admin, title, Stamp::start())
}
