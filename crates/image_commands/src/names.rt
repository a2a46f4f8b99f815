// The names that a new site is made with.
ghost use Rattle.std.specs.Prelude.{◌≡◌};
ghost use Rattle.image_commands.specs.Formatted.{names_of};

use host_types::{Admin, Host, Refused, Title};

/// Under which name clients find a new site, who keeps it, and the title of its top menu.
#[derive(Debug, PartialEq, Eq, Drop)]
pub struct SiteNames {
    /// The name of the host that clients connect to.
    pub host: Host,
    /// Who keeps the site.
    pub admin: Admin,
    /// What clients see above the top menu.
    pub title: Title,
}

impl SiteNames {
    /// The names of these bytes, or the first refusal of one, in the order of the arguments. It takes no memory.
    pub fn new(host: &[u8], admin: &[u8], title: &[u8]) -> Result<SiteNames, Refused>
        ensures { result ≡ names_of host.now admin.now title.now }
    {
        let host = Host::new(host)?;
        let admin = Admin::new(admin)?;
        let title = Title::new(title)?;
        Ok(SiteNames { host, admin, title })
    }
}
