// What holds of the definitions.
ghost use Rattle.host_types.specs.SiteExamples.{SiteExamples};
ghost use Rattle.host_types.specs.ValidChanges.{ChangesKeepSites, FreshSites};
ghost use Rattle.host_types.specs.Standing.{AllHaveLimits};

/// Worked examples of changes.
pub fn worked_examples()
    ensures { SiteExamples }
{}

/// Whatever is changed, the rules of a site hold on: no change that is made leaves an item that may not stand where it stands.
pub fn changes_keep_sites_valid()
    ensures fresh { FreshSites }
    ensures changed { ChangesKeepSites }
{}

/// Whatever stands in a site keeps each limit of an item.
pub fn what_stands_has_limits()
    ensures { AllHaveLimits }
{}
