// What holds of all refusals that are told.
ghost use Rattle.change_flaws.specs.Told.{RefusalsAreRead};

/// The line of a change that is refused is read again.
pub fn refusals_are_read()
    ensures { RefusalsAreRead }
{}
