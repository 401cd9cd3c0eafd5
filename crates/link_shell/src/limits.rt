// The limits of the code.
ghost use Rattle.link_shell.specs.Limits.{TheLimits};

/// The constants of the code are the limits that users are told.
pub fn limits_are_these()
    ensures { TheLimits }
{}
