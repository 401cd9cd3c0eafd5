// The rule that the commands go by.
ghost use Rattle.link_shell.specs.Headline.{FilledRule};

use pair_decisions::shares_have_a_rule;

/// Law: each command that decides goes by the filled table at the asked levels of its plan, for the shares of its fields, given or counted:
/// there is one, and it is least.
pub fn commands_go_by_filled_rule()
    ensures { FilledRule }
{
    shares_have_a_rule();
}
