// What `yes` means.
ghost use Rattle.link_shell.specs.Meaning.{RowsAreProof, VerifyTells};

use candidate_links::candidates_are_bounded;
use pair_decisions::is_the_rule;
use price_check::certified_is_greatest;
use written_check::verified_means;

/// Law: what is due of `verify SETTINGS` ends with 0 exactly where the three files, as they are held and whoever wrote them, have the rows
/// of the filled, hence least, rule, of one-to-one links of greatest total weight, each by rule or review, and of prices that certify it;
/// else it ends with 9.
pub fn verify_tells()
    ensures told { VerifyTells }
    ensures proved { RowsAreProof }
{
    verified_means();
    certified_is_greatest();
    is_the_rule();
    candidates_are_bounded();
}
