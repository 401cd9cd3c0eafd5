// The laws of verified files.
ghost use Rattle.written_check.specs.Laws.{RowsAreVerified, VerifiedHaveRows, VerifiedIsGreatest, WrittenIsVerified, WrittenIsShort};

use csv_rows::decimals_are_read;
use link_base::distinct_ids;
use link_report::texts_read_again;
use price_check::{certified_is_greatest, greatest_value_is_least, prices_are_bounded};

/// Law: written files are verified exactly where their rows, in any form that CSV allows, are those of the rule's cells, of one-to-one
/// links of candidates, and of prices, one for each record, that certify these links.
pub fn verified_means()
    ensures rows { VerifiedHaveRows }
    ensures verified { RowsAreVerified }
{
    decimals_are_read();
    prices_are_bounded();
    greatest_value_is_least();
}

/// Law: where written files are verified, the rows of the links are those of the links that they prove, and no one-to-one list of
/// candidates is worth more than these (Kuhn 1955).
pub fn verified_is_greatest()
    ensures { VerifiedIsGreatest }
{
    certified_is_greatest();
}

/// Law: the texts of a rule, of a one-to-one list of candidates and of prices that certify it are verified, and prove these links.
pub fn written_is_verified()
    ensures { WrittenIsVerified }
{
    texts_read_again();
    decimals_are_read();
    prices_are_bounded();
    greatest_value_is_least();
}

/// Law: the texts of a rule of six fields at most, of a one-to-one list of candidates and of prices that certify it, over the records of
/// two files, are no longer than a file that is verified may be.
pub fn written_is_short()
    ensures { WrittenIsShort }
{
    prices_are_bounded();
    greatest_value_is_least();
}
