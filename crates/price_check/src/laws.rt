// Laws of certificates, each the contract of a function that does nothing.
ghost use Rattle.price_check.specs.Law.{CertifiedIsGreatest, GreatestValueIsLeast, LinkedIsTight, PricesAreBoundedByCandidates, PricesAreBoundedByLinks, UnlinkedHasNoPrice, PartsTogether};

/// A one-to-one list with a certificate is greatest (weak duality).
pub fn certified_is_greatest()
    ensures { CertifiedIsGreatest }
{}

/// In a certificate, a record that stands in no link has price 0, and the two prices of a link add up to
/// its value (complementary slackness).
pub fn certificate_is_tight()
    ensures unlinked { UnlinkedHasNoPrice }
    ensures linked { LinkedIsTight }
{}

/// In a certificate no price is above the greatest of 0 and the links' values, and so none above the
/// greatest of 0 and the candidates' values.
pub fn prices_are_bounded()
    ensures by_links { PricesAreBoundedByLinks }
    ensures by_candidates { PricesAreBoundedByCandidates }
{}

/// The greatest of 0 and the values of some candidates is at most any number of at least 0 that none of
/// the candidates' values passes.
pub fn greatest_value_is_least()
    ensures { GreatestValueIsLeast }
{}

/// Candidates in parts that share no record are solved apart: where the members of each part are certified
/// by the part's prices, the prices of all parts, put together, certify the joined list.
pub fn parts_together_are_certified()
    ensures { PartsTogether }
{}
