// Laws of lists within capacities, each the contract of a function that does nothing.
ghost use Rattle.price_check.specs.Law.{CertifiedWithinIsGreatest, SingleCertifies, SingleIsGreatest, SingleIsOneToOne};

/// A list within capacities with a certificate is greatest (weak duality).
pub fn certified_within_is_greatest()
    ensures { CertifiedWithinIsGreatest }
{}

/// With every capacity 1, a list within capacities is a one-to-one list, a greatest one is a greatest
/// one-to-one list, and a certificate is one of a one-to-one list.
pub fn single_capacities()
    ensures lists { SingleIsOneToOne }
    ensures greatest { SingleIsGreatest }
    ensures certificates { SingleCertifies }
{}
