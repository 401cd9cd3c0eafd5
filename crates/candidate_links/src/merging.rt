// The next pair of two rising lists.
ghost use Rattle.std.specs.Prelude.{◌≡◌, ◌<◌, drop, length};
ghost use Rattle.candidate_links.specs.Merging.{comes_first, next_of};

use link_base::PairAt;

/// The next pair of the links and the possible links that are left.
pub(crate) enum Next {
    Link(PairAt),
    Possible(PairAt),
    End,
}

/// What is left after the first item.
pub(crate) fn after_first<T>(items: &[T]) -> &[T]
    requires { 0 < length items.now }
    ensures { result.now ≡ drop 1 items.now }
{
    &items[1..]
}

// Whether a pair stands before another by its positions.
fn is_before(x: &PairAt, y: &PairAt) -> bool
    ensures { result ≡ comes_first x.now y.now }
{
    x.a < y.a || (x.a == y.a && x.b < y.b)
}

/// The next pair of two rising lists by position.
pub(crate) fn next_of(links: &[PairAt], possible: &[PairAt]) -> Next
    ensures { result ≡ next_of links.now possible.now }
{
    match (links.first(), possible.first()) {
        (None, None) => Next::End,
        (None, Some(at)) => Next::Possible(*at),
        (Some(link), None) => Next::Link(*link),
        (Some(link), Some(at)) => {
            if is_before(link, at) {
                Next::Link(*link)
            } else {
                Next::Possible(*at)
            }
        }
    }
}
