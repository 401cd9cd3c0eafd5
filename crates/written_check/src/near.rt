// What stands near the place that was found last, and is tried before an id is sought by its hash.
ghost use Rattle.std.specs.Prelude.{◌≡◌, ◌<◌, IfSome, length};
ghost use Rattle.link_base.specs.Standard.{position_of_id};

use link_base::{StdFile, distinct_ids};
use price_check::end_of_near;

/// The position of the record with an id, which is likely to be one of those from a place on.
pub(crate) fn position_near(file: &StdFile, from: usize, id: &[u8]) -> Option<u32>
    ensures position { result ≡ position_of_id id.now file.now }
    ensures within { IfSome result (λ at. at < length file.now) }
{
    distinct_ids(file);
    for place in from..end_of_near(from, file.rows() as usize) {
        let at = place as u32;
        if file.id(at) == id {
            return Some(at);
        }
    }
    file.find(id)
}
