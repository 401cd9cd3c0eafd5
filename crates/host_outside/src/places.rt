// Where names of the host lead.
ghost use Rattle.std.specs.Prelude.{◌≡◌, ◌↔◌, ◌⊎◌, IfOk, IsTrue, string_bytes};
ghost use Rattle.std.specs.declared.io.ErrorKind.TheVariants as kind;
ghost use Rattle.host_outside.specs.HostFile.{folder_of, led_to};

use super::host_error::HostError;
use std::alloc::{AllocError, Global};
use std::io::ErrorKind;
use std::rt::Files;

// How many names are looked at: the first, and those that up to 40 symbolic links lead to, as many as the system follows.
const MOST_NAMES: u32 = 41;

/// The folder of a name.
pub fn folder_of(name: &str) -> &str
    ensures { result.now ≡ folder_of name.now }
{
    match name.rsplit_once('/') {
        None => ".",
        Some((folder, _)) => { if folder.is_empty() { "/" } else { folder } }
    }
}

// The name that a link leads to: that of its text, from the link's folder where it begins with none.
fn led_to(alloc: Global, link: &str, text: &str) -> Result<String, AllocError>
    ensures { IfOk result (λ name. string_bytes name ≡ led_to link.now text.now) }
{
    match link.rsplit_once('/') {
        Some((folder, _)) if !text.starts_with('/') => format!(in alloc; "{folder}/{text}"),
        _ => String::from_str(alloc, text),
    }
}

// Whether a name is the last: it is no link, it is not there, or the host has no links.
fn is_end(why_not_read: ErrorKind) -> bool
    ensures { IsTrue result ↔ ((why_not_read ≡ kind.InvalidInput) ⊎ ((why_not_read ≡ kind.NotFound) ⊎ (why_not_read ≡ kind.Unsupported))) }
{
    matches!(
        why_not_read,
        ErrorKind::InvalidInput | ErrorKind::NotFound | ErrorKind::Unsupported
    )
}

/// The name at the end of the symbolic links from a name, whether there is a file of it or not. A name that is no link is
/// itself that name.
pub fn followed<R: Files>(alloc: Global, rt: &R, name: &str) -> Result<String, HostError> {
    let mut place = String::from_str(alloc, name)?;
    for _ in 0..MOST_NAMES {
        match rt.read_link(alloc, place.as_str()) {
            Ok(text) => place = led_to(alloc, place.as_str(), text.into_string().as_str())?,
            Err(error) if is_end(error.kind()) => return Ok(place),
            Err(error) => return Err(HostError::from(error)),
        }
    }
    Err(HostError::Failed)
}
