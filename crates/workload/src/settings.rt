// The settings of the made input.
ghost use Rattle.std.specs.Prelude.{◌≡◌, IfOk};
ghost use Rattle.workload.specs.Made.{text_of_settings};

use link_base::{NoMemory, Text, push_number};
use std::alloc::Global;

const UP_TO_SEED: &[u8] =
    b"file_a = \"a.csv\"\nfile_b = \"b.csv\"\nsample = \"sample.csv\"\nmu_ppm = 100\nlambda_ppm = 1000\nseed = ";

const SURNAME: &[u8] =
    b"\n\n[[field]]\nname = \"surname\"\nkind = \"name\"\ncompare = \"soundex\"\n";

const GIVEN: &[u8] = b"\n[[field]]\nname = \"given\"\nkind = \"name\"\ncompare = \"exact\"\n";

const BIRTH: &[u8] =
    b"\n[[field]]\nname = \"birth\"\nkind = \"date\"\nform_a = \"ymd\"\nform_b = \"ymd\"\ncompare = \"exact\"\n";

const BY_SURNAME: &[u8] = b"\n[[pass]]\nparts = [{ field = \"surname\", key = \"whole\" }]\n";

const BY_BIRTH: &[u8] = b"\n[[pass]]\nparts = [{ field = \"birth\", key = \"whole\" }]\n";

/// The text of the settings.
pub fn settings_text(alloc: Global, rows: u32) -> Result<Text, NoMemory>
    ensures { IfOk result (λ text. text ≡ text_of_settings rows) }
{
    let mut text = Vec::new(alloc);
    text.extend_from_slice(UP_TO_SEED)?;
    push_number(alloc, &mut text, u64::from(rows))?;
    text.extend_from_slice(SURNAME)?;
    text.extend_from_slice(GIVEN)?;
    text.extend_from_slice(BIRTH)?;
    text.extend_from_slice(BY_SURNAME)?;
    text.extend_from_slice(BY_BIRTH)?;
    Ok(Text::of(text))
}
