// The first lines of a text.
ghost use Rattle.std.specs.Prelude.{◌≡◌, ◌≤◌, List, length, take};
ghost use Rattle.link_base.specs.Standard.{Record};
ghost use Rattle.link_report.specs.ReportText.{first_lines_of, report_head, text_of_report};
ghost use Rattle.link_report.specs.declared.report.Report.{Report};

// Where so many lines end.
fn end_of_lines(text: &[u8], count: u32) -> usize
    ensures within { result ≤ length text.now }
    ensures front { take result text.now ≡ first_lines_of count text.now }
{
    let mut left = count;
    for at in 0..text.len() {
        if left == 0 {
            return at;
        }
        if text[at] == b'\n' {
            left -= 1;
        }
    }
    text.len()
}

/// The first lines of a text, so many, each with its line feed: the whole text where it has fewer line feeds.
pub fn first_lines(text: &[u8], count: u32) -> &[u8]
    ensures { result.now ≡ first_lines_of count text.now }
{
    &text[..end_of_lines(text, count)]
}

/// Law: the first sixteen lines of the text of a report are its head.
#[tactic(auto, using(crate::proofs::HeaderLemmas::head_first))]
pub fn head_of_report()
    ensures { (a b : List Record) (report : Report) → first_lines_of 16 (text_of_report a b report) ≡ report_head a b report }
{}
