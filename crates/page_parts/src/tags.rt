//! The tags that begin a row of a table: an amount below 0 stands out.

ghost use Rattle.std.specs.Prelude.{◌≡◌};
ghost use Rattle.page_parts.specs.Tags.{row_tag_text, work_tag_text};

/// The tag that begins a row.
pub fn row_tag(is_negative: bool) -> &'static str
    ensures { result.now ≡ row_tag_text is_negative }
{
    if is_negative {
        "<tr class=\"neg\">"
    } else {
        "<tr>"
    }
}

/// The tag that begins the row of a work, or of what all works come to.
pub fn work_tag(is_negative: bool) -> &'static str
    ensures { result.now ≡ work_tag_text is_negative }
{
    if is_negative {
        "<tr class=\"work neg\">"
    } else {
        "<tr class=\"work\">"
    }
}
