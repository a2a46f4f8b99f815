// What holds of names in HTML, for each byte string.
ghost use Rattle.std.specs.Prelude.{◌≡◌, ℕ, List};
ghost use Rattle.url_page.specs.UrlExamples.{UrlExamples};
ghost use Rattle.url_page.specs.Page.{escape, unescape};

/// What was escaped is read back.
pub fn reads_back()
    ensures { (url : List ℕ) → unescape (escape url) ≡ url }
{}

/// Worked examples of redirect pages.
pub fn worked_examples()
    ensures { UrlExamples }
{}
