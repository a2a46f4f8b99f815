// What a request line says.
ghost use Rattle.std.specs.Prelude.{◌≡◌, IsTrue};
ghost use Rattle.host_types.specs.Items.{is_selector};

use crate::{Data, Plus, Request};

/// What a request line says.
#[derive(Clone, Copy, Debug)]
pub struct ParsedRequest<'a> {
    pub selector: &'a [u8],
    pub search: Option<&'a [u8]>,
    pub plus: Option<Plus<'a>>,
    /// Whether a head line of data follows.
    pub has_data: bool,
    pub ghost valid: { IsTrue (is_selector selector.now) },
}

impl<'a> ParsedRequest<'a> {
    ghost use Rattle.std.specs.Prelude.{Some};
    ghost use Rattle.request_reader.specs.Verdict as verdict;
    ghost use Rattle.request_reader.specs.Seen.{parsed_of, request_of, lines_in};

    /// The request, where no data follow.
    pub fn without_data(self) -> Request<'a>
        ensures { request_of result ≡ verdict.without_data (parsed_of self.entry) }
    {
        Request {
            selector: self.selector,
            search: self.search,
            plus: self.plus,
            data: None,
        }
    }

    /// The request with these data.
    pub fn with_data(self, data: Data<'a>) -> Request<'a>
        ensures { request_of result ≡ verdict.with_data (parsed_of self.entry) (lines_in «data».entry) }
    {
        Request {
            selector: self.selector,
            search: self.search,
            plus: self.plus,
            data: Some(data),
        }
    }
}
