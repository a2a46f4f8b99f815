// Why a stream is no request.

/// Why a stream is no request.
#[derive(Clone, Copy, Debug, PartialEq, Eq)]
pub enum Cause {
    /// A line without LF among its first 1,025 bytes, a selector of more than 255 bytes, or more than
    /// 32,768 bytes of data.
    TooLong,
    /// A NUL or a CR that ends no line in the request line, a field that nothing is known of, or
    /// another head line of data.
    NotUnderstood,
}
