// What a batch does to one key.
use common_types::Bytes;

/// What a batch does to one key: it gets a value, or goes.
#[derive(Debug, Drop)]
pub struct Edit {
    /// 1 to 300 bytes.
    pub key: Bytes,
    /// At most 1,024 bytes, or none where the key is to go.
    pub value: Option<Bytes>,
}
