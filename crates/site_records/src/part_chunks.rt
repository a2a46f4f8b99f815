// Parts by chunks.
ghost use Rattle.std.specs.Prelude.{◌≡◌, ◌<◌, ◌^◌};
ghost use Rattle.site_records.specs.Layout as spec;

use host_types::CHUNK;

/// How many chunks a part of so many bytes has; none has none.
#[tactic(auto, unfolding(crate::specs::Layout::chunk_count))]
pub fn chunk_count(length: usize) -> usize
    requires { length < 2 ^ 32 }
    ensures { result ≡ spec.chunk_count length }
{
    (length + (CHUNK - 1)) / CHUNK
}
