// Sends bytes over a wire.
ghost use Rattle.turns.specs.WireCalls.{HasMade, IsSent};

use crate::Wire;

/// Offers these bytes until all are taken, and says whether they were: a write that fails or takes none ends it.
pub(crate) fn send<W: Wire>(wire: &mut W, bytes: &[u8]) -> bool
    ensures { HasMade (W.calls wire.old) (W.calls wire.new) (λ made. IsSent bytes.now made result) }
{
    let mut rest = bytes;
    while !rest.is_empty() {
        let Ok(count) = wire.write(rest) else {
            return false;
        };
        if count == 0 {
            return false;
        }
        rest = &rest[count..];
    }
    true
}
