// Names of a line, within the limits of the site's types.
ghost use Rattle.std.specs.Prelude.{◌≡◌};
ghost use Rattle.gophermap.specs.Line as spec;
ghost use Rattle.gophermap.specs.Seen.{host_seen, name_seen, place_result};

use crate::{ItemPlace, LineFault};
use common_types::{Host, Selector, Title, Url, is_number, number_of};

/// The most digits of a port.
const MOST_DIGITS: usize = 5;

/// The bytes, where they are a title.
#[tactic(auto, using(crate::proofs::NameBytes::name_is))]
pub fn title_of(bytes: &[u8]) -> Result<&[u8], LineFault>
    ensures { name_seen result ≡ spec.title_of bytes.now }
{
    match Title::new(bytes) {
        Ok(_) => Ok(bytes),
        Err(refused) => Err(LineFault::Title(refused)),
    }
}

/// The bytes, where they are a selector.
#[tactic(auto, using(crate::proofs::NameBytes::name_is))]
pub fn selector_of(bytes: &[u8]) -> Result<&[u8], LineFault>
    ensures { name_seen result ≡ spec.selector_of bytes.now }
{
    match Selector::new(bytes) {
        Ok(_) => Ok(bytes),
        Err(refused) => Err(LineFault::Selector(refused)),
    }
}

/// The bytes, where they are a link that a browser may follow.
#[tactic(auto, using(crate::proofs::NameBytes::name_is))]
pub fn url_of(bytes: &[u8]) -> Result<&[u8], LineFault>
    ensures { name_seen result ≡ spec.url_of bytes.now }
{
    match Url::new(bytes) {
        Ok(_) => Ok(bytes),
        Err(refused) => Err(LineFault::Link(refused)),
    }
}

/// The host of a field, which is left out where that is empty.
#[tactic(auto, using(crate::proofs::NameBytes::name_is))]
fn host_of(field: &[u8]) -> Result<Option<&[u8]>, LineFault>
    ensures { host_seen result ≡ spec.host_of field.now }
{
    if field.is_empty() {
        return Ok(None);
    }
    match Host::new(field) {
        Ok(_) => Ok(Some(field)),
        Err(refused) => Err(LineFault::Host(refused)),
    }
}

/// The port of a field, which is left out where that is empty.
fn port_of(field: &[u8]) -> Result<Option<u16>, LineFault>
    ensures { result ≡ spec.port_of field.now }
{
    if field.is_empty() {
        return Ok(None);
    }
    if !is_number(MOST_DIGITS, field) {
        return Err(LineFault::Port);
    }
    match u16::try_from(number_of(field)) {
        Ok(port) if port > 0 => Ok(Some(port)),
        _ => Err(LineFault::Port),
    }
}

/// Where an item lies, by the fields of host and port.
pub fn place_of<'a>(host: &'a [u8], port: &[u8]) -> Result<ItemPlace<'a>, LineFault>
    ensures { place_result result ≡ spec.place_of host.now port.now }
{
    Ok(ItemPlace {
        host: host_of(host)?,
        port: port_of(port)?,
    })
}
