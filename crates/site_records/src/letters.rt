// Letters of documents and of links.
ghost use Rattle.std.specs.Prelude.{◌≡◌};
ghost use Rattle.site_records.specs.Field.{known};
ghost use Rattle.site_records.specs.Reading as spec;
ghost use Rattle.site_records.specs.Reading.{Reads};

use crate::RecordFault;
use crate::fields::byte_of;
use host_types::{Kind, LinkKind};

fn kind_of(letter: u8) -> Option<Kind>
    ensures { result ≡ spec.kind_of letter }
{
    match letter {
        b'0' => Some(Kind::Text),
        b'4' => Some(Kind::BinHex),
        b'5' => Some(Kind::DosArchive),
        b'6' => Some(Kind::Uuencoded),
        b'9' => Some(Kind::Binary),
        b'g' => Some(Kind::Gif),
        b'I' => Some(Kind::Image),
        b'h' => Some(Kind::Html),
        _ => None,
    }
}

fn link_of(letter: u8) -> Option<LinkKind>
    ensures { result ≡ spec.link_of letter }
{
    match letter {
        b'0' => Some(LinkKind::Text),
        b'1' => Some(LinkKind::Menu),
        b'2' => Some(LinkKind::PhoneBook),
        b'4' => Some(LinkKind::BinHex),
        b'5' => Some(LinkKind::DosArchive),
        b'6' => Some(LinkKind::Uuencoded),
        b'7' => Some(LinkKind::Search),
        b'8' => Some(LinkKind::Telnet),
        b'9' => Some(LinkKind::Binary),
        b'+' => Some(LinkKind::Mirror),
        b'T' => Some(LinkKind::Tn3270),
        b'g' => Some(LinkKind::Gif),
        b'I' => Some(LinkKind::Image),
        b'h' => Some(LinkKind::Html),
        _ => None,
    }
}

/// What sort of document a letter says.
#[tactic(auto, unfolding(crate::specs::Field::known))]
pub fn document_kind(bytes: &[u8]) -> Result<(Kind, &[u8]), RecordFault>
    ensures { Reads (λ x. (x.0, x.1.now)) result (known spec.kind_of bytes.now) }
{
    let (letter, rest) = byte_of(bytes)?;
    match kind_of(letter) {
        Some(kind) => Ok((kind, rest)),
        None => Err(RecordFault::BadRecord),
    }
}

/// What sort of item a letter says that a link leads to.
#[tactic(auto, unfolding(crate::specs::Field::known))]
pub fn link_kind(bytes: &[u8]) -> Result<(LinkKind, &[u8]), RecordFault>
    ensures { Reads (λ x. (x.0, x.1.now)) result (known spec.link_of bytes.now) }
{
    let (letter, rest) = byte_of(bytes)?;
    match link_of(letter) {
        Some(kind) => Ok((kind, rest)),
        None => Err(RecordFault::BadRecord),
    }
}
