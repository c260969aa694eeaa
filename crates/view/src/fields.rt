// What a view shows, by functions on its slice and span.
ghost use Rattle.std.specs.Prelude.{◌≡◌};
ghost use Rattle.pdu.specs.Reading.{read_of};
ghost use Rattle.pdu.specs.Parts.{path_in, path_address, in_path};
ghost use Rattle.view.specs.View.{span_of, header_in, summary_at};

use super::{Span, Summary};
use pdu::{Header, fields};

pub(crate) fn span_of(bytes: &[u8]) -> Span
    ensures { result ≡ span_of (read_of bytes.now) }
{
    match pdu::extent_of(bytes) {
        Ok(extent) => Span {
            number: 0,
            path_count: extent.path_count,
            payload_length: extent.payload_length,
            header_length: extent.header_length,
            pdu_length: extent.pdu_length,
        },
        Err(refusal) => Span {
            number: refusal.number(),
            ..Span::default()
        },
    }
}

// The header is not asked of `header_at` here: where that has other callers the back end does not inline it, and reading takes twice as long.
pub(crate) fn summary_at(bytes: &[u8], span: Span, edition: u64) -> Result<Summary, u8>
    ensures { result ≡ summary_at bytes.now span edition }
{
    if !editions::is_known(edition) {
        return Err(17);
    }
    if span.number != 0 {
        return Err(span.number);
    }
    let header = fields::header_from(
        bytes,
        fields::destination_in(bytes),
        fields::pdu_id_in(bytes),
        span.path_count,
    );
    let bits = editions::bits_under(edition, octets::byte(bytes, 1));
    Ok(Summary {
        header: editions::shown_with(bits, header),
        last_sender: pdu::parts::last_sender(bytes, header),
        header_length: span.header_length,
        pdu_length: span.pdu_length,
    })
}

pub(crate) fn path_address_at(bytes: &[u8], span: Span, i: usize) -> u16
    ensures { result ≡ path_address (header_in bytes.now span) bytes.now i }
{
    pdu::parts::path_address(bytes, header_at(bytes, span), i)
}

pub(crate) fn path_has_at(bytes: &[u8], span: Span, address: u16) -> bool
    ensures { result ≡ in_path address (path_in (header_in bytes.now span) bytes.now) }
{
    let header = header_at(bytes, span);
    pdu::parts::has_address(
        bytes,
        header.path_start() as u16,
        header.path_entries() as u8,
        address,
    )
}

fn header_at(bytes: &[u8], span: Span) -> Header
    ensures { result ≡ header_in bytes.now span }
{
    fields::header_from(
        bytes,
        fields::destination_in(bytes),
        fields::pdu_id_in(bytes),
        span.path_count,
    )
}
