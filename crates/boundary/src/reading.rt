// What C sees of a PDU that was read.
ghost use Rattle.std.specs.Prelude.{◌≡◌};
ghost use Rattle.boundary.specs.Boundary.{has_destination, destination_address, has_flag, flag_of, reserved_shown, shown_in_c, refused_in_c, summary_in_c};

use editions::Bits;
use pdu::Destination;
use view::Summary;

// What `mant_read` answers: 0, or 17 or 1 to 6, and of a PDU every field of its header in document 01's order as the edition shows it, its last sender,
// the header's length and the PDU's. Edition 1.1 has no encrypted flag: `has_encrypted` and `encrypted` are false, and `reserved` is 0 to 7; in 1.2 it
// is 0 to 3. `last_sender` counts where `has_last_sender` is set, and is 0 where not. With a refusal all fields after the number are 0 and false.
#[repr(C)]
#[derive(Clone, Copy, Default)]
pub struct MantHeader {
    pub number: u8,
    pub protocol: u8,
    pub time_stamp_request: bool,
    pub path_bit: bool,
    pub has_destination: bool,
    pub port: u8,
    pub has_encrypted: bool,
    pub encrypted: bool,
    pub reserved: u8,
    pub ack: bool,
    pub added_header: bool,
    pub hop_limit: u8,
    pub payload_length: u16,
    pub source: u16,
    pub destination: u16,
    pub pdu_id: u8,
    pub path_count: u8,
    pub has_last_sender: bool,
    pub last_sender: u16,
    pub header_length: usize,
    pub pdu_length: usize,
}

fn has_destination(destination: Destination) -> bool
    ensures { result ≡ has_destination destination }
{
    matches!(destination, Destination::Address(_))
}

fn destination_address(destination: Destination) -> u16
    ensures { result ≡ destination_address destination }
{
    match destination {
        Destination::Everyone => 0,
        Destination::Address(address) => address,
    }
}

fn has_flag(bits: Bits) -> bool
    ensures { result ≡ has_flag bits }
{
    matches!(bits, Bits::Flagged { .. })
}

fn flag_of(bits: Bits) -> bool
    ensures { result ≡ flag_of bits }
{
    match bits {
        Bits::Reserved(_) => false,
        Bits::Flagged { encrypted, .. } => encrypted,
    }
}

fn reserved_shown(bits: Bits) -> u8
    ensures { result ≡ reserved_shown bits }
{
    match bits {
        Bits::Reserved(number) => number,
        Bits::Flagged { reserved, .. } => reserved,
    }
}

// All that a view says of a PDU, as C sees it: a refusal's number, or 0 and the fields.
// Document 01, "Header, byte by byte"; document 02, W-205 and W-209.
pub fn summary_in_c(said: Result<Summary, u8>) -> MantHeader
    ensures { result ≡ summary_in_c said }
{
    match said {
        Ok(summary) => shown_in_c(summary),
        Err(number) => refused_in_c(number),
    }
}

fn shown_in_c(summary: Summary) -> MantHeader
    ensures { result ≡ shown_in_c summary }
{
    let header = summary.header;
    let bits = header.bits;
    let destination = header.destination;
    let sender = summary.last_sender;
    MantHeader {
        number: 0,
        protocol: header.protocol,
        time_stamp_request: header.time_stamp_request,
        path_bit: header.path_bit,
        has_destination: has_destination(destination),
        port: header.port,
        has_encrypted: has_flag(bits),
        encrypted: flag_of(bits),
        reserved: reserved_shown(bits),
        ack: header.ack,
        added_header: header.added_header,
        hop_limit: header.hop_limit,
        payload_length: header.payload_length,
        source: header.source,
        destination: destination_address(destination),
        pdu_id: header.pdu_id,
        path_count: header.path_count,
        has_last_sender: sender.is_some(),
        last_sender: sender.unwrap_or(0),
        header_length: summary.header_length,
        pdu_length: summary.pdu_length,
    }
}

// A refusal shows no field.
fn refused_in_c(number: u8) -> MantHeader
    ensures { result ≡ refused_in_c number }
{
    MantHeader {
        number,
        ..MantHeader::default()
    }
}
