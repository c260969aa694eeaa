// A PDU: its header and its limits, reading it, and its parts.
#![tactic(auto)]

pub mod fields;
pub mod parts;

ghost use Rattle.std.specs.Prelude.{◌≡◌, ◌+◌, ◌*◌, ◌<◌, ◌≤◌};
ghost use Rattle.pdu.specs.Header.{header_of};
ghost use Rattle.pdu.specs.Sizes.{limits, path_limit, header_limit, pdu_limit, destination_flag, path_entries, path_start, header_length, pdu_length};
ghost use Rattle.pdu.specs.Reading.{read_of, refusal_number, reading_number, extent_of};

use octets::{byte_value, word_value};

// Who a PDU is for.
// Kept: no Option<u16>, since a PDU without a destination is for every node, and None would not say so.
#[derive(Clone, Copy, Debug, PartialEq, Eq)]
pub enum Destination {
    Everyone,
    Address(u16),
}

// The fields of a header, in the order of document 01's table. A PDU ID or path count that the PDU does not have is 0.
#[derive(Clone, Copy)]
pub struct Header {
    pub protocol: u8,
    pub time_stamp_request: bool,
    pub path_bit: bool,
    pub port: u8,
    pub encrypted: bool,
    pub reserved: u8,
    pub ack: bool,
    pub added_header: bool,
    pub hop_limit: u8,
    pub payload_length: u16,
    pub source: u16,
    pub destination: Destination,
    pub pdu_id: u8,
    pub path_count: u8,
}

// Why bytes are not a PDU: document 01's numbers 1 to 6.
#[derive(Clone, Copy, Debug, PartialEq, Eq)]
pub enum Refusal {
    TooShort = 1,
    WrongVersion = 2,
    UnknownProtocol = 3,
    NoDestination = 4,
    HeaderCut = 5,
    PayloadCut = 6,
}

// How far a PDU reaches: its path's addresses and its payload's bytes, and where header and PDU end, counted from its first byte.
#[derive(Clone, Copy)]
pub struct Extent {
    pub path_count: u8,
    pub payload_length: u16,
    pub header_length: usize,
    pub pdu_length: usize,
}

// Document 01's sizes, in bytes; the path's in addresses.
#[derive(Clone, Copy)]
pub struct Limits {
    pub fixed: usize,
    pub payload: usize,
    pub path: usize,
    pub header: usize,
    pub pdu: usize,
}

// What writing answers: 0 and how many bytes were written, or the refusal's number and 0.
#[repr(C)]
#[derive(Clone, Copy)]
pub struct Written {
    pub number: u8,
    pub length: usize,
}

impl Header {
    pub const FIXED_LENGTH: usize = 6;

    pub const PAYLOAD_LIMIT: usize = 4095;

    pub const PATH_LIMIT: usize = 255;

    pub const HEADER_LIMIT: usize = 520;

    pub const PDU_LIMIT: usize = 4615;

    // The limits above, as a value. Document 01, "Sizes".
    pub fn limits() -> Limits
        ensures { result ≡ limits }
    {
        Limits {
            fixed: Header::FIXED_LENGTH,
            payload: Header::PAYLOAD_LIMIT,
            path: Header::PATH_LIMIT,
            header: Header::HEADER_LIMIT,
            pdu: Header::PDU_LIMIT,
        }
    }

    // How many addresses the path has: the path count, and none without the path bit. Document 01, "Header, byte by byte", the path after its count.
    pub fn path_entries(self) -> usize
        ensures { (result ≡ path_entries self) × (result ≤ path_limit) }
    {
        if self.path_bit {
            byte_value(self.path_count)
        } else {
            0
        }
    }

    // Where the path's addresses begin, counted from the PDU's first byte; without a path, where the payload begins.
    // Any header has such a place. Document 01, "Header, byte by byte", the fields called for.
    pub fn path_start(self) -> usize
        ensures { (result ≡ path_start self) × (result ≤ 10) }
    {
        let destination = self.destination;
        Header::FIXED_LENGTH
            + 2 * byte_value(destination_flag(destination))
            + byte_value(octets::flag(self.protocol == 1))
            + byte_value(octets::flag(self.path_bit))
    }

    // The header's length in bytes, its path included. Document 01, "Sizes": 6 + 2 + 1 + 1 + 510 at most.
    pub fn header_length(self) -> usize
        ensures { (result ≡ header_length self) × (result ≤ header_limit) }
    {
        self.path_start() + 2 * self.path_entries()
    }

    // The PDU's length in bytes: header and payload. Document 01, "Sizes": 4,615 at most where the payload length is within its 12 bits.
    pub fn pdu_length(self) -> usize
        ensures { (result ≡ pdu_length self) × (result ≤ header_limit + 65535) }
    {
        self.header_length() + word_value(self.payload_length)
    }
}

impl Refusal {
    // The number of a refusal. Document 01, "Numbers answered", 1 to 6.
    pub fn number(self) -> u8
        ensures { result ≡ refusal_number self }
    {
        self as u8
    }
}

// 1 where a destination is present and 0 for a PDU that is for everyone. Document 01, "Header, byte by byte": byte 0, bit 0.
pub fn destination_flag(destination: Destination) -> u8
    ensures { (result ≡ destination_flag destination) × (result ≤ 1) }
{
    match destination {
        Destination::Everyone => 0,
        Destination::Address(_) => 1,
    }
}

// The header of the PDU at the start of `bytes`, or why there is none there. Any bytes get an answer; bytes after the PDU are not looked at.
// Document 01, "Header, byte by byte", and "Numbers answered", 1 to 6.
// The header is not asked of `header_of`: where that has other callers the back end does not inline it.
pub fn read(bytes: &[u8]) -> Result<Header, Refusal>
    ensures { result ≡ read_of bytes.now }
{
    fields::start_fault(bytes.len(), octets::byte(bytes, 0))?;
    let header = fields::header_from(
        bytes,
        fields::destination_in(bytes),
        fields::pdu_id_in(bytes),
        fields::path_count_in(bytes),
    );
    fields::end_fault(bytes.len(), header.header_length(), header.pdu_length())?;
    Ok(header)
}

// The number of the first thing wrong with the bytes as a PDU, 1 to 6, and 0 where they begin with one. Any bytes get an answer; bytes after the PDU
// are not looked at. Document 01, "Numbers answered", 1 to 6.
pub fn fault(bytes: &[u8]) -> u8
    ensures { result ≡ reading_number (read_of bytes.now) }
{
    match extent_of(bytes) {
        Ok(_) => 0,
        Err(refusal) => refusal.number(),
    }
}

// How far the PDU at the start of `bytes` reaches, or why there is none there. Any bytes get an answer; bytes after the PDU are not looked at.
// Document 01, "Numbers answered", 1 to 6, and "Sizes".
pub fn extent_of(bytes: &[u8]) -> Result<Extent, Refusal>
    ensures { result ≡ extent_of (read_of bytes.now) }
{
    let byte0 = octets::byte(bytes, 0);
    fields::start_fault(bytes.len(), byte0)?;
    let path_count = fields::path_count_in(bytes);
    let payload_length = fields::payload_length(octets::byte(bytes, 2), octets::byte(bytes, 3));
    let header_length = fields::header_length_in(byte0, path_count);
    let pdu_length = header_length + word_value(payload_length);
    fields::end_fault(bytes.len(), header_length, pdu_length)?;
    Ok(Extent {
        path_count,
        payload_length,
        header_length,
        pdu_length,
    })
}

// The number of what reading answers: 0 for a header, else the refusal's. Document 01, "Numbers answered", 0 to 6.
pub fn reading_number(reading: Result<Header, Refusal>) -> u8
    ensures { result ≡ reading_number reading }
{
    if let Err(refusal) = reading {
        return refusal.number();
    }
    0
}

// The header that bytes show at their places in the table, whether or not they can be read; a byte that is not there counts as 0.
// Document 01, "Header, byte by byte".
pub fn header_of(bytes: &[u8]) -> Header
    ensures { result ≡ header_of bytes.now }
{
    fields::header_from(
        bytes,
        fields::destination_in(bytes),
        fields::pdu_id_in(bytes),
        fields::path_count_in(bytes),
    )
}

// The length of the PDU whose header bytes show, whether or not they can be read: header and payload, a byte that is not there counted as 0.
// Document 01, "Sizes": 4,615 at most.
pub fn pdu_length_in(bytes: &[u8]) -> usize
    ensures { (result ≡ pdu_length (header_of bytes.now)) × (result ≤ pdu_limit) }
{
    let payload = fields::payload_length(octets::byte(bytes, 2), octets::byte(bytes, 3));
    fields::header_length_in(octets::byte(bytes, 0), fields::path_count_in(bytes))
        + word_value(payload)
}
