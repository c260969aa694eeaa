// A received PDU held as one thing: the caller's bytes, and how far the PDU reaches in them.
// A function over the view only takes it apart. The work is done in `fields`, by a function on slice and span.
#![tactic(auto)]

mod fields;

ghost use Rattle.std.specs.Prelude.{◌≡◌};
ghost use Rattle.pdu.specs.Reading.{read_of};
ghost use Rattle.pdu.specs.Parts.{path_in, path_address, in_path};
ghost use Rattle.editions.specs.Editions.{read_under};
ghost use Rattle.view.specs.View.{summary_of, path_address_in, path_has, span_of, header_in, summary_at};

use editions::Shown;

// A received PDU, or bytes that are none: then `at` has the number of the refusal. Any bytes and span make a view that is defined.
#[derive(Clone, Copy)]
pub struct Pdu<'a> {
    pub bytes: &'a [u8],
    pub at: Span,
}

// How far a view's PDU reaches in its bytes: its path's addresses and its payload's bytes, and where header and PDU end, counted from its first byte. Of
// bytes that are no PDU the number of the refusal, and 0 in every other field.
// Kept: the number stands beside the fields, since `summarize` promises its answer for every number and span (`view_refused` of base_demands).
#[derive(Clone, Copy, Default)]
pub struct Span {
    pub number: u8,
    pub path_count: u8,
    pub payload_length: u16,
    pub header_length: usize,
    pub pdu_length: usize,
}

// What an edition shows of a PDU: its header, who it was heard from, and the lengths of header and PDU.
#[derive(Clone, Copy)]
pub struct Summary {
    pub header: Shown,
    pub last_sender: Option<u16>,
    pub header_length: usize,
    pub pdu_length: usize,
}

// The view of the PDU at the start of `bytes`. Any bytes have one. Document 01, "Numbers answered", the PDU held as one thing.
pub fn open<'a>(bytes: &'a [u8]) -> Pdu<'a>
    ensures { (result.bytes ≡ bytes.entry) × (result.at ≡ span_of (read_of bytes.now)) }
{
    let at = fields::span_of(bytes);
    Pdu { bytes, at }
}

// What an edition shows of a view: 17 for an edition other than 11 and 12, then the view's number, then its fields.
// Document 01, "Header, byte by byte"; document 02, W-205 and W-209.
pub fn summarize<'a>(pdu: Pdu<'a>, edition: u64) -> Result<Summary, u8>
    ensures { result ≡ summary_at pdu.entry.bytes.now pdu.entry.at edition }
{
    fields::summary_at(pdu.bytes, pdu.at, edition)
}

// The path's address at place `i`, the first at 0; 0 past the last one, and after a refusal.
// Document 01, "Header, byte by byte", the path after its count.
pub fn path_address<'a>(pdu: Pdu<'a>, i: usize) -> u16
    ensures { result ≡ path_address (header_in pdu.entry.bytes.now pdu.entry.at) pdu.entry.bytes.now i }
{
    fields::path_address_at(pdu.bytes, pdu.at, i)
}

// Whether an address is anywhere in the path. In an empty path, and after a refusal, none is. Document 01, "One PDU at one node", 3.
pub fn path_has<'a>(pdu: Pdu<'a>, address: u16) -> bool
    ensures { result ≡ in_path address (path_in (header_in pdu.entry.bytes.now pdu.entry.at) pdu.entry.bytes.now) }
{
    fields::path_has_at(pdu.bytes, pdu.at, address)
}

// What an edition shows of the PDU at the start of `bytes`: 17 for an edition other than 11 and 12, or 1 to 6 where there is no PDU, or its fields.
// Bytes after the PDU are not looked at. Document 01, "Header, byte by byte", and "Numbers answered", 1 to 6; document 02, W-205 and W-209.
pub fn summary_of(bytes: &[u8], edition: u64) -> Result<Summary, u8>
    ensures { result ≡ summary_of (read_under edition bytes.now) bytes.now }
{
    summarize(open(bytes), edition)
}

// The address at place `i` of the path of the PDU at the start of `bytes`, the first at 0. 0 past the last one, and where there is no PDU.
// Document 01, "Header, byte by byte", the path after its count.
pub fn path_address_of(bytes: &[u8], i: usize) -> u16
    ensures { result ≡ path_address_in (read_of bytes.now) bytes.now i }
{
    path_address(open(bytes), i)
}

// Whether an address is anywhere in the path of the PDU at the start of `bytes`. Without a path none is, nor where there is no PDU.
// Document 01, "One PDU at one node", 3.
pub fn path_has_of(bytes: &[u8], address: u16) -> bool
    ensures { result ≡ path_has (read_of bytes.now) bytes.now address }
{
    path_has(open(bytes), address)
}
