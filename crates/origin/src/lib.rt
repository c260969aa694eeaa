// Origination: a fresh PDU from settings and a payload.
#![tactic(auto)]

ghost use Rattle.std.specs.Prelude.{◌≡◌, cond, ◌&&◌, ◌≤◌, eqb, length};
ghost use Rattle.pdu.specs.Sizes.{payload_limit, destination_flag};
ghost use Rattle.origin.specs.Origination.{fresh_header, settings_fault, originated, originated_output};

use pdu::{Destination, Header, Written};

// What a caller asks of a fresh PDU. Edition, hop limit and port are wider than what they hold, so that a number too large arrives whole and is refused.
// `encrypted` marks a payload that is already encrypted; edition 1.1 has no such mark.
#[derive(Clone, Copy)]
pub struct FreshSettings {
    pub edition: u64,
    pub source: u16,
    pub destination: Destination,
    pub hop_limit: u64,
    pub port: u64,
    pub time_stamp_request: bool,
    pub with_path: bool,
    pub reliable: bool,
    pub pdu_id: u8,
    pub encrypted: bool,
}

// Writes a fresh PDU at the start of the output and answers 0 and its length. Answers 17 for an edition other than 11 and 12, 10 to 13 for a hop limit
// above 7, a port above 15, a payload above its limit, or reliable service without a destination, 16 for encryption asked under edition 1.1, and then 14
// where the output is too short; each with length 0 and the output as it was. The PDU ID counts for reliable service only. Output past the PDU keeps its
// bytes. Document 01, "Origination", and "Numbers answered", 10 to 14; document 02, W-209.
pub fn originate(settings: FreshSettings, payload: &[u8], output: &mut [u8]) -> Written
    ensures { (result ≡ originated settings payload.now (length output.old))
        × (output.new ≡ originated_output settings payload.now output.old) }
{
    let fault = settings_fault(settings, payload);
    if fault != 0 {
        return refused(fault);
    }
    let header = fresh_header(settings, payload.len());
    let length = header.pdu_length();
    if output.len() < length {
        return refused(14);
    }
    let place = writing::put_header(output, header);
    octets::put(output, place, payload);
    Written { number: 0, length }
}

// A refusal's number, and nothing written.
fn refused(number: u8) -> Written
    ensures { result ≡ record { number = number; length = 0 } }
{
    Written { number, length: 0 }
}

// Kept: a number, since definition `settings_fault` and C's `Written` carry it.
// The refusals that need no output, 17, 10 to 13 and 16, or 0.
fn settings_fault(settings: FreshSettings, payload: &[u8]) -> u8
    ensures { result ≡ settings_fault settings payload.now }
{
    if !editions::is_known(settings.edition) {
        return 17;
    }
    if 7 < settings.hop_limit {
        return 10;
    }
    if 15 < settings.port {
        return 11;
    }
    if Header::PAYLOAD_LIMIT < payload.len() {
        return 12;
    }
    let destination = settings.destination;
    if unaddressed(settings.reliable, destination) {
        return 13;
    }
    if unmarked(settings.edition, settings.encrypted) {
        16
    } else {
        0
    }
}

// Encryption asked of an edition without the flag.
fn unmarked(edition: u64, encrypted: bool) -> bool
    ensures { result ≡ (encrypted && eqb edition 11) }
{
    encrypted && edition == 11
}

// Reliable service without a destination.
fn unaddressed(reliable: bool, destination: Destination) -> bool
    ensures { result ≡ (reliable && eqb (destination_flag destination) 0) }
{
    reliable && destination == Destination::Everyone
}

fn fresh_header(settings: FreshSettings, payload_length: usize) -> Header
    requires { (settings.hop_limit ≤ 7) × (settings.port ≤ 15) × (payload_length ≤ payload_limit) }
    ensures { result ≡ fresh_header settings payload_length }
{
    let destination = settings.destination;
    Header {
        protocol: only_if(settings.reliable, 1),
        time_stamp_request: settings.time_stamp_request,
        path_bit: settings.with_path,
        port: settings.port as u8,
        encrypted: settings.encrypted,
        reserved: 0,
        ack: false,
        added_header: false,
        hop_limit: settings.hop_limit as u8,
        payload_length: payload_length as u16,
        source: settings.source,
        destination,
        pdu_id: only_if(settings.reliable, settings.pdu_id),
        path_count: 0,
    }
}

fn only_if(called: bool, byte: u8) -> u8
    ensures { result ≡ cond called byte 0 }
{
    if called { byte } else { 0 }
}
