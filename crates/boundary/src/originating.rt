// What C asks of a fresh PDU.
ghost use Rattle.std.specs.Prelude.{◌≡◌};
ghost use Rattle.boundary.specs.Boundary.{destination_from_c, fresh_from_c};

use pdu::Destination;

// What a caller asks of a fresh PDU. `destination` counts where `has_destination` is set. Edition, hop limit and port are wider than what they hold, so
// that a number too large arrives whole and is refused. `encrypted` marks a payload that is already encrypted; edition 1.1 has no such mark.
#[repr(C)]
#[derive(Clone, Copy)]
pub struct MantFresh {
    pub edition: u64,
    pub source: u16,
    pub has_destination: bool,
    pub destination: u16,
    pub hop_limit: u64,
    pub port: u64,
    pub time_stamp_request: bool,
    pub with_path: bool,
    pub reliable: bool,
    pub pdu_id: u8,
    pub encrypted: bool,
}

fn destination_from_c(present: bool, address: u16) -> Destination
    ensures { result ≡ destination_from_c present address }
{
    if present {
        Destination::Address(address)
    } else {
        Destination::Everyone
    }
}

// What C asks of a fresh PDU, as origination takes it. An address without its flag does not count. Document 01, "Origination"; document 02, W-209.
pub fn fresh_from_c(settings: MantFresh) -> origin::FreshSettings
    ensures { result ≡ fresh_from_c settings }
{
    origin::FreshSettings {
        edition: settings.edition,
        source: settings.source,
        destination: destination_from_c(settings.has_destination, settings.destination),
        hop_limit: settings.hop_limit,
        port: settings.port,
        time_stamp_request: settings.time_stamp_request,
        with_path: settings.with_path,
        reliable: settings.reliable,
        pdu_id: settings.pdu_id,
        encrypted: settings.encrypted,
    }
}
