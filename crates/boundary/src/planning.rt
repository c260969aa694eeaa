// What C sees of the bounds of a flood, of how often a message goes out on a network, of the least hop limit, and of document 01's sizes.
ghost use Rattle.std.specs.Prelude.{◌≡◌};
ghost use Rattle.boundary.specs.Boundary.{bound_in_c, airtime_in_c, no_airtime, least_in_c, limits_in_c};

use bound::BoundError;
use ways::Airtime;

// A bound: number 0 and the value; or 10 for a hop limit above 7; or that the value is too large for 64 bits. The value is 0 in the last two.
#[repr(C)]
#[derive(Clone, Copy)]
pub struct MantBound {
    pub number: u8,
    pub too_large: bool,
    pub value: u64,
}

// How often a message goes out on a network, or how many bytes that is: number 0 and the value; or 10 for a hop limit above 7; or that the network is not
// served; or that the value is as large as what the caller said is enough, or larger. The value is 0 in the last three.
#[repr(C)]
#[derive(Clone, Copy)]
pub struct MantAirtime {
    pub number: u8,
    pub served: bool,
    pub enough: bool,
    pub value: u64,
}

// Document 01's sizes, in bytes; the path's in addresses, a list's in values.
#[repr(C)]
#[derive(Clone, Copy)]
pub struct MantLimits {
    pub fixed: usize,
    pub payload: usize,
    pub path: usize,
    pub header: usize,
    pub pdu: usize,
    pub list: usize,
    pub batch: usize,
}

// A bound, as C sees it; number 10 for a hop limit above 7. Document 01, "Checked by hand", the bound of demand 3.
pub fn bound_in_c(bound: Result<u64, BoundError>) -> MantBound
    ensures { result ≡ bound_in_c bound }
{
    match bound {
        Ok(value) => MantBound {
            number: 0,
            too_large: false,
            value,
        },
        Err(BoundError::TooLarge) => MantBound {
            number: 0,
            too_large: true,
            value: 0,
        },
        Err(BoundError::HopRefused) => MantBound {
            number: 10,
            too_large: false,
            value: 0,
        },
    }
}

// An answer of `ways`, as C sees it; number 10 for a hop limit above 7. Crate `planning_own_network`, `by_count`.
pub fn airtime_in_c(airtime: Airtime) -> MantAirtime
    ensures { result ≡ airtime_in_c airtime }
{
    match airtime {
        Airtime::Exactly(value) => MantAirtime {
            number: 0,
            served: true,
            enough: false,
            value,
        },
        Airtime::Enough => no_airtime(0, true, true),
        Airtime::HopRefused => no_airtime(10, false, false),
        Airtime::NotServed => no_airtime(0, false, false),
    }
}

fn no_airtime(number: u8, served: bool, enough: bool) -> MantAirtime
    ensures { result ≡ no_airtime number served enough }
{
    MantAirtime {
        number,
        served,
        enough,
        value: 0,
    }
}

// A least hop limit, as C sees it; 8, which is no hop limit, where none reaches all. Document 02, W-208.
pub fn least_in_c(least: Option<u8>) -> u8
    ensures { result ≡ least_in_c least }
{
    least.unwrap_or(8)
}

// The sizes that the layer keeps to. Document 01, "Sizes", and for the list's values "Numbers answered", 22.
pub fn limits_in_c() -> MantLimits
    ensures { result ≡ limits_in_c }
{
    let limits = pdu::Header::limits();
    MantLimits {
        fixed: limits.fixed,
        payload: limits.payload,
        path: limits.path,
        header: limits.header,
        pdu: limits.pdu,
        list: lists::VALUE_LIMIT,
        batch: batch::Cursor::BATCH_LIMIT,
    }
}
