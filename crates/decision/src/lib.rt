// What decides on a PDU that was read, at one node: the numbers that drop it, that keep it from delivery and that keep it from being repeated.
#![tactic(auto)]

ghost use Rattle.std.specs.Prelude.{◌≡◌, ◌&&◌, ◌⊎◌, ◌+◌, ◌<◌, eqb, Some, None};
ghost use Rattle.pdu.specs.declared.Header.{Header};
ghost use Rattle.pdu.specs.Sizes.{path_limit};
ghost use Rattle.lists.specs.Lists.{holds, lists_in, list_in};
ghost use Rattle.decision.specs.declared.Choice.TheVariants.{First, Second, Neither};
ghost use Rattle.decision.specs.Decision.{node_of, is_echo, is_own_report, echo_fault, pass_fault, drop_fault, delivery_fault, repeat_fault};

use pdu::{Destination, Header};

// Which of a kind's two lists is on. Document 02, W-211.
#[derive(Clone, Copy)]
pub enum Choice {
    First,
    Second,
    Neither,
}

// What a node is set to: the edition, 11 for 1.1 or 12 for 1.2 (document 02, W-209), and document 01's settings. Of each kind of list the first, the
// second or none is chosen (W-211). A pass list that is chosen and empty passes nothing.
#[derive(Clone, Copy)]
pub struct Settings {
    pub edition: u64,
    pub own: u16,
    pub echo: bool,
    pub repeating: bool,
    pub source_pass: Choice,
    pub source_reject: Choice,
    pub destination_pass: Choice,
    pub destination_reject: Choice,
}

fn is_echo(settings: Settings, header: Header, received: &[u8]) -> bool
    ensures { result ≡ is_echo settings header received.now }
{
    settings.echo && header.path_bit && pdu::parts::path_has(received, header, settings.own)
}

fn is_own_report(settings: Settings, header: Header) -> bool
    ensures { result ≡ is_own_report settings header }
{
    settings.echo && header.source == settings.own
}

// Whether the list that is chosen holds an address; `None` where none is chosen. The kind's first list has place `first` among the eight.
fn chosen_holds(choice: Choice, lists: &[u16], first: usize, address: u16) -> Option<bool>
    requires { first < 7 }
    ensures { ((choice ≡ First) × (result ≡ Some (holds (list_in lists.now first) address)))
        ⊎ ((choice ≡ Second) × (result ≡ Some (holds (list_in lists.now (first + 1)) address)))
        ⊎ ((choice ≡ Neither) × (result ≡ None)) }
{
    let place = match choice {
        Choice::First => first,
        Choice::Second => first + 1,
        Choice::Neither => return None,
    };
    Some(lists::has(lists, place, address))
}

// The numbers 31 to 34, or 0.
// Kept: the five functions from here on return document 01's numbers, which the definitions, C and `relay` name.
fn pass_fault(settings: Settings, lists: &[u16], header: Header) -> u8
    ensures { result ≡ pass_fault (node_of settings (lists_in lists.now)) header }
{
    if chosen_holds(settings.source_pass, lists, 0, header.source) == Some(false) {
        return 31;
    }
    if chosen_holds(settings.source_reject, lists, 2, header.source) == Some(true) {
        return 32;
    }
    let Destination::Address(destination) = header.destination else {
        return 0;
    };
    if chosen_holds(settings.destination_pass, lists, 4, destination) == Some(false) {
        return 33;
    }
    if chosen_holds(settings.destination_reject, lists, 6, destination) == Some(true) {
        return 34;
    }
    0
}

// The number that echo suppression gives a PDU that was read: 30 where its path has the own address, then 42 where it is the node's own report, and 0 where
// neither is so or echo is off. Any header and bytes get a number; what lies past the bytes' end reads as 0. Document 01, "One PDU at one node", 3;
// document 02, W-203.
pub fn echo_fault(settings: Settings, header: Header, received: &[u8]) -> u8
    ensures { result ≡ echo_fault settings header received.now }
{
    if is_echo(settings, header, received) {
        return 30;
    }
    if is_own_report(settings, header) {
        return 42;
    }
    0
}

// The number that drops a PDU that was read: 30 where it is an echo, then 42 where it is the node's own report, then 31 to 34 by the lists chosen, and 0
// where none is given. Any header, lists and bytes get a number; the path is looked for in `received`, and what lies past its end reads as 0. Document 01,
// "One PDU at one node", 3 and 4; document 02, W-203 and W-211.
pub fn drop_fault(settings: Settings, lists: &[u16], header: Header, received: &[u8]) -> u8
    ensures { result ≡ drop_fault (node_of settings (lists_in lists.now)) header received.now }
{
    let echo = echo_fault(settings, header, received);
    if echo != 0 {
        return echo;
    }
    pass_fault(settings, lists, header)
}

// The number that keeps a PDU's payload from being delivered: 39 where it is for another address, then 35 with an added header, and 0 where it is
// delivered. A PDU without a destination is for everyone. Document 01, "One PDU at one node", 5.
pub fn delivery_fault(settings: Settings, header: Header) -> u8
    ensures { result ≡ delivery_fault settings header }
{
    match header.destination {
        Destination::Address(address) if address != settings.own => 39,
        _ if header.added_header => 35,
        _ => 0,
    }
}

// The number that keeps a PDU from being repeated: 41 where this node is the destination, then 36 with repeating off, 37 at hop limit 0 and 38 with a
// full path, and 0 where it is repeated if the output has room. Document 01, "One PDU at one node", 6.
pub fn repeat_fault(settings: Settings, header: Header) -> u8
    ensures { result ≡ repeat_fault settings header }
{
    match header.destination {
        Destination::Address(address) if address == settings.own => 41,
        _ if !settings.repeating => 36,
        _ if header.hop_limit == 0 => 37,
        _ if path_is_full(header) => 38,
        _ => 0,
    }
}

fn path_is_full(header: Header) -> bool
    ensures { result ≡ (header.path_bit && eqb header.path_count path_limit) }
{
    header.path_bit && usize::from(header.path_count) == Header::PATH_LIMIT
}
