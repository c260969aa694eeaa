// Binary type-length-value elements: runs of them judged, and the only elements of two types sought in a run.
#![tactic(auto)]

ghost use Rattle.std.specs.Prelude.{◌≡◌, ◌+◌, ◌<◌, ◌≤◌, length, IfOk};
ghost use Rattle.elements.specs.Elements.{number_at, number_size, type_at, value_place, element_end, is_run, element_fault, level_limit, run_fault};
ghost use Rattle.elements.specs.Finding.{fault_number, head_at, with_occurrence, only_occurrence, pair_from};
ghost use Rattle.elements.specs.Walking.{cut_element, element_of};

// The first bytes of an element: its type, where its value begins, and where it ends.
#[derive(Clone, Copy)]
pub struct Head {
    pub type_number: usize,
    pub value_place: usize,
    pub end: usize,
}

// An element that is whole, with 0: its type, where its value lies, and where it ends. With 57 every other field is 0.
// Kept: C gets this struct by value, with its number.
#[repr(C)]
#[derive(Clone, Copy, Default)]
pub struct Element {
    pub number: u8,
    pub type_number: u16,
    pub value_place: usize,
    pub value_length: usize,
    pub end: usize,
}

// Where the only element of each of two types begins, if there is exactly one.
#[derive(Clone, Copy)]
pub struct Pair {
    pub first: Option<usize>,
    pub second: Option<usize>,
}

// A type or a length, and how many bytes it has.
#[derive(Clone, Copy)]
struct Number {
    value: usize,
    size: usize,
}

// What is wrong with an element: it does not end within its run, or it stands one level too deep.
#[derive(Clone, Copy, Debug, PartialEq, Eq)]
enum ElementFault {
    Cut,
    TooDeep,
}

// How often an element of a type was met, and where it began.
// Kept: three cases with names; an `Option` in an `Option` would hide which of them is which.
#[derive(Clone, Copy)]
enum Occurrences {
    Never,
    Single(usize),
    Again,
}

// The type or the length at a place. Document 02, W-202; document 003, the binary elements.
fn number_at(bytes: &[u8], place: usize) -> Number
    ensures { (result.value ≡ number_at bytes.now place) × (result.size ≡ number_size bytes.now place)
        × (result.value < 32768) × (result.size ≤ 2) }
{
    let first = octets::byte(bytes, place);
    if first < 128 {
        Number {
            value: usize::from(first),
            size: 1,
        }
    } else {
        Number {
            value: usize::from(octets::word(bytes, place)) % 32768,
            size: 2,
        }
    }
}

fn head_within(bytes: &[u8], place: usize) -> Head
    requires { place ≤ length bytes.now }
    ensures { (result.type_number ≡ type_at bytes.now place) × (result.value_place ≡ value_place bytes.now place)
        × (result.end ≡ element_end bytes.now place) × (result.value_place ≤ result.end) × (result.type_number < 32768) }
{
    let kind = number_at(bytes, place);
    let length_place = place + kind.size;
    let length = number_at(bytes, length_place);
    let value_place = length_place + length.size;
    Head {
        type_number: kind.value,
        value_place,
        end: value_place + length.value,
    }
}

// The first bytes of the element at a place. Bytes that are not there count as 0, and a place past the end as the end. Document 003, the binary
// elements; document 02, W-202.
pub fn head_at(bytes: &[u8], place: usize) -> Head
    ensures { (result ≡ head_at bytes.now place) × (result.value_place ≤ result.end) × (result.type_number < 32768) }
{
    head_within(bytes, place.min(bytes.len()))
}

fn cut() -> Element
    ensures { result ≡ cut_element }
{
    Element {
        number: 57,
        ..Element::default()
    }
}

// The element at a place, or 57 where none ends within the bytes. What it holds is not judged. Document 003, the binary elements.
pub fn element_at(bytes: &[u8], place: usize) -> Element
    ensures { result ≡ element_of bytes.now place }
{
    let head = head_at(bytes, place);
    if bytes.len() < head.end {
        return cut();
    }
    Element {
        number: 0,
        type_number: head.type_number as u16,
        value_place: head.value_place,
        value_length: head.end - head.value_place,
        end: head.end,
    }
}

// The most levels of elements in elements.
const LEVEL_LIMIT: usize = 4;

// The first fault of the bytes as a run of elements at level 1: 57, 58 or 0. Document 02, W-202, which of two faults is given.
// Kept as a number: reading an exchange hands it on to C, and `run_fault` of specs/ gives it.
pub fn fault(bytes: &[u8]) -> u8
    ensures { result ≡ run_fault level_limit bytes.now 0 (length bytes.now) }
{
    match run_fault(bytes, 0, bytes.len(), LEVEL_LIMIT) {
        Ok(()) => 0,
        Err(ElementFault::Cut) => 57,
        Err(ElementFault::TooDeep) => 58,
    }
}

#[cycle(judge_run_fault)]
fn run_fault(bytes: &[u8], place: usize, end: usize, levels: usize) -> Result<(), ElementFault>
    requires { end ≤ length bytes.now }
    ensures { fault_number result ≡ run_fault levels bytes.now place end }
{
    // Kept: the next element begins where this one ends, so there is no index to count.
    let mut next = place;
    while next < end {
        next = judge(bytes, next, end, levels)?;
    }
    Ok(())
}

#[cycle(judge_run_fault)]
fn judge(bytes: &[u8], place: usize, end: usize, levels: usize) -> Result<usize, ElementFault>
    requires { (place < end) × (end ≤ length bytes.now) }
    ensures { (fault_number result ≡ element_fault levels bytes.now end place)
        × IfOk result (λ next. next ≡ element_end bytes.now place) }
{
    let head = head_within(bytes, place);
    if levels == 0 {
        return Err(ElementFault::TooDeep);
    }
    if end < head.end {
        return Err(ElementFault::Cut);
    }
    if is_run(head.type_number) {
        run_fault(bytes, head.value_place, head.end, levels - 1)?;
    }
    Ok(head.end)
}

fn is_run(type_number: usize) -> bool
    ensures { result ≡ is_run type_number }
{
    matches!(type_number, 10 | 11 | 20)
}

// The only element of each of two types among those that follow one another from a place up to the end. Document 02, W-202, "each exactly once".
pub fn pair_from(bytes: &[u8], place: usize, first_type: usize, second_type: usize) -> Pair
    ensures { result ≡ pair_from bytes.now place first_type second_type }
{
    let end = bytes.len();
    let mut first = Occurrences::Never;
    let mut second = Occurrences::Never;
    // Kept: as in `run_fault`.
    let mut next = place;
    while next < end {
        let head = head_within(bytes, next);
        first = add_occurrence(first, head.type_number == first_type, next);
        second = add_occurrence(second, head.type_number == second_type, next);
        next = head.end;
    }
    Pair {
        first: only_occurrence(first),
        second: only_occurrence(second),
    }
}

fn add_occurrence(occurrences: Occurrences, is: bool, place: usize) -> Occurrences
    ensures { result ≡ with_occurrence occurrences is place }
{
    if !is {
        return occurrences;
    }
    match occurrences {
        Occurrences::Never => Occurrences::Single(place),
        Occurrences::Single(_) => Occurrences::Again,
        Occurrences::Again => Occurrences::Again,
    }
}

fn only_occurrence(occurrences: Occurrences) -> Option<usize>
    ensures { result ≡ only_occurrence occurrences }
{
    match occurrences {
        Occurrences::Single(place) => Some(place),
        Occurrences::Never | Occurrences::Again => None,
    }
}
