// The numbers last accepted from each source: a record in memory that the caller lends.
#![tactic(auto)]

ghost use Rattle.std.specs.Prelude.{◌≡◌, ◌≤◌, ◌<◌, cond, length, IfSome, Some, None};
ghost use Rattle.sources.specs.Sources.{memory_length, record_in, place_of, is_held, number_fault, source_fault, memory_accepted, memory_without};

// The most sources that a record holds. Document 02, W-212.
const LIMIT: usize = 64;

// A record's memory: a word that says how many sources are held, and two words for each.
pub const MEMORY: usize = 129;

// How many sources are held; a memory that says more than 64 is a full record, and it is as long as is said of one. Document 02, W-212.
pub fn held(memory: &[u32; MEMORY]) -> usize
    ensures { (result ≡ length (record_in memory.now)) × (result ≤ 64) × (length memory.now ≡ memory_length) }
{
    (memory[0] as usize).min(LIMIT)
}

// The place of a source's first entry, where it has one.
fn find(memory: &[u32; MEMORY], source: u16) -> Option<usize>
    ensures found { result ≡ cond (is_held source (record_in memory.now)) (Some (place_of source (record_in memory.now))) None }
    ensures within { IfSome result (λ place. place < 64) }
{
    for place in 0..held(memory) {
        if memory[2 * place + 1] == u32::from(source) {
            return Some(place);
        }
    }
    None
}

// 82 where the source is held with a number that is not below this one, else 0: any number may be a source's first. Document 02, W-212.
// Kept: the documents number the refusals and C answers the number, so a `Result` would be made from a number and turned back into one.
pub fn number_fault(memory: &[u32; MEMORY], source: u16, number: u32) -> u8
    ensures { result ≡ number_fault source number (record_in memory.now) }
{
    let Some(place) = find(memory, source) else {
        return 0;
    };
    if number <= memory[2 * place + 2] {
        82
    } else {
        0
    }
}

// 84 where the source is new and 64 are held, else 0. Document 02, W-212.
// Kept: a number, as in `number_fault`.
pub fn source_fault(memory: &[u32; MEMORY], source: u16) -> u8
    ensures { result ≡ source_fault source memory.now }
{
    if find(memory, source).is_some() {
        return 0;
    }
    if held(memory) < LIMIT { 0 } else { 84 }
}

// Notes a number as the last accepted from a source; a new one stands behind the others. Nothing changes with 84. Document 02, W-212.
pub fn accept(memory: &mut [u32; MEMORY], source: u16, number: u32)
    ensures { memory.new ≡ memory_accepted source number memory.old }
{
    if source_fault(memory, source) != 0 {
        return;
    }
    let end = held(memory);
    let place = find(memory, source).unwrap_or(end);
    memory[0] = end.max(place + 1) as u32;
    memory[2 * place + 1] = u32::from(source);
    memory[2 * place + 2] = number;
}

// Removes a source, and returns whether it was held. Nothing changes where it was not. Its next number may be any.
pub fn remove(memory: &mut [u32; MEMORY], source: u16) -> bool
    ensures { (result ≡ is_held source (record_in memory.old)) × (memory.new ≡ memory_without source memory.old) }
{
    if find(memory, source).is_none() {
        return false;
    }
    let end = held(memory);
    let mut kept = 0;
    for at in 0..end {
        let address = memory[2 * at + 1];
        let number = memory[2 * at + 2];
        if address != u32::from(source) {
            memory[2 * kept + 1] = address;
            memory[2 * kept + 2] = number;
            kept += 1;
        }
    }
    memory[0] = kept as u32;
    true
}
