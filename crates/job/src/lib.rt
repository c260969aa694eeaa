// One job of the program relay: its own address, its flags, its four lists and its batch, found in the bytes that it was read as.
#![tactic(auto)]

ghost use Rattle.std.specs.Prelude.{◌≡◌, ◌+◌, ◌*◌, ◌%◌, ◌<◌, ◌≤◌, ◌^◌, eqb, length, get_or};
ghost use Rattle.job.specs.Jobs.{job_refusal_number, taken_number, job_number, job_head, ranges_read, list_section, batch_section};
ghost use Rattle.job.specs.Jobs.{list_end, sections_of, job_of};
ghost use Rattle.octets.specs.Octets.{IsPart};
ghost use Rattle.lists.specs.Lists.{value_limit};
ghost use Rattle.job.specs.Jobs.{first_if, settings_of, values_in, padded_values};

// Why a job is refused. Document 01, "The program `relay`", a bad job.
#[derive(Clone, Copy, Debug, PartialEq, Eq)]
pub enum JobRefusal {
    CutShort,
    UnknownFlags,
    TooManyRanges,
    BytesAfter,
    BatchTooLong,
    RangeReversed,
}

impl JobRefusal {
    // The number of a refusal. Document 01, "Numbers answered".
    pub fn number(self) -> u8
        ensures { result ≡ job_refusal_number self }
    {
        match self {
            JobRefusal::CutShort => 50,
            JobRefusal::UnknownFlags => 51,
            JobRefusal::TooManyRanges => 52,
            JobRefusal::BytesAfter => 53,
            JobRefusal::BatchTooLong => 54,
            JobRefusal::RangeReversed => 20,
        }
    }
}

// Where a section's contents begin, and how many they are: ranges of 4 bytes, or the batch's bytes.
#[derive(Clone, Copy)]
pub struct Section {
    pub place: usize,
    pub count: usize,
}

// A job that has no fault. The sections lie in the bytes it was read from.
#[derive(Clone, Copy)]
pub struct Job {
    pub own: u16,
    pub flags: u8,
    pub source_pass: Section,
    pub source_reject: Section,
    pub destination_pass: Section,
    pub destination_reject: Section,
    pub batch: Section,
}

// Own address and flags: `CutShort`, or `UnknownFlags` for flags with bit 6 or 7 set.
fn head_of(bytes: &[u8]) -> Result<(u16, u8), JobRefusal>
    ensures { result ≡ job_head bytes.now }
{
    if bytes.len() < 3 {
        return Err(JobRefusal::CutShort);
    }
    let flags = bytes[2];
    if flags > 63 {
        return Err(JobRefusal::UnknownFlags);
    }
    Ok((octets::word(bytes, 0), flags))
}

// The number of a section: that of its refusal, 0 for one that was taken. Document 01, "Numbers answered".
pub fn taken_number(taken: Result<Section, u8>) -> u8
    ensures { result ≡ taken_number taken }
{
    taken.err().unwrap_or(0)
}

// The number of a job: that of its refusal, 0 for one that has no fault. Its batch is the last section taken. Document 01, "Numbers answered".
pub fn job_number(reading: Result<Job, u8>) -> u8
    ensures { result ≡ job_number reading }
{
    taken_number(reading.map(|job| job.batch))
}

// So many ranges without fault: each is there whole, and none has its low above its high.
fn check_ranges(bytes: &[u8], start: usize, count: usize) -> Result<(), JobRefusal>
    requires { start ≤ length bytes.now }
    ensures { result ≡ ranges_read count bytes.now start }
{
    for i in 0..count {
        let place = start + 4 * i;
        if bytes.len() - place < 4 {
            return Err(JobRefusal::CutShort);
        }
        if octets::word(bytes, place + 2) < octets::word(bytes, place) {
            return Err(JobRefusal::RangeReversed);
        }
    }
    Ok(())
}

// The list section at a place: its count byte, then that many ranges.
// `CutShort` where the count or a range is cut short, `TooManyRanges` for more than 64, `RangeReversed` for a range whose low is above its high; the first of
// these that is met from left to right. A count of 0 is an empty list, and a place past the end is a section cut short.
// Document 01, "The program `relay`", a list section.
pub fn list_at(bytes: &[u8], place: usize) -> Result<Section, JobRefusal>
    ensures { result ≡ list_section bytes.now place }
{
    if bytes.len() <= place {
        return Err(JobRefusal::CutShort);
    }
    let count = octets::byte_value(bytes[place]);
    if count > 64 {
        return Err(JobRefusal::TooManyRanges);
    }
    let place = place + 1;
    check_ranges(bytes, place, count)?;
    Ok(Section { place, count })
}

// The batch section at a place: its length in 2 bytes, then that many bytes.
// `CutShort` where the length is cut short, `BatchTooLong` for a length above 16,384, then `CutShort` where the batch itself is cut short. A place past the end
// is cut short too, and a length of 0 is an empty batch. What follows the batch is not looked at.
// Document 01, "The program `relay`", the batch after its length.
pub fn batch_at(bytes: &[u8], place: usize) -> Result<Section, JobRefusal>
    ensures { result ≡ batch_section bytes.now place }
{
    if bytes.len() < 2 || bytes.len() - 2 < place {
        return Err(JobRefusal::CutShort);
    }
    let count = octets::word_value(octets::word(bytes, place));
    let place = place + 2;
    if count > batch::Cursor::BATCH_LIMIT {
        return Err(JobRefusal::BatchTooLong);
    }
    if bytes.len() - place < count {
        return Err(JobRefusal::CutShort);
    }
    Ok(Section { place, count })
}

fn list_end(section: Section) -> usize
    requires { list_end section < 2 ^ 64 }
    ensures { result ≡ list_end section }
{
    section.place + 4 * section.count
}

// The job's sections, from byte 3 on: what `list_at` gives for each list and `batch_at` for the batch, then `BytesAfter` for bytes after the batch.
fn sections(bytes: &[u8], own: u16, flags: u8) -> Result<Job, JobRefusal>
    ensures { result ≡ sections_of own flags bytes.now }
{
    // Kept: each section is taken from an enum answer by `let .. else`, a form that is named for this place.
    let first = list_at(bytes, 3);
    let Ok(source_pass) = first else {
        return Err(first.unwrap_err());
    };
    let second = list_at(bytes, list_end(source_pass));
    let Ok(source_reject) = second else {
        return Err(second.unwrap_err());
    };
    let third = list_at(bytes, list_end(source_reject));
    let Ok(destination_pass) = third else {
        return Err(third.unwrap_err());
    };
    let fourth = list_at(bytes, list_end(destination_pass));
    let Ok(destination_reject) = fourth else {
        return Err(fourth.unwrap_err());
    };
    let last = batch_at(bytes, list_end(destination_reject));
    let Ok(batch) = last else {
        return Err(last.unwrap_err());
    };
    if batch.place + batch.count < bytes.len() {
        return Err(JobRefusal::BytesAfter);
    }
    Ok(Job {
        own,
        flags,
        source_pass,
        source_reject,
        destination_pass,
        destination_reject,
        batch,
    })
}

// The job in the bytes, or the first fault met from left to right.
// `CutShort` where the bytes end too soon, `UnknownFlags` for flags with bit 6 or 7 set, then what `list_at` gives for each list and `batch_at` for the batch;
// `BytesAfter`, for bytes after the batch, comes last. Document 01, "The program `relay`", the job and the first fault met.
pub fn read(bytes: &[u8]) -> Result<Job, JobRefusal>
    ensures { result ≡ job_of bytes.now }
{
    let (own, flags) = head_of(bytes)?;
    sections(bytes, own, flags)
}

fn is_odd(x: u8) -> bool
    ensures { result ≡ eqb (x % 2) 1 }
{
    x % 2 == 1
}

// The list that the lowest bit of a number chooses: the first where it is set, else none.
fn first_if_odd(x: u8) -> decision::Choice
    ensures { result ≡ first_if (eqb (x % 2) 1) }
{
    if is_odd(x) {
        decision::Choice::First
    } else {
        decision::Choice::Neither
    }
}

// A job has no edition: `relay` uses 1.2. What it prints is the same under 1.1. Document 02, W-209.
const EDITION: u64 = 12;

impl Job {
    // What the job's own address and flags set a node to: edition 1.2, and of each kind that is on the first list. Flags above 63, which no job that was read
    // has, count by their lower six bits. Document 01, "The program `relay`", the flags.
    pub fn settings(self) -> decision::Settings
        ensures { result ≡ settings_of self }
    {
        decision::Settings {
            edition: EDITION,
            own: self.own,
            echo: is_odd(self.flags),
            repeating: is_odd(self.flags / 2),
            source_pass: first_if_odd(self.flags / 4),
            source_reject: first_if_odd(self.flags / 8),
            destination_pass: first_if_odd(self.flags / 16),
            destination_reject: first_if_odd(self.flags / 32),
        }
    }
}

// The section's value at a place: low and high of the first range at 0 and 1, and so on.
fn value_at(bytes: &[u8], section: Section, i: usize) -> u16
    requires { i < value_limit }
    ensures { result ≡ get_or (values_in bytes.now section) i 0 }
{
    if section.count <= i / 2 || bytes.len() <= section.place {
        return 0;
    }
    octets::word(bytes, section.place + 2 * i)
}

// The values of a list section, low, high, low, high and so on, at the start of the array; 0 behind them.
// Bytes past the end count as 0. Of a section of more than 64 ranges, which no job that was read has, the first 64 are shown.
// Document 01, "The program `relay`", a list section.
pub fn values(bytes: &[u8], section: Section) -> [u16; lists::VALUE_LIMIT]
    ensures { result ≡ padded_values (values_in bytes.now section) }
{
    let mut values = [0u16; lists::VALUE_LIMIT];
    for i in 0..lists::VALUE_LIMIT {
        values[i] = value_at(bytes, section, i);
    }
    values
}

// The job's batch, as that part of the bytes. Where the bytes are not those that the job was read from, only what is there.
// Document 01, "The program `relay`", the batch.
pub fn batch(bytes: &[u8], job: Job) -> &[u8]
    ensures { IsPart bytes.entry job.batch.place job.batch.count result }
{
    octets::part(bytes, job.batch.place, job.batch.count)
}
