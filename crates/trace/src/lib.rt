// Trace lines of trace.db: validated in one pass, searched by halving.
#![tactic(auto)]

ghost use Rattle.std.specs.Prelude.{[], ◌∷◌, ◌≡◌, ◌+◌, ◌-◌, ◌*◌, ◌≤◌, ◌<◌, length, get_or, Ok};
ghost use Rattle.open.specs.Format.{infos_array};
ghost use Rattle.array.specs.Element.{Bounded};
ghost use Rattle.array.specs.Stored.{array_of};
ghost use Rattle.seq.specs.Sequence.{rises, last_up_to};
ghost use Rattle.trace.specs.Trace.{time_at, line_rule, line_of, line_in, line_at, sample_of, sample_in, sample_at, last_in, last_at};
ghost use Rattle.trace.specs.Sound.{SamplesInside, SoundSamples};

use open::INFOS;
use refusal::Refusal;

// A timestamp is at least this much above the one before it: it may repeat.
const GAP: u64 = 0;

// A line: its profile, the place of its first sample, and how many there are.
#[derive(Clone, Copy, Debug, PartialEq, Eq)]
pub struct Line {
    pub profile: u64,
    pub place: u64,
    pub samples: u64,
}

// A sample: its position in the line, its timestamp and its context.
#[derive(Clone, Copy, Debug, PartialEq, Eq)]
pub struct Sample {
    pub position: u64,
    pub time: u64,
    pub context: u64,
}

// Sample k of n at a place: its timestamp, and all of it.
fn time_at(file: &[u8], place: u64, n: u64, k: u64) -> u64
    requires samples_inside { SamplesInside file.now place n }
    requires k_lt_n { k < n }
    ensures { result ≡ time_at file.now place k }
{
    le::load_u64(file, (place + k * 12) as usize)
}

fn sample_of(file: &[u8], place: u64, n: u64, k: u64) -> Sample
    requires samples_inside { SamplesInside file.now place n }
    requires k_lt_n { k < n }
    ensures { Ok result ≡ sample_of file.now place k }
{
    let time = time_at(file, place, n, k);
    let context = le::load_u32(file, (place + k * 12 + 8) as usize) as u64;
    Sample {
        position: k,
        time,
        context,
    }
}

// 7, in a file with one section.
fn line_rule(file: &[u8], section: [u64; 2], start: u64, end: u64) -> bool
    ensures { result ≡ line_rule file.now (section ∷ []) start end }
{
    if end < start {
        return false;
    }
    let bytes = end - start;
    let aligned = range::multiple(start, 8) & range::multiple(end, 4);
    aligned
        & (range::multiple(bytes, 12) & outside::lies(file, 32, section, [0; 2], start, bytes, 1))
}

// 11, of n samples.
fn times_rise(file: &[u8], place: u64, n: u64, gap: u64) -> bool
    requires { SamplesInside file.now place n }
    ensures { result ≡ rises 0 gap (time_at file.now place) n }
{
    let time = |k|
        requires samples_inside { SamplesInside file.now place n }
        requires k_lt_n { k < n }
        ensures { result ≡ time_at file.entry.now place k }
    { time_at(file, place, n, k) };
    seq::rises(time, n, 0, gap)
}

// 7, then 11.
fn line_of(
    file: &[u8],
    section: [u64; 2],
    profile: u64,
    start: u64,
    end: u64,
) -> Result<Line, Refusal>
    ensures { result ≡ line_of file.now (section ∷ []) profile start end }
{
    if !line_rule(file, section, start, end) {
        return Err(Refusal::Array);
    }
    let samples = (end - start) / 12;
    if !times_rise(file, start, samples, GAP) {
        return Err(Refusal::Order);
    }
    Ok(Line {
        profile,
        place: start,
        samples,
    })
}

fn line_in(file: &[u8], section: [u64; 2], i: u64) -> Result<Line, Refusal>
    requires bounded { Bounded (array_of file.now (get_or section 0 0) infos_array) }
    requires section_in_bounds { get_or section 0 0 + 13 ≤ length file.now }
    ensures { result ≡ line_in file.now (section ∷ []) i }
{
    let headers = array::of_infos(file, section[0]);
    let at = array::nth(headers, i)?;
    let profile = le::u32_at(file, at, 0) as u64;
    let start = le::u64_at(file, at, 8);
    let end = le::u64_at(file, at, 16);
    line_of(file, section, profile, start, end)
}

// A line by position: 15, then 7, then 11.
pub fn line_at(file: &[u8], i: u64) -> Result<Line, Refusal>
    ensures { result ≡ line_at file.now i }
{
    let sections = open::open_trace(file)?;
    line_in(file, sections[INFOS], i)
}

fn sample_in(file: &[u8], place: u64, samples: u64, k: u64) -> Result<Sample, Refusal>
    requires { SamplesInside file.now place samples }
    ensures { result ≡ sample_in file.now place samples k }
{
    if samples <= k {
        return Err(Refusal::Index);
    }
    Ok(sample_of(file, place, samples, k))
}

// Sample k of a line: 15 after the line's own rules.
pub fn sample_at(file: &[u8], i: u64, k: u64) -> Result<Sample, Refusal>
    ensures { result ≡ sample_at file.now i k }
{
    let line = line_at(file, i)?;
    sample_in(file, line.place, line.samples, k)
}

// Where the last of n samples is that is not later than a time, by halving.
fn last_until(file: &[u8], place: u64, n: u64, time: u64) -> Option<u64>
    requires { SoundSamples file.now place n }
    ensures { result ≡ last_up_to (time_at file.now place) time n }
{
    let mut low = 0;
    let mut high = n;
    while low < high {
        let middle = low + (high - low) / 2;
        if time_at(file, place, n, middle) <= time {
            low = middle + 1;
        } else {
            high = middle;
        }
    }
    if low == 0 { None } else { Some(low - 1) }
}

fn last_in(file: &[u8], place: u64, samples: u64, time: u64) -> Option<Sample>
    requires { SoundSamples file.now place samples }
    ensures { Ok result ≡ last_in file.now place samples time }
{
    let k = last_until(file, place, samples, time)?;
    Some(sample_of(file, place, samples, k))
}

// The last sample of a line that is not later than a time.
pub fn last_at(file: &[u8], i: u64, time: u64) -> Result<Option<Sample>, Refusal>
    ensures { result ≡ last_at file.now i time }
{
    let line = line_at(file, i)?;
    Ok(last_in(file, line.place, line.samples, time))
}
