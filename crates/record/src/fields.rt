// A record's header, and its rows of numbers.
ghost use Rattle.std.specs.Prelude.{◌≡◌, ℕ, ◌+◌, ◌*◌, ◌^◌, ◌≤◌, ◌<◌, length, get_or};
ghost use Rattle.record.specs.Little.{shorts, floats};
ghost use Rattle.record.specs.Record.{within, end_at, well_formed, sizes_of, header_of};

use crate::{RecordSizes, little};

// What a record of the reading program may hold at most.
pub const MOST_ROWS: usize = 16;

pub const MOST_COLUMNS: usize = 32;

pub const MOST_ENTRIES: usize = 128;

pub const LANES: usize = 4;

pub const TOLERANCES: usize = 12;

// Where the fields of the header stand, and where it ends.
const KIND_AT: usize = 4;

const M_AT: usize = 6;

const N_AT: usize = 8;

const S_AT: usize = 10;

const LIMIT_AT: usize = 12;

const T_AT: usize = 14;

pub const OFFSETS_AT: usize = 16;

const LENGTH_BYTES: usize = 4;

pub const SHORT_BYTES: usize = 2;

const FLOAT_BYTES: usize = 8;

// A number: so the kind stands in a record.
const KIND: usize = 1;

// Whether a record of these sizes is within the limits.
fn is_within(sizes: RecordSizes) -> bool
    ensures { result ≡ within sizes.m sizes.n sizes.t }
{
    sizes.m <= MOST_ROWS && sizes.n <= MOST_COLUMNS && sizes.t <= MOST_ENTRIES
}

// The bytes of a record with these sizes.
fn record_bytes(sizes: RecordSizes) -> usize
    requires { (sizes.m < 65536) × (sizes.n < 65536) × (sizes.t < 65536) }
    ensures { result ≡ end_at sizes.m sizes.n sizes.t }
{
    let shorts = sizes.m + 1 + sizes.t;
    let floats = sizes.t + TOLERANCES + LANES * sizes.m + LANES * sizes.n;
    OFFSETS_AT + SHORT_BYTES * shorts + FLOAT_BYTES * floats
}

// The five sizes that a record starts with.
fn read_sizes(bytes: &[u8]) -> RecordSizes
    requires { 16 ≤ length bytes.now }
    ensures is { result ≡ sizes_of bytes.now }
    ensures short { (result.m < 65536) × (result.n < 65536) × (result.t < 65536) }
{
    RecordSizes {
        m: little::le16(bytes, M_AT),
        n: little::le16(bytes, N_AT),
        s: little::le16(bytes, S_AT),
        limit: little::le16(bytes, LIMIT_AT),
        t: little::le16(bytes, T_AT),
    }
}

// Whether the bytes of a record match the sizes that it starts with.
fn is_well_formed(bytes: &[u8], sizes: RecordSizes) -> bool
    requires long { 16 ≤ length bytes.now }
    requires short { (sizes.m < 65536) × (sizes.n < 65536) × (sizes.t < 65536) }
    requires is { sizes ≡ sizes_of bytes.now }
    ensures { result ≡ well_formed bytes.now }
{
    bytes.len() == LENGTH_BYTES + little::le32(bytes, 0)
        && little::le16(bytes, KIND_AT) == KIND
        && is_within(sizes)
        && bytes.len() == record_bytes(sizes)
}

// The sizes of a record whose bytes match.
#[tactic(auto, unfolding(crate::specs::Record::well_formed))]
pub fn read_header(bytes: &[u8]) -> Option<RecordSizes>
    ensures { result ≡ header_of bytes.now }
{
    if bytes.len() < OFFSETS_AT {
        return None;
    }
    let sizes = read_sizes(bytes);
    is_well_formed(bytes, sizes).then_some(sizes)
}

// Fills a list with the numbers that stand one after the other from a place on.
fn read_row<T: Copy, F: Fn(usize) -> T>(out: &mut [T], at: usize, width: usize, read: F)
    requires fits { at + width * length out.old < 2 ^ 64 }
    requires can { (k : ℕ) → k < length out.old → F.pre read (at + width * k) }
    ensures { (k : ℕ) (none : T) → k < length out.old → F.post read (at + width * k) (get_or out.new k none) }
{
    for (k, x) in out.iter_mut().enumerate() {
        *x = read(at + width * k);
    }
}

// Fills a list with numbers of two bytes.
pub fn read_shorts(bytes: &[u8], at: usize, out: &mut [u32])
    requires { at + 2 * length out.old ≤ length bytes.now }
    ensures { out.new ≡ shorts bytes.now at (length out.old) }
{
    read_row(
        out,
        at,
        SHORT_BYTES,
        |place| little::le16(bytes, place) as u32,
    );
}

// Fills a list with floats.
pub fn read_floats(bytes: &[u8], at: usize, out: &mut [f64])
    requires { at + 8 * length out.old ≤ length bytes.now }
    ensures { out.new ≡ floats bytes.now at (length out.old) }
{
    read_row(out, at, FLOAT_BYTES, |place| little::float_at(bytes, place));
}
