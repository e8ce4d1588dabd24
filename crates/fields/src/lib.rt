// Big-endian numbers and tagged fields in byte slices (document 01, "Records and names"). `pair`, `eight`, `read_words`,
// `put_words` and `put_head` ask for the room that they read or fill; they serve the crates above and are no operation
// of the ledger's.
#![tactic(auto)]

ghost use Rattle.std.specs.Prelude.{◌≡◌, ◌+◌, ◌*◌, ◌≤◌, ◌<◌, ◌∷◌, length, take, drop};
ghost use Rattle.fields.specs.Bytes.{be, value_of, kept64, words, words_of};
ghost use Rattle.fields.specs.Fields.{head_of, over, next_of};

// Why a writer refuses; it writes nothing then.
#[derive(Clone, Copy, PartialEq, Eq)]
pub enum WriteError {
    // no reader takes what was to be written: the paper's number 2
    Malformed,
    // the room is short
    Full,
}

// What stands at the front of a trace.
// stays: three answers of which a run's end and a torn record are two; a Result of an Option is no plainer.
#[derive(Clone, Copy, PartialEq, Eq)]
pub enum Next {
    // nothing is left
    End,
    // some but fewer than 3 bytes, or fewer than the record claims
    Torn,
    // a record, and its length
    Record(usize),
}

// The number of the two bytes from `at` on; of the eight.
pub fn pair(s: &[u8], at: usize) -> u64
    requires { at + 2 ≤ length s.now }
    ensures { (result ≡ value_of (take 2 (drop at s.now))) × (result < 65536) }
{
    u64::from(u16::from_be_bytes([s[at], s[at + 1]]))
}

pub fn eight(s: &[u8], at: usize) -> u64
    requires { at + 8 ≤ length s.now }
    ensures { result ≡ kept64 (value_of (take 8 (drop at s.now))) }
{
    u64::from_be_bytes([
        s[at],
        s[at + 1],
        s[at + 2],
        s[at + 3],
        s[at + 4],
        s[at + 5],
        s[at + 6],
        s[at + 7],
    ])
}

// The number that all the bytes say; of more than eight the last 64 bits. The widths that records have are read at once.
pub fn number(s: &[u8]) -> u64
    ensures { result ≡ kept64 (value_of s.now) }
{
    match s.len() {
        1 => u64::from(s[0]),
        2 => pair(s, 0),
        8 => eight(s, 0),
        _ => {
            let mut n: u64 = 0;
            for b in s {
                n = n % 72057594037927936 * 256 + u64::from(*b);
            }
            n
        }
    }
}

// Fills the slice with the last bytes of n.
pub fn put_number(n: u64, out: &mut [u8])
    ensures { out.new ≡ be (length out.old) n }
{
    if out.len() == 8 {
        out.copy_from_slice(&n.to_be_bytes());
        return;
    }
    let mut rest = n;
    for i in (0..out.len()).rev() {
        out[i] = (rest % 256) as u8;
        rest /= 256;
    }
}

// Fills the slice with the numbers of the list, eight bytes each.
pub fn put_words(list: &[u64], out: &mut [u8])
    requires { 8 * length list.now ≡ length out.old }
    ensures { out.new ≡ words list.now }
{
    for (i, n) in list.iter().enumerate() {
        put_number(*n, &mut out[8 * i..8 * i + 8]);
    }
}

// Fills the list with the numbers that the bytes say, eight each.
pub fn read_words(s: &[u8], list: &mut [u64])
    requires { 8 * length list.old ≤ length s.now }
    ensures { list.new ≡ words_of (length list.old) s.now }
{
    for (i, n) in list.iter_mut().enumerate() {
        *n = eight(s, 8 * i);
    }
}

// How many bytes the value of the field at the front has, which has to have this tag.
pub fn read_head(s: &[u8], tag: u8) -> Option<usize>
    ensures { result ≡ head_of tag s.now }
{
    if s.len() < 3 || s[0] != tag {
        return None;
    }
    let n = pair(s, 1) as usize;
    if s.len() - 3 < n {
        return None;
    }
    Some(n)
}

// Lays a field's tag and length over the first three bytes.
pub fn put_head(tag: u8, n: usize, out: &mut [u8])
    requires { 3 ≤ length out.old }
    ensures { out.new ≡ over (tag ∷ be 2 n) out.old }
{
    out[0] = tag;
    out[1..3].copy_from_slice(&((n % 65536) as u16).to_be_bytes());
}

// What stands at the front of a trace: its end, a torn record, or a record and its length.
pub fn next_record(s: &[u8]) -> Next
    ensures { result ≡ next_of s.now }
{
    if s.is_empty() {
        return Next::End;
    }
    if s.len() < 3 {
        return Next::Torn;
    }
    let claimed = pair(s, 1) as usize;
    if s.len() - 3 < claimed {
        return Next::Torn;
    }
    Next::Record(3 + claimed)
}
