// Store names (document 01, "Records and names"; document 02, request 5): a manifest's name is the folder `manifest/`, 20
// zero-padded decimal digits and `.manifest`, an object's `wal/`, 20 digits and `.sst`. One reader and one writer, each
// undoing the other.
#![tactic(auto)]

ghost use Rattle.std.specs.Prelude.{◌≡◌, ◌++◌, length};
ghost use Rattle.store_names.specs.Decimal.{decimal, digits};
ghost use Rattle.store_names.specs.Names.{name_digits, number_in, decode, put_first, writing};

use fields::WriteError;

// How many digits a name has.
const DIGITS: usize = 20;

// What stands around the digits in the names of one kind: the folder before them, the suffix behind.
#[derive(Clone, Copy)]
struct Frame<'a> {
    folder: &'a [u8],
    suffix: &'a [u8],
}

const MANIFEST: Frame<'static> = Frame {
    folder: b"manifest/",
    suffix: b".manifest",
};

const OBJECT: Frame<'static> = Frame {
    folder: b"wal/",
    suffix: b".sst",
};

// A name as a value: of a manifest or of an object, with its number.
#[derive(Clone, Copy, PartialEq, Eq)]
pub enum Name {
    Manifest(u64),
    Object(u64),
}

// The number that all the bytes say in decimal, where they are digits and it fits.
#[tactic(auto, using(crate::proofs::Digits::reading))]
fn read_digits(s: &[u8]) -> Option<u64>
    ensures { result ≡ decimal s.now }
{
    let mut n: u64 = 0;
    for b in s {
        if !b.is_ascii_digit() {
            return None;
        }
        n = n.checked_mul(10)?.checked_add(u64::from(*b - b'0'))?;
    }
    Some(n)
}

// Fills the slice with the last digits of n, as many as it has bytes.
#[tactic(auto, using(crate::proofs::Digits::putting))]
fn put_digits(n: u64, out: &mut [u8])
    ensures { out.new ≡ digits (length out.old) n }
{
    let mut rest = n;
    // stays: an index, since the proof did not close with `iter_mut().rev()`: nothing is known of the bytes behind it
    for i in (0..out.len()).rev() {
        out[i] = b'0' + (rest % 10) as u8;
        rest /= 10;
    }
}

impl Frame<'_> {
    // The number of a name that has this folder and this suffix.
    #[tactic(auto, unfolding(crate::specs::Names::number_in, crate::specs::Names::number_before))]
    fn read(&self, name: &[u8]) -> Option<u64>
        ensures { result ≡ number_in self.now.folder.now self.now.suffix.now name.now }
    {
        let behind = name.strip_prefix(self.folder)?;
        let (digits, end) = behind.split_at_checked(DIGITS)?;
        if end == self.suffix {
            read_digits(digits)
        } else {
            None
        }
    }

    // Writes the folder, the digits of n and the suffix at the start of `out`, where there is room.
    #[tactic(auto, using(crate::proofs::Bytes::placing))]
    fn write(&self, n: u64, out: &mut [u8]) -> Result<usize, WriteError>
        ensures { put_first (self.now.folder.now ++ digits name_digits n ++ self.now.suffix.now) out.old ≡ record { answer = result; buffer = out.new } }
    {
        let before = self.folder.len() + DIGITS;
        if out.len() < before || out.len() - before < self.suffix.len() {
            return Err(WriteError::Full);
        }
        let size = before + self.suffix.len();
        out[..self.folder.len()].copy_from_slice(self.folder);
        put_digits(n, &mut out[self.folder.len()..before]);
        out[before..size].copy_from_slice(self.suffix);
        Ok(size)
    }
}

// Takes all the bytes lent as one name. None is the paper's number 2.
#[tactic(auto, unfolding(crate::specs::Names::decode))]
pub fn read_name(name: &[u8]) -> Option<Name>
    ensures { result ≡ decode name.now }
{
    if let Some(n) = MANIFEST.read(name) {
        return Some(Name::Manifest(n));
    }
    match OBJECT.read(name)? {
        0 => None,
        n => Some(Name::Object(n)),
    }
}

// Writes a name at the start of `out`, and answers how many bytes it has; the bytes beyond it stay. Where it refuses
// nothing is written.
#[tactic(auto, unfolding(crate::specs::Names::writing))]
pub fn write_name(name: Name, out: &mut [u8]) -> Result<usize, WriteError>
    ensures { writing name out.old ≡ record { answer = result; buffer = out.new } }
{
    match name {
        Name::Manifest(n) => MANIFEST.write(n, out),
        Name::Object(0) => Err(WriteError::Malformed),
        Name::Object(n) => OBJECT.write(n, out),
    }
}
