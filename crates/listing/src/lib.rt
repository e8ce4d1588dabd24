// A listing of the store's bucket (document 02, request 5): names with their folders, a line each. What it says of the
// manifests and objects, up to the first line that is bad.
#![tactic(auto)]

ghost use Rattle.std.specs.Prelude.{◌≡◌, ◌<◌, eqb};
ghost use Rattle.std.specs.List.{position};
ghost use Rattle.store_names.specs.Decimal.{largest};
ghost use Rattle.listing.specs.Lines.{line_end};
ghost use Rattle.listing.specs.Listing.{listing_of};
ghost use Rattle.listing.specs.Turns.{name_behind, with_name, with_bad};

use store_names::Name;

// What ends a line.
const LINE_END: u8 = b'\n';

// What a listing says: the highest manifest and the number of objects of the lines before the first bad one, and which line
// that is, counted from 0.
#[derive(Clone, Copy, PartialEq, Eq)]
pub struct Listing {
    pub manifest: Option<u64>,
    pub objects: u64,
    pub bad: Option<u64>,
}

impl Listing {
    // What lines say with a name more: a manifest is then the highest, since lines rise.
    fn with_name(self, name: Name) -> Listing
        requires { self.objects < largest }
        ensures { result ≡ with_name self name }
    {
        match name {
            Name::Manifest(n) => Listing {
                manifest: Some(n),
                ..self
            },
            Name::Object(_) => Listing {
                objects: self.objects + 1,
                ..self
            },
        }
    }

    // What lines say where the one behind them is bad.
    fn with_bad(self, line: u64) -> Listing
        ensures { result ≡ with_bad self line }
    {
        Listing {
            bad: Some(line),
            ..self
        }
    }
}

// How many bytes the line at the front has; None where no 0A ends it.
fn line_length(bytes: &[u8]) -> Option<usize>
    ensures { result ≡ position (λ b. eqb b line_end) bytes.now }
{
    bytes.iter().position(|b| *b == LINE_END)
}

// The name that a line is, where it stands above the line before in byte order.
#[tactic(auto, using(crate::proofs::Bytes::below_ordered), unfolding(crate::specs::Turns::name_behind))]
fn name_behind(before: &[u8], line: &[u8]) -> Option<Name>
    ensures { result ≡ name_behind before.now line.now }
{
    // `cmp`, and not `<`: it passes what is equal in groups of bytes
    if before.cmp(line).is_lt() {
        store_names::read_name(line)
    } else {
        None
    }
}

// Reads all the bytes lent as a listing. The line before is empty at first: every name is above that.
#[tactic(auto, using(crate::proofs::Telling::turns))]
pub fn read_listing(bytes: &[u8]) -> Listing
    ensures { result ≡ listing_of bytes.now }
{
    let mut said = Listing {
        manifest: None,
        objects: 0,
        bad: None,
    };
    let mut lines: u64 = 0;
    let mut before: &[u8] = b"";
    let mut rest = bytes;
    // stays: a `for` over `split` is no plainer, since what it gives behind the last 0A is no line that is ended
    while let Some(length) = line_length(rest) {
        let line = &rest[..length];
        let Some(name) = name_behind(before, line) else {
            return said.with_bad(lines);
        };
        said = said.with_name(name);
        lines += 1;
        before = line;
        rest = &rest[length + 1..];
    }
    if rest.is_empty() {
        said
    } else {
        said.with_bad(lines)
    }
}
