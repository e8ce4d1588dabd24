// Verdict records (document 01, "A verdict is tag 40 .."): read and written, each undoing the other.
#![tactic(auto)]

ghost use Rattle.std.specs.Prelude.{◌≡◌, ◌||◌, ◌+◌, ◌*◌, ◌≤◌, eqb, length};
ghost use Rattle.records.specs.Found.{fields_in, found_by};
ghost use Rattle.verdicts.specs.Verdicts.{verdict_fields, rising_list, verdict_formed, shape_of, code_alone, answer_from, is_alone, reply_of_walk, decode_verdict, verdict_read, verdict_writing};

use records::{
    CODE, EPOCH, FIELDS, Fields, LIST, MANIFEST, OBJECT, Walk, WriteError, fields_of, is_whole,
    walk_fields, write_record,
};
use rules::{Answer, NAMES, ObjectList, PLACES, Verdict};

// The bytes of the longest verdict, every place collected: a tag and a length for the record and for each of its two fields,
// one for the code, eight for an object's number.
pub const LONGEST_VERDICT: usize = 3 * 3 + 1 + 8 * PLACES;

const VERDICT_TAG: u8 = 0x40;

// The highest number of the refusal table.
const LAST_ROW: u8 = 17;

#[tactic(auto, unfolding(rules::specs::Lists::all))]
fn verdict_fields(answer: Answer) -> Fields
    ensures { fields_in result ≡ verdict_fields answer }
{
    let accepted = CODE.of(0);
    match answer {
        Answer::Refused(n) => fields_of([CODE.of(u64::from(n))]),
        Answer::Done => fields_of([accepted]),
        Answer::Epoch(e) => fields_of([accepted, EPOCH.of(e)]),
        Answer::Listed(m) => fields_of([accepted, LIST.of(0), MANIFEST.of(m)]),
        Answer::Found(n) => fields_of([accepted, OBJECT.of(n)]),
        Answer::Collected => fields_of([accepted, LIST.of(0)]),
    }
}

// Whether the numbers rise strictly from above 0, and are not too many.
#[tactic(auto, unfolding(rules::specs::Lists::conj))]
fn is_rising_list(most: usize, numbers: &[u64]) -> bool
    ensures { result ≡ rising_list most numbers.now }
{
    rules::is_rising(numbers) && numbers.len() <= most
}

// Whether an answer with this list beside it is well formed.
#[tactic(auto, using(rules::proofs::Typed::length_none), unfolding(crate::specs::Verdicts::verdict_formed, rules::specs::Lists::conj))]
fn is_formed(answer: Answer, numbers: &[u64]) -> bool
    ensures { result ≡ verdict_formed answer numbers.now }
{
    match answer {
        Answer::Refused(n) => numbers.is_empty() && n != 0 && n <= LAST_ROW,
        Answer::Done => numbers.is_empty(),
        Answer::Epoch(n) | Answer::Found(n) => numbers.is_empty() && n != 0,
        Answer::Listed(_) => is_rising_list(NAMES, numbers),
        Answer::Collected => is_rising_list(PLACES, numbers),
    }
}

// Reading

// Which answer the bytes can be, with its numbers 0: by their length and the tag behind the code.
#[tactic(auto, unfolding(crate::specs::Verdicts::shape_of))]
fn shape_of(bytes: &[u8]) -> Answer
    ensures { result ≡ shape_of bytes.now }
{
    if bytes.len() <= 7 {
        return Answer::Done;
    }
    match bytes[7] {
        0x03 => Answer::Epoch(0),
        0x05 => Answer::Found(0),
        _ if is_whole(&bytes[7..]) => Answer::Collected,
        _ => Answer::Listed(0),
    }
}

fn code_alone(n: u64) -> Answer
    ensures { result ≡ code_alone n }
{
    if n == 0 {
        Answer::Done
    } else {
        Answer::Refused((n % 256) as u8)
    }
}

// The answer of that shape with the numbers of its fields, the code's first.
fn answer_from(shape: Answer, v: [u64; FIELDS]) -> Answer
    ensures { result ≡ answer_from shape v }
{
    match shape {
        Answer::Refused(_) | Answer::Done => code_alone(v[0]),
        Answer::Epoch(_) => Answer::Epoch(v[1]),
        Answer::Listed(_) => Answer::Listed(v[2]),
        Answer::Found(_) => Answer::Found(v[1]),
        Answer::Collected => Answer::Collected,
    }
}

// Of a shape other than the code's alone the code must be 0.
fn code_fits(shape: Answer, n: u64) -> bool
    ensures { result ≡ (is_alone shape || eqb n 0) }
{
    matches!(shape, Answer::Refused(_) | Answer::Done) || n == 0
}

// The verdict of a walk over a record's value.
fn verdict_of(shape: Answer, value: &[u8], w: Walk) -> Option<Verdict>
    requires { w.list.at + 8 * w.list.count ≤ length value.now }
    ensures { result ≡ verdict_read (reply_of_walk shape (found_by (Some w) value.now)) }
{
    let count = w.list.count;
    if PLACES < count || !code_fits(shape, w.numbers[0]) {
        return None;
    }
    let answer = answer_from(shape, w.numbers);
    let mut objects = [0; PLACES];
    fields::read_words(&value[w.list.at..], &mut objects[..count]);
    let list = ObjectList { count, objects };
    is_formed(answer, &objects[..count]).then_some(Verdict { answer, list })
}

// Takes all the bytes lent as one record. None is the paper's number 2.
pub fn read_verdict(bytes: &[u8]) -> Option<Verdict>
    ensures { result ≡ verdict_read (decode_verdict bytes.now) }
{
    if !is_whole(bytes) || bytes[0] != VERDICT_TAG {
        return None;
    }
    let shape = shape_of(bytes);
    let value = &bytes[3..];
    let w = walk_fields(value, verdict_fields(shape))?;
    verdict_of(shape, value, w)
}

// Writes a verdict's record at the start of `out`; the bytes beyond it stay. Where it refuses nothing is written.
pub fn write_verdict(verdict: Verdict, out: &mut [u8]) -> Result<usize, WriteError>
    ensures { verdict_writing verdict out.old ≡ record { answer = result; buffer = out.new } }
{
    if !rules::is_padded(verdict.list.count, &verdict.list.objects) {
        return Err(WriteError::Malformed);
    }
    let objects = &verdict.list.objects[..verdict.list.count];
    if !is_formed(verdict.answer, objects) {
        return Err(WriteError::Malformed);
    }
    write_record(VERDICT_TAG, verdict_fields(verdict.answer), objects, out)
}
