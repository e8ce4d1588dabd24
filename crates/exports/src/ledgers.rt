// The fresh ledger, and one step on any ledger value, for C: the ledger is as many numbers as LEDGER, the step and the verdict as in the record calls.
ghost use Rattle.std.specs.Prelude.{◌≡◌, ◌≤◌, length};
ghost use Rattle.rules.specs.Limits.{limits};
ghost use Rattle.ledger.specs.Step.{judged};
ghost use Rattle.exports.specs.Codec.{step_size, kind_of};
ghost use Rattle.exports.specs.Ledgers.{fresh, soundness, current, version, request_of, step};

use crate::{DONE, NO_PLACE, NOT_SOUND, STEP, VERDICT, codec};
use ledger::{Ledger, StepAnswer};
use ledger_numbers::LEDGER;
use rules::{NAMES, PLACES};

// The current manifest's number, the writer's epoch, the compactor's.
const CURRENT: usize = 3;

// The version of the calls: 1,000,000 for the base, 1,000 for each request that has landed, one for each change after it.
const VERSION: u64 = 1007000;

// The fresh ledger, as numbers.
#[tactic(auto, unfolding(crate::specs::Ledgers::fresh))]
pub fn cuudhaqil_fresh(numbers: &mut [u64]) -> u64
    ensures { fresh numbers.old ≡ record { answer = result; left = numbers.new } }
{
    if numbers.len() < LEDGER {
        return NO_PLACE;
    }
    ledger_numbers::put_ledger(Ledger::fresh(), &mut numbers[..LEDGER]);
    DONE
}

// Whether the ledger is sound: 0, or row 1's number.
#[tactic(auto, unfolding(crate::specs::Ledgers::soundness))]
pub fn cuudhaqil_is_sound(ledger: &[u64]) -> u64
    ensures { result ≡ soundness ledger.now }
{
    if ledger.len() < LEDGER {
        return NO_PLACE;
    }
    if ledger_numbers::ledger_from(ledger).is_sound() {
        DONE
    } else {
        NOT_SOUND
    }
}

// The current manifest's number and both epochs, of a sound ledger.
#[tactic(auto, unfolding(crate::specs::Ledgers::current))]
pub fn cuudhaqil_current(ledger: &[u64], numbers: &mut [u64]) -> u64
    ensures { current ledger.now numbers.old ≡ record { answer = result; left = numbers.new } }
{
    if ledger.len() < LEDGER || numbers.len() < CURRENT {
        return NO_PLACE;
    }
    let said = ledger_numbers::ledger_from(ledger);
    if !said.is_sound() {
        return NOT_SOUND;
    }
    let current = said.manifests.current();
    let from = [current.number, current.writer, current.compactor];
    ledger_numbers::fill(&from, numbers);
    DONE
}

// The version of the calls.
pub fn cuudhaqil_version() -> u64
    ensures { result ≡ version }
{
    VERSION
}

// The verdict and the next ledger of the step that the numbers say. Numbers that say no kind are refused as bytes that are no
// step.
fn judge(old: Ledger, numbers: &[u64], list: &[u64]) -> StepAnswer
    requires { (step_size ≤ length numbers.now) × (limits.names ≤ length list.now) }
    ensures { result ≡ judged old (request_of (kind_of numbers.now) numbers.now list.now) }
{
    match codec::step_from(numbers, list) {
        Some(step) => old.step(step),
        None => old.refuse_unreadable(),
    }
}

// One step on any ledger: the next ledger in its place, the verdict's numbers and its list.
#[tactic(auto, unfolding(crate::specs::Ledgers::step))]
pub fn cuudhaqil_step(
    ledger: &mut [u64],
    numbers: &[u64],
    list: &[u64],
    verdict: &mut [u64],
    objects: &mut [u64],
) -> u64
    ensures { step ledger.old numbers.now list.now verdict.old objects.old ≡ record { answer = result; ledger = ledger.new; verdict = verdict.new; objects = objects.new } }
{
    if ledger.len() < LEDGER
        || numbers.len() < STEP
        || list.len() < NAMES
        || verdict.len() < VERDICT
        || objects.len() < PLACES
    {
        return NO_PLACE;
    }
    let old = ledger_numbers::ledger_from(ledger);
    let next = judge(old, numbers, list);
    ledger_numbers::lay_back(next.ledger, ledger);
    codec::put_verdict(next.verdict, verdict, objects);
    DONE
}
