// The steps, each behind the door: the ledger is sound, the step well formed and on time.
ghost use Rattle.std.specs.Prelude.{◌≡◌, true, [], ◌∷◌, ℕ, ◌≤◌, length};
ghost use Rattle.rules.specs.declared.Kind.TheVariants.{Fence as FENCE, Put as PUT, Commit as COMMIT, Compact as COMPACT, Hold as HOLD, Renew as RENEW, Release as RELEASE, List as LIST, Look as LOOK, Collect as COLLECT};
ghost use Rattle.rules.specs.declared.Role.{Role as Who};
ghost use Rattle.rules.specs.Request.{Asked, Unreadable};
ghost use Rattle.rules.specs.Limits.{limits};
ghost use Rattle.rules.specs.Refusals.{number, row_of};
ghost use Rattle.rules.specs.Step.{alone};
ghost use Rattle.rules.specs.Table.{◌if◌, row15, first_of};
ghost use Rattle.rules.specs.Words.{read_by};
ghost use Rattle.manifests.specs.Manifests.{lay_manifest};
ghost use Rattle.rules.specs.Typed.{is_padded, names_of, object_list, verdict_of};
ghost use Rattle.ledger.specs.Ledger.{view, is_sound};
ghost use Rattle.ledger.specs.Rows.{row_behind};
ghost use Rattle.ledger.specs.Step.{Admitted, refused_with, answered_with, ruled, judged, step_of, door_of};

use crate::{Ledger, StepAnswer};
use manifests::KeptManifest;
use rules::{Answer, Hold, Kind, NameList, Object, ObjectList, Refusal, Role, Step, Verdict};

// An answer with no list beside it.
fn verdict_alone(answer: Answer) -> Verdict
    ensures { result ≡ verdict_of (alone answer) }
{
    let objects = [0u64; Ledger::PLACES];
    let list = ObjectList { count: 0, objects };
    Verdict { answer, list }
}

// Turned away: the ledger as it was.
fn refused(refusal: Refusal, ledger: Ledger) -> StepAnswer
    ensures { result ≡ refused_with (number refusal) ledger }
{
    let verdict = verdict_alone(Answer::Refused(refusal.number()));
    StepAnswer { verdict, ledger }
}

// Accepted, with no list.
fn accepted(answer: Answer, ledger: Ledger) -> StepAnswer
    ensures { result ≡ answered_with (alone answer) ledger }
{
    let verdict = verdict_alone(answer);
    StepAnswer { verdict, ledger }
}

impl Ledger {
    // Rows 1 to 3, which every kind has first.
    fn door(self, step: Step) -> Result<(), Refusal>
        ensures { row_of result ≡ door_of self step }
    {
        if !self.is_sound() {
            return Err(Refusal::Unsound);
        }
        if !rules::is_well_formed(step) {
            return Err(Refusal::Malformed);
        }
        if step.time < self.clock {
            return Err(Refusal::Late);
        }
        Ok(())
    }

    // FENCE

    fn fence_row(self, slot: u64) -> Result<(), Refusal>
        requires { is_sound self ≡ true }
        ensures { (t : ℕ) (who : Who) → row_of result ≡ row_behind (view self) t (FENCE who slot) [] }
    {
        let current = self.manifests.current();
        rules::slot_row(slot, current.number)
    }

    #[inline(never)]
    fn fence(mut self, time: u64, role: Role, slot: u64) -> StepAnswer
        requires { Admitted self time (FENCE role slot) [] }
        ensures { result ≡ ruled (Asked time (FENCE role slot) []) self }
    {
        if let Err(refusal) = self.fence_row(slot) {
            return refused(refusal, self);
        }
        let current = self.manifests.current();
        match role {
            Role::Writer => {
                let epoch = current.writer + 1;
                self = self.published(time, epoch, current.compactor, current.count, current.names);
                accepted(Answer::Epoch(epoch), self)
            }
            Role::Compactor => {
                let epoch = current.compactor + 1;
                self = self.published(time, current.writer, epoch, current.count, current.names);
                accepted(Answer::Epoch(epoch), self)
            }
        }
    }

    // PUT

    fn put_row(self, role: Role, epoch: u64, object: u64) -> Result<(), Refusal>
        requires { is_sound self ≡ true }
        ensures { (t c : ℕ) → row_of result ≡ row_behind (view self) t (PUT role epoch object c) [] }
    {
        let current = self.manifests.current();
        rules::epoch_row(
            epoch,
            objects::epoch_of(role, current.writer, current.compactor),
        )?;
        if self.objects.is_stored(object) {
            return Err(Refusal::Stored);
        }
        if object <= self.collected {
            return Err(Refusal::Collected);
        }
        if self.objects.is_full() {
            return Err(Refusal::Full);
        }
        Ok(())
    }

    #[inline(never)]
    fn put(mut self, time: u64, role: Role, epoch: u64, object: u64, currency: u16) -> StepAnswer
        requires { Admitted self time (PUT role epoch object currency) [] }
        ensures { result ≡ ruled (Asked time (PUT role epoch object currency) []) self }
    {
        if let Err(refusal) = self.put_row(role, epoch, object) {
            return refused(refusal, self);
        }
        let o = Object {
            number: object,
            role,
            epoch,
            currency,
            named: false,
        };
        self = self.settled(time);
        self.objects = self.objects.put(o);
        accepted(Answer::Done, self)
    }

    // COMMIT

    fn commit_row(self, epoch: u64, slot: u64, list: NameList) -> Result<(), Refusal>
        requires { (is_sound self ≡ true) × (list.count ≤ limits.names) }
        ensures { (t : ℕ) → row_of result ≡ row_behind (view self) t (COMMIT epoch slot) (names_of list) }
    {
        let current = self.manifests.current();
        rules::fence_row(epoch, current.writer)?;
        rules::slot_row(slot, current.number)?;
        if !self.objects.all_stored(&list.names[..list.count]) {
            return Err(Refusal::NotStored);
        }
        Ok(())
    }

    #[inline(never)]
    fn commit(mut self, time: u64, epoch: u64, slot: u64, list: NameList) -> StepAnswer
        requires { (Admitted self time (COMMIT epoch slot) (names_of list)) × (is_padded list.count list.names ≡ true) }
        ensures { result ≡ ruled (Asked time (COMMIT epoch slot) (names_of list)) self }
    {
        if let Err(refusal) = self.commit_row(epoch, slot, list) {
            return refused(refusal, self);
        }
        let current = self.manifests.current();
        self = self.published(
            time,
            current.writer,
            current.compactor,
            list.count,
            list.names,
        );
        accepted(Answer::Done, self)
    }

    // COMPACT

    fn compact_row(self, epoch: u64, slot: u64, object: u64) -> Result<(), Refusal>
        requires { is_sound self ≡ true }
        ensures { (t : ℕ) → row_of result ≡ row_behind (view self) t (COMPACT epoch slot object) [] }
    {
        let current = self.manifests.current();
        rules::fence_row(epoch, current.compactor)?;
        rules::slot_row(slot, current.number)?;
        if !self.objects.is_stored(object) {
            return Err(Refusal::NotStored);
        }
        let currency = self.objects.currency_of(object);
        if self
            .objects
            .highest(currency, &current.names[..current.count])
            == 0
        {
            return Err(Refusal::NothingToCompact);
        }
        Ok(())
    }

    #[inline(never)]
    fn compact(mut self, time: u64, epoch: u64, slot: u64, object: u64) -> StepAnswer
        requires { Admitted self time (COMPACT epoch slot object) [] }
        ensures { result ≡ ruled (Asked time (COMPACT epoch slot object) []) self }
    {
        if let Err(refusal) = self.compact_row(epoch, slot, object) {
            return refused(refusal, self);
        }
        let current = self.manifests.current();
        let list = self.compacted(object);
        self = self.published(
            time,
            current.writer,
            current.compactor,
            list.count,
            list.names,
        );
        accepted(Answer::Done, self)
    }

    // HOLD, RENEW, RELEASE

    fn hold_row(self, time: u64, hold: u64, manifest: u64) -> Result<(), Refusal>
        requires { is_sound self ≡ true }
        ensures { (e : ℕ) → row_of result ≡ row_behind (view self) time (HOLD hold manifest e) [] }
    {
        let live = self.holds.live(time);
        if live.has_number(hold) {
            return Err(Refusal::HoldTaken);
        }
        let current = self.manifests.current();
        if manifest != current.number && !live.names_manifest(manifest) {
            return Err(Refusal::NotActive);
        }
        if Ledger::HOLDS <= live.count {
            return Err(Refusal::HoldsFull);
        }
        Ok(())
    }

    #[inline(never)]
    fn hold(mut self, time: u64, hold: u64, manifest: u64, expiry: u64) -> StepAnswer
        requires { Admitted self time (HOLD hold manifest expiry) [] }
        ensures { result ≡ ruled (Asked time (HOLD hold manifest expiry) []) self }
    {
        if let Err(refusal) = self.hold_row(time, hold, manifest) {
            return refused(refusal, self);
        }
        let new = Hold {
            number: hold,
            manifest,
            expiry,
        };
        let live = self.holds.live(time);
        self = self.holding(time, live.insert(new));
        accepted(Answer::Done, self)
    }

    // Row 15: a hold that is not 0 is live.
    fn live_row(self, time: u64, hold: u64) -> Result<(), Refusal>
        requires { is_sound self ≡ true }
        ensures { row_of result ≡ first_of ((15 if row15 (view self) time hold) ∷ []) }
    {
        if hold == 0 || self.holds.live(time).has_number(hold) {
            return Ok(());
        }
        Err(Refusal::NotLive)
    }

    #[inline(never)]
    fn renew(mut self, time: u64, hold: u64, expiry: u64) -> StepAnswer
        requires { Admitted self time (RENEW hold expiry) [] }
        ensures { result ≡ ruled (Asked time (RENEW hold expiry) []) self }
    {
        if let Err(refusal) = self.live_row(time, hold) {
            return refused(refusal, self);
        }
        let live = self.holds.live(time);
        self = self.holding(time, live.renew(hold, expiry));
        accepted(Answer::Done, self)
    }

    #[inline(never)]
    fn release(mut self, time: u64, hold: u64) -> StepAnswer
        requires { Admitted self time (RELEASE hold) [] }
        ensures { result ≡ ruled (Asked time (RELEASE hold) []) self }
    {
        if let Err(refusal) = self.live_row(time, hold) {
            return refused(refusal, self);
        }
        let live = self.holds.live(time);
        self = self.holding(time, live.release(hold));
        accepted(Answer::Done, self)
    }

    // LIST and LOOK

    // The manifest that is read at that time: hold 0 means the current one.
    fn read_by(self, time: u64, hold: u64) -> KeptManifest
        requires { is_sound self ≡ true }
        ensures { result ≡ lay_manifest (read_by time (view self) hold) }
    {
        if hold == 0 {
            return self.manifests.current();
        }
        let live = self.holds.live(time);
        self.manifests.numbered(live.manifest_by(hold))
    }

    #[inline(never)]
    fn list(mut self, time: u64, hold: u64) -> StepAnswer
        requires { Admitted self time (LIST hold) [] }
        ensures { result ≡ ruled (Asked time (LIST hold) []) self }
    {
        if let Err(refusal) = self.live_row(time, hold) {
            return refused(refusal, self);
        }
        let m = self.read_by(time, hold);
        let names = &m.names[..m.count];
        let list = object_list(names);
        let verdict = Verdict {
            answer: Answer::Listed(m.number),
            list,
        };
        self = self.settled(time);
        StepAnswer {
            verdict,
            ledger: self,
        }
    }

    #[inline(never)]
    fn look(mut self, time: u64, currency: u16, hold: u64) -> StepAnswer
        requires { Admitted self time (LOOK currency hold) [] }
        ensures { result ≡ ruled (Asked time (LOOK currency hold) []) self }
    {
        if let Err(refusal) = self.live_row(time, hold) {
            return refused(refusal, self);
        }
        let m = self.read_by(time, hold);
        let names = &m.names[..m.count];
        let found = self.objects.highest(currency, names);
        if found == 0 {
            return refused(Refusal::NoObject, self);
        }
        self = self.settled(time);
        accepted(Answer::Found(found), self)
    }
}

// Object numbers in their places.
fn object_list(names: &[u64]) -> ObjectList
    requires { length names.now ≤ limits.places }
    ensures { result ≡ object_list names.now }
{
    let mut objects = [0u64; Ledger::PLACES];
    objects[..names.len()].copy_from_slice(names);
    ObjectList {
        count: names.len(),
        objects,
    }
}

// The step whole

impl Ledger {
    // A step of which rows 1 to 3 do not apply.
    // stays: a match on the ten kinds, each with fields of its own: a table of functions would be no plainer.
    fn admitted(self, step: Step) -> StepAnswer
        requires { (Admitted self step.time step.kind (names_of step.list)) × (is_padded step.list.count step.list.names ≡ true) }
        ensures { result ≡ ruled (Asked step.time step.kind (names_of step.list)) self }
    {
        let time = step.time;
        match step.kind {
            Kind::Fence { role, slot } => self.fence(time, role, slot),
            Kind::Put {
                role,
                epoch,
                object,
                currency,
            } => self.put(time, role, epoch, object, currency),
            Kind::Commit { epoch, slot } => self.commit(time, epoch, slot, step.list),
            Kind::Compact {
                epoch,
                slot,
                object,
            } => self.compact(time, epoch, slot, object),
            Kind::Hold {
                hold,
                manifest,
                expiry,
            } => self.hold(time, hold, manifest, expiry),
            Kind::Renew { hold, expiry } => self.renew(time, hold, expiry),
            Kind::Release { hold } => self.release(time, hold),
            Kind::List { hold } => self.list(time, hold),
            Kind::Look { currency, hold } => self.look(time, currency, hold),
            Kind::Collect => self.collect(time),
        }
    }

    // The verdict and the next ledger of any step on any ledger value.
    #[inline(never)]
    pub fn step(self, step: Step) -> StepAnswer
        ensures { result ≡ step_of self step }
    {
        if let Err(refusal) = self.door(step) {
            return refused(refusal, self);
        }
        self.admitted(step)
    }

    // The verdict on bytes that are no step: row 1, else row 2.
    pub fn refuse_unreadable(self) -> StepAnswer
        ensures { result ≡ judged self Unreadable }
    {
        if !self.is_sound() {
            return refused(Refusal::Unsound, self);
        }
        refused(Refusal::Malformed, self)
    }
}
