// The refusal table: its rows by name, and those that several kinds share, on numbers.
ghost use Rattle.std.specs.Prelude.{◌≡◌};
ghost use Rattle.rules.specs.Refusals.{number, row_of};
ghost use Rattle.rules.specs.Table.{slot_row, epoch_row, fence_row};

// Why a step is turned away: the rows of the refusal table, each with its number.
#[derive(Clone, Copy, PartialEq, Eq)]
pub enum Refusal {
    // the ledger isn't sound
    Unsound = 1,
    // no record can say the step
    Malformed = 2,
    // the time is below the clock
    Late = 3,
    // the epoch is 0 or above the role's
    NotAnEpoch = 4,
    // the epoch is below the role's
    Fenced = 5,
    // the slot is at most the current number
    SlotTaken = 6,
    // the slot is above the next one
    SlotAhead = 7,
    // a named object isn't stored
    NotStored = 8,
    // the number is stored
    Stored = 9,
    // the number is at most the highest ever collected
    Collected = 10,
    // every place is taken
    Full = 11,
    // a live hold has this number
    HoldTaken = 12,
    // the manifest isn't active
    NotActive = 13,
    // as many holds are live as there may be
    HoldsFull = 14,
    // the hold isn't live
    NotLive = 15,
    // no object of that currency in that manifest
    NoObject = 16,
    // no object of that currency in the current manifest
    NothingToCompact = 17,
}

impl Refusal {
    // The row's number.
    pub fn number(self) -> u8
        ensures { result ≡ number self }
    {
        self as u8
    }
}

// Rows 6 and 7: the slot is the next one, or it is refused. No sum is made, so none wraps at the last number.
#[tactic(auto, unfolding(crate::specs::Table::first_of))]
pub fn slot_row(slot: u64, current: u64) -> Result<(), Refusal>
    ensures { row_of result ≡ slot_row current slot }
{
    if slot <= current {
        return Err(Refusal::SlotTaken);
    }
    if 1 < slot - current {
        return Err(Refusal::SlotAhead);
    }
    Ok(())
}

// Row 4: the epoch was given to the role.
#[tactic(auto, unfolding(crate::specs::Table::first_of))]
pub fn epoch_row(epoch: u64, current: u64) -> Result<(), Refusal>
    ensures { row_of result ≡ epoch_row current epoch }
{
    if epoch == 0 || current < epoch {
        return Err(Refusal::NotAnEpoch);
    }
    Ok(())
}

// Rows 4 and 5: the epoch is the role's current one.
#[tactic(auto, unfolding(crate::specs::Table::first_of))]
pub fn fence_row(epoch: u64, current: u64) -> Result<(), Refusal>
    ensures { row_of result ≡ fence_row current epoch }
{
    epoch_row(epoch, current)?;
    if epoch < current {
        return Err(Refusal::Fenced);
    }
    Ok(())
}
