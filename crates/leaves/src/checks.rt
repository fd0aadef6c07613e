// Whether a call on a sound state may go on, or which refusal it meets first. Leaves: numbers only.
ghost use Rattle.std.specs.Prelude.{◌≡◌, []};
ghost use Rattle.model.specs.Refusals.{number_of, answer_number, first_of};
ghost use Rattle.leaves.specs.Checks.{step_grounds, line_grounds, advance_grounds, access_grounds, context_grounds, percentile_grounds};

use model::Refusal;

// The table's number of a refusal.
pub fn number_of(why: Refusal) -> u32
    ensures { result ≡ number_of why }
{
    why as u32
}

// Any step: 3.
#[tactic(auto, unfolding(model::specs::Refusals::answer_number, model::specs::Refusals::first_of, model::specs::Board::is_source, model::specs::Board::is_context))]
fn step_check(steps: u32) -> Result<(), Refusal>
    ensures { answer_number result ≡ first_of (step_grounds steps []) }
{
    if steps == u32::MAX {
        return Err(Refusal::NoStepLeft);
    }
    Ok(())
}

// A line change: 3, 6.
#[tactic(auto, unfolding(model::specs::Refusals::answer_number, model::specs::Refusals::first_of, model::specs::Board::is_source, model::specs::Board::is_context))]
pub fn line_check(steps: u32, n: u32, source: u32) -> Result<(), Refusal>
    ensures { answer_number result ≡ first_of (line_grounds steps n source) }
{
    step_check(steps)?;
    if !(1..=n).contains(&source) {
        return Err(Refusal::NoSuchSource);
    }
    Ok(())
}

// A clock advance: 3, 8.
#[tactic(auto, unfolding(model::specs::Refusals::answer_number, model::specs::Refusals::first_of, model::specs::Board::is_source, model::specs::Board::is_context))]
pub fn advance_check(steps: u32, clock: u32, ticks: u32) -> Result<(), Refusal>
    ensures { answer_number result ≡ first_of (advance_grounds steps clock ticks) }
{
    step_check(steps)?;
    if clock.checked_add(ticks).is_none() {
        return Err(Refusal::ClockPast);
    }
    Ok(())
}

// A read or a write: 3, 4, 5.
#[tactic(auto, unfolding(model::specs::Refusals::answer_number, model::specs::Refusals::first_of, model::specs::Board::is_source, model::specs::Board::is_context))]
pub fn access_check(steps: u32, offset: u32) -> Result<(), Refusal>
    ensures { answer_number result ≡ first_of (access_grounds steps offset) }
{
    step_check(steps)?;
    if 0x3FFFFFC < offset {
        return Err(Refusal::OffsetAbove);
    }
    if offset % 4 != 0 {
        return Err(Refusal::OffsetUnaligned);
    }
    Ok(())
}

// A notification: 7.
#[tactic(auto, unfolding(model::specs::Refusals::answer_number, model::specs::Refusals::first_of, model::specs::Board::is_source, model::specs::Board::is_context))]
pub fn context_check(m: u32, context: u32) -> Result<(), Refusal>
    ensures { answer_number result ≡ first_of (context_grounds m context) }
{
    if m <= context {
        return Err(Refusal::NoSuchContext);
    }
    Ok(())
}

// A percentile over a total: 9, 10.
#[tactic(auto, unfolding(model::specs::Refusals::answer_number, model::specs::Refusals::first_of, model::specs::Board::is_source, model::specs::Board::is_context))]
pub fn percentile_check(per_mille: u32, all: u64) -> Result<(), Refusal>
    ensures { answer_number result ≡ first_of (percentile_grounds per_mille all) }
{
    if !(1..=1000).contains(&per_mille) {
        return Err(Refusal::PerMilleOutside);
    }
    if all == 0 {
        return Err(Refusal::NothingToDivide);
    }
    Ok(())
}
