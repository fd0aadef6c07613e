// A sound state, and the calls on it: what a public call goes on once it has checked its state, and a batch without any further check. An
// accepted step that has nothing to give gives 0 (Calls.values_of): one type for every call.
ghost use Rattle.std.specs.Prelude.{◌≡◌, IfOk, IfErr, Ok, false};
ghost use Rattle.model.specs.declared.Refusal.TheVariants.{NotSound};
ghost use Rattle.model.specs.Refusals.{answered, totals_values};
ghost use Rattle.model.specs.Calls.{line, advance, read, write, notification, totals, values_of, respond};
ghost use Rattle.model.specs.Sound.{sound, Sound};

use crate::access::{read, write};
use crate::requests::set_line;
use leaves::arbiter::is_notified;
use leaves::checks::{access_check, advance_check, context_check, line_check};
use leaves::registers::register_at;
use leaves::totals::{open_total, total};
use model::{Refusal, State, Totals};
use soundness::is_sound;

// A state of which it is known that it is sound: whoever makes one has checked it, or proves it.
#[derive(Clone, Copy)]
pub struct Board {
    pub state: State,
    ghost sound: { Sound state },
}

impl Board {
    // A state as a board, or refusal 2 where it is not sound. It is inlined, since a result of that size is cleared and copied, which
    // costs more than the check (measured).
    #[inline(always)]
    #[tactic(auto, using(model::proofs::Sound::sound_facts))]
    pub fn new(state: State) -> Result<Board, Refusal>
        ensures board { IfOk result (λ b. b.state ≡ state) }
        ensures refused { IfErr result (λ why. (why ≡ NotSound) × (sound state ≡ false)) }
    {
        if is_sound(&state) {
            Ok(Board { state })
        } else {
            Err(Refusal::NotSound)
        }
    }

    // Sets a source's line to a level: 0, or a refusal (3, 6).
    pub fn line(&mut self, source: u32, level: bool) -> Result<u32, Refusal>
        ensures { answered result self.new.state ≡ respond (line source level) self.old.state }
    {
        line_check(self.state.steps, self.state.shape.sources, source)?;
        set_line(&mut self.state, source as usize, level);
        self.state.steps += 1;
        Ok(0)
    }

    // Advances the clock: 0, or a refusal (3, 8).
    pub fn advance(&mut self, ticks: u32) -> Result<u32, Refusal>
        ensures { answered result self.new.state ≡ respond (advance ticks) self.old.state }
    {
        advance_check(self.state.steps, self.state.clock, ticks)?;
        self.state.clock += ticks;
        self.state.steps += 1;
        Ok(0)
    }

    // Reads a register; a read of a claim register claims: the value, or a refusal (3, 4, 5).
    pub fn read(&mut self, offset: u32) -> Result<u32, Refusal>
        ensures { answered result self.new.state ≡ respond (read offset) self.old.state }
    {
        access_check(self.state.steps, offset)?;
        let register = register_at(self.state.shape.sources, self.state.shape.contexts, offset);
        let value = read(&mut self.state, register);
        self.state.steps += 1;
        Ok(value)
    }

    // Writes a register; a write to a claim register completes: 0, or a refusal (3, 4, 5).
    pub fn write(&mut self, offset: u32, value: u32) -> Result<u32, Refusal>
        ensures { answered result self.new.state ≡ respond (write offset value) self.old.state }
    {
        access_check(self.state.steps, offset)?;
        let register = register_at(self.state.shape.sources, self.state.shape.contexts, offset);
        write(&mut self.state, register, value);
        self.state.steps += 1;
        Ok(0)
    }

    // Whether a context is notified: 1 or 0, or a refusal (7).
    pub fn notification(&self, context: u32) -> Result<u32, Refusal>
        ensures { answered result self.now.state ≡ respond (notification context) self.now.state }
    {
        context_check(self.state.shape.contexts, context)?;
        Ok(u32::from(is_notified(&self.state, context as usize)))
    }

    // Clock, claims, ticks waited by claims, and ages still open.
    #[tactic(auto, using(crate::proofs::Bookings::claims_fit), unfolding(model::specs::Refusals::totals_values, model::specs::Calls::values_of, model::specs::Waits::board_claims, model::specs::Waits::board_waited, model::specs::Waits::source_claims, model::specs::Waits::source_waited))]
    pub fn totals(&self) -> Totals
        ensures { totals_values (Ok result) ≡ values_of totals self.now.state }
    {
        Totals {
            clock: self.state.clock,
            claims: total(&self.state.counts.claims) as u32,
            waited: total(&self.state.counts.waited),
            ages: open_total(self.state.clock, &self.state.requests),
        }
    }
}
