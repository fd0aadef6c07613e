// The register map: an aligned offset decoded into a register. A leaf: numbers only.
ghost use Rattle.std.specs.Prelude.{◌≡◌, ℕ, ◌≤◌};
ghost use Rattle.limits.specs.Limits.{context_room};
ghost use Rattle.model.specs.Registers.{decode, priority_at, pending_at, enable_at, page_at};
ghost use Rattle.leaves.specs.Leaves.{Within};

use model::Register;

#[tactic(auto, unfolding(model::specs::Registers::priority_at, model::specs::Board::is_source))]
fn priority_at(n: u32, s: u32) -> Register
    ensures { result ≡ priority_at n s }
{
    if (1..=n).contains(&s) {
        Register::Priority(s as usize)
    } else {
        Register::Nothing
    }
}

#[tactic(auto, unfolding(model::specs::Registers::pending_at, model::specs::Board::is_word))]
fn pending_at(n: u32, w: u32) -> Register
    ensures { result ≡ pending_at n w }
{
    if w <= n / 32 {
        Register::Pending(w as usize)
    } else {
        Register::Nothing
    }
}

#[tactic(auto, unfolding(model::specs::Registers::enable_at, model::specs::Board::is_context, model::specs::Board::is_word))]
fn enable_at(n: u32, m: u32, c: u32, w: u32) -> Register
    ensures { result ≡ enable_at n m c w }
{
    if c < m && w <= n / 32 {
        Register::Enable(c as usize, w as usize)
    } else {
        Register::Nothing
    }
}

#[tactic(auto, unfolding(model::specs::Registers::page_at, model::specs::Board::is_context))]
fn page_at(m: u32, c: u32, place: u32) -> Register
    ensures { result ≡ page_at m c place }
{
    if c < m && place == 0 {
        return Register::Threshold(c as usize);
    }
    if c < m && place == 4 {
        return Register::Claim(c as usize);
    }
    Register::Nothing
}

// The register at an offset, for n sources and m contexts. Ranges of an offset, as Registers.decode.
#[tactic(auto, using(crate::proofs::Bounds::bounded), unfolding(model::specs::Registers::decode))]
pub fn register_at(n: u32, m: u32, offset: u32) -> Register
    requires { m ≤ context_room }
    ensures decoded { result ≡ decode n m offset }
    ensures within { Within n result }
{
    if offset < 0x1000 {
        return priority_at(n, offset / 4);
    }
    if offset < 0x2000 {
        return pending_at(n, (offset - 0x1000) / 4);
    }
    if offset < 0x200000 {
        return enable_at(n, m, (offset - 0x2000) / 0x80, (offset - 0x2000) % 0x80 / 4);
    }
    page_at(
        m,
        (offset - 0x200000) / 0x1000,
        (offset - 0x200000) % 0x1000,
    )
}
