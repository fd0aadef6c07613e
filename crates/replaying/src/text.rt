// The text of a line of output, put into lent bytes from a place on. Leaves: bytes and numbers only. No `write!`: every byte of what is
// lent is promised (Text.put). The output and a place go on side by side: they are what `put_said` and `put_totals` are given.
ghost use Rattle.std.specs.Prelude.{◌≡◌, ℕ, ◌+◌, ◌≤◌, ◌<◌, length, [], ◌∷◌, ◌++◌};
ghost use Rattle.replaying.specs.Replay.{digits, totals_line};
ghost use Rattle.replaying.specs.Text.{Written, said_bytes, put};

use crate::Said;
use itoa::write_digits;

// Bytes as they are. Returns the place after them. Inlined, with `put_number`: so the bytes of a word of known length are moved at once.
#[inline(always)]
fn put_text(text: &[u8], output: &mut [u8], at: usize) -> usize
    requires { at + length text.now ≤ length output.old }
    ensures { Written output.old output.new at result text.now }
{
    let end = at + text.len();
    output[at..end].copy_from_slice(text);
    end
}

// How many digits a number has. Of 0 `ilog10` knows none.
#[tactic(auto, using(crate::proofs::Print::width_one, crate::proofs::Print::width_more))]
fn width(v: u64) -> usize
    ensures { result ≡ length (digits v) }
{
    if v < 10 { 1 } else { v.ilog10() as usize + 1 }
}

// A number in decimal, of any number of digits. Returns the place after it.
fn put_all_digits(v: u64, output: &mut [u8], at: usize) -> usize
    requires { at + length (digits v) ≤ length output.old }
    ensures { Written output.old output.new at result (digits v) }
{
    let end = at + width(v);
    write_digits(v, output, end);
    end
}

// A number in decimal. Returns the place after it. One digit, which is common, is put here: a call and `write_digits` take half as many
// instructions more for it.
#[inline(always)]
fn put_digits(v: u64, output: &mut [u8], at: usize) -> usize
    requires { at + length (digits v) ≤ length output.old }
    ensures { Written output.old output.new at result (digits v) }
{
    if v < 10 {
        output[at] = b'0' + v as u8;
        return at + 1;
    }
    put_all_digits(v, output, at)
}

// A word and a number after it. Returns the place after them.
#[inline(always)]
fn put_number(word: &[u8], v: u64, output: &mut [u8], at: usize) -> usize
    requires { at + length (word.now ++ digits v) ≤ length output.old }
    ensures { Written output.old output.new at result (word.now ++ digits v) }
{
    let from = put_text(word, output, at);
    put_digits(v, output, from)
}

// A line of a word and a number. Returns the place after it.
fn put_line(word: &[u8], v: u64, output: &mut [u8], at: usize) -> usize
    requires { at + length (word.now ++ digits v) < length output.old }
    ensures { Written output.old output.new at result (word.now ++ digits v ++ (10 ∷ [])) }
{
    let end = put_number(word, v, output, at);
    output[end] = b'\n';
    end + 1
}

// Puts what a line prints at a place of the output and returns the place after it; where fewer than 20 bytes are free there, it
// leaves the output and returns the place, as Text.put. A `match` over closed cases. Inlined, since a call takes as many instructions as a
// short answer.
#[inline(always)]
pub fn put_said(said: Said, output: &mut [u8], at: usize) -> usize
    ensures { (record { bytes = output.new; end = result } ≡ put 20 (said_bytes said) output.old at) × (result ≤ at + 20) }
{
    if output.len().saturating_sub(at) < 20 {
        return at;
    }
    match said {
        Said::Nothing => at,
        Said::Value(letter, v) => put_line(&[letter, b' '], u64::from(v), output, at),
        Said::Refused(number) => put_line(b"refused ", u64::from(number), output, at),
    }
}

// Puts the last line of a replay at a place of the output and returns the place after it; where fewer than 128 bytes are free there,
// it leaves the output and returns the place, as Text.put. Four numbers, and no `Totals`: every four are promised.
pub fn put_totals(
    clock: u64,
    claims: u64,
    waited: u64,
    ages: u64,
    output: &mut [u8],
    at: usize,
) -> usize
    ensures { record { bytes = output.new; end = result } ≡ put 128 (totals_line (clock ∷ claims ∷ waited ∷ ages ∷ [])) output.old at }
{
    if output.len().saturating_sub(at) < 128 {
        return at;
    }
    let first = put_number(b"clock ", clock, output, at);
    let second = put_number(b" claims ", claims, output, first);
    let third = put_number(b" waited ", waited, output, second);
    put_line(b" open ", ages, output, third)
}
