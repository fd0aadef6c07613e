// Scanning: what stands at a place of a line. Leaves: the line and numbers only, one pass over the bytes. Each takes the line and a place:
// the line stays whole, since where the kinds begin is a place in it.
ghost use Rattle.std.specs.Prelude.{◌≡◌, ◌<◌, ◌≤◌, length, drop, IfSome};
ghost use Rattle.commands.specs.Grammar.{is_kind, is_kinds};
ghost use Rattle.commands.specs.Leaves.{last_value, number_at, offset_at, ends_with, number_rest, hex_worth};

// A word of the form that is asked for: its value, and the place of the byte that ends it.
#[derive(Clone, Copy)]
pub(crate) struct Word {
    pub value: u32,
    pub end: usize,
}

impl Word {
    // The word's value, where it is the last of its line.
    pub(crate) fn last_of(self, line: &[u8]) -> Option<u32>
        ensures { result ≡ last_value self (length line.now) }
    {
        (self.end == line.len()).then_some(self.value)
    }
}

fn is_kind(b: u8) -> bool
    ensures { result ≡ is_kind b }
{
    matches!(b, b'l' | b'e' | b'c')
}

// What a hex digit is worth. By hand: the library's `to_digit` takes small letters too. Two tests: a `match` on the two ranges takes a
// quarter more instructions for an offset.
#[tactic(auto, unfolding(crate::specs::Leaves::hex_worth))]
fn hex_worth(b: u8) -> Option<u32>
    ensures value { result ≡ hex_worth b }
    ensures small { IfSome result (λ d. d < 16) }
{
    if b.is_ascii_digit() {
        return Some(u32::from(b - b'0'));
    }
    if matches!(b, b'A'..=b'F') {
        return Some(u32::from(b - b'A') + 10);
    }
    None
}

// A word with a value that ends here: at a space or at the end of the line.
#[tactic(auto, using(crate::proofs::Digits::ends_at))]
fn ends_with(line: &[u8], at: usize, value: u32) -> Option<Word>
    ensures value { result ≡ ends_with value (drop at line.now) at }
    ensures within { at ≤ length line.now → IfSome result (λ w. w.end ≤ length line.now) }
{
    match line.get(at) {
        None | Some(b' ') => Some(Word { value, end: at }),
        Some(_) => None,
    }
}

// The rest of a number, whose digits before it are worth `first`. Summed in 64 bits, so that nothing wraps. The end is counted beside:
// `enumerate` has no place for the end of the line.
#[tactic(auto, using(crate::proofs::Digits::number_steps))]
fn number_rest(line: &[u8], from: usize, first: u32) -> Option<Word>
    requires { from ≤ length line.now }
    ensures value { result ≡ number_rest first (drop from line.now) from }
    ensures within { IfSome result (λ w. w.end ≤ length line.now) }
{
    let mut value = u64::from(first);
    let mut end = from;
    for b in &line[from..] {
        if !b.is_ascii_digit() {
            break;
        }
        value = value * 10 + u64::from(*b - b'0');
        if value > u64::from(u32::MAX) {
            return None;
        }
        end += 1;
    }
    ends_with(line, end, value as u32)
}

// The number at a place: no needless leading zero, at most 4294967295. By hand: `FromStr` takes a sign and needless zeros.
#[tactic(auto, using(crate::proofs::Digits::number_starts))]
pub(crate) fn number_at(line: &[u8], at: usize) -> Option<Word>
    ensures value { result ≡ number_at line.now at }
    ensures within { IfSome result (λ w. w.end ≤ length line.now) }
{
    match *line.get(at)? {
        b'0' => ends_with(line, at + 1, 0),
        b @ b'1'..=b'9' => number_rest(line, at + 1, u32::from(b - b'0')),
        _ => None,
    }
}

// The offset at a place: eight hex digits, capitals. By hand: the library's `from_str_radix` takes small letters and a sign too.
#[tactic(auto, using(crate::proofs::Digits::offset_steps))]
pub(crate) fn offset_at(line: &[u8], at: usize) -> Option<Word>
    requires { at ≤ length line.now }
    ensures value { result ≡ offset_at line.now at }
    ensures within { IfSome result (λ w. w.end ≤ length line.now) }
{
    let mut value = 0;
    for b in line.get(at..at + 8)? {
        value = value * 16 + hex_worth(*b)?;
    }
    ends_with(line, at + 8, value)
}

// Whether the bytes from a place to the end of the line are kinds: one or more letters of l, e, c.
#[tactic(auto, using(crate::proofs::Last::kinds_none))]
pub(crate) fn kinds_at(line: &[u8], at: usize) -> bool
    ensures { result ≡ is_kinds (drop at line.now) }
{
    at < line.len() && line[at..].iter().all(|b| is_kind(*b))
}
