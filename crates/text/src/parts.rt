// Where a byte stands first in a text.
ghost use Rattle.std.specs.Prelude.{◌≡◌, length};
ghost use Rattle.text.specs.Text.{before};

// Where `b` stands first in `s`, or the length of `s` where it doesn't.
// An index, no `Option`: it is where the part before `b` ends, with a `b` behind it or without; std's `position` is the `Option`.
pub fn first(s: &[u8], b: u8) -> usize
    ensures { result ≡ length (before b s.now) }
{
    s.iter().position(|x| *x == b).unwrap_or(s.len())
}
