ghost use Rattle.std.specs.Prelude.{◌≡◌, ◌+◌, ◌≤◌, length, take, drop};
ghost use Rattle.std.specs.Iterator.{YieldsFirstBy, item_count};
ghost use Rattle.kconfig.specs.Bytes.{line_len, lines};

use crate::line_len;
use std::marker::Model;

/// The lines that are left of a text: each ends in a line feed, which it is without, or with the text. Clauses see
/// the list of them.
#[derive(Drop)]
pub struct Lines<'a> {
    rest: &'a [u8],
}

impl<'a> Model for Lines<'a> {
    ghost use Rattle.std.specs.Prelude.{ℕ, List};
    ghost use Rattle.kconfig.specs.Bytes.{lines};

    ghost Value = { List (List ℕ) };

    ghost view = { λ l. lines l.rest.now };
}

/// The first line of a text, and what follows its line feed.
fn split_line(text: &[u8]) -> (&[u8], &[u8])
    ensures line { result.0.now ≡ take (line_len text.now) text.now }
    ensures rest { result.1.now ≡ drop (line_len text.now + 1) text.now }
{
    let (line, rest) = text.split_at(line_len(text));
    (line, rest.get(1..).unwrap_or(&[]))
}

impl<'a> Lines<'a> {
    #[tactic(auto, using(crate::proofs::Ends::sizes))]
    pub fn new(text: &'a [u8]) -> Lines<'a>
        ensures lines { result ≡ lines text.now }
        ensures few { length result ≤ length text.now }
    {
        Lines { rest: text }
    }
}

impl<'a> Iterator for Lines<'a> {
    type Item = &'a [u8];

    ghost next_gives = { YieldsFirstBy (λ line. line.now) (λ lines. lines) };

    ghost remaining = { item_count (λ lines. lines) };

    #[tactic(auto, using(crate::proofs::Ends::lines_step))]
    fn next(&mut self) -> Option<&'a [u8]> {
        let text = self.rest;
        if text.is_empty() {
            return None;
        }
        let (line, rest) = split_line(text);
        self.rest = rest;
        Some(line)
    }
}
