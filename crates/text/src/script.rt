//! A script, line by line.
ghost use Rattle.std.specs.Prelude.{◌≡◌, position};
ghost use Rattle.text.specs.Lines.{newline, line_in, behind_line};
ghost use Rattle.text.specs.Scripts.{GivesLine, lines_at_most};

/// Where the first newline stands.
// Inlined, the search counts bytes beside its pointer.
#[inline(never)]
fn newline(text: &[u8]) -> Option<usize>
    ensures { result ≡ position newline text.now }
{
    text.iter().position(|&byte| byte == b'\n')
}

/// The first line of a text, and what is behind its newline.
pub fn split_line(text: &[u8]) -> (&[u8], &[u8])
    ensures line { result.0.now ≡ line_in text.now }
    ensures behind { result.1.now ≡ behind_line text.now }
{
    match newline(text) {
        Some(end) => (&text[..end], &text[end + 1..]),
        None => (text, &[]),
    }
}

/// What is left of a script, and how many of its lines were read.
#[derive(Clone, Copy)]
pub struct Script<'a> {
    rest: &'a [u8],
    lines: usize,
}

impl<'a> Script<'a> {
    pub fn over(text: &'a [u8]) -> Script<'a>
        ensures rest { result.rest.now ≡ text.now }
        ensures lines { result.lines ≡ 0 }
    {
        Script {
            rest: text,
            lines: 0,
        }
    }
}

/// The lines with bytes or a newline, each with its number from 1.
impl<'a> Iterator for Script<'a> {
    type Item = (usize, &'a [u8]);

    ghost next_gives = { GivesLine };

    ghost remaining = { lines_at_most };

    fn next(&mut self) -> Option<(usize, &'a [u8])> {
        if self.rest.is_empty() {
            return None;
        }
        let (line, rest) = split_line(self.rest);
        self.rest = rest;
        self.lines = self.lines.saturating_add(1);
        Some((self.lines, line))
    }
}
