// The lines of a script, and where each lies.
ghost use Rattle.std.specs.Prelude.{◌≡◌, ◌+◌, ◌≤◌, length};
ghost use Rattle.std.specs.List.{position_or_len};
ghost use Rattle.script.specs.Text.{is_newline};

/// A line's number, from 1, and where its text begins and ends, without its newline.
#[derive(Clone, Copy, Debug, PartialEq, Eq)]
pub struct Position {
    pub line: usize,
    pub start: usize,
    pub end: usize,
}

// By hand, in place of `split`: a complaint names where its line lies, which would have to be counted beside a `split`.

/// The lines that are left. What follows the last newline is a line too. Past the last line the start is past the text: it
/// is no `Option`, since with one a script of lines that say nothing takes 1.4 to 1.6 of the time.
#[derive(Clone, Copy)]
pub struct Lines<'a> {
    text: &'a [u8],
    line: usize,
    start: usize,
    ghost within: { start ≤ length text.now + 1 },
    ghost counted: { line ≤ start + 1 },
}

impl<'a> Lines<'a> {
    ghost use Rattle.script.specs.Lines.{lines_in, lines_left};

    pub fn of(text: &'a [u8]) -> Lines<'a>
        ensures { lines_left result ≡ lines_in text.now }
    {
        Lines {
            text,
            line: 1,
            start: 0,
        }
    }
}

impl<'a> Iterator for Lines<'a> {
    ghost use Rattle.std.specs.Iterator.{YieldsFirstBy, item_count};
    ghost use Rattle.script.specs.Lines.{lines_left, shown};

    type Item = (Position, &'a [u8]);

    ghost next_gives = { YieldsFirstBy shown lines_left };

    ghost remaining = { item_count lines_left };

    fn next(&mut self) -> Option<(Position, &'a [u8])> {
        let start = self.start;
        if start > self.text.len() {
            return None;
        }
        let rest = &self.text[start..];
        let end = start + until_newline(rest);
        let position = Position {
            line: self.line,
            start,
            end,
        };
        *self = Lines {
            text: self.text,
            line: self.line + 1,
            start: end + 1,
        };
        Some((position, &self.text[start..end]))
    }
}

// How many bytes come before the first newline, or all where there is none.
fn until_newline(text: &[u8]) -> usize
    ensures value { result ≡ position_or_len is_newline text.now }
    ensures within { result ≤ length text.now }
{
    match text.iter().position(|byte| *byte == b'\n') {
        Some(length) => length,
        None => text.len(),
    }
}
