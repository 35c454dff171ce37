//! The lines of a script.

ghost use Rattle.std.specs.Prelude.{◌≡◌, ◌<◌, ◌≤◌, length, OnSome};
ghost use Rattle.station.specs.Left.{left};

/// What is left of a script, and how many lines were before.
#[derive(Drop)]
pub(crate) struct Lines<'a> {
    rest: &'a [u8],
    number: u64,
}

impl<'a> Lines<'a> {
    pub(crate) fn of(text: &'a [u8]) -> Lines<'a> {
        Lines {
            rest: text,
            number: 0,
        }
    }

    /// The number of the line that was answered last, from 1.
    pub(crate) fn number(&self) -> u64 {
        self.number
    }

    /// The next line without its end. The last one needs none.
    pub(crate) fn next(&mut self) -> Option<&'a [u8]>
        ensures { OnSome result (left self.new < left self.old) }
    {
        if self.rest.is_empty() {
            return None;
        }
        self.number = self.number.saturating_add(1);
        let (line, rest) = match self.rest.iter().position(|b| *b == b'\n') {
            Some(end) => (&self.rest[..end], &self.rest[end + 1..]),
            None => self.rest.split_at(self.rest.len()),
        };
        self.rest = rest;
        Some(line)
    }
}
