// The parts of a certificate, one after another.
ghost use Rattle.std.specs.Prelude.{◌≡◌, ◌==◌};
ghost use Rattle.cover_cert.specs.Form as spec;

use crate::line::Line;

/// Where a text stands: before its first line, or behind a line of a kind.
#[derive(Clone, Copy)]
pub(crate) enum Part {
    Start,
    Pairs,
    Keys,
    Fds,
    Ended,
}

impl Part {
    // Its place among the parts.
    fn place(self) -> u8
        ensures { result ≡ spec.place_of self }
    {
        match self {
            Part::Start => 0,
            Part::Pairs => 1,
            Part::Keys => 2,
            Part::Fds => 3,
            Part::Ended => 4,
        }
    }

    /// Whether the text has come to its end.
    pub(crate) fn is_end(self) -> bool
        ensures { result ≡ (spec.place_of self == 4) }
    {
        self.place() == 4
    }

    // The next part, if this one is one of those from which a text may go on to it.
    fn on_to(self, first: u8, last: u8, next: Part) -> Option<Part>
        ensures { result ≡ spec.from_to first last next self }
    {
        if first <= self.place() && self.place() <= last {
            return Some(next);
        }
        None
    }

    /// Where the text stands behind this line, if the line may stand here.
    pub(crate) fn after(self, line: &Line) -> Option<Part>
        ensures { result ≡ spec.after_line self line.now }
    {
        match line {
            Line::Cert(_) => self.on_to(0, 0, Part::Pairs),
            Line::Pair(_) => self.on_to(1, 1, Part::Pairs),
            Line::Key(_) => self.on_to(1, 2, Part::Keys),
            Line::Fd(_) => self.on_to(1, 3, Part::Fds),
            Line::End => self.on_to(1, 3, Part::Ended),
        }
    }
}
