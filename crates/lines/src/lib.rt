// A text's lines, one after another.
//
// No public function has a `requires`: each answers every argument, as an equation with a definition of specs/ says. Nothing is
// written anywhere.
#![tactic(auto)]

ghost use Rattle.std.specs.Prelude.{◌≡◌};
ghost use Rattle.lines.specs.Text.{line_at, part_of};

const LF: u8 = 10;

// A position in a text, where the next line starts: 0 for the first.
#[derive(Clone, Copy)]
pub struct Cursor {
    pub at: usize,
}

// A line: it starts at start and ends before end, where its LF or the text's end is; next is behind that.
#[derive(Clone, Copy)]
pub struct Line {
    pub start: usize,
    pub end: usize,
    pub next: Cursor,
}

// The line at a cursor, of any text and any cursor; none where the text ended.
pub fn next_line(text: &[u8], cursor: Cursor) -> Option<Line>
    ensures { result ≡ line_at text.now cursor.at }
{
    let start = cursor.at;
    if text.len() <= start {
        return None;
    }
    let end = octets::find(text, start, LF);
    let next = Cursor {
        at: (end + 1).min(text.len()),
    };
    Some(Line { start, end, next })
}

// The bytes from start up to, not including, end; none where the text has no such part.
#[tactic(auto, unfolding(crate::specs::Text::part_of))]
pub fn part(text: &[u8], start: usize, end: usize) -> &[u8]
    ensures { result.now ≡ part_of text.now start end }
{
    text.get(start..end).unwrap_or(&[])
}
