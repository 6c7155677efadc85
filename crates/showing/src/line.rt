ghost use Rattle.std.specs.Prelude.{◌≡◌, ◌≤◌, min, length, count_by};
ghost use Rattle.std.specs.List.{prefix_len, suffix_len};
ghost use Rattle.showing.specs.Lines.{is_feed, of_line, shown_to, line_of, Stands};

// The line of a text in which a byte stands. Lines and columns are counted from 1, columns in bytes. The line's bytes go from `start` up to `end`, without what ends the line: a line feed, or a carriage return and a line feed.
#[derive(Clone, Copy, Debug, PartialEq, Eq)]
pub struct Line {
    pub number: usize,
    pub column: usize,
    pub start: usize,
    pub end: usize,
}

// How many line feeds there are.
fn feeds(text: &[u8]) -> usize
    ensures told { result ≡ count_by is_feed text.now }
    ensures within { result ≤ length text.now }
{
    text.iter().filter(|byte| **byte == b'\n').count()
}

// How many bytes of the last line there are.
fn last_of_line(text: &[u8]) -> usize
    ensures told { result ≡ suffix_len of_line text.now }
    ensures within { result ≤ length text.now }
{
    text.iter().rev().take_while(|byte| **byte != b'\n').count()
}

// How many bytes of the first line there are.
fn first_of_line(text: &[u8]) -> usize
    ensures told { result ≡ prefix_len of_line text.now }
    ensures within { result ≤ length text.now }
{
    text.iter().take_while(|byte| **byte != b'\n').count()
}

// Where a line ends for a reader, given its line feed: before a carriage return.
fn shown_to(text: &[u8], start: usize, feed: usize) -> usize
    requires { feed ≤ length text.now }
    ensures { result ≡ shown_to text.now start feed }
{
    if start < feed && feed < text.len() && text[feed - 1] == b'\r' {
        feed - 1
    } else {
        feed
    }
}

// The line in which a byte stands; a place past the text counts as its end.
pub fn line_at(text: &[u8], place: usize) -> Line
    ensures told { result ≡ line_of text.now place }
    ensures law { Stands text.now (min place (length text.now)) result }
{
    let place = place.min(text.len());
    let (before, after) = text.split_at(place);
    let start = place - last_of_line(before);
    Line {
        number: feeds(before) + 1,
        column: place - start + 1,
        start,
        end: shown_to(text, start, place + first_of_line(after)),
    }
}
