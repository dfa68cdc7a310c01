//! Where the tables of a configuration begin.

// The line, from 1, that an octet of a text is on.
pub(crate) fn line_at(octets: &[u8], place: usize) -> usize {
    let before = octets.get(..place).unwrap_or(octets);
    before
        .iter()
        .filter(|octet| **octet == b'\n')
        .count()
        .saturating_add(1)
}

// The line, from 1, of the header of the table of an array at an index. None unless the text has as
// many headers of that array as the array has tables. Then some of them are written in another way,
// or a text of more lines has what looks like a header.
pub(crate) fn header_line(text: &str, name: &str, index: usize, tables: usize) -> Option<usize> {
    if header_count(text, name) != tables {
        return None;
    }
    let mut left = index;
    for (lines_before, line) in text.split('\n').enumerate() {
        if is_header(line, name) {
            if left == 0 {
                return Some(lines_before.saturating_add(1));
            }
            left -= 1;
        }
    }
    None
}

// How many lines are headers of an array.
fn header_count(text: &str, name: &str) -> usize {
    text.split('\n')
        .filter(|line| is_header(line, name))
        .count()
}

// Whether a line is the header of a table of an array: its name in two pairs of brackets, and
// perhaps spaces and a comment.
fn is_header(line: &str, name: &str) -> bool {
    let Some(inner) = line.trim_start().strip_prefix("[[") else {
        return false;
    };
    let Some(rest) = inner.trim_start().strip_prefix(name) else {
        return false;
    };
    let Some(end) = rest.trim_start().strip_prefix("]]") else {
        return false;
    };
    let end = end.trim_start();
    end.is_empty() || end.starts_with('#')
}
