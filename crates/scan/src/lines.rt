ghost use Rattle.std.specs.Prelude.{◌≡◌, true, map, IfOk};
ghost use Rattle.scan.specs.Lines.{is_blank, bare, line_words};

use std::alloc::{AllocError, Global};

fn is_blank(b: u8) -> bool
    ensures { result ≡ is_blank b }
{
    matches!(b, b' ' | b'\t' | b'\r')
}

// The line up to the first `#` that begins a word. A loop by index, for speed: nothing after that byte is looked at, while a test
// of each word in `words` reads a comment up to its first blank.
fn bare_line(line: &[u8]) -> &[u8]
    ensures { result.now ≡ bare true line.now }
{
    let mut fresh = true;
    for (i, b) in line.iter().enumerate() {
        if fresh && *b == b'#' {
            return &line[..i];
        }
        fresh = is_blank(*b);
    }
    line
}

// The words of a line, up to the first that begins with `#`.
pub fn words(heap: Global, line: &[u8]) -> Result<Vec<&[u8]>, AllocError>
    ensures { IfOk result (λ v. map (λ x. x.now) v.items ≡ line_words line.now) }
{
    bare_line(line)
        .split(|b| is_blank(*b))
        .filter(|word| !word.is_empty())
        .collect(heap)
}
