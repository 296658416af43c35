// Where a define of a script ends.
ghost use Rattle.std.specs.Prelude.{◌≡◌, ◌≤◌, ℕ, Some, [], IfOk, IfSome};
ghost use Rattle.meaning.specs.Script.{define_from};
ghost use Rattle.script_lines.specs.Lines.{IsLine, lines_at};
ghost use Rattle.script_lines.specs.Defines.{defined_at};

use crate::lines::{Line, next_line};
use crate::words::{are_only, words};
use std::alloc::{AllocError, Global};

/// The line with the `end` of a define whose text begins at this line, if there is one. Want of memory is the only error.
pub fn end_of_define(alloc: Global, script: &[u8], first: Line) -> Result<Option<Line>, AllocError>
    requires { IsLine script.now first }
    ensures line { IfOk result (λ end. IfSome end (IsLine script.now)) }
    ensures further { IfOk result (λ end. IfSome end (λ line. first.begin ≤ line.begin)) }
    ensures found { IfOk result (λ end. (begun : ℕ)
        → define_from begun [] first.number (lines_at script.now (Some first))
        ≡ defined_at script.now first.begin begun end) }
{
    let mut next = Some(first);
    while let Some(line) = next {
        let words = words(alloc, &script[line.begin..line.end])?;
        if are_only(b"end", &words) {
            return Ok(Some(line));
        }
        next = next_line(script, line);
    }
    Ok(None)
}
