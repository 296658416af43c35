// The lines of a script, one after another.
ghost use Rattle.std.specs.Prelude.{◌≡◌, ◌≤◌, ◌+◌, ◌-◌, ◌++◌, ◌∷◌, [], Some, IfSome, length, take, drop};
ghost use Rattle.script_lines.specs.Lines.{end_from, IsLine, text_of, lines_at};

/// A line of a script: its number, counted from 1, where it begins and where it ends.
#[derive(Clone, Copy)]
pub struct Line {
    pub number: usize,
    pub begin: usize,
    pub end: usize,
}

// Where the line ends that begins here.
fn end_of(script: &[u8], begin: usize) -> usize
    requires { begin ≤ length script.now }
    ensures { result ≡ end_from script.now begin }
{
    let mut end = begin;
    for byte in &script[begin..] {
        if *byte == b'\n' {
            return end;
        }
        end += 1;
    }
    end
}

// The line of this number that begins here.
fn line_at(script: &[u8], number: usize, begin: usize) -> Line
    requires within { begin ≤ length script.now }
    requires counted { number ≤ begin + 1 }
    ensures number { result.number ≡ number }
    ensures begin { result.begin ≡ begin }
    ensures line { IsLine script.now result }
{
    Line {
        number,
        begin,
        end: end_of(script, begin),
    }
}

/// The first line of a script.
pub fn first_line(script: &[u8]) -> Line
    ensures number { result.number ≡ 1 }
    ensures begin { result.begin ≡ 0 }
    ensures line { IsLine script.now result }
{
    line_at(script, 1, 0)
}

/// The line behind a line, if there is one.
pub fn next_line(script: &[u8], line: Line) -> Option<Line>
    requires { IsLine script.now line }
    ensures rest { lines_at script.now (Some line)
        ≡ text_of script.now line ∷ lines_at script.now result }
    ensures number { IfSome result (λ next. next.number ≡ line.number + 1) }
    ensures begin { IfSome result (λ next. next.begin ≡ line.end + 1) }
    ensures text { IfSome result (λ next. text_of script.now line ++ 10 ∷ []
        ≡ take (next.begin - line.begin) (drop line.begin script.now)) }
    ensures line { IfSome result (IsLine script.now) }
{
    if line.end == script.len() {
        return None;
    }
    Some(line_at(script, line.number + 1, line.end + 1))
}
