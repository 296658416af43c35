//! The line of a fault.

ghost use Rattle.std.specs.Prelude.{◌≡◌, ◌-◌, ◌≤◌, length, drop};
ghost use Rattle.token_scanner.specs.Words.{words};
ghost use Rattle.token_scanner.specs.Scanning.{longest_text};
ghost use Rattle.token_readers.specs.Lines.{line_at};

use plain_rules::limits::place_of;
use token_scanner::{Placed, line_ends};

/// The line of the token from which so many are left, or that of the text's end.
pub fn fault_line(text: &[u8], tokens: &[Placed], left: usize) -> u32
    requires { length text.now ≤ longest_text }
    ensures { result ≡ line_at text.now (drop (length tokens.now - left) (words tokens.now)) }
{
    let at = place_of(tokens.len(), left);
    if at < tokens.len() {
        tokens[at].line
    } else {
        line_ends(text) as u32 + 1
    }
}
