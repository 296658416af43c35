// The names that tables and columns may have.

ghost use Rattle.std.specs.Prelude.{◌≡◌};
ghost use Rattle.input_tables.specs.Names.{is_lower, begins_name, is_name_byte, are_name_bytes, is_keyword, is_name};

fn is_lower(byte: u8) -> bool
    ensures { result ≡ is_lower byte }
{
    97 <= byte && byte <= 122
}

fn begins_name(bytes: &[u8]) -> bool
    ensures { result ≡ begins_name bytes.now }
{
    match bytes.first() {
        Some(first) => is_lower(*first),
        None => false,
    }
}

fn is_name_byte(byte: u8) -> bool
    ensures { result ≡ is_name_byte byte }
{
    is_lower(byte) || (48 <= byte && byte <= 57) || byte == b'_'
}

fn are_name_bytes(bytes: &[u8]) -> bool
    ensures { result ≡ are_name_bytes bytes.now }
{
    for byte in bytes {
        if !is_name_byte(*byte) {
            return false;
        }
    }
    true
}

#[tactic(auto, unfolding(crate::specs::Names::is_keyword))]
fn is_keyword(text: &str) -> bool
    ensures { result ≡ is_keyword text.now }
{
    match text {
        "reducer" => true,
        "memo" => true,
        "proc" => true,
        "call" => true,
        "spawn" => true,
        "sync" => true,
        "update" => true,
        "if" => true,
        "else" => true,
        "cilk_for" => true,
        "in" => true,
        "grain" => true,
        "return" => true,
        "read" => true,
        "has" => true,
        "limit" => true,
        "sum" => true,
        _ => false,
    }
}

/// Whether a text has the form of a name in a program: a lower-case letter and then lower-case letters, digits and `_`,
/// at most 32 bytes, and no keyword.
pub(crate) fn is_name(text: &str) -> bool
    ensures { result ≡ is_name text.now }
{
    let bytes = text.as_bytes();
    begins_name(bytes) && are_name_bytes(bytes) && bytes.len() <= 32 && !is_keyword(text)
}
