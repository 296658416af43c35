// The TOML document that a text is.

ghost use Rattle.std.specs.Prelude.{◌≡◌, IfOk, IfSome, IfNone, Some, None};
ghost use Rattle.toml.specs.Parse.{parse_document};
ghost use Rattle.toml.specs.View.{table_view};

use std::alloc::{AllocError, Global};
use toml::Table;

/// The document that a text is, or none where it is no TOML. Want of memory is the only error.
pub fn document(alloc: Global, text: &str) -> Result<Option<Table>, AllocError>
    ensures read { IfOk result (λ found. IfSome found (λ document. parse_document text.now ≡ Some (table_view document))) }
    ensures none { IfOk result (λ found. IfNone found (parse_document text.now ≡ None)) }
{
    match toml::table_from_str(alloc, text) {
        Ok(document) => Ok(Some(document)),
        Err(error) if error.is_memory() => Err(AllocError),
        Err(_) => Ok(None),
    }
}
