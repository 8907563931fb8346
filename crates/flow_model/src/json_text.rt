//! JSON text (RFC 8259), as `serde_json` reads it.

ghost use Rattle.std.specs.Prelude.{◌≡◌, IfOk, option_map};
ghost use Rattle.serde_json.specs.View.{view};
ghost use Rattle.flow_model.specs.JsonText.{json_read};

use serde_json::Value;
use std::alloc::{AllocError, Global};

/// The value that bytes read as, if there is one.
pub fn read_json(alloc: Global, bytes: &[u8]) -> Result<Option<Value>, AllocError>
    ensures { IfOk result (λ json. option_map view json ≡ json_read bytes.now) }
{
    match Value::from_slice(alloc, bytes) {
        Ok(json) => Ok(Some(json)),
        Err(error) => {
            if error.is_memory() {
                Err(AllocError)
            } else {
                Ok(None)
            }
        },
    }
}
