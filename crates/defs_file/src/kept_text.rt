//! The kept configuration of a whole file, and its text.
ghost use Rattle.std.specs.Prelude.{◌≡◌, None, IfOk};
ghost use Rattle.serde_json.specs.View.{view};
ghost use Rattle.serde_json.specs.Written.{compact_text};
ghost use Rattle.defs_file.specs.File.{kept_file, lists_fault, passed_objects};

use amqp_props::Text;
use defs_kept::kept_file::kept_beside;
use defs_lists::bindings::Objects;
use serde_json::Value;
use std::alloc::{AllocError, Global};

/// The text of the kept configuration. A file that isn't refused has no floating-point number in it.
#[tactic(auto, unfolding(crate::specs::File::kept_file), using(crate::proofs::KeptFiles::no_float))]
pub(crate) fn kept_text(alloc: Global, passed: &Objects, value: &Value) -> Result<Text, AllocError>
    requires { passed.now ≡ passed_objects (view value.now) }
    ensures { IfOk result (λ text. lists_fault (view value.now) ≡ None → text ≡ compact_text (kept_file (view value.now))) }
{
    let kept = kept_beside(alloc, passed, value)?;
    let text = kept.to_string(alloc)?;
    Text::new(alloc, text)
}
