//! The version of the lines.
ghost use Rattle.std.specs.Prelude.{◌≡◌, codes, OnOk};
ghost use Rattle.serde_json.specs.Data.{put as with_member};
ghost use Rattle.serde_json.specs.View.{members_view};
ghost use Rattle.mb_trace_json.specs.Version.{version_data};

use serde_json::{Map, Value, put};
use std::alloc::{AllocError, Global};

/// The version of the form, which `docs/trace.schema.json` describes.
const VERSION: u32 = 1;

/// Adds the version of the form to the members of a line.
pub(crate) fn put_version(alloc: Global, members: &mut Map<String, Value>) -> Result<(), AllocError>
    ensures { OnOk result (members_view members.new.entries ≡ with_member (codes "version") version_data (members_view members.old.entries)) }
{
    put(members, alloc, "version", Value::from(VERSION))
}
