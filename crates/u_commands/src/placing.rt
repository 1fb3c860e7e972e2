//! Places of a source, at the end of the lines that speak of its program's statements.
//!
//! A place stands after two spaces and in words, so scripts that cut words at spaces go on working.
ghost use Rattle.std.specs.Prelude.{◌≡◌, ◌++◌, IfOk};
ghost use Rattle.u_commands.specs.Placed.{place_at};

use std::alloc::AllocError;
use u_compile::BlockOrigins;
use u_name::Name;

/// Appends the place of the activity's statement, if it is known.
pub(crate) fn push_place(
    out: &mut Vec<u8>,
    origins: &[BlockOrigins],
    activity: &Name,
) -> Result<(), AllocError>
    ensures { IfOk result
        (λ u. out.new.items ≡ out.old.items ++ place_at origins.now activity.now) }
{
    u_compile::push_place(
        out,
        origins,
        activity.block(),
        u64::from(activity.statement()),
    )
}
