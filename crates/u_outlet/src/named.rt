//! Which job the firings of an outlet belong to.

use std::marker::Brand;

/// Names a job in contracts. It has no data: who calls a function that is generic in it picks the job
/// of that call, which may be known at run time alone.
pub trait Named {
    ghost use Rattle.u_check.specs.Jobs.{JobParts};

    ghost job: { JobParts };
}

impl Named for Brand {
    ghost use Rattle.std.specs.Prelude.{[], pos};
    ghost use Rattle.u_check.specs.Jobs.{job};
    ghost use Rattle.u_program.specs.Parts.{program};
    ghost use Rattle.u_program.specs.declared.program.Version.TheVariants as versions;

    ghost job = { job (program versions.One []) (pos 0) [] };
}
