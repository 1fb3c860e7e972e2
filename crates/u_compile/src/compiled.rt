//! Compiled sources: programs, and the map of their statements.
ghost use Rattle.std.specs.Prelude.{◌≡◌, ◌++◌, IfOk};
ghost use Rattle.u_check.specs.Rules.{IsChecked};
ghost use Rattle.u_determinate.specs.Determinate.{IsDeterminate};
ghost use Rattle.u_compile.specs.Maps.{AreOrigins, map_text};
ghost use Rattle.u_compile.specs.Compiled.{compiled};

use crate::map_text::push_map;
use crate::origins::BlockOrigins;
use std::alloc::AllocError;
use std::marker::Model;
use u_check::Checked;
use u_program::Program;

/// A program that a source was compiled to, and where its statements come from.
///
/// Promise origins: each statement of each block has one origin: a place, a role and at most one name.
#[derive(Drop)]
pub struct Compiled {
    checked: Checked,
    origins: Vec<BlockOrigins>,
}

impl Model for Compiled {
    ghost use Rattle.u_compile.specs.Compiled.{CompiledParts, compiled, IsCompiled};

    ghost Value = { CompiledParts };

    ghost view = { λ c. compiled c.checked c.origins.items };

    ghost invariant = { λ c. IsCompiled (compiled c.checked c.origins.items) };
}

impl Compiled {
    /// A checked and determinate program, and where the statements of its blocks come from.
    pub(crate) fn new(checked: Checked, origins: Vec<BlockOrigins>) -> Compiled
        requires checked { IsChecked checked.blocks }
        requires determinate { IsDeterminate checked.blocks }
        requires each { AreOrigins checked.blocks origins.items }
        ensures parts { result ≡ compiled checked origins.items }
        ensures checked { IsChecked result.program.blocks }
        ensures determinate { IsDeterminate result.program.blocks }
    {
        Compiled { checked, origins }
    }

    /// The program.
    pub fn program(&self) -> &Program
        ensures program { result.now ≡ self.now.program }
        ensures checked { IsChecked self.now.program.blocks }
        ensures determinate { IsDeterminate self.now.program.blocks }
    {
        self.checked.program()
    }

    /// Where the statements of its blocks come from, block by block.
    pub fn origins(&self) -> &[BlockOrigins]
        ensures origins { result.now ≡ self.now.origins }
        ensures each { AreOrigins self.now.program.blocks self.now.origins }
    {
        &self.origins
    }

    /// The program, as a checked one, and where the statements of its blocks come from, block by block.
    pub fn into_parts(self) -> (Checked, Vec<BlockOrigins>)
        ensures program { result.0 ≡ self.program }
        ensures origins { result.1.items ≡ self.origins }
        ensures determinate { IsDeterminate self.program.blocks }
        ensures each { AreOrigins self.program.blocks self.origins }
    {
        let Compiled { checked, origins } = self;
        (checked, origins)
    }

    /// Appends the map: a line `u-map 1`, and then a line `BLOCK.STATEMENT LINE:COLUMN ROLE [NAME]` for each statement,
    /// in the order of the program. The place is where the source asks for the statement, and the role is a word for
    /// what it does there. The name is the one under which its value flows or is defined, or that of the structure of
    /// which it reads a cell, if there is one.
    ///
    /// Promise map-of-origins: exactly the text of the map of the program's origins is appended.
    ///
    /// # Errors
    /// `AllocError` where there is no memory. Then part of the map may stand there.
    pub fn write_map(&self, out: &mut Vec<u8>) -> Result<(), AllocError>
        ensures map { IfOk result
            (λ _. out.new.items ≡ out.old.items ++ map_text self.now.origins) }
        ensures each { AreOrigins self.now.program.blocks self.now.origins }
    {
        push_map(out, self.origins())
    }
}
