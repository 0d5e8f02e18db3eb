//! Rows of another interner that are imported.

ghost use Rattle.std.specs.Prelude.{◌≡◌, All, IfOk, map};
ghost use Rattle.hs_types.specs.Interned.{IsRow, entry_of, Grows};
ghost use Rattle.hs_types.specs.Translations.{AreFound};

use crate::ids::Row;
use crate::nodes::Nodes;
use crate::translations::ImportedNumbers;
use hs_scheme::OutOfMemory;
use std::alloc::Global;

impl Nodes {
    /// The row here of the other's row.
    pub(crate) fn import_row(
        &mut self,
        alloc: Global,
        found: &mut ImportedNumbers,
        from: &Nodes,
        row: Row,
    ) -> Result<Row, OutOfMemory>
        requires row { IsRow from.now row }
        requires found { AreFound from.now self.old found.old }
        ensures row { IfOk result (λ r. IsRow self.new r) }
        ensures entry { IfOk result (λ r. entry_of self.new r ≡ entry_of from.now row) }
        ensures found { AreFound from.now self.new found.new }
        ensures grows { Grows self.old self.new }
    {
        let env = self.import_env(alloc, found, from, row.env)?;
        let ty = self.import_type(alloc, found, from, row.ty)?;
        Ok(Row {
            point: row.point,
            env,
            ty,
        })
    }

    /// The rows here of the other's rows.
    pub(crate) fn import_rows(
        &mut self,
        alloc: Global,
        found: &mut ImportedNumbers,
        from: &Nodes,
        rows: &[Row],
    ) -> Result<Vec<Row>, OutOfMemory>
        requires rows { All (IsRow from.now) rows.now }
        requires found { AreFound from.now self.old found.old }
        ensures rows { IfOk result (λ own. All (IsRow self.new) own.items) }
        ensures entries { IfOk result (λ own. map (entry_of self.new) own.items ≡ map
            (entry_of from.now) rows.now) }
        ensures found { AreFound from.now self.new found.new }
        ensures grows { Grows self.old self.new }
    {
        let mut own = Vec::with_capacity(alloc, rows.len())?;
        for row in rows {
            own.push_reserved(self.import_row(alloc, found, from, *row)?);
        }
        Ok(own)
    }
}
