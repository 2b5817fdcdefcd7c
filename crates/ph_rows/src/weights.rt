//! What rows weigh.
ghost use Rattle.std.specs.Prelude.{◌+◌};
ghost use Rattle.ph_items.specs.Weights.{FitsOrNone};
ghost use Rattle.ph_rows.specs.Weights.{rows_weight};

use crate::rows::Row;

impl Row {
    ghost use Rattle.ph_items.specs.Weights.{FitsOrNone};
    ghost use Rattle.ph_rows.specs.Weights.{row_weight};

    /// What the row weighs: 256, and the lengths of its texts. None exactly where 64 bits don't hold it.
    pub fn weight(&self) -> Option<u64>
        ensures { FitsOrNone result (row_weight self.now) }
    {
        self.item.weight_from(256)
    }
}

/// A weight and what the rows weigh together. None exactly where 64 bits don't hold it.
pub fn weight_with_rows(weight: u64, rows: &[Row]) -> Option<u64>
    ensures { FitsOrNone result (weight + rows_weight rows.now) }
{
    let mut sum = weight;
    for row in rows {
        sum = sum.checked_add(row.weight()?)?;
    }
    Some(sum)
}
