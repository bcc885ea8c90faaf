// How a strip is made of a table.
ghost use Rattle.std.specs.Prelude.{◌≡◌, ◌+◌, ◌<◌, ◌≤◌, [], ◌∷◌, ◌++◌, length};
ghost use Rattle.puncture.specs.Masks.{lent, lent_end, column, flat, end_flat};
ghost use Rattle.puncture.specs.Strips.{held};

use super::Strip;
use crate::mask::tables::{Table, width};

impl Strip {
    pub(crate) fn empty() -> Strip
        ensures { held result ≡ [] }
    {
        Strip { length: 0, bits: 0 }
    }

    pub(crate) fn packed_end(table: Option<Table>) -> Strip
        requires { length (end_flat (lent_end table)) ≤ 60 }
        ensures { held result ≡ end_flat (lent_end table.entry) }
    {
        table.map_or(Strip::empty(), Strip::packed)
    }

    pub(crate) fn packed(table: Table) -> Strip
        requires { length (flat (lent table)) ≤ 60 }
        ensures { held result ≡ flat (lent table.entry) }
    {
        let mut strip = Strip::empty();
        // Columns are counted, since a table lies by rows.
        for c in 0..width(table) {
            strip = strip.with_column(table, c);
        }
        strip
    }

    // One column more, after all the entries.
    fn with_column(self, table: Table, c: usize) -> Strip
        requires { length table.now + self.length ≤ 60 }
        ensures { held result ≡ held self ++ column (lent table.entry) c }
    {
        let mut strip = self;
        for row in table {
            strip = strip.with_entry(row.get(c) == Some(&1));
        }
        strip
    }

    #[tactic(auto, using(crate::specs::Packing::entry_last, crate::specs::Packing::entry_whole))]
    fn with_entry(self, keep: bool) -> Strip
        requires { self.length < 60 }
        ensures { held result ≡ held self ++ keep ∷ [] }
    {
        Strip {
            length: self.length + 1,
            bits: ((keep as u64) << self.length) | self.bits,
        }
    }
}
