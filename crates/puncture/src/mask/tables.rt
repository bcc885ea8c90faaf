// The tables that a mask is made of, and what is asked of their rows, columns and entries.
ghost use Rattle.std.specs.Prelude.{◌≡◌, ◌*◌, ◌^◌, ◌<◌, true, ◌&&◌, nat_le, ◌+◌};
ghost use Rattle.puncture.specs.Masks.{lent, lent_end, lent_masks, width, end_width, covered, sound_row, sound_period, sound_end, sound_tables, sound};

// By rows, of bytes 0 and 1.
pub type Table<'a> = &'a [&'a [u8]];

// The prefix is applied once, the middle a number of times, the suffix at the very end of the steps.
#[derive(Clone, Copy)]
pub struct Tables<'a> {
    pub steps: usize,
    pub prefix: Option<Table<'a>>,
    pub middle: Table<'a>,
    pub times: usize,
    pub suffix: Option<Table<'a>>,
}

impl Tables<'_> {
    pub(crate) fn are_sound(&self) -> bool
        ensures { result ≡ sound (lent_masks self.now) }
    {
        self.are_alike() && self.fit() && self.middle.len().checked_mul(self.steps).is_some()
    }

    fn are_alike(&self) -> bool
        ensures { result ≡ sound_tables (lent_masks self.now) }
    {
        let rows = self.middle.len();
        (1..=5).contains(&rows)
            && has_period(self.middle)
            && is_end(self.prefix, rows)
            && is_end(self.suffix, rows)
    }

    // Whether the steps hold prefix, middles and suffix.
    fn fit(&self) -> bool
        requires { sound_tables (lent_masks self.now) ≡ true }
        ensures { result ≡ nat_le (covered (lent_masks self.now)) self.now.steps }
    {
        let ends = end_width(self.prefix) + end_width(self.suffix);
        covers(self.steps, ends, self.times, width(self.middle))
    }

    // The columns of prefix, suffix and middles together.
    pub(crate) fn covered(&self) -> usize
        requires { covered (lent_masks self.now) < 2 ^ 64 }
        ensures { result ≡ covered (lent_masks self.now) }
    {
        end_width(self.prefix) + end_width(self.suffix) + self.times * width(self.middle)
    }
}

// Of four numbers: within the method a proof does not learn what the product tells.
fn covers(steps: usize, ends: usize, times: usize, period: usize) -> bool
    ensures { result ≡ nat_le (ends + times * period) steps }
{
    ends <= steps
        && times
            .checked_mul(period)
            .is_some_and(|middles| middles <= steps - ends)
}

fn is_end(table: Option<Table>, rows: usize) -> bool
    ensures { result ≡ sound_end rows (lent_end table.entry) }
{
    table.is_none_or(|table| table.len() == rows && has_period(table))
}

fn has_period(table: Table) -> bool
    ensures { result ≡ sound_period (lent table.entry) }
{
    let columns = width(table);
    (1..=12).contains(&columns) && table.iter().all(|row| is_row_of(row, columns))
}

fn is_row_of(row: &[u8], columns: usize) -> bool
    ensures { result ≡ sound_row columns row.now }
{
    row.len() == columns && row.iter().all(|bit| *bit <= 1)
}

fn end_width(table: Option<Table>) -> usize
    ensures { result ≡ end_width (lent_end table.entry) }
{
    table.map_or(0, width)
}

pub(crate) fn width(table: Table) -> usize
    ensures { result ≡ width (lent table.entry) }
{
    table.first().map_or(0, |row| row.len())
}
