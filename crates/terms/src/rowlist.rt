ghost use Rattle.std.specs.Prelude.{◌≡◌};
ghost use Rattle.std.specs.Iterator.{YieldsFirst, item_count};
ghost use Rattle.terms.specs.Listed.{list_of, left_of};

use rows::Row;

// The rows of a comparison, in order; none in the place of one past a row's limits. There is never none and never a third, which a list would not say.
#[derive(Clone, Copy)]
pub enum Rows {
    One(Option<Row>),
    Two(Option<Row>, Option<Row>),
}

// The rows that are still to come.
#[derive(Clone, Copy)]
pub struct RowsLeft {
    rows: Option<Rows>,
}

impl IntoIterator for Rows {
    type Item = Option<Row>;

    type IntoIter = RowsLeft;

    ghost into_iter_gives = { λ rows left. left_of left ≡ list_of rows };

    fn into_iter(self) -> RowsLeft {
        RowsLeft { rows: Some(self) }
    }
}

impl Iterator for RowsLeft {
    type Item = Option<Row>;

    ghost next_gives = { YieldsFirst left_of };

    ghost remaining = { item_count left_of };

    fn next(&mut self) -> Option<Option<Row>> {
        match self.rows? {
            Rows::One(row) => {
                self.rows = None;
                Some(row)
            }
            Rows::Two(first, second) => {
                self.rows = Some(Rows::One(second));
                Some(first)
            }
        }
    }
}
