ghost use Rattle.std.specs.Prelude.{◌≡◌, length, replicate};
ghost use Rattle.records.specs.Columns.{zero_record};

use crate::condition::{Atom, Condition, Item};
use crate::entry::{Entry, Param};
use crate::node::Node;
use crate::owed::Owed;
use crate::stretch::Stretch;
use language::Comparison;
use rows::Row;

// A part of each table of a sheet: four slots of each, as memory is lent in records. The tables of every sheet that is read lie in 4,096 records. Beside them a record has room for an obligation, and for a row of some obligation's question.
#[derive(Clone, Copy)]
pub struct Record {
    pub nodes: [Node; 4],
    pub conditions: [Condition; 4],
    pub items: [Item; 4],
    pub params: [Param; 4],
    pub entries: [Entry; 4],
    pub owed: Option<Owed>,
    pub row: Option<Row>,
}

impl Record {
    // A record in which nothing lies.
    pub fn zero() -> Record
        ensures { result ≡ zero_record }
    {
        let none = Stretch { from: 0, to: 0 };
        Record {
            nodes: [Node::Blank; 4],
            conditions: [Condition {
                place: 0,
                comparison: Comparison::Less,
                left: none,
                right: none,
            }; 4],
            items: [Item {
                factor: 0,
                atom: Atom::One,
            }; 4],
            params: [Param::Number; 4],
            entries: [Entry {
                place: 0,
                params: none,
                needs: none,
                gives: none,
                body: 0,
            }; 4],
            owed: None,
            row: None,
        }
    }
}

// Nothing lies in the records any more.
pub fn clear(records: &mut [Record])
    ensures { records.new ≡ replicate (length records.old) zero_record }
{
    records.fill(Record::zero());
}
