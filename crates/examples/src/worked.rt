use domains::Linear;
use engine::{Draft, Duty, End, Ending, Part, Record, Refusal, make};
use provers::FourierMotzkin;

// Which obligations of a sheet are settled before its book is run.
#[derive(Clone, Copy, Debug, PartialEq, Eq)]
pub enum Settled {
    Nothing,
    Guards,
    All,
}

// A sheet of one rule, what is settled of it, what its book is run on, and how the run must be answered.
#[derive(Clone, Copy)]
pub struct Worked {
    pub text: &'static str,
    pub settled: Settled,
    pub fuel: u32,
    pub number: i32,
    pub parts: &'static [Part],
    pub cells: &'static [i32],
    pub answer: Result<End, Refusal>,
}

const PICK: &str = "rule pick(a[n], b[m], i) needs 0 <= i, i < n = b[a[i]];";

const TOTAL: &str =
    "rule total(a[n], i) needs 0 <= i = if i < n then a[i] + total(a, i + 1) else 0;";

const PAIRS: [Part; 2] = [
    Part {
        start: 0,
        length: 2,
    },
    Part {
        start: 2,
        length: 2,
    },
];

const PAIR: [Part; 1] = [Part {
    start: 0,
    length: 2,
}];

const NONE: [Part; 1] = [Part {
    start: 0,
    length: 0,
}];

const LONG: [Part; 1] = [Part {
    start: 0,
    length: 666,
}];

const TOO_LONG: [Part; 1] = [Part {
    start: 0,
    length: 667,
}];

const ONES: [i32; 667] = [1; 667];

// The examples that the definitions are shown to give by computing, in the same order.
pub const WORKED: [Worked; 9] = [
    Worked {
        text: PICK,
        settled: Settled::Nothing,
        fuel: 1_000_000,
        number: 0,
        parts: &PAIRS,
        cells: &[1, 0, 7, 9],
        answer: Ok(End {
            kind: Ending::Value,
            value: 9,
            place: 0,
            steps: 3,
            checks: 4,
        }),
    },
    Worked {
        text: PICK,
        settled: Settled::Nothing,
        fuel: 2,
        number: 0,
        parts: &PAIRS,
        cells: &[1, 0, 7, 9],
        answer: Ok(End {
            kind: Ending::Spent,
            value: 0,
            place: 51,
            steps: 2,
            checks: 0,
        }),
    },
    Worked {
        text: PICK,
        settled: Settled::Nothing,
        fuel: 1_000_000,
        number: 0,
        parts: &PAIRS,
        cells: &[2, 0, 7, 9],
        answer: Ok(End {
            kind: Ending::Above,
            value: 0,
            place: 47,
            steps: 3,
            checks: 4,
        }),
    },
    Worked {
        text: PICK,
        settled: Settled::Nothing,
        fuel: 1_000_000,
        number: 2,
        parts: &PAIRS,
        cells: &[0, 0, 0, 0],
        answer: Err(Refusal::Needs { named: 1 }),
    },
    Worked {
        text: TOTAL,
        settled: Settled::Nothing,
        fuel: 1_000_000,
        number: 0,
        parts: &NONE,
        cells: &[],
        answer: Err(Refusal::Closed {
            named: 2,
            place: 56,
        }),
    },
    Worked {
        text: TOTAL,
        settled: Settled::Guards,
        fuel: 1_000_000,
        number: 0,
        parts: &PAIR,
        cells: &[2, 3],
        answer: Ok(End {
            kind: Ending::Value,
            value: 5,
            place: 0,
            steps: 24,
            checks: 4,
        }),
    },
    Worked {
        text: TOTAL,
        settled: Settled::All,
        fuel: 1_000_000,
        number: 0,
        parts: &PAIR,
        cells: &[2, 3],
        answer: Ok(End {
            kind: Ending::Value,
            value: 5,
            place: 0,
            steps: 24,
            checks: 0,
        }),
    },
    Worked {
        text: TOTAL,
        settled: Settled::Guards,
        fuel: 1_000_000,
        number: 0,
        parts: &LONG,
        cells: &ONES,
        answer: Ok(End {
            kind: Ending::Value,
            value: 666,
            place: 0,
            steps: 6664,
            checks: 1332,
        }),
    },
    Worked {
        text: TOTAL,
        settled: Settled::Guards,
        fuel: 1_000_000,
        number: 0,
        parts: &TOO_LONG,
        cells: &ONES,
        answer: Ok(End {
            kind: Ending::Deep,
            value: 0,
            place: 49,
            steps: 6665,
            checks: 1332,
        }),
    },
];

fn settle(draft: &mut Draft<'_>, settled: Settled) {
    for number in 0..draft.owed() {
        let guard = draft
            .obligation(number)
            .is_ok_and(|listed| listed.duty == Duty::Guard);
        if settled == Settled::All || settled == Settled::Guards && guard {
            // Elimination settles all of these sheets; what it did not settle would show in the run.
            let _answer = draft.settle(number, &Linear, &FourierMotzkin);
        }
    }
}

// How the book's run and the full run are answered, over cells of their own.
pub fn answers(
    example: Worked,
    records: &mut [Record],
    cells: &mut [i32],
    others: &mut [i32],
) -> (Result<End, Refusal>, Result<End, Refusal>) {
    let mut draft = make(example.text.as_bytes(), -1_000_000, 1_000_000, records);
    settle(&mut draft, example.settled);
    let book = draft.clear();
    let numbers = [example.number];
    (
        book.run(0, example.fuel, &numbers, example.parts, cells),
        book.full_run(0, example.fuel, &numbers, example.parts, others),
    )
}
