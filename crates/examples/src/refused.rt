use language::Refusal;

// A text, and the refusal that reading it must end in.
#[derive(Clone, Copy)]
pub struct Refused {
    pub text: &'static str,
    pub refusal: Refusal,
}

pub const REFUSED: [Refused; 20] = [
    Refused {
        text: "rule f(x) = X;",
        refusal: Refusal::Letter { place: 12 },
    },
    Refused {
        text: "rule f(x) = x ! 1;",
        refusal: Refusal::Letter { place: 14 },
    },
    Refused {
        text: "rule f(x) = 1234567;",
        refusal: Refusal::Letter { place: 12 },
    },
    Refused {
        text: "rule a_very_long_name_() = 1;",
        refusal: Refusal::Letter { place: 5 },
    },
    Refused {
        text: "((((((((((((((((((((((((((((((((((((((((((((((((((((((((((((((((((",
        refusal: Refusal::Full { place: 64 },
    },
    Refused {
        text: "rule f() = 1",
        refusal: Refusal::Grammar { place: 12 },
    },
    Refused {
        text: "rule f(x) needs = 1;",
        refusal: Refusal::Grammar { place: 16 },
    },
    Refused {
        text: "rule f(x) = -x;",
        refusal: Refusal::Grammar { place: 12 },
    },
    Refused {
        text: "rule f(a,) = 1;",
        refusal: Refusal::Grammar { place: 9 },
    },
    Refused {
        text: "rule f(x) needs 2*3 < x = 1;",
        refusal: Refusal::Grammar { place: 18 },
    },
    Refused {
        text: "rule f(x) needs result < x = 1;",
        refusal: Refusal::Grammar { place: 16 },
    },
    Refused {
        text: "rule f(x) = x + let y = 1 in y;",
        refusal: Refusal::Grammar { place: 16 },
    },
    Refused {
        text: "rule f(x) = y;",
        refusal: Refusal::Name { place: 12 },
    },
    Refused {
        text: "rule f(x, x) = 1;",
        refusal: Refusal::Name { place: 10 },
    },
    Refused {
        text: "rule f(x) = (let y = x in y) + y;",
        refusal: Refusal::Name { place: 31 },
    },
    Refused {
        text: "rule f(a[n]) = a;",
        refusal: Refusal::Name { place: 15 },
    },
    Refused {
        text: "rule f(x) = x[0];",
        refusal: Refusal::Name { place: 12 },
    },
    Refused {
        text: "rule f(x) = f(x, 1);",
        refusal: Refusal::Name { place: 12 },
    },
    Refused {
        text: "rule f(a[n]) = f(a[0]);",
        refusal: Refusal::Name { place: 17 },
    },
    Refused {
        text: "rule f(a[b], c[d], e[g], h[i], j[k]) = 1;",
        refusal: Refusal::Full { place: 31 },
    },
];
