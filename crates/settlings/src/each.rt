ghost use Rattle.std.specs.Prelude.{length, List, Ok};
ghost use Rattle.language.specs.Tree.{Rule};
ghost use Rattle.language.specs.Drafts as Drafts;
ghost use Rattle.reading.specs.Reading.{Reads};
ghost use Rattle.settlings.specs.More.{GoesOn, AnswersSome};

use domains::Domain;
use engine::{Draft, Record, Refusal, make};
use provers::Prover;

// Tries to settle each obligation; what the draft was after a history, it is after a longer one.
pub(crate) fn settle_each<D: Domain, P: Prover>(draft: &mut Draft<'_>, domain: &D, prover: &P)
    ensures { (d : Drafts.Draft) → GoesOn draft.old draft.new d }
{
    for number in 0..draft.owed() {
        let _ = draft.settle(number, domain, prover);
    }
}

// Reads a sheet, tries to settle each obligation, and says whether it is ready: by the plain list of some history, if the text is read as rules.
pub(crate) fn settled_to_ready<D: Domain, P: Prover>(
    text: &[u8],
    low: i32,
    high: i32,
    records: &mut [Record],
    domain: &D,
    prover: &P,
) -> Result<(), Refusal>
    ensures { (rules : List Rule) → Reads text.now low high (length records.old) (Ok rules) → AnswersSome result (Drafts.sheet_of low high rules) }
{
    let mut draft = make(text, low, high, records);
    settle_each(&mut draft, domain, prover);
    draft.ready()
}
