// Why a table or a precondition is refused.
ghost use Rattle.std.specs.Prelude.{◌≡◌};
ghost use Rattle.precondition.specs.Tables.{number as number_of};

use failures::Failure;

#[derive(Clone, Copy)]
pub enum Refusal {
    // The table has more than 512 terms.
    TooManyTerms,
    // An argument of a term is not the number of an earlier one.
    ArgumentNotEarlier,
    // The formula or an assignment names no term.
    NoSuchTerm,
    // More than 512 new terms.
    ScratchFull,
}

impl Refusal {
    // The number under which a report shows it.
    pub fn number(self) -> u8
        ensures the_number_of_the_refusal { result ≡ number_of self }
    {
        match self {
            Refusal::TooManyTerms => 10,
            Refusal::ArgumentNotEarlier | Refusal::NoSuchTerm => 8,
            Refusal::ScratchFull => 27,
        }
    }
}

// Why there is no table, or no precondition.
pub type Fault = Failure<Refusal>;
