// What a `cause` line claims.
ghost use Rattle.std.specs.Prelude.{◌≡◌};
ghost use Rattle.proposal.specs.Causes.{cause_number, partner_of};

// Why a rule keeps an invariant.
#[derive(Clone, Copy)]
pub enum Cause {
    // The guard alone ensures that the invariant is true after the assignments.
    Guard,
    // The assignments, put into the invariant's formula, leave that formula as it is.
    Unchanged,
    // The guard and the invariant of this number together ensure it.
    Partner(u16),
}

impl Cause {
    // Its number, as it is written.
    pub fn number(self) -> u8
        ensures the_number_of_the_cause { result ≡ cause_number self }
    {
        match self {
            Cause::Guard => 1,
            Cause::Unchanged => 2,
            Cause::Partner(_) => 3,
        }
    }

    // The number of the partner, if it has one.
    pub fn partner(self) -> Option<u16>
        ensures the_partner_if_it_has_one { result ≡ partner_of self }
    {
        match self {
            Cause::Partner(partner) => Some(partner),
            Cause::Guard | Cause::Unchanged => None,
        }
    }
}

// The claim that a rule keeps an invariant for this cause, and the line of the file that it stands on.
#[derive(Clone, Copy)]
pub struct Claim {
    pub rule: u16,
    pub invariant: u16,
    pub cause: Cause,
    pub line: usize,
}
