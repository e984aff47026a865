// The word that says which form a term has.
ghost use Rattle.std.specs.Prelude.{◌≡◌};
ghost use Rattle.line.specs.Operators.{operator_number, operator_of};

#[derive(Clone, Copy, Debug, PartialEq, Eq)]
pub enum Operator {
    Var,
    Val,
    True,
    False,
    Eq,
    Not,
    And,
    Or,
    Imp,
    Ite,
}

impl Operator {
    // Its number, in the order of the forms.
    pub fn number(self) -> u8
        ensures the_number_of_the_operator { result ≡ operator_number self }
    {
        self as u8
    }
}

// The operator that is written so.
pub fn find_operator(word: &[u8]) -> Option<Operator>
    ensures the_operator_or_none { result ≡ operator_of word.now }
{
    match word {
        b"var" => Some(Operator::Var),
        b"val" => Some(Operator::Val),
        b"true" => Some(Operator::True),
        b"false" => Some(Operator::False),
        b"eq" => Some(Operator::Eq),
        b"not" => Some(Operator::Not),
        b"and" => Some(Operator::And),
        b"or" => Some(Operator::Or),
        b"imp" => Some(Operator::Imp),
        b"ite" => Some(Operator::Ite),
        _ => None,
    }
}
