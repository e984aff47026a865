// Knowing a line by its key.

#![tactic(auto)]

ghost use Rattle.std.specs.Prelude.{◌≡◌, [], ◌∷◌, length, MatchOption};
ghost use Rattle.keys.specs.Keys.{key_number, word, first_of, key_of, line_with, seen, Keyless};

#[derive(Clone, Copy, Debug, PartialEq, Eq)]
pub enum Key {
    Protocol,
    Type,
    Var,
    Term,
    Init,
    Rule,
    Set,
    End,
    Proposal,
    Inv,
    Cause,
}

impl Key {
    // Its number: a protocol file's keys in the order of their lines, then those that only a proposal file has.
    pub fn number(self) -> u8
        ensures the_number_of_the_key { result ≡ key_number self }
    {
        self as u8
    }

    // The word that it is written with.
    pub fn word(self) -> &'static str
        ensures the_word_of_the_key { result.now ≡ word self }
    {
        match self {
            Key::Protocol => "protocol",
            Key::Type => "type",
            Key::Var => "var",
            Key::Term => "term",
            Key::Init => "init",
            Key::Rule => "rule",
            Key::Set => "set",
            Key::End => "end",
            Key::Proposal => "proposal",
            Key::Inv => "inv",
            Key::Cause => "cause",
        }
    }

    // How many bytes its word and the equals sign take.
    pub fn width(self) -> u8
        ensures the_length_of_the_word_and_its_equals_sign { result ≡ length (line_with self []) }
    {
        self.word().len() as u8 + 1
    }
}

// The keys of four letters. Here and in the four functions below they are byte patterns in groups of one length: stripping off the
// word of one key after another takes a third more instructions a byte.
fn four_letters(line: &[u8]) -> Option<(Key, &[u8])>
    ensures the_key_and_what_follows { seen result ≡ first_of (Key.«Type» ∷ Key.Term ∷ Key.Init ∷ Key.Rule ∷ []) line.now }
{
    match line {
        [b't', b'y', b'p', b'e', b'=', rest @ ..] => Some((Key::Type, rest)),
        [b't', b'e', b'r', b'm', b'=', rest @ ..] => Some((Key::Term, rest)),
        [b'i', b'n', b'i', b't', b'=', rest @ ..] => Some((Key::Init, rest)),
        [b'r', b'u', b'l', b'e', b'=', rest @ ..] => Some((Key::Rule, rest)),
        _ => None,
    }
}

// The keys of three letters.
fn three_letters(line: &[u8]) -> Option<(Key, &[u8])>
    ensures the_key_and_what_follows { seen result ≡ first_of (Key.Var ∷ Key.Set ∷ Key.Inv ∷ Key.End ∷ []) line.now }
{
    match line {
        [b'v', b'a', b'r', b'=', rest @ ..] => Some((Key::Var, rest)),
        [b's', b'e', b't', b'=', rest @ ..] => Some((Key::Set, rest)),
        [b'i', b'n', b'v', b'=', rest @ ..] => Some((Key::Inv, rest)),
        [b'e', b'n', b'd', b'=', rest @ ..] => Some((Key::End, rest)),
        _ => None,
    }
}

// The key that names a protocol.
fn of_a_protocol(line: &[u8]) -> Option<(Key, &[u8])>
    ensures the_key_and_what_follows { seen result ≡ first_of (Key.Protocol ∷ []) line.now }
{
    match line {
        [
            b'p',
            b'r',
            b'o',
            b't',
            b'o',
            b'c',
            b'o',
            b'l',
            b'=',
            rest @ ..,
        ] => Some((Key::Protocol, rest)),
        _ => None,
    }
}

// The key that names a proposal's protocol.
fn of_a_proposal(line: &[u8]) -> Option<(Key, &[u8])>
    ensures the_key_and_what_follows { seen result ≡ first_of (Key.Proposal ∷ []) line.now }
{
    match line {
        [
            b'p',
            b'r',
            b'o',
            b'p',
            b'o',
            b's',
            b'a',
            b'l',
            b'=',
            rest @ ..,
        ] => Some((Key::Proposal, rest)),
        _ => None,
    }
}

// The key of a cause.
fn of_a_cause(line: &[u8]) -> Option<(Key, &[u8])>
    ensures the_key_and_what_follows { seen result ≡ first_of (Key.Cause ∷ []) line.now }
{
    match line {
        [b'c', b'a', b'u', b's', b'e', b'=', rest @ ..] => Some((Key::Cause, rest)),
        _ => None,
    }
}

// The key of a line and what follows its equals sign, a part of the line; none where no key fits.
pub fn split_key(line: &[u8]) -> Option<(Key, &[u8])>
    ensures the_key_and_what_follows { seen result ≡ key_of line.now }
    ensures put_together_they_are_the_line_or_no_key_fits { MatchOption result (Keyless line.now) (λ p. line_with p.0 p.1.now ≡ line.now) }
{
    four_letters(line)
        .or_else(|| three_letters(line))
        .or_else(|| of_a_cause(line))
        .or_else(|| of_a_protocol(line))
        .or_else(|| of_a_proposal(line))
}
