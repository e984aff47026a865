// The kinds of lines, each with its words.
ghost use Rattle.std.specs.Prelude.{◌≡◌};
ghost use Rattle.line.specs.Forms.{form_seen, kind_seen, kind_number};
ghost use Rattle.line.specs.Lines.{belongs, ending, line_seen, key_of_line};

use keys::Key;
use words::{Number, Word};

// The two kinds of files.
#[derive(Clone, Copy, Debug, PartialEq, Eq)]
pub enum File {
    Protocol,
    Proposal,
}

impl File {
    // Whether it has lines of this key.
    pub fn has(self, key: Key) -> bool
        ensures whether_the_key_belongs_there { result ≡ belongs self key }
    {
        match self {
            File::Protocol => !matches!(key, Key::Proposal | Key::Inv | Key::Cause),
            File::Proposal => matches!(
                key,
                Key::Proposal | Key::Term | Key::Inv | Key::Cause | Key::End
            ),
        }
    }

    // The word after `end=`.
    pub fn ending(self) -> &'static [u8]
        ensures the_word_that_ends_the_file { result.now ≡ ending self }
    {
        match self {
            File::Protocol => b"protocol",
            File::Proposal => b"proposal",
        }
    }
}

// What a `term` line says. Beside the `Term` of a table, which holds numbers and no words of the file, so that it outlives the
// text.
#[derive(Clone, Copy)]
pub enum Form<'a> {
    Var {
        name: Word<'a>,
    },
    Val {
        of: Word<'a>,
        value: Word<'a>,
    },
    True,
    False,
    Eq {
        left: Number,
        right: Number,
    },
    Not {
        of: Number,
    },
    And {
        left: Number,
        right: Number,
    },
    Or {
        left: Number,
        right: Number,
    },
    Imp {
        left: Number,
        right: Number,
    },
    Ite {
        test: Number,
        yes: Number,
        no: Number,
    },
}

// Why a rule keeps an invariant, with its partner by name. Beside the `Cause` of a claim, which has it by number: one type for both
// would give each definition over causes a parameter.
#[derive(Clone, Copy)]
pub enum Kind<'a> {
    // The guard alone ensures that the invariant is true after the assignments.
    Guard,
    // The assignments, put into the invariant's formula, leave that formula as it is.
    Unchanged,
    // The guard and this invariant together ensure it.
    Partner { name: Word<'a> },
}

// A line of a file. Its names are parts of the file, beside their columns; its numbers have their columns too.
#[derive(Clone, Copy)]
pub enum Line<'a> {
    Protocol {
        name: Word<'a>,
    },
    // The values stay together: two or more names with single spaces between them.
    Type {
        name: Word<'a>,
        values: Word<'a>,
    },
    Var {
        name: Word<'a>,
        of: Word<'a>,
    },
    Term {
        form: Form<'a>,
    },
    Init {
        formula: Number,
    },
    Rule {
        name: Word<'a>,
        guard: Number,
    },
    Set {
        variable: Word<'a>,
        term: Number,
    },
    End,
    Proposal {
        name: Word<'a>,
    },
    Inv {
        name: Word<'a>,
        formula: Number,
    },
    Cause {
        rule: Word<'a>,
        invariant: Word<'a>,
        kind: Kind<'a>,
    },
}

impl Kind<'_> {
    // Its number, as it is written.
    pub fn number(&self) -> u8
        ensures the_number_of_the_kind { result ≡ kind_number (kind_seen self.now) }
    {
        match self {
            Kind::Guard => 1,
            Kind::Unchanged => 2,
            Kind::Partner { .. } => 3,
        }
    }
}

impl Line<'_> {
    // Its key, whose number is that of its kind.
    pub fn key(&self) -> Key
        ensures the_key_of_the_line { result ≡ key_of_line (line_seen self.now) }
    {
        match self {
            Line::Protocol { .. } => Key::Protocol,
            Line::Type { .. } => Key::Type,
            Line::Var { .. } => Key::Var,
            Line::Term { .. } => Key::Term,
            Line::Init { .. } => Key::Init,
            Line::Rule { .. } => Key::Rule,
            Line::Set { .. } => Key::Set,
            Line::End => Key::End,
            Line::Proposal { .. } => Key::Proposal,
            Line::Inv { .. } => Key::Inv,
            Line::Cause { .. } => Key::Cause,
        }
    }
}
