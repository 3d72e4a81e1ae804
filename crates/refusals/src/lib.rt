// A refusal, by the names that document 01 gives them. Contracts see one as its number: the definitions
// have the same names (specs/Numbers.antt).
#![tactic(auto)]

ghost use Rattle.std.specs.Prelude.{◌≡◌};

use std::marker::Model;

// 01's table: each name has the number of its row.
#[derive(Clone, Copy, Debug, PartialEq, Eq)]
enum Name {
    Size = 1,
    Magic,
    Sections,
    Kinds,
    String,
    Function,
    Id,
    Value,
    Inside,
    Empty,
    Limit,
    Field,
    Room,
    Absent,
    Job,
    File,
    Twice,
}

// Why a call is refused: the error of every `Result` here.
#[derive(Clone, Copy, Debug, PartialEq, Eq)]
pub struct Refusal {
    name: Name,
}

impl Model for Refusal {
    ghost use Rattle.std.specs.Prelude.{ℕ};

    ghost Value = { ℕ };

    ghost use Rattle.refusals.specs.Names.{number, of_number, number_back};

    ghost view = { number };

    ghost inverse = { of_number };

    ghost inverse_ok = { λ a h. number_back a };
}

impl Refusal {
    // The number that callers outside get.
    pub fn number(self) -> u8
        ensures { result ≡ self }
    {
        self.name as u8
    }
}

pub const SIZE: Refusal = Refusal { name: Name::Size };

pub const MAGIC: Refusal = Refusal { name: Name::Magic };

pub const SECTIONS: Refusal = Refusal {
    name: Name::Sections,
};

pub const KINDS: Refusal = Refusal { name: Name::Kinds };

pub const STRING: Refusal = Refusal { name: Name::String };

pub const FUNCTION: Refusal = Refusal {
    name: Name::Function,
};

pub const ID: Refusal = Refusal { name: Name::Id };

pub const VALUE: Refusal = Refusal { name: Name::Value };

pub const INSIDE: Refusal = Refusal { name: Name::Inside };

pub const EMPTY: Refusal = Refusal { name: Name::Empty };

pub const LIMIT: Refusal = Refusal { name: Name::Limit };

pub const FIELD: Refusal = Refusal { name: Name::Field };

pub const ROOM: Refusal = Refusal { name: Name::Room };

pub const ABSENT: Refusal = Refusal { name: Name::Absent };

pub const JOB: Refusal = Refusal { name: Name::Job };

pub const FILE: Refusal = Refusal { name: Name::File };

pub const TWICE: Refusal = Refusal { name: Name::Twice };
