//! What a fact of a disk is made of.

ghost use Rattle.std.specs.Prelude.{◌≡◌};
ghost use Rattle.disk_commands.specs.FactViews.{field_of};
ghost use Rattle.disk_commands.specs.rules.Facts.{Number, Word};

/// A number, a word of this program's, or a text from outside, which may be no UTF-8.
#[derive(Drop)]
pub(super) enum Scalar<'a> {
    Number(u64),
    Word(&'a str),
    Text(&'a [u8]),
}

/// A named part of a value.
#[derive(Drop)]
pub(super) struct Field<'a> {
    pub(super) name: &'static str,
    pub(super) scalar: Scalar<'a>,
}

impl<'a> Field<'a> {
    pub(super) fn of_number(name: &'static str, number: u64) -> Field<'a>
        ensures { field_of result ≡ (name.now, Number number) }
    {
        Field {
            name,
            scalar: Scalar::Number(number),
        }
    }

    pub(super) fn of_word(name: &'static str, word: &'a str) -> Field<'a>
        ensures { field_of result ≡ (name.now, Word word.now) }
    {
        Field {
            name,
            scalar: Scalar::Word(word),
        }
    }
}

#[derive(Drop)]
pub(super) enum FactValue<'a> {
    Plain(Scalar<'a>),
    /// A scalar whose name is told, too.
    Tagged(Field<'a>),
    Fields(Vec<Field<'a>>),
}

#[derive(Drop)]
pub(super) enum Fact<'a> {
    Single {
        name: &'static str,
        value: FactValue<'a>,
    },
    /// Any number of values.
    Listed {
        /// The name of each.
        each: &'static str,
        /// The name of all.
        all: &'static str,
        values: Vec<FactValue<'a>>,
    },
}
