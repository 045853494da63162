//! How each line of a script is written.

/// What a word stands for.
#[derive(Clone, Copy)]
pub(crate) enum Kind {
    Label,
    Key,
    Value,
    End,
    Number,
    Call,
    Amount,
    Look,
    Limit,
    Component,
    Device,
}

impl Kind {
    /// The kind that a letter of a form stands for.
    pub(crate) fn of(letter: &str) -> Kind {
        match letter {
            "T" => Kind::Label,
            "V" => Kind::Value,
            "E" => Kind::End,
            "N" => Kind::Number,
            "M" => Kind::Call,
            "A" => Kind::Amount,
            "L" => Kind::Look,
            "F" => Kind::Limit,
            "C" => Kind::Component,
            "D" => Kind::Device,
            _ => Kind::Key,
        }
    }

    /// A word of this kind.
    pub(crate) fn sample(self) -> &'static [u8] {
        match self {
            Kind::Label | Kind::Key | Kind::Value | Kind::End => b"k",
            Kind::Number | Kind::Call | Kind::Amount => b"1",
            Kind::Look => b"back",
            Kind::Limit => b"first",
            Kind::Component => b"tc",
            Kind::Device => b"pages",
        }
    }

    /// The letter by which the help names it.
    pub(crate) fn letter(self) -> &'static str {
        match self {
            Kind::Label => "T",
            Kind::Key | Kind::End => "K",
            Kind::Value => "V",
            Kind::Number | Kind::Call | Kind::Amount => "N",
            Kind::Look => "back|count",
            Kind::Limit => "first|last",
            Kind::Component => "C",
            Kind::Device => "D",
        }
    }

    /// What a word of this kind is.
    pub(crate) fn meaning(self) -> &'static str {
        match self {
            Kind::Label => "a label: 1 to 8 lower case letters or digits",
            Kind::Key =>
                "a key: letters and digits, a dot, or # and 1 to 120 bytes of two lower case hexadecimal digits",
            Kind::Value =>
                "a value: letters and digits, a dot, or # and 1 to 120 bytes of two lower case hexadecimal digits",
            Kind::End => "the end of a range: a key, or * for none",
            Kind::Number => "a number: decimal, without leading zeros, below 2 to the power of 48",
            Kind::Call =>
                "the number of a call: decimal, without leading zeros, from 1, below 2 to the power of 48",
            Kind::Amount => "an amount: decimal, without leading zeros, below 2 to the power of 64",
            Kind::Look => "back or count",
            Kind::Limit => "first or last",
            Kind::Component => "a component: tc or dc",
            Kind::Device => "a device: tclog, dclog or pages",
        }
    }
}

/// Each line: its name, and a letter for each word that follows.
pub(crate) const FORMS: &str = "\
begin T
insert T K V
update T K V
upsert T K V
delete T K
add T K A
get T K
scan T K E
scan T K E L
scan T K E F N
prefix T K
prefix T K L
prefix T K F N
save T
back T N
rollback T
commit T
force
send T
undo T
low N
checkpoint
tell
req N
rep N
forget
split K
merge K
tend
flush K
crash C N N
restart C
fail D M
connect
recover
settle
settle N
table
log
leaves";

/// A line's name, and the letters of the words that follow.
pub(crate) fn parts_of(form: &str) -> (&str, &str) {
    match form.split_once(' ') {
        Some(parts) => parts,
        None => (form, ""),
    }
}
