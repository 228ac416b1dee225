//! The faults of a line, and which of several is answered.

ghost use Rattle.std.specs.Prelude.{◌≡◌};
ghost use Rattle.script_faults.specs.Faults.{rank, code, earlier, unless};

use thiserror::Error;

/// What is wrong with a line.
#[derive(Clone, Copy, Debug, PartialEq, Eq, Error)]
pub enum Fault {
    /// A limit is passed.
    #[error("a limit is passed")]
    Limit,
    /// A word or a byte is unknown.
    #[error("an unknown word or byte")]
    Unknown,
    /// Such a line stands in other modes.
    #[error("a line of another mode")]
    OtherMode,
    /// A declaration stands behind the first action.
    #[error("a declaration behind the first action")]
    Late,
    /// An option, a number, a name or the count of words is bad.
    #[error("a bad option, number, name or count of words")]
    Malformed,
    #[error("a bad alias")]
    BadAlias,
    #[error("an unknown policy")]
    UnknownPolicy,
    /// A UUID is bad.
    #[error("a bad UUID")]
    BadServer,
    /// A moment or a duration is bad.
    #[error("a bad moment or duration")]
    BadTime,
    /// It is declared twice.
    #[error("declared twice")]
    Twice,
    /// It is not declared.
    #[error("not declared")]
    Undeclared,
}

impl Fault {
    /// The number that is printed.
    pub fn code(self) -> u8
        ensures { result ≡ code self }
    {
        match self {
            Fault::Unknown => 1,
            Fault::BadAlias => 2,
            Fault::BadServer => 3,
            Fault::UnknownPolicy => 4,
            Fault::Twice => 5,
            Fault::Undeclared => 6,
            Fault::Malformed => 7,
            Fault::Limit => 8,
            Fault::BadTime => 9,
            Fault::Late => 10,
            Fault::OtherMode => 11,
        }
    }

    /// The place in the order in which faults are answered.
    fn rank(self) -> u8
        ensures { result ≡ rank self }
    {
        match self {
            Fault::Limit => 0,
            Fault::Unknown => 1,
            Fault::OtherMode => 2,
            Fault::Late => 3,
            Fault::Malformed => 4,
            Fault::BadAlias => 5,
            Fault::UnknownPolicy => 6,
            Fault::BadServer => 7,
            Fault::BadTime => 8,
            Fault::Twice => 9,
            Fault::Undeclared => 10,
        }
    }
}

/// Of two faults the one that is answered.
pub fn earlier(one: Option<Fault>, other: Option<Fault>) -> Option<Fault>
    ensures { result ≡ earlier one other }
{
    match one {
        None => other,
        Some(fault) => match other {
            None => one,
            Some(next) => {
                if fault.rank() <= next.rank() {
                    one
                } else {
                    other
                }
            }
        },
    }
}

/// The fault, where what should hold does not.
pub fn unless(holds: bool, fault: Fault) -> Option<Fault>
    ensures { result ≡ unless holds fault }
{
    if holds { None } else { Some(fault) }
}
