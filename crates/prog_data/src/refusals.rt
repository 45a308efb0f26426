// Why a file set is not accepted.
ghost use Rattle.std.specs.Prelude.{◌≡◌};
ghost use Rattle.prog_data.specs.Refusals.{kind_word};

use crate::Place;

/// The rule of the language that a sentence or a file breaks.
#[derive(Clone, Copy, Drop, Debug)]
pub enum RefusalKind {
    NoFile,
    FileTooLarge,
    NotUtf8,
    BadToken,
    IntRange,
    Syntax,
    TooDeep,
    OpRefused,
    NoEnd,
    BadModule,
    UnknownDirective,
    UnknownPackage,
    UnknownLibrary,
    TooManyFiles,
    BadExpansion,
    BadRegtype,
    UnknownProperty,
    BadAssertion,
    BadClause,
    NotExported,
    Ambiguous,
    Undefined,
    TooManyNames,
}

/// A refusal and its place.
#[derive(Clone, Copy, Drop, Debug)]
pub struct Refusal {
    pub place: Place,
    pub kind: RefusalKind,
}

/// The word that names a kind of refusal in a text.
pub fn kind_word(kind: RefusalKind) -> &'static str
    ensures { result.now ≡ kind_word kind }
{
    match kind {
        RefusalKind::NoFile => "NoFile",
        RefusalKind::FileTooLarge => "FileTooLarge",
        RefusalKind::NotUtf8 => "NotUtf8",
        RefusalKind::BadToken => "BadToken",
        RefusalKind::IntRange => "IntRange",
        RefusalKind::Syntax => "Syntax",
        RefusalKind::TooDeep => "TooDeep",
        RefusalKind::OpRefused => "OpRefused",
        RefusalKind::NoEnd => "NoEnd",
        RefusalKind::BadModule => "BadModule",
        RefusalKind::UnknownDirective => "UnknownDirective",
        RefusalKind::UnknownPackage => "UnknownPackage",
        RefusalKind::UnknownLibrary => "UnknownLibrary",
        RefusalKind::TooManyFiles => "TooManyFiles",
        RefusalKind::BadExpansion => "BadExpansion",
        RefusalKind::BadRegtype => "BadRegtype",
        RefusalKind::UnknownProperty => "UnknownProperty",
        RefusalKind::BadAssertion => "BadAssertion",
        RefusalKind::BadClause => "BadClause",
        RefusalKind::NotExported => "NotExported",
        RefusalKind::Ambiguous => "Ambiguous",
        RefusalKind::Undefined => "Undefined",
        RefusalKind::TooManyNames => "TooManyNames",
    }
}
