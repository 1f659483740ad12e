//! What the definitions mean. Each law is the contract of a function without a body.
ghost use Rattle.pb_lines.specs.Laws.{NumbersAreDecimal, PartsAreJoined, PiecesAreJoined, ShortNumbersAreDigits, TextsAreEqual};

/// A text is cut at a byte if and only if it has such a byte: into the part before the first one,
/// and the part after it.
pub fn parts_are_joined()
    ensures { PartsAreJoined }
{}

/// A text has a rest after a piece if and only if it begins with the piece.
pub fn pieces_are_joined()
    ensures { PiecesAreJoined }
{}

/// A text is a piece if and only if both are the same.
pub fn texts_are_equal()
    ensures { TextsAreEqual }
{}

/// A word spells a number if and only if it is the decimal digits of the number, which is below
/// 2^63.
pub fn numbers_are_decimal()
    ensures { NumbersAreDecimal }
{}

/// A word spells a short number if and only if it is one to nine decimal digits, and the number is
/// their value.
pub fn short_numbers_are_digits()
    ensures { ShortNumbersAreDigits }
{}
