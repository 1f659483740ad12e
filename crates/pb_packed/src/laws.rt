//! Laws on fields of bits and on digits. Each is the contract of a function without a body.
ghost use Rattle.pb_packed.specs.Laws.{FieldsAreReplaced, DigitsAreHex, DigitsTellNumbers};

/// After a field of bits is replaced, it has the value. The bits above and below it are as before.
pub fn fields_are_replaced()
    ensures { FieldsAreReplaced }
{}

/// The digits of a number are hexadecimal digits in lower case, as many as are asked for.
pub fn digits_are_hex()
    ensures { DigitsAreHex }
{}

/// Two different numbers below 16 to the power of a count have different digits.
pub fn digits_tell_numbers()
    ensures { DigitsTellNumbers }
{}
