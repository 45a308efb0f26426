// Classes of bytes.
ghost use Rattle.std.specs.Prelude.{◌≡◌};
ghost use Rattle.ciao_tokens.specs.Layout.{is_blank};
ghost use Rattle.ciao_tokens.specs.Classes.{is_mark, is_solo_byte, sign_class, class_of};

use term_core::is_symbol;

/// What the first byte of a piece says about it.
#[derive(Clone, Copy, Drop)]
pub(crate) enum Class {
    Lower,
    Upper,
    Digit,
    Symbol,
    Blank,
    Sign,
    Solo,
    Percent,
    Quote,
    DoubleQuote,
    Other,
}

pub(crate) fn is_blank(byte: u8) -> bool
    ensures { result ≡ is_blank byte }
{
    byte == b' ' || byte == b'\t' || byte == b'\n' || byte == b'\r'
}

fn is_mark(byte: u8) -> bool
    ensures { result ≡ is_mark byte }
{
    b"()[]{},|".iter().any(|mark| byte == *mark)
}

fn is_solo(byte: u8) -> bool
    ensures { result ≡ is_solo_byte byte }
{
    byte == b'!' || byte == b';'
}

fn sign_class(byte: u8) -> Class
    ensures { result ≡ sign_class byte }
{
    if is_symbol(byte) {
        Class::Symbol
    } else if is_blank(byte) {
        Class::Blank
    } else if is_mark(byte) {
        Class::Sign
    } else if is_solo(byte) {
        Class::Solo
    } else if byte == b'%' {
        Class::Percent
    } else if byte == b'\'' {
        Class::Quote
    } else if byte == b'"' {
        Class::DoubleQuote
    } else {
        Class::Other
    }
}

/// The class of a byte.
pub(crate) fn class_of(byte: u8) -> Class
    ensures { result ≡ class_of byte }
{
    if byte.is_ascii_lowercase() {
        Class::Lower
    } else if byte.is_ascii_uppercase() || byte == b'_' {
        Class::Upper
    } else if byte.is_ascii_digit() {
        Class::Digit
    } else {
        sign_class(byte)
    }
}
