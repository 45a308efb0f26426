// The numbers of the texts that the language knows: the place of each in the list of `Names::new`.

/// `[]`, the empty list.
pub const NIL: u64 = 0;

/// `.`, the name of list cells.
pub const CELL: u64 = 1;

/// `{}`.
pub const BRACES: u64 = 2;

/// `,`.
pub const COMMA: u64 = 3;

/// `|`.
pub const BAR: u64 = 4;

/// `!`.
pub const CUT: u64 = 5;

/// `;`.
pub const SEMICOLON: u64 = 6;

/// `$exit`.
pub const EXIT: u64 = 7;

/// `true`.
pub const TRUE: u64 = 8;

/// `fail`.
pub const FAIL: u64 = 9;

/// `false`.
pub const FALSE: u64 = 10;

/// `check`.
pub const CHECK: u64 = 11;

/// `trust`.
pub const TRUST: u64 = 12;

/// `checked`.
pub const CHECKED: u64 = 13;

/// `library`.
pub const LIBRARY: u64 = 14;

/// `:-`.
pub const NECK: u64 = 15;

/// `-->`.
pub const GRAMMAR_ARROW: u64 = 16;

/// `?-`.
pub const QUERY: u64 = 17;

/// `:=`.
pub const DEFINES: u64 = 18;

/// `pred`.
pub const PRED: u64 = 19;

/// `calls`.
pub const CALLS: u64 = 20;

/// `success`.
pub const SUCCESS: u64 = 21;

/// `comp`.
pub const COMP: u64 = 22;

/// `entry`.
pub const ENTRY: u64 = 23;

/// `regtype`.
pub const REGTYPE: u64 = 24;

/// `->`.
pub const ARROW: u64 = 25;

/// `?`.
pub const QUESTION: u64 = 26;

/// `#`.
pub const HASH: u64 = 27;

/// `=>`.
pub const IMPLIES: u64 = 28;

/// `\+`.
pub const NEGATION: u64 = 29;

/// `=`.
pub const EQUALS: u64 = 30;

/// `\=`.
pub const NOT_EQUALS: u64 = 31;

/// `==`.
pub const SAME: u64 = 32;

/// `\==`.
pub const NOT_SAME: u64 = 33;

/// `@<`.
pub const BEFORE: u64 = 34;

/// `@>`.
pub const AFTER: u64 = 35;

/// `@=<`.
pub const BEFORE_OR_SAME: u64 = 36;

/// `@>=`.
pub const AFTER_OR_SAME: u64 = 37;

/// `=..`.
pub const UNIV: u64 = 38;

/// `is`.
pub const IS: u64 = 39;

/// `=:=`.
pub const NUMBER_EQUALS: u64 = 40;

/// `=\=`.
pub const NUMBER_NOT_EQUALS: u64 = 41;

/// `<`.
pub const LESS: u64 = 42;

/// `>`.
pub const GREATER: u64 = 43;

/// `=<`.
pub const LESS_OR_EQUAL: u64 = 44;

/// `>=`.
pub const GREATER_OR_EQUAL: u64 = 45;

/// `:`.
pub const COLON: u64 = 46;

/// `+`.
pub const PLUS: u64 = 47;

/// `-`.
pub const MINUS: u64 = 48;

/// `*`.
pub const TIMES: u64 = 49;

/// `/`.
pub const SLASH: u64 = 50;

/// `//`.
pub const QUOTIENT: u64 = 51;

/// `rem`.
pub const REMAINDER: u64 = 52;

/// `mod`.
pub const MODULO: u64 = 53;

/// `**`.
pub const POWER: u64 = 54;

/// `^`.
pub const CARET: u64 = 55;

/// `~`.
pub const TILDE: u64 = 56;

/// `integer`.
pub const INTEGER: u64 = 57;

/// `atom`.
pub const ATOM: u64 = 58;

/// `write`.
pub const WRITE: u64 = 59;

/// `writeq`.
pub const WRITEQ: u64 = 60;

/// `nl`.
pub const NL: u64 = 61;

/// `term`.
pub const TERM: u64 = 62;

/// `int`.
pub const INT: u64 = 63;

/// `nnegint`.
pub const NNEGINT: u64 = 64;

/// `num`.
pub const NUM: u64 = 65;

/// `atm`.
pub const ATM: u64 = 66;

/// `gnd`.
pub const GND: u64 = 67;

/// `constant`.
pub const CONSTANT: u64 = 68;

/// `struct`.
pub const STRUCT: u64 = 69;

/// `callable`.
pub const CALLABLE: u64 = 70;

/// `list`.
pub const LIST: u64 = 71;

/// `var`.
pub const VAR: u64 = 72;

/// `nonvar`.
pub const NONVAR: u64 = 73;

/// `ground`.
pub const GROUND: u64 = 74;
