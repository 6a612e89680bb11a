// The reserved words and their spelling.

ghost use Rattle.std.specs.Prelude.{◌≡◌};
ghost use Rattle.std.specs.Char.{to_ascii_lowercase};
ghost use Rattle.hy_token.specs.Keyword.{word_spelling, same_but_case, keyword_of};
ghost use Rattle.hy_token.specs.Letters.{candidate, reserved};

use crate::Keyword;

/// The one reserved word that a word of this length with these first two bytes can be, in any ASCII case.
fn candidate(len: usize, first: u8, second: u8) -> Option<Keyword>
    ensures { result ≡ candidate len (to_ascii_lowercase first) (to_ascii_lowercase second) }
{
    match (len, first.to_ascii_lowercase(), second.to_ascii_lowercase()) {
        (2, b'b', _) => Some(Keyword::By),
        (2, b'i', _) => Some(Keyword::Is),
        (2, b'o', b'n') => Some(Keyword::On),
        (2, b'o', b'r') => Some(Keyword::Or),
        (2, b't', _) => Some(Keyword::To),
        (3, b'a', _) => Some(Keyword::And),
        (3, b'e', _) => Some(Keyword::End),
        (3, b'i', _) => Some(Keyword::Int),
        (3, b'k', _) => Some(Keyword::Key),
        (3, b'n', _) => Some(Keyword::Not),
        (3, b's', b'e') => Some(Keyword::Set),
        (3, b's', b'u') => Some(Keyword::Sum),
        (4, b'f', _) => Some(Keyword::From),
        (4, b'i', _) => Some(Keyword::Into),
        (4, b'j', _) => Some(Keyword::Join),
        (4, b'n', _) => Some(Keyword::Null),
        (4, b'o', _) => Some(Keyword::Only),
        (4, b'r', _) => Some(Keyword::Read),
        (4, b't', _) => Some(Keyword::Text),
        (5, b'b', _) => Some(Keyword::Begin),
        (5, b'c', _) => Some(Keyword::Count),
        (5, b'g', _) => Some(Keyword::Group),
        (5, b't', _) => Some(Keyword::Table),
        (5, b'w', _) => Some(Keyword::Where),
        (6, b'c', b'o') => Some(Keyword::Commit),
        (6, b'c', b'r') => Some(Keyword::Create),
        (6, b'd', _) => Some(Keyword::Delete),
        (6, b'i', _) => Some(Keyword::Insert),
        (6, b's', _) => Some(Keyword::Select),
        (6, b'u', _) => Some(Keyword::Update),
        (6, b'v', _) => Some(Keyword::Values),
        (7, b'p', _) => Some(Keyword::Primary),
        (7, b'r', _) => Some(Keyword::Release),
        (7, b's', _) => Some(Keyword::Session),
        (8, b'r', _) => Some(Keyword::Rollback),
        (8, b's', _) => Some(Keyword::Schedule),
        (9, b's', _) => Some(Keyword::Savepoint),
        _ => None,
    }
}

/// Whether two words are the same but for the case of ASCII letters.
fn is_same_but_case(a: &[u8], b: &[u8]) -> bool
    ensures { result ≡ same_but_case a.now b.now }
{
    if a.len() != b.len() {
        return false;
    }
    for i in 0..a.len() {
        // Most words are written in capital letters.
        if a[i] != b[i] && !a[i].eq_ignore_ascii_case(&b[i]) {
            return false;
        }
    }
    true
}

impl Keyword {
    /// The word in capital letters.
    pub fn spelling(self) -> &'static str
        ensures { result.now ≡ word_spelling self }
    {
        match self {
            Keyword::And => "AND",
            Keyword::Begin => "BEGIN",
            Keyword::By => "BY",
            Keyword::Commit => "COMMIT",
            Keyword::Count => "COUNT",
            Keyword::Create => "CREATE",
            Keyword::Delete => "DELETE",
            Keyword::End => "END",
            Keyword::From => "FROM",
            Keyword::Group => "GROUP",
            Keyword::Insert => "INSERT",
            Keyword::Int => "INT",
            Keyword::Into => "INTO",
            Keyword::Is => "IS",
            Keyword::Join => "JOIN",
            Keyword::Key => "KEY",
            Keyword::Not => "NOT",
            Keyword::Null => "NULL",
            Keyword::On => "ON",
            Keyword::Only => "ONLY",
            Keyword::Or => "OR",
            Keyword::Primary => "PRIMARY",
            Keyword::Read => "READ",
            Keyword::Release => "RELEASE",
            Keyword::Rollback => "ROLLBACK",
            Keyword::Savepoint => "SAVEPOINT",
            Keyword::Schedule => "SCHEDULE",
            Keyword::Select => "SELECT",
            Keyword::Session => "SESSION",
            Keyword::Set => "SET",
            Keyword::Sum => "SUM",
            Keyword::Table => "TABLE",
            Keyword::Text => "TEXT",
            Keyword::To => "TO",
            Keyword::Update => "UPDATE",
            Keyword::Values => "VALUES",
            Keyword::Where => "WHERE",
        }
    }

    /// The reserved word that `word` is, in any ASCII case.
    pub fn from_word(word: &[u8]) -> Option<Keyword>
        ensures { result ≡ keyword_of word.now }
    {
        let [first, second, ..] = word else {
            return None;
        };
        let keyword = candidate(word.len(), *first, *second)?;
        is_same_but_case(keyword.spelling().as_bytes(), word).then_some(keyword)
    }
}

/// The reserved word of this many letters, at most eight, whose letters in lower case are this number: 0x61 is `a`.
#[inline(always)]
pub fn reserved(len: usize, letters: u64) -> Option<Keyword>
    ensures { result ≡ reserved len letters }
{
    match (len, letters) {
        (2, 0x62_79) => Some(Keyword::By),
        (2, 0x69_73) => Some(Keyword::Is),
        (2, 0x6f_6e) => Some(Keyword::On),
        (2, 0x6f_72) => Some(Keyword::Or),
        (2, 0x74_6f) => Some(Keyword::To),
        (3, 0x61_6e_64) => Some(Keyword::And),
        (3, 0x65_6e_64) => Some(Keyword::End),
        (3, 0x69_6e_74) => Some(Keyword::Int),
        (3, 0x6b_65_79) => Some(Keyword::Key),
        (3, 0x6e_6f_74) => Some(Keyword::Not),
        (3, 0x73_65_74) => Some(Keyword::Set),
        (3, 0x73_75_6d) => Some(Keyword::Sum),
        (4, 0x66_72_6f_6d) => Some(Keyword::From),
        (4, 0x69_6e_74_6f) => Some(Keyword::Into),
        (4, 0x6a_6f_69_6e) => Some(Keyword::Join),
        (4, 0x6e_75_6c_6c) => Some(Keyword::Null),
        (4, 0x6f_6e_6c_79) => Some(Keyword::Only),
        (4, 0x72_65_61_64) => Some(Keyword::Read),
        (4, 0x74_65_78_74) => Some(Keyword::Text),
        (5, 0x62_65_67_69_6e) => Some(Keyword::Begin),
        (5, 0x63_6f_75_6e_74) => Some(Keyword::Count),
        (5, 0x67_72_6f_75_70) => Some(Keyword::Group),
        (5, 0x74_61_62_6c_65) => Some(Keyword::Table),
        (5, 0x77_68_65_72_65) => Some(Keyword::Where),
        (6, 0x63_6f_6d_6d_69_74) => Some(Keyword::Commit),
        (6, 0x63_72_65_61_74_65) => Some(Keyword::Create),
        (6, 0x64_65_6c_65_74_65) => Some(Keyword::Delete),
        (6, 0x69_6e_73_65_72_74) => Some(Keyword::Insert),
        (6, 0x73_65_6c_65_63_74) => Some(Keyword::Select),
        (6, 0x75_70_64_61_74_65) => Some(Keyword::Update),
        (6, 0x76_61_6c_75_65_73) => Some(Keyword::Values),
        (7, 0x70_72_69_6d_61_72_79) => Some(Keyword::Primary),
        (7, 0x72_65_6c_65_61_73_65) => Some(Keyword::Release),
        (7, 0x73_65_73_73_69_6f_6e) => Some(Keyword::Session),
        (8, 0x72_6f_6c_6c_62_61_63_6b) => Some(Keyword::Rollback),
        (8, 0x73_63_68_65_64_75_6c_65) => Some(Keyword::Schedule),
        _ => None,
    }
}
