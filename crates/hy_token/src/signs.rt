// The signs and their spelling.

ghost use Rattle.std.specs.Prelude.{◌≡◌, [], ◌∷◌};
ghost use Rattle.hy_token.specs.Sign.{sign_spelling, sign_of};

use crate::Sign;

impl Sign {
    /// How the sign is written.
    pub fn spelling(self) -> &'static str
        ensures { result.now ≡ sign_spelling self }
    {
        match self {
            Sign::LeftParen => "(",
            Sign::RightParen => ")",
            Sign::Comma => ",",
            Sign::Semicolon => ";",
            Sign::Dot => ".",
            Sign::Star => "*",
            Sign::Plus => "+",
            Sign::Minus => "-",
            Sign::Bang => "!",
            Sign::Equal => "=",
            Sign::NotEqual => "<>",
            Sign::Less => "<",
            Sign::LessEqual => "<=",
            Sign::Greater => ">",
            Sign::GreaterEqual => ">=",
        }
    }

    /// The longest sign that stands first.
    #[inline(always)]
    pub fn first(bytes: &[u8]) -> Option<Sign>
        ensures { result ≡ sign_of bytes.now }
    {
        match bytes {
            [] => None,
            [byte] => Sign::of_byte(*byte),
            [byte, next, ..] => Sign::of_two(*byte, *next),
        }
    }

    /// The sign of one byte.
    #[tactic(auto, unfolding(crate::specs::Sign::sign_of))]
    fn of_byte(byte: u8) -> Option<Sign>
        ensures { result ≡ sign_of (byte ∷ []) }
    {
        match byte {
            b'(' => Some(Sign::LeftParen),
            b')' => Some(Sign::RightParen),
            b',' => Some(Sign::Comma),
            b';' => Some(Sign::Semicolon),
            b'.' => Some(Sign::Dot),
            b'*' => Some(Sign::Star),
            b'+' => Some(Sign::Plus),
            b'-' => Some(Sign::Minus),
            b'!' => Some(Sign::Bang),
            b'=' => Some(Sign::Equal),
            b'<' => Some(Sign::Less),
            b'>' => Some(Sign::Greater),
            _ => None,
        }
    }

    /// The longest sign that two bytes begin with.
    #[tactic(auto, unfolding(crate::specs::Sign::sign_of))]
    fn of_two(byte: u8, next: u8) -> Option<Sign>
        ensures { result ≡ sign_of (byte ∷ next ∷ []) }
    {
        match (byte, next) {
            (b'<', b'>') => Some(Sign::NotEqual),
            (b'<', b'=') => Some(Sign::LessEqual),
            (b'>', b'=') => Some(Sign::GreaterEqual),
            _ => Sign::of_byte(byte),
        }
    }
}
