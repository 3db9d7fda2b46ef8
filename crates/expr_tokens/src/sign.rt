//! The signs of the language.
ghost use Rattle.std.specs.Prelude.{◌≡◌};
ghost use Rattle.expr_tokens.specs.Tokens.{pair_of, single_of};

/// A sign, by what it is spelled.
#[derive(Clone, Copy, Debug, PartialEq, Eq)]
pub enum Sign {
    /// `(`
    Open,
    /// `)`
    Close,
    /// `,`
    Comma,
    /// `.`
    Dot,
    /// `:`
    Colon,
    /// `+`
    Plus,
    /// `-`
    Minus,
    /// `*`
    Times,
    /// `/`
    Divide,
    /// `%`
    Rest,
    /// `!`
    Not,
    /// `=`
    Assign,
    /// `==`
    Equal,
    /// `!=`
    NotEqual,
    /// `<`
    Less,
    /// `<=`
    LessEqual,
    /// `>`
    Greater,
    /// `>=`
    GreaterEqual,
    /// `&&`
    And,
    /// `||`
    Or,
}

/// Returns the sign of two bytes.
pub(crate) fn pair(first: u8, second: u8) -> Option<Sign>
    ensures { result ≡ pair_of first second }
{
    if second == b'=' {
        return match first {
            b'=' => Some(Sign::Equal),
            b'!' => Some(Sign::NotEqual),
            b'<' => Some(Sign::LessEqual),
            b'>' => Some(Sign::GreaterEqual),
            _ => None,
        };
    }
    if first != second {
        return None;
    }
    match first {
        b'&' => Some(Sign::And),
        b'|' => Some(Sign::Or),
        _ => None,
    }
}

/// Returns the sign of one byte.
pub(crate) fn single(byte: u8) -> Option<Sign>
    ensures { result ≡ single_of byte }
{
    match byte {
        b'(' => Some(Sign::Open),
        b')' => Some(Sign::Close),
        b',' => Some(Sign::Comma),
        b'.' => Some(Sign::Dot),
        b':' => Some(Sign::Colon),
        b'+' => Some(Sign::Plus),
        b'-' => Some(Sign::Minus),
        b'*' => Some(Sign::Times),
        b'/' => Some(Sign::Divide),
        b'%' => Some(Sign::Rest),
        b'!' => Some(Sign::Not),
        b'=' => Some(Sign::Assign),
        b'<' => Some(Sign::Less),
        b'>' => Some(Sign::Greater),
        _ => None,
    }
}
