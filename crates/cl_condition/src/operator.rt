//! The operators of a condition.

ghost use Rattle.std.specs.Prelude.{◌≡◌};
ghost use Rattle.cl_condition.specs.Operators.{unary_of, binary_of, level_of, reads_unsigned, gives_unsigned};

/// An operator before its operand (C99 section 6.5.3.3).
#[derive(Clone, Copy, PartialEq, Eq, Debug)]
pub enum UnaryOperator {
    Plus,
    Minus,
    Complement,
    Not,
}

/// An operator between its operands (C99 sections 6.5.5 to 6.5.14).
#[derive(Clone, Copy, PartialEq, Eq, Debug)]
pub enum BinaryOperator {
    Multiply,
    Divide,
    Remainder,
    Add,
    Subtract,
    ShiftLeft,
    ShiftRight,
    Less,
    Greater,
    LessEqual,
    GreaterEqual,
    Equal,
    NotEqual,
    And,
    Xor,
    Or,
    LogicalAnd,
    LogicalOr,
}

impl UnaryOperator {
    /// The unary operator that a mark is.
    pub fn of_mark(mark: u8) -> Option<UnaryOperator>
        ensures { result ≡ unary_of mark }
    {
        match mark {
            0 => Some(UnaryOperator::Not),
            12 => Some(UnaryOperator::Plus),
            16 => Some(UnaryOperator::Minus),
            45 => Some(UnaryOperator::Complement),
            _ => None,
        }
    }
}

impl BinaryOperator {
    /// The binary operator that a mark is.
    pub fn of_mark(mark: u8) -> Option<BinaryOperator>
        ensures { result ≡ binary_of mark }
    {
        match mark {
            10 => Some(BinaryOperator::Multiply),
            21 => Some(BinaryOperator::Divide),
            3 => Some(BinaryOperator::Remainder),
            12 => Some(BinaryOperator::Add),
            16 => Some(BinaryOperator::Subtract),
            26 => Some(BinaryOperator::ShiftLeft),
            33 => Some(BinaryOperator::ShiftRight),
            25 => Some(BinaryOperator::Less),
            31 => Some(BinaryOperator::Greater),
            28 => Some(BinaryOperator::LessEqual),
            32 => Some(BinaryOperator::GreaterEqual),
            30 => Some(BinaryOperator::Equal),
            1 => Some(BinaryOperator::NotEqual),
            5 => Some(BinaryOperator::And),
            38 => Some(BinaryOperator::Xor),
            41 => Some(BinaryOperator::Or),
            6 => Some(BinaryOperator::LogicalAnd),
            43 => Some(BinaryOperator::LogicalOr),
            _ => None,
        }
    }

    /// The level at which it binds: a greater one binds tighter.
    pub fn level(self) -> u8
        ensures { result ≡ level_of self }
    {
        match self {
            BinaryOperator::Multiply | BinaryOperator::Divide | BinaryOperator::Remainder => 10,
            BinaryOperator::Add | BinaryOperator::Subtract => 9,
            BinaryOperator::ShiftLeft | BinaryOperator::ShiftRight => 8,
            BinaryOperator::Less
            | BinaryOperator::Greater
            | BinaryOperator::LessEqual
            | BinaryOperator::GreaterEqual => 7,
            BinaryOperator::Equal | BinaryOperator::NotEqual => 6,
            BinaryOperator::And => 5,
            BinaryOperator::Xor => 4,
            BinaryOperator::Or => 3,
            BinaryOperator::LogicalAnd => 2,
            BinaryOperator::LogicalOr => 1,
        }
    }

    /// Whether it reads its operands as unsigned, by whether each is (C99 sections 6.3.1.8 and
    /// 6.5.7).
    pub fn reads_unsigned(self, left: bool, right: bool) -> bool
        ensures { result ≡ reads_unsigned self left right }
    {
        match self {
            BinaryOperator::ShiftLeft | BinaryOperator::ShiftRight => left,
            _ => left || right,
        }
    }

    /// Whether its value is unsigned, by whether each operand is: that of a comparison, of `&&` and
    /// of `||` never is.
    pub fn gives_unsigned(self, left: bool, right: bool) -> bool
        ensures { result ≡ gives_unsigned self left right }
    {
        match self {
            BinaryOperator::Less
            | BinaryOperator::Greater
            | BinaryOperator::LessEqual
            | BinaryOperator::GreaterEqual
            | BinaryOperator::Equal
            | BinaryOperator::NotEqual
            | BinaryOperator::LogicalAnd
            | BinaryOperator::LogicalOr => false,
            _ => self.reads_unsigned(left, right),
        }
    }
}
