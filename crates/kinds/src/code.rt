// The token of each operator, and of each word that is a value.

ghost use Rattle.std.specs.Prelude.{◌≡◌};
ghost use Rattle.kinds.specs.Codes.{binary_code, constant_code, unary_code, update_code};

use crate::form::Constant;
use crate::operator::{BinaryOperator, UnaryOperator, UpdateOperator};
use token::{Code, Operator, Word};

impl From<Constant> for Code {
    ghost from_gives = { λ constant code. code ≡ constant_code constant };

    fn from(constant: Constant) -> Code {
        match constant {
            Constant::Null => Code::Word(Word::Null),
            Constant::True => Code::Word(Word::True),
            Constant::False => Code::Word(Word::False),
        }
    }
}

impl From<UnaryOperator> for Code {
    ghost from_gives = { λ operator code. code ≡ unary_code operator };

    fn from(operator: UnaryOperator) -> Code {
        match operator {
            UnaryOperator::Minus => Code::Operator(Operator::Minus),
            UnaryOperator::Plus => Code::Operator(Operator::Plus),
            UnaryOperator::Not => Code::Operator(Operator::Not),
            UnaryOperator::BitNot => Code::Operator(Operator::BitNot),
            UnaryOperator::Typeof => Code::Word(Word::Typeof),
            UnaryOperator::Void => Code::Word(Word::Void),
            UnaryOperator::Delete => Code::Word(Word::Delete),
        }
    }
}

impl From<UpdateOperator> for Code {
    ghost from_gives = { λ operator code. code ≡ update_code operator };

    fn from(operator: UpdateOperator) -> Code {
        match operator {
            UpdateOperator::Increment => Code::Operator(Operator::Increment),
            UpdateOperator::Decrement => Code::Operator(Operator::Decrement),
        }
    }
}

impl From<BinaryOperator> for Code {
    ghost from_gives = { λ operator code. code ≡ binary_code operator };

    fn from(operator: BinaryOperator) -> Code {
        match operator {
            BinaryOperator::Coalesce => Code::Operator(Operator::Coalesce),
            BinaryOperator::Or => Code::Operator(Operator::Or),
            BinaryOperator::And => Code::Operator(Operator::And),
            BinaryOperator::BitOr => Code::Operator(Operator::BitOr),
            BinaryOperator::BitXor => Code::Operator(Operator::BitXor),
            BinaryOperator::BitAnd => Code::Operator(Operator::BitAnd),
            BinaryOperator::Equal => Code::Operator(Operator::Equal),
            BinaryOperator::NotEqual => Code::Operator(Operator::NotEqual),
            BinaryOperator::StrictEqual => Code::Operator(Operator::StrictEqual),
            BinaryOperator::StrictNotEqual => Code::Operator(Operator::StrictNotEqual),
            BinaryOperator::Less => Code::Operator(Operator::Less),
            BinaryOperator::LessOrEqual => Code::Operator(Operator::LessOrEqual),
            BinaryOperator::Greater => Code::Operator(Operator::Greater),
            BinaryOperator::GreaterOrEqual => Code::Operator(Operator::GreaterOrEqual),
            BinaryOperator::In => Code::Word(Word::In),
            BinaryOperator::Instanceof => Code::Word(Word::Instanceof),
            BinaryOperator::LeftShift => Code::Operator(Operator::LeftShift),
            BinaryOperator::RightShift => Code::Operator(Operator::RightShift),
            BinaryOperator::UnsignedRightShift => Code::Operator(Operator::UnsignedRightShift),
            BinaryOperator::Add => Code::Operator(Operator::Plus),
            BinaryOperator::Subtract => Code::Operator(Operator::Minus),
            BinaryOperator::Multiply => Code::Operator(Operator::Multiply),
            BinaryOperator::Divide => Code::Operator(Operator::Divide),
            BinaryOperator::Remainder => Code::Operator(Operator::Remainder),
            BinaryOperator::Exponent => Code::Operator(Operator::Exponent),
        }
    }
}
