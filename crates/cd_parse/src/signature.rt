//! The signature of each operation, which reader and printer follow: its name, and its operands in order.
ghost use Rattle.std.specs.Prelude.{◌≡◌};
ghost use Rattle.std.specs.Str.{bytes_eq};
ghost use Rattle.cd_parse.specs.Signatures.{op_text, name_of};

use cd_base::Range;
use cd_tree::Op;

/// The name of an operation.
#[derive(Debug, Clone, Copy, PartialEq, Eq)]
pub enum OpName {
    Fill,
    Copy,
    Add,
    Sub,
    Mul,
    Axpy,
    Scan,
    Sum,
    Dot,
    Max,
    Stencil,
    Spmv,
}

/// An operand of an operation.
#[derive(Debug, Clone, Copy, PartialEq, Eq)]
pub enum Operand {
    Range(Range),
    Number(u64),
}

impl OpName {
    /// The name as a text has it. It takes no memory.
    pub fn text(self) -> &'static str
        ensures { result.now ≡ op_text self }
    {
        match self {
            OpName::Fill => "fill",
            OpName::Copy => "copy",
            OpName::Add => "add",
            OpName::Sub => "sub",
            OpName::Mul => "mul",
            OpName::Axpy => "axpy",
            OpName::Scan => "scan",
            OpName::Sum => "sum",
            OpName::Dot => "dot",
            OpName::Max => "max",
            OpName::Stencil => "stencil",
            OpName::Spmv => "spmv",
        }
    }

    /// Whether a token is the name. It takes no memory.
    pub(crate) fn is(self, token: &[u8]) -> bool
        ensures { result ≡ bytes_eq token.now (op_text self) }
    {
        token == self.text().as_bytes()
    }

    /// The name of an operation. It takes no memory.
    pub fn of(op: &Op) -> OpName
        ensures { result ≡ name_of op.now }
    {
        match *op {
            Op::Fill(..) => OpName::Fill,
            Op::Copy(..) => OpName::Copy,
            Op::Add(..) => OpName::Add,
            Op::Sub(..) => OpName::Sub,
            Op::Mul(..) => OpName::Mul,
            Op::Axpy(..) => OpName::Axpy,
            Op::Scan(..) => OpName::Scan,
            Op::Sum(..) => OpName::Sum,
            Op::Dot(..) => OpName::Dot,
            Op::Max(..) => OpName::Max,
            Op::Stencil(..) => OpName::Stencil,
            Op::Spmv(..) => OpName::Spmv,
        }
    }
}
