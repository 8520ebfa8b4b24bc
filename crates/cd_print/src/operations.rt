//! The line of an operation: its name and its operands, as its signature has them.
ghost use Rattle.std.specs.Prelude.{◌≡◌, ◌++◌, ◌∷◌, map, OnOk, string_bytes};
ghost use Rattle.cd_parse.specs.Signatures.{operands};
ghost use Rattle.cd_print.specs.Canonical.{line_end, range_token, operand_token, op_statement};

use crate::lines::Stated;
use crate::printer::Printer;
use cd_parse::Operand::{Number, Range};
use cd_parse::{OpName, Operand};
use cd_tree::Op;
use std::alloc::AllocError;
use std::fmt::Write;

impl Stated for Op {
    ghost statement = { λ document op. op_statement document.regions op };

    fn add_line(&self, printer: &Printer, text: &mut String) -> Result<(), AllocError> {
        text.push_str(OpName::of(self).text())?;
        printer.add_operands(self, text)
    }
}

impl Printer<'_> {
    // Appends what follows the name of an operation on its line.
    fn add_operands(&self, op: &Op, text: &mut String) -> Result<(), AllocError>
        ensures { OnOk result (string_bytes text.new ≡ string_bytes text.old ++ line_end (map (operand_token self.now.document.now.regions) (operands op.now))) }
    {
        match *op {
            Op::Fill(d, k) => self.add_each(&[Range(d), Number(k)], text),
            Op::Axpy(d, k, x) => self.add_each(&[Range(d), Number(k), Range(x)], text),
            Op::Copy(d, x) | Op::Scan(d, x) | Op::Sum(d, x) | Op::Max(d, x) => {
                self.add_each(&[Range(d), Range(x)], text)
            }
            Op::Add(d, x, z) | Op::Sub(d, x, z) | Op::Mul(d, x, z) | Op::Dot(d, x, z) => {
                self.add_each(&[Range(d), Range(x), Range(z)], text)
            }
            Op::Stencil(d, a, b, c, x) => {
                let operands = [Range(d), Number(a), Number(b), Number(c), Range(x)];
                self.add_each(&operands, text)
            }
            Op::Spmv(d, s, c, v, x) => {
                let operands = [Range(d), Range(s), Range(c), Range(v), Range(x)];
                self.add_each(&operands, text)
            }
        }
    }

    // Appends operands, each after a space, and the end of the line.
    fn add_each(&self, operands: &[Operand], text: &mut String) -> Result<(), AllocError>
        ensures { OnOk result (string_bytes text.new ≡ string_bytes text.old ++ line_end (map (operand_token self.now.document.now.regions) operands.now)) }
    {
        for operand in operands {
            self.add_operand(*operand, text)?;
        }
        text.push_str("\n")
    }

    fn add_operand(&self, operand: Operand, text: &mut String) -> Result<(), AllocError>
        ensures { OnOk result (string_bytes text.new ≡ string_bytes text.old ++ 32 ∷ operand_token self.now.document.now.regions operand) }
    {
        match operand {
            Range(range) => self.add_range_operand(range, text),
            Number(number) => write!(text, " {number}"),
        }
    }

    fn add_range_operand(&self, range: cd_base::Range, text: &mut String) -> Result<(), AllocError>
        ensures { OnOk result (string_bytes text.new ≡ string_bytes text.old ++ 32 ∷ range_token self.now.document.now.regions range) }
    {
        text.push_str(" ")?;
        self.add_range(range, text)
    }
}
