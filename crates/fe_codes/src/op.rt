//! The codes of operations on words, and their operands (`docs/formats.md`, "Codes").

ghost use Rattle.std.specs.Prelude.{◌≡◌};
ghost use Rattle.fe_codes.specs.Codes.{op_code, operand_of};
ghost use Rattle.fe_codes.specs.Reading.{op_of};

use fe_words::Op;

/// The code of an operation, 16 to 23.
pub fn op_code(op: Op) -> u8
    ensures { result ≡ op_code op }
{
    match op {
        Op::ReadFe => 16,
        Op::ReadFf => 17,
        Op::ReadXx => 18,
        Op::WriteEf(_) => 19,
        Op::WriteFf(_) => 20,
        Op::WriteXf(_) => 21,
        Op::Purge => 22,
        Op::IntFetchAdd(_) => 23,
    }
}

/// The operand, 0 if the operation has none.
pub fn operand_of(op: Op) -> u64
    ensures { result ≡ operand_of op }
{
    match op {
        Op::WriteEf(operand) => operand,
        Op::WriteFf(operand) => operand,
        Op::WriteXf(operand) => operand,
        Op::IntFetchAdd(operand) => operand,
        Op::ReadFe => 0,
        Op::ReadFf => 0,
        Op::ReadXx => 0,
        Op::Purge => 0,
    }
}

/// The operation with this code and operand, or `None` if there is none. The operand of an operation without
/// one must be 0.
#[tactic(auto, unfolding(crate::specs::Reading::op_of))]
pub fn op_of(code: u8, operand: u64) -> Option<Op>
    ensures { result ≡ op_of code operand }
{
    match (code, operand) {
        (16, 0) => Some(Op::ReadFe),
        (17, 0) => Some(Op::ReadFf),
        (18, 0) => Some(Op::ReadXx),
        (19, _) => Some(Op::WriteEf(operand)),
        (20, _) => Some(Op::WriteFf(operand)),
        (21, _) => Some(Op::WriteXf(operand)),
        (22, 0) => Some(Op::Purge),
        (23, _) => Some(Op::IntFetchAdd(operand)),
        _ => None,
    }
}
