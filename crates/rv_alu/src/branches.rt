//! The comparisons of the conditional branches.

ghost use Rattle.std.specs.Prelude.{◌≡◌};
ghost use Rattle.flat_model.specs.Arithmetic.{branch_taken};

use flat_model::BranchOp;

/// Whether the branch is taken, for rs1 `a` and rs2 `b` (section 2.5).
#[inline(always)]
pub fn branch_taken(op: BranchOp, a: u64, b: u64) -> bool
    ensures taken { result ≡ branch_taken op a b }
{
    match op {
        BranchOp::Beq => a == b,
        BranchOp::Bne => a != b,
        BranchOp::Blt => a.cast_signed() < b.cast_signed(),
        BranchOp::Bge => a.cast_signed() >= b.cast_signed(),
        BranchOp::Bltu => a < b,
        BranchOp::Bgeu => a >= b,
    }
}
