//! Instructions with their targets.

ghost use Rattle.std.specs.Prelude.{◌≡◌, ◌^◌};
ghost use Rattle.bpf_text.specs.Assembly.{distance_to, targeted};

use bpf_insn::Insn;

/// The distance to a word from the next instruction, if 16 bits hold it.
fn near(next: usize, to: usize) -> Option<i16>
    ensures { result ≡ distance_to (2 ^ 15) next to }
{
    if to >= next {
        let size = to - next;
        (size < 0x8000).then(|| size as i16)
    } else {
        let size = next - to;
        (size <= 0x8000).then(|| (-(size as i64)) as i16)
    }
}

/// The distance to a word from the next instruction, if 32 bits hold it.
fn far(next: usize, to: usize) -> Option<i32>
    ensures { result ≡ distance_to (2 ^ 31) next to }
{
    if to >= next {
        let size = to - next;
        (size < 0x8000_0000).then(|| size as i32)
    } else {
        let size = next - to;
        (size <= 0x8000_0000).then(|| (-(size as i64)) as i32)
    }
}

/// The instruction with its target at this word, if its distance fits.
#[tactic(auto, unfolding(crate::specs::Assembly::targeted))]
pub fn targeted(insn: Insn, next: usize, to: usize) -> Option<Insn>
    ensures { result ≡ targeted insn next to }
{
    match insn {
        Insn::Jump { .. } => {
            let offset = near(next, to)?;
            Some(Insn::Jump { offset })
        }
        Insn::JumpLong { .. } => {
            let offset = far(next, to)?;
            Some(Insn::JumpLong { offset })
        }
        Insn::JumpIf {
            width,
            condition,
            dst,
            src,
            ..
        } => {
            let offset = near(next, to)?;
            Some(Insn::JumpIf {
                width,
                condition,
                dst,
                src,
                offset,
            })
        }
        Insn::CallLocal { .. } => {
            let offset = far(next, to)?;
            Some(Insn::CallLocal { offset })
        }
        _ => Some(insn),
    }
}
