//! Drawing charts: a guess, of which nothing is promised; `is_chart` tests it.

ghost use Rattle.std.specs.Prelude.{◌≡◌, true};
ghost use Rattle.bpf_threads.specs.Chart.{goes_straight};

use crate::after::{Known, after};
use crate::following::{agrees, decision, target};
use crate::spot::Spot;
use bpf_insn::{AluOp, Insn, Width};
use bpf_loader::Program;
use bpf_mem::addresses::{CONTEXT_BASE, FRAME_STRIDE, STACK_BASE};
use bpf_mem::frames::MAX_FRAMES;
use std::alloc::{AllocError, Global};

/// A chart has n spots at most, and n at one pc.
const MOST_SPOTS: usize = 20_000;

const MOST_AT_ONE: usize = 1_000;

/// Which numbers are kept.
#[derive(Clone, Copy, PartialEq, Eq)]
pub(crate) enum Care {
    /// All.
    All,
    /// Those that moves put in registers, and addresses near the stack.
    Addresses,
    /// What moves put in registers, and addresses near the stack, but nothing where a jump leads or
    /// may be passed.
    Blocks,
}

/// Spots so far, and of each the one before it at the same pc.
#[derive(Drop)]
struct Drawing {
    spots: Vec<Spot>,
    before: Vec<Option<usize>>,
    newest: Vec<Option<usize>>,
    care: Care,
}

/// Where a spot is to be.
struct Aim<'a> {
    pc: i64,
    callers: &'a [u32],
    known: Known,
}

/// A list of these numbers.
fn copy_of(alloc: Global, numbers: &[u32]) -> Result<Vec<u32>, AllocError> {
    let mut copy = Vec::new(alloc);
    for number in numbers {
        copy.push(*number)?;
    }
    Ok(copy)
}

/// What is known as runs begin.
fn first_known() -> Known {
    let mut known = [Some(0); 11];
    known[1] = Some(CONTEXT_BASE);
    known[10] = None;
    known
}

/// Whether a number is an address near the stack.
fn is_near_stack(number: u64) -> bool {
    let room = FRAME_STRIDE * (MAX_FRAMES as u64 + 1);
    STACK_BASE - room <= number && number < STACK_BASE + room
}

/// Whether the number that an instruction puts in its register is kept.
fn is_kept(care: Care, insn: Insn, number: u64) -> bool {
    match insn {
        Insn::Alu {
            width: Width::Bits64,
            op: AluOp::Add,
            ..
        } => care == Care::All || is_near_stack(number),
        Insn::Alu { op: AluOp::Mov, .. } => true,
        Insn::Alu { .. } => care == Care::All,
        _ => true,
    }
}

/// What is known after an instruction, so far as it is kept.
fn kept_after(care: Care, spot: &Spot, insn: Insn) -> Known
    requires { goes_straight insn ≡ true }
{
    let mut known = after(spot, insn);
    if let Insn::Alu { dst, .. } = insn {
        let place = dst.number() as usize;
        if let Some(number) = known[place]
            && !is_kept(care, insn, number)
        {
            known[place] = None;
        }
    }
    known
}

impl Drawing {
    /// The newest spot at a pc.
    fn newest_at(&self, pc: usize) -> Option<usize> {
        match self.newest.get(pc) {
            Some(place) => *place,
            None => None,
        }
    }

    /// Whether the spot of a number has these callers and this knowledge.
    fn is_at(&self, place: usize, callers: &[u32], known: &Known) -> bool {
        match self.spots.get(place) {
            Some(spot) => {
                spot.callers.as_slice() == callers
                    && agrees(&spot.known, known)
                    && agrees(known, &spot.known)
            }
            None => false,
        }
    }

    /// The number of the spot there, if there is one; or whether there are too many at that pc.
    fn find(&self, pc: usize, callers: &[u32], known: &Known) -> Result<Option<usize>, ()> {
        let mut next = self.newest_at(pc);
        for _tried in 0..MOST_AT_ONE {
            let Some(place) = next else {
                return Ok(None);
            };
            if self.is_at(place, callers, known) {
                return Ok(Some(place));
            }
            next = match self.before.get(place) {
                Some(before) => *before,
                None => None,
            };
        }
        Err(())
    }

    /// The number of a spot there, which is put down if there is none; `None` where that can't be.
    fn spot_at(&mut self, alloc: Global, aim: Aim) -> Result<Option<usize>, AllocError> {
        let Aim { pc, callers, known } = aim;
        if pc < 0 || pc >= self.newest.len() as i64 {
            return Ok(None);
        }
        let pc = pc as usize;
        let Ok(number) = u32::try_from(pc) else {
            return Ok(None);
        };
        let Ok(found) = self.find(pc, callers, &known) else {
            return Ok(None);
        };
        if found.is_some() {
            return Ok(found);
        }
        let place = self.spots.len();
        let callers = copy_of(alloc, callers)?;
        let newest = self.newest_at(pc);
        self.before.push(newest)?;
        self.spots.push(Spot {
            pc: number,
            known,
            callers,
            next: None,
            jump: None,
        })?;
        if let Some(newest) = self.newest.get_mut(pc) {
            *newest = Some(place);
        }
        Ok(Some(place))
    }
}

/// The numbers of the spots after one.
#[derive(Clone, Copy)]
struct Ways {
    next: Option<usize>,
    jump: Option<usize>,
}

/// What is kept where a jump leads or is passed.
fn kept_at_jumps(care: Care, known: Known) -> Known {
    if care == Care::Blocks {
        [None; 11]
    } else {
        known
    }
}

/// A copy of a spot that leads nowhere yet.
fn copy_spot(alloc: Global, spot: &Spot) -> Result<Spot, AllocError> {
    Ok(Spot {
        pc: spot.pc,
        known: spot.known,
        callers: copy_of(alloc, &spot.callers)?,
        next: None,
        jump: None,
    })
}

impl Drawing {
    /// The spot to which a jump leads.
    fn jump(&mut self, alloc: Global, spot: &Spot, by: i32) -> Result<Option<usize>, AllocError> {
        let aim = Aim {
            pc: target(spot.pc, by),
            callers: &spot.callers,
            known: kept_at_jumps(self.care, spot.known),
        };
        self.spot_at(alloc, aim)
    }

    /// The spot of the next instruction, where a jump isn't taken.
    fn pass(&mut self, alloc: Global, spot: &Spot) -> Result<Option<usize>, AllocError> {
        let aim = Aim {
            pc: i64::from(spot.pc) + 1,
            callers: &spot.callers,
            known: kept_at_jumps(self.care, spot.known),
        };
        self.spot_at(alloc, aim)
    }

    /// The spot to which a local call leads.
    fn enter(&mut self, alloc: Global, spot: &Spot, by: i32) -> Result<Option<usize>, AllocError> {
        if spot.callers.len() + 1 >= MAX_FRAMES {
            return Ok(None);
        }
        let mut callers = copy_of(alloc, &spot.callers)?;
        callers.push(spot.pc.saturating_add(1))?;
        let aim = Aim {
            pc: target(spot.pc, by),
            callers: &callers,
            known: kept_at_jumps(self.care, spot.known),
        };
        self.spot_at(alloc, aim)
    }

    /// The spot at which the caller goes on.
    fn leave(&mut self, alloc: Global, spot: &Spot) -> Result<Option<usize>, AllocError> {
        let Some((back, others)) = spot.callers.split_last() else {
            return Ok(None);
        };
        let aim = Aim {
            pc: i64::from(*back),
            callers: others,
            known: [None; 11],
        };
        self.spot_at(alloc, aim)
    }

    /// The spot of the next instruction, after one that goes on to it.
    fn go_on(&mut self, alloc: Global, spot: &Spot, insn: Insn) -> Result<Option<usize>, AllocError>
        requires { goes_straight insn ≡ true }
    {
        let aim = Aim {
            pc: i64::from(spot.pc) + i64::from(insn.words()),
            callers: &spot.callers,
            known: kept_after(self.care, spot, insn),
        };
        self.spot_at(alloc, aim)
    }

    /// The spots after a conditional jump.
    fn branch(
        &mut self,
        alloc: Global,
        spot: &Spot,
        by: i32,
        decided: Option<bool>,
    ) -> Result<Ways, AllocError> {
        let jump = match decided {
            Some(false) => None,
            _ => self.jump(alloc, spot, by)?,
        };
        let next = match decided {
            Some(true) => None,
            _ => self.pass(alloc, spot)?,
        };
        Ok(Ways { next, jump })
    }

    /// The spots after one where this instruction is.
    fn ways(&mut self, alloc: Global, spot: &Spot, insn: Insn) -> Result<Ways, AllocError> {
        match insn {
            Insn::Exit => Ok(Ways {
                next: self.leave(alloc, spot)?,
                jump: None,
            }),
            Insn::CallLocal { offset } => Ok(Ways {
                next: None,
                jump: self.enter(alloc, spot, offset)?,
            }),
            Insn::Jump { offset } => Ok(Ways {
                next: None,
                jump: self.jump(alloc, spot, i32::from(offset))?,
            }),
            Insn::JumpLong { offset } => Ok(Ways {
                next: None,
                jump: self.jump(alloc, spot, offset)?,
            }),
            Insn::JumpIf {
                width,
                condition,
                dst,
                src,
                offset,
            } => {
                let decided = decision(spot, width, condition, dst, src);
                self.branch(alloc, spot, i32::from(offset), decided)
            }
            _ => Ok(Ways {
                next: self.go_on(alloc, spot, insn)?,
                jump: None,
            }),
        }
    }

    /// Puts down the spots after the one of a number.
    fn expand(&mut self, alloc: Global, program: &Program, place: usize) -> Result<(), AllocError> {
        let spot = match self.spots.get(place) {
            Some(spot) => copy_spot(alloc, spot)?,
            None => return Ok(()),
        };
        if !program.is_start(spot.pc) {
            return Ok(());
        }
        let insn = *program.instruction_at(spot.pc);
        let ways = self.ways(alloc, &spot, insn)?;
        if let Some(spot) = self.spots.get_mut(place) {
            spot.next = ways.next;
            spot.jump = ways.jump;
        }
        Ok(())
    }
}

/// A guess at a chart; `None` if it has too many spots.
pub(crate) fn draw(
    alloc: Global,
    program: &Program,
    care: Care,
) -> Result<Option<Vec<Spot>>, AllocError> {
    let mut drawing = Drawing {
        spots: Vec::new(alloc),
        before: Vec::new(alloc),
        newest: vec![in alloc; None; program.ops().len()]?,
        care,
    };
    let first = Aim {
        pc: 0,
        callers: &[],
        known: first_known(),
    };
    drawing.spot_at(alloc, first)?;
    for place in 0..MOST_SPOTS {
        if place >= drawing.spots.len() {
            return Ok(Some(drawing.spots));
        }
        drawing.expand(alloc, program, place)?;
    }
    Ok(None)
}
