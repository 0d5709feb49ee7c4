//! Chains as fields, with the places that their positions name.
ghost use Rattle.std.specs.Prelude.{◌≡◌, ◌++◌, ℕ, Option, OnOk};
ghost use Rattle.grain_format.specs.Chains.{ChainParts, RootParts, StepParts, chain_format, chain_parts, root_format, root_parts, step_format, step_parts, tail_format, tail_parts};

use crate::cursor::Cursor;
use crate::error::{FieldFault, Stop, WriteError};
use crate::field::FileField;
use grain_base::{Flags, Position};
use grain_pools::{Chain, Root, Step, StepFlags, Tail};

impl FileField for Root {
    ghost View = { RootParts };

    ghost view = { root_parts };

    ghost format = { root_format };

    fn read(cursor: &mut Cursor<'_>) -> Result<Root, Stop> {
        match cursor.left {
            [] => Err(Stop::FieldFault(FieldFault::Truncated)),
            [0, rest @ ..] => {
                cursor.left = rest;
                let slot = u16::read(cursor)?;
                let name = u32::read(cursor)?;
                Ok(Root::Local { slot, name })
            }
            [1, rest @ ..] => {
                cursor.left = rest;
                let name = u32::read(cursor)?;
                let pos = Position::read(cursor)?;
                Ok(Root::Named { name, pos })
            }
            [2, rest @ ..] => {
                cursor.left = rest;
                let pos = Position::read(cursor)?;
                Ok(Root::This { pos })
            }
            [3, rest @ ..] => {
                cursor.left = rest;
                Ok(Root::Temporary)
            }
            [_, ..] => Err(Stop::FieldFault(FieldFault::UnknownTag)),
        }
    }

    fn write(&self, out: &mut Vec<u8>) -> Result<(), WriteError> {
        match self {
            Root::Local { slot, name } => {
                out.push(0)?;
                slot.write(out)?;
                name.write(out)?;
                Ok(())
            }
            Root::Named { name, pos } => {
                out.push(1)?;
                name.write(out)?;
                pos.write(out)?;
                Ok(())
            }
            Root::This { pos } => {
                out.push(2)?;
                pos.write(out)?;
                Ok(())
            }
            Root::Temporary => {
                out.push(3)?;
                Ok(())
            }
        }
    }
}

impl FileField for Step {
    ghost View = { StepParts };

    ghost view = { step_parts };

    ghost format = { step_format };

    fn read(cursor: &mut Cursor<'_>) -> Result<Step, Stop> {
        match cursor.left {
            [] => Err(Stop::FieldFault(FieldFault::Truncated)),
            [0, rest @ ..] => {
                cursor.left = rest;
                let operand = u16::read(cursor)?;
                let flags = StepFlags::from_bits_retain(cursor.byte()?);
                let pos = Position::read(cursor)?;
                let bracket = Position::read(cursor)?;
                Ok(Step::Index {
                    operand,
                    flags,
                    pos,
                    bracket,
                })
            }
            [1, rest @ ..] => {
                cursor.left = rest;
                let name = u32::read(cursor)?;
                let getter = u32::read(cursor)?;
                let setter = u32::read(cursor)?;
                let flags = StepFlags::from_bits_retain(cursor.byte()?);
                let pos = Position::read(cursor)?;
                Ok(Step::Property {
                    name,
                    getter,
                    setter,
                    flags,
                    pos,
                })
            }
            [2, rest @ ..] => {
                cursor.left = rest;
                let name = u32::read(cursor)?;
                let argc = cursor.byte()?;
                let operand = u16::read(cursor)?;
                let flags = StepFlags::from_bits_retain(cursor.byte()?);
                let pos = Position::read(cursor)?;
                Ok(Step::Method {
                    name,
                    argc,
                    operand,
                    flags,
                    pos,
                })
            }
            [_, ..] => Err(Stop::FieldFault(FieldFault::UnknownTag)),
        }
    }

    fn write(&self, out: &mut Vec<u8>) -> Result<(), WriteError> {
        match self {
            Step::Index {
                operand,
                flags,
                pos,
                bracket,
            } => {
                out.push(0)?;
                operand.write(out)?;
                out.push(flags.bits())?;
                pos.write(out)?;
                bracket.write(out)?;
                Ok(())
            }
            Step::Property {
                name,
                getter,
                setter,
                flags,
                pos,
            } => {
                out.push(1)?;
                name.write(out)?;
                getter.write(out)?;
                setter.write(out)?;
                out.push(flags.bits())?;
                pos.write(out)?;
                Ok(())
            }
            Step::Method {
                name,
                argc,
                operand,
                flags,
                pos,
            } => {
                out.push(2)?;
                name.write(out)?;
                out.push(*argc)?;
                operand.write(out)?;
                out.push(flags.bits())?;
                pos.write(out)?;
                Ok(())
            }
        }
    }
}

impl FileField for Tail {
    ghost View = { Option (Option ℕ) };

    ghost view = { tail_parts };

    ghost format = { tail_format };

    fn read(cursor: &mut Cursor<'_>) -> Result<Tail, Stop> {
        match cursor.left {
            [] => Err(Stop::FieldFault(FieldFault::Truncated)),
            [0, rest @ ..] => {
                cursor.left = rest;
                Ok(Tail::Read)
            }
            [1, rest @ ..] => {
                cursor.left = rest;
                let op = Option::<u32>::read(cursor)?;
                Ok(Tail::Assign { op })
            }
            [_, ..] => Err(Stop::FieldFault(FieldFault::UnknownTag)),
        }
    }

    fn write(&self, out: &mut Vec<u8>) -> Result<(), WriteError> {
        match self {
            Tail::Read => {
                out.push(0)?;
                Ok(())
            }
            Tail::Assign { op } => {
                out.push(1)?;
                op.write(out)?;
                Ok(())
            }
        }
    }
}

impl FileField for Chain {
    ghost View = { ChainParts };

    ghost view = { chain_parts };

    ghost format = { chain_format };

    fn read(cursor: &mut Cursor<'_>) -> Result<Chain, Stop> {
        let root = Root::read(cursor)?;
        let steps = Vec::<Step>::read(cursor)?;
        let tail = Tail::read(cursor)?;
        let operands = u16::read(cursor)?;
        Ok(Chain {
            root,
            steps,
            tail,
            operands,
        })
    }

    fn write(&self, out: &mut Vec<u8>) -> Result<(), WriteError> {
        self.root.write(out)?;
        self.steps.write(out)?;
        self.tail.write(out)?;
        self.operands.write(out)?;
        Ok(())
    }
}
