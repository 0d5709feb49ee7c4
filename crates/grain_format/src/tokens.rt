//! Operators and op-assignments as fields.
ghost use Rattle.grain_base.specs.Tokens.{TokenParts, token_parts};
ghost use Rattle.grain_format.specs.Tokens.{AssignOpParts, assign_op_format, assign_op_parts, token_format};

use crate::cursor::Cursor;
use crate::error::{FieldFault, Stop, WriteError};
use crate::field::FileField;
use crate::number::put_string;
use grain_base::Token;
use grain_pools::AssignOp;

/// The tag of an operator that the host has added, which its text follows. Any other has its number as its tag.
const CUSTOM: u8 = 39;

impl FileField for Token {
    ghost View = { TokenParts };

    ghost view = { token_parts };

    ghost format = { token_format };

    fn read(cursor: &mut Cursor<'_>) -> Result<Token, Stop> {
        match cursor.left {
            [] => Err(Stop::FieldFault(FieldFault::Truncated)),
            [CUSTOM, rest @ ..] => {
                cursor.left = rest;
                let text = cursor.text()?;
                Ok(Token::Custom(String::from_str(cursor.alloc, text)?))
            }
            [_, ..] => {
                let tag = cursor.tag(CUSTOM)?;
                match Token::of_number(tag) {
                    Some(token) => Ok(token),
                    None => unreachable!(),
                }
            }
        }
    }

    fn write(&self, out: &mut Vec<u8>) -> Result<(), WriteError> {
        match self.number() {
            Ok(tag) => {
                out.push(tag)?;
                Ok(())
            }
            Err(text) => {
                out.push(CUSTOM)?;
                put_string(out, text)?;
                Ok(())
            }
        }
    }
}

impl FileField for AssignOp {
    ghost View = { AssignOpParts };

    ghost view = { assign_op_parts };

    ghost format = { assign_op_format };

    fn read(cursor: &mut Cursor<'_>) -> Result<AssignOp, Stop> {
        let op_assign = Token::read(cursor)?;
        let op_assign_name = u32::read(cursor)?;
        let op = Token::read(cursor)?;
        let op_name = u32::read(cursor)?;
        Ok(AssignOp {
            op_assign,
            op_assign_name,
            op,
            op_name,
        })
    }

    fn write(&self, out: &mut Vec<u8>) -> Result<(), WriteError> {
        self.op_assign.write(out)?;
        self.op_assign_name.write(out)?;
        self.op.write(out)?;
        self.op_name.write(out)?;
        Ok(())
    }
}
