//! Chunks and functions as fields.
ghost use Rattle.std.specs.Prelude.{◌≡◌, ◌++◌, ◌^◌, ℕ, List, Option, OnOk};
ghost use Rattle.grain_code.specs.Span.{Span};
ghost use Rattle.grain_format.specs.Formats.{tag_below};
ghost use Rattle.grain_format.specs.Functions.{FunctionParts, access_tag, chunk_format, function_format, function_parts};

use crate::cursor::Cursor;
use crate::error::{Stop, WriteError};
use crate::field::FileField;
use grain_base::FnAccess;
use grain_code::{Chunk, Function};

impl FileField for FnAccess {
    ghost View = { ℕ };

    ghost view = { access_tag };

    ghost format = { tag_below 2 };

    fn read(cursor: &mut Cursor<'_>) -> Result<FnAccess, Stop> {
        let tag = cursor.tag(2)?;
        if tag == 0 {
            Ok(FnAccess::Public)
        } else {
            Ok(FnAccess::Private)
        }
    }

    fn write(&self, out: &mut Vec<u8>) -> Result<(), WriteError> {
        match self {
            FnAccess::Public => out.push(0)?,
            FnAccess::Private => out.push(1)?,
        }
        Ok(())
    }
}

impl FileField for Chunk {
    ghost View = { Span };

    ghost view = { λ s. s };

    ghost format = { chunk_format };

    fn read(cursor: &mut Cursor<'_>) -> Result<Chunk, Stop> {
        let entry = u32::read(cursor)?;
        let end = u32::read(cursor)?;
        let max_stack = u16::read(cursor)?;
        Ok(Chunk::new(entry, end, max_stack))
    }

    fn write(&self, out: &mut Vec<u8>) -> Result<(), WriteError> {
        self.entry().write(out)?;
        self.end().write(out)?;
        self.max_stack().write(out)?;
        Ok(())
    }
}

impl FileField for Function {
    ghost View = { FunctionParts };

    ghost view = { function_parts };

    ghost format = { function_format };

    fn read(cursor: &mut Cursor<'_>) -> Result<Function, Stop> {
        let name = u32::read(cursor)?;
        let params = Vec::<u32>::read(cursor)?;
        let access = FnAccess::read(cursor)?;
        let this_type = Option::<u32>::read(cursor)?;
        let chunk = Chunk::read(cursor)?;
        Ok(Function {
            name,
            params,
            access,
            this_type,
            chunk,
        })
    }

    fn write(&self, out: &mut Vec<u8>) -> Result<(), WriteError> {
        self.name.write(out)?;
        self.params.write(out)?;
        self.access.write(out)?;
        self.this_type.write(out)?;
        self.chunk.write(out)?;
        Ok(())
    }
}
