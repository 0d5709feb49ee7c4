//! The texts of functions.
ghost use Rattle.std.specs.Prelude.{OnOk, IfErr};
ghost use Rattle.std.specs.Option.{option_to_list};
ghost use Rattle.grain_pools.specs.LookedUp.{FindsAll, NamesMissing, LooksUp, names_sought};
ghost use Rattle.grain_code.specs.OperationTexts.{function_sought};

use crate::function::Function;
use grain_pools::Lookups;
use grain_pools::text::{DisassembleError, find_name};
use std::alloc::Global;

impl Function {
    /// The text of the function: the type of its receiver and a `!`, if it is declared for one; its name and the names
    /// of its parameters (docs/FORMAT.md, "Texts"). It takes time by its length.
    ///
    /// # Errors
    ///
    /// [`DisassembleError::Missing`] for the first name that isn't there, in the order of the text;
    /// [`DisassembleError::OutOfMemory`] if an allocation failed.
    pub fn disassemble<L: Lookups>(
        &self,
        alloc: Global,
        lookups: &L,
    ) -> Result<String, DisassembleError>
        ensures ok { OnOk result (FindsAll (L.pools lookups.now) (function_sought self.now)) }
        ensures missing { IfErr result
            (NamesMissing (L.pools lookups.now) (function_sought self.now)) }
    {
        let mut out = String::new(alloc);
        write_receiver(&mut out, lookups, self.this_type)?;
        let name = find_name(lookups, self.name)?;
        write!(out, "{name}(")?;
        write_names(&mut out, lookups, &self.params)?;
        out.push(')')?;
        Ok(out)
    }
}

/// Writes the type of the receiver of a function that is declared for one.
fn write_receiver<L: Lookups>(
    out: &mut String,
    lookups: &L,
    this_type: Option<u32>,
) -> Result<(), DisassembleError>
    ensures { LooksUp (L.pools lookups.now) (names_sought (option_to_list this_type)) result }
{
    if let Some(index) = this_type {
        let name = find_name(lookups, index)?;
        write!(out, "{name}!")?;
        return Ok(());
    }
    Ok(())
}

/// Writes names with commas between them.
fn write_names<L: Lookups>(
    out: &mut String,
    lookups: &L,
    indices: &[u32],
) -> Result<(), DisassembleError>
    ensures { LooksUp (L.pools lookups.now) (names_sought indices.now) result }
{
    for (i, index) in indices.iter().enumerate() {
        if i > 0 {
            out.push_str(", ")?;
        }
        let name = find_name(lookups, *index)?;
        out.push_str(name)?;
    }
    Ok(())
}
