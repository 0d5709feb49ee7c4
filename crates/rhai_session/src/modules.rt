//! Modules of a host: a table of their names and texts.

use crate::stops::CompileStop;
use rhai_compile::Modules;
use std::alloc::{AllocError, Global};
use std::collections::BTreeMap;
use std::fmt::Write;
use std::str;

/// A module that scripts may import.
#[repr(C)]
#[derive(Clone, Copy)]
pub struct CModuleText<'a> {
    /// Its name, as `import` has it, in UTF-8.
    pub name: &'a [u8],
    /// Its text, in UTF-8.
    pub source: &'a [u8],
}

/// The texts of a host's modules by their names. It is ordered, so that no choice of names makes it slow.
#[derive(Drop)]
pub(crate) struct ModuleTable<'a> {
    alloc: Global,
    sources: BTreeMap<&'a str, &'a str>,
}

impl<'a> ModuleTable<'a> {
    /// The table of these modules.
    ///
    /// # Errors
    /// A name or a text isn't UTF-8, or two modules have the same name.
    pub(crate) fn new(
        alloc: Global,
        modules: &'a [CModuleText<'a>],
    ) -> Result<ModuleTable<'a>, CompileStop> {
        let mut sources = BTreeMap::new(alloc);
        for (index, module) in modules.iter().enumerate() {
            let Ok(name) = str::from_utf8(module.name) else {
                return Err(CompileStop::NoScript(format!(in alloc;
                    "module {index}: error: the name is not UTF-8\n"
                )?));
            };
            let source = read_text(alloc, name, module.source)?;
            if sources.insert(name, source)?.is_some() {
                return Err(stop_at(alloc, name, "two modules have this name")?);
            }
        }
        Ok(ModuleTable { alloc, sources })
    }
}

impl<'a> Modules for ModuleTable<'a> {
    fn source(&mut self, name: &str) -> Result<Option<String>, AllocError> {
        match self.sources.get(name) {
            Some(source) => Ok(Some(String::from_str(self.alloc, source)?)),
            None => Ok(None),
        }
    }
}

/// The text that bytes are.
///
/// # Errors
/// They aren't UTF-8. The report calls them by this name.
pub(crate) fn read_text<'a>(
    alloc: Global,
    name: &str,
    bytes: &'a [u8],
) -> Result<&'a str, CompileStop> {
    match str::from_utf8(bytes) {
        Ok(text) => Ok(text),
        Err(_) => Err(stop_at(alloc, name, "the text is not UTF-8")?),
    }
}

/// What is wrong with a text of this name as a whole.
fn stop_at(alloc: Global, name: &str, what: &str) -> Result<CompileStop, AllocError> {
    let name = shown_name(alloc, name)?;
    Ok(CompileStop::NoScript(format!(in alloc; "{name}: error: {what}\n")?))
}

/// The name of a module as reports show it: a control character is escaped, so that no name begins a line of its own.
///
/// # Errors
/// The allocator refused.
pub(crate) fn shown_name(alloc: Global, name: &str) -> Result<String, AllocError> {
    let mut shown = String::new(alloc);
    for c in name.chars() {
        if c.is_control() {
            let code = u32::from(c);
            write!(shown, "\\u{{{code:x}}}")?;
        } else {
            shown.push(c)?;
        }
    }
    Ok(shown)
}
